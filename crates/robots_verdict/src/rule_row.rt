//! A row of a policy: a rule line, whose pattern is among the octets of all patterns.
//! Used by `Rows`.

use crate::three_octets::ThreeOctets;
use robots_text::RuleKind;

/// A rule line in 13 octets: the location of its pattern in normal form, its line, its group and its kind.
#[derive(Drop)]
pub(crate) struct RuleRow {
    pub start: ThreeOctets,
    pub len: ThreeOctets,
    pub line: ThreeOctets,
    pub group: ThreeOctets,
    pub kind: RuleKind,
}
