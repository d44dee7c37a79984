//! The rule lines of a robots text that govern a token.
//! RFC 9309, section 2.2.1.
ghost use Rattle.std.specs.Prelude.{◌≡◌};
ghost use Rattle.robots_text.specs.Groups.{is_named, names_everybody, names_token, speaks_to};
ghost use Rattle.robots_text.specs.Left.{records_left};
ghost use Rattle.robots_text.specs.Records.{Record, kind_seen};
ghost use Rattle.robots_text.specs.Walk.{speaks};

use crate::grouped::{GroupedRecord, GroupedRecords};
use crate::record::{Agent, RecordKind, RuleKind};
use crate::records::Records;
use crate::text::RobotsText;
use crate::token::Token;
use crate::words::is_same_word;

/// A rule line. Lines count from 1; the pattern is as in the text.
#[derive(Clone, Copy, Debug, PartialEq, Eq)]
pub struct RuleLine<'a> {
    pub line: u64,
    pub kind: RuleKind,
    pub pattern: &'a [u8],
}

/// Whose rules to find.
#[derive(Clone, Copy)]
pub enum Whom<'a> {
    /// Those for this token.
    Token(&'a [u8]),
    /// Those for `*`, if no line names the token.
    Everybody,
}

/// A walk over grouped records, in order, that finds the rule lines for some crawlers.
#[derive(Clone, Copy)]
pub struct RuleWalk<'k> {
    whom: Whom<'k>,
    // The last group with a user-agent line for them.
    group: Option<u64>,
}

impl<'k> RuleWalk<'k> {
    ghost use Rattle.std.specs.Prelude.{◌∷◌, List, None, option_map};
    ghost use Rattle.std.specs.List.{cons_option};
    ghost use Rattle.robots_text.specs.Grouped.{Grouped, grouped_seen};
    ghost use Rattle.robots_text.specs.Walk.{rule_seen, rules_behind, rules_from};

    /// A walk that begins.
    pub fn new(whom: Whom<'k>) -> RuleWalk<'k>
        ensures { (lines : List Grouped)
            → rules_behind result lines ≡ rules_from (speaks whom.entry) None lines }
    {
        RuleWalk { whom, group: None }
    }

    /// Takes the next record: its rule line, if it is one for them.
    pub fn rule_of<'t>(&mut self, item: GroupedRecord<'t>) -> Option<RuleLine<'t>>
        ensures { (lines : List Grouped)
            → rules_behind self.old (grouped_seen item.entry ∷ lines)
            ≡ cons_option (option_map rule_seen result) (rules_behind self.new lines) }
    {
        match item.kind {
            RecordKind::Agent(_) if speaks(self.whom, item.kind) => {
                self.group = Some(item.group);
                None
            }
            RecordKind::Rule(kind, pattern) if self.group == Some(item.group) => Some(RuleLine {
                line: item.line,
                kind,
                pattern,
            }),
            _ => None,
        }
    }
}

/// The remaining rule lines for a token. Takes no memory.
#[derive(Drop)]
pub struct RulesFor<'t, 'k> {
    records: GroupedRecords<'t>,
    walk: RuleWalk<'k>,
}

impl RobotsText {
    ghost use Rattle.robots_text.specs.Groups.{AreRulesFor};
    ghost use Rattle.robots_text.specs.Records.{numbered_records};
    ghost use Rattle.robots_text.specs.Walk.{rules_left};

    /// The rule lines that govern a token, in line order: of all groups that name it, or else of all groups
    /// for `*`. Walks over the text exactly twice.
    pub fn rules_for<'t, 'k>(&'t self, token: &'k Token) -> RulesFor<'t, 'k>
        ensures { AreRulesFor (numbered_records self.now) token.now (rules_left result) }
    {
        let whom = whom_for(self.records(), token.text().as_bytes());
        RulesFor {
            records: self.groups(),
            walk: RuleWalk::new(whom),
        }
    }
}

impl<'t, 'k> Iterator for RulesFor<'t, 'k> {
    ghost use Rattle.std.specs.Iterator.{YieldsFirstBy, item_count};
    ghost use Rattle.robots_text.specs.Walk.{rule_seen, rules_left};

    type Item = RuleLine<'t>;

    ghost next_gives = { YieldsFirstBy rule_seen rules_left };

    ghost remaining = { item_count rules_left };

    fn next(&mut self) -> Option<RuleLine<'t>> {
        while let Some(record) = self.records.next() {
            if let Some(rule) = self.walk.rule_of(record) {
                return Some(rule);
            }
        }
        None
    }
}

/// Whose rules to find: the token's if a line names it, else those for `*`.
pub fn whom_for<'a>(records: Records<'_>, word: &'a [u8]) -> Whom<'a>
    ensures { (kind : Record) → speaks result kind
        ≡ speaks_to (records_left records.entry) word.now kind }
{
    if is_named(records, word) {
        Whom::Token(word)
    } else {
        Whom::Everybody
    }
}

fn is_named(records: Records<'_>, word: &[u8]) -> bool
    ensures { result ≡ is_named (records_left records.entry) word.now }
{
    let mut rest = records;
    while let Some(record) = rest.next() {
        if names_token(word, record.kind) {
            return true;
        }
    }
    false
}

fn names_token(word: &[u8], kind: RecordKind<'_>) -> bool
    ensures { result ≡ names_token word.now (kind_seen kind.entry) }
{
    match kind {
        RecordKind::Agent(Agent::Name(name)) => is_same_word(name, word),
        _ => false,
    }
}

fn names_everybody(kind: RecordKind<'_>) -> bool
    ensures { result ≡ names_everybody (kind_seen kind.entry) }
{
    matches!(kind, RecordKind::Agent(Agent::All))
}

/// Whether a record is a user-agent line for them.
pub fn speaks(whom: Whom<'_>, kind: RecordKind<'_>) -> bool
    ensures { result ≡ speaks whom.entry (kind_seen kind.entry) }
{
    match whom {
        Whom::Token(word) => names_token(word, kind),
        Whom::Everybody => names_everybody(kind),
    }
}
