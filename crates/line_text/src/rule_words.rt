//! The words of a rule line in reports.
//! See docs/FORMATS.md.
ghost use Rattle.std.specs.Prelude.{◌≡◌, ◌++◌};
ghost use Rattle.line_text.specs.Escapes.{escaped};
ghost use Rattle.line_text.specs.RuleWords.{rule_word, value_text};

use robots_text::RuleKind;

/// The word of a rule.
pub fn rule_word(kind: RuleKind) -> &'static str
    ensures { result.now ≡ rule_word kind }
{
    match kind {
        RuleKind::Allow => "allow",
        RuleKind::Disallow => "disallow",
    }
}

/// The text between a rule's word and its value.
pub fn gap_before(value: &[u8]) -> &str
    ensures { value_text value.now ≡ result.now ++ escaped value.now }
{
    match value {
        [] => "",
        _ => " ",
    }
}
