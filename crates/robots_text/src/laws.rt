//! Laws of the lines and groups of every text, and of the limits.
//! RFC 9309, section 2.2.
ghost use Rattle.std.specs.Prelude.{◌≡◌, ◌↔◌, ℕ, true, Contains, List};
ghost use Rattle.robots_text.specs.Grouped.{Grouped, grouped_records, numbered_of};
ghost use Rattle.robots_text.specs.Groups.{Governs, is_agent, is_rule};
ghost use Rattle.robots_text.specs.Lines.{AreLines, lines_of, text_limit, unmarked};
ghost use Rattle.robots_text.specs.Records.{numbered_records};
ghost use Rattle.robots_text.specs.Token.{token_limit};

use crate::text::MAX_TEXT;
use crate::token::MAX_TOKEN;

/// Without its byte order mark, a text is written by its lines in exactly one way.
pub fn one_way_to_write_lines()
    ensures lines { (text : List ℕ) → AreLines (unmarked text) (lines_of text) }
    ensures only { (text : List ℕ) (lines : List (List ℕ))
        → AreLines (unmarked text) lines → lines ≡ lines_of text }
{}

/// A user-agent line governs exactly the rule lines of its group.
pub fn same_group()
    ensures { (text : List ℕ) (head line : Grouped)
        → Contains (grouped_records text) head → Contains (grouped_records text) line
        → is_agent head.kind ≡ true → is_rule line.kind ≡ true
        → (head.group ≡ line.group)
        ↔ Governs (numbered_records text) (numbered_of head) (numbered_of line) }
{}

/// The code's limits are those of the definitions.
pub fn limits()
    ensures text { MAX_TEXT ≡ text_limit }
    ensures token { MAX_TOKEN ≡ token_limit }
{}
