//! The lines of a robots text that apply to a token: its rule lines, and the user-agent lines to explain.
//! RFC 9309, section 2.2.1.
ghost use Rattle.std.specs.Prelude.{IfOk, map};
ghost use Rattle.robots_text.specs.Records.{numbered_records};
ghost use Rattle.robots_check.specs.AgentText.{AreHeadsAt, head_seen};
ghost use Rattle.robots_check.specs.Forms.{AreFormsFor};

use crate::agents::{AgentLine, heads_in};
use crate::detail::Detail;
use crate::groups::{groups_that, whom_among};
use crate::rules::{Formed, rules_in};
use crate::said::SaidLines;
use robots_text::Token;
use std::alloc::{AllocError, Global};

/// The rule lines for a token, and the user-agent lines of its groups if they are to be explained.
#[derive(Drop)]
pub(crate) struct TokenLines<'t> {
    pub(crate) rules: Vec<Formed<'t>>,
    pub(crate) agents: Vec<AgentLine<'t>>,
}

/// Those of a text.
pub(crate) fn token_lines<'t>(
    alloc: Global,
    said: &SaidLines<'t>,
    token: &Token,
    detail: Detail,
) -> Result<TokenLines<'t>, AllocError>
    ensures rules { IfOk result (λ lines.
        AreFormsFor (numbered_records said.now.text.now) token.now lines.rules.items) }
    ensures heads { IfOk result (λ lines. AreHeadsAt detail (numbered_records said.now.text.now)
        token.now (map head_seen lines.agents.items)) }
{
    let lines = said.lines.as_slice();
    let whom = whom_among(lines, token.text().as_bytes());
    let rules = rules_in(alloc, lines, whom)?;
    let agents = match detail {
        Detail::Plain => Vec::new(alloc),
        Detail::Explained => {
            let groups = groups_that(alloc, lines, whom)?;
            heads_in(alloc, lines, whom, groups.as_slice())?
        }
    };
    Ok(TokenLines { rules, agents })
}
