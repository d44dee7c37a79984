//! Whether the history allows a fetch, and why not.
//! RFC 9309, sections 2.2.2, 2.3.1 and 2.4.
ghost use Rattle.std.specs.Prelude.{IfSome};
ghost use Rattle.gate_history.specs.Cause.{Decides};
ghost use Rattle.gate_history.specs.Ruling.{IsRuling};
ghost use Rattle.gate_core.specs.Gate.{history};

use crate::book::Book;
use gate_history::{Cause, Reason, Ruling, decide};
use path_normal::PageUrl;
use robots_text::Token;

impl Book {
    // The decision by the URL's authority's answer at this moment of the gate.
    pub(crate) fn decide(
        &self,
        token: &Token,
        url: &PageUrl,
        ruling: Option<&Ruling>,
        moment: u64,
    ) -> Result<Reason, Cause>
        requires { IfSome ruling (λ ruling. IsRuling token.now url.now ruling.now) }
        ensures { Decides (history self.now) token.now url.now moment result }
    {
        decide(&self.cache, token, url, ruling, moment)
    }
}
