//! An ask prepared outside the book's lock: its verdict may be found already.
//! RFC 9309, section 2.2.2.
ghost use Rattle.std.specs.Prelude.{◌≡◌};

use gate_history::Ruling;
use path_normal::PageUrl;
use permit_book::Fetch;
use robots_text::Token;
use robots_verdict::Policy;
use std::marker::Model;
use std::sync::Arc;

/// A fetch to ask for, and the verdict of the policy believed to be in force, if any. A clause sees the
/// fetch.
#[derive(Drop)]
pub struct Judged {
    pub(crate) fetch: Fetch,
    pub(crate) ruling: Option<Ruling>,
}

impl Model for Judged {
    ghost use Rattle.std.specs.Prelude.{IfSome};
    ghost use Rattle.permit_book.specs.declared.out.Fetch.{Fetch};
    ghost use Rattle.gate_history.specs.Ruling.{IsRuling};

    ghost Value = { Fetch };

    ghost view = { λ judged. judged.fetch };

    ghost invariant = { λ judged.
        IfSome judged.ruling (IsRuling judged.fetch.token judged.fetch.url) };
}

impl Judged {
    /// An ask for this URL under this token, judged by this policy, if any. It takes no memory and no lock.
    pub fn new(policy: Option<Arc<Policy>>, token: Token, url: PageUrl) -> Judged
        ensures { result ≡ record { token = token; url = url } }
    {
        let ruling = match policy {
            Some(policy) => Some(Ruling::of(policy, &token, &url)),
            None => None,
        };
        Judged {
            fetch: Fetch { token, url },
            ruling,
        }
    }

    /// The token and URL asked for.
    pub fn fetch(&self) -> &Fetch
        ensures { result.now ≡ self.now }
    {
        &self.fetch
    }
}
