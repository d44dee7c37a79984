//! The door to sites: whether a page of a site may be visited now, and what a visit came to.
//! RFC 9110, section 10.2.3: a site may say when to ask again.
use http_turns::Asker;
use http_wire::HttpReply;
use path_normal::Authority;

/// Lets visits to sites in, so that no site has too many at once, or one too soon after another.
pub trait SiteDoor {
    ghost use Rattle.std.specs.Prelude.{ℕ, List, Option, option_copied};
    ghost use Rattle.http_wire.specs.declared.response.HttpReply.{HttpReply};

    /// A visit that was let in. Only `leave` takes it back.
    type Pass;

    /// Relates a door and an authority to what the door answered.
    ghost answers: { Self → List ℕ → Option Self.Pass → Type 0 };

    /// Relates a door and a visit that was let in to the response that it was left with.
    ghost leaves: { Self → Self.Pass → Option HttpReply → Type 0 };

    /// Lets a visit to a site in, or not now. Who has waited longer may be let in first.
    fn enter(&self, site: &Authority, asker: Asker) -> Option<Self::Pass>
        ensures { answers self.now site.now result };

    /// Ends a visit that was let in, with the site's response if there was one.
    fn leave(&self, pass: Self::Pass, reply: Option<&HttpReply>)
        ensures { leaves self.now pass (option_copied reply.entry) };
}

/// A door that is always open.
impl SiteDoor for () {
    ghost use Rattle.std.specs.Prelude.{◌≡◌, Some};

    type Pass = ();

    ghost answers = { λ _ _ answer. answer ≡ Some tt };

    ghost leaves = { λ _ _ _. Unit {0} };

    fn enter(&self, _site: &Authority, _asker: Asker) -> Option<()> {
        Some(())
    }

    fn leave(&self, _pass: (), _reply: Option<&HttpReply>) {}
}
