//! What a request asks for, and why it may ask for nothing.
//! RFC 9110, section 9.3.1; RFC 9112, section 3.2.
use path_normal::{PageUrl, UrlFault};
use robots_text::Token;
use std::alloc::AllocError;

/// How a request names its page.
#[derive(Clone, Copy, Debug, PartialEq, Eq)]
pub enum TargetForm {
    /// `GET http://a.example/x`, of a client that takes the gate for its proxy.
    Absolute,
    /// `GET /https://a.example/x`, of a client that knows the gate.
    Path,
}

/// What comes of a page that is longer than what is fetched of it.
#[derive(Clone, Copy, Debug, PartialEq, Eq)]
pub enum CutRule {
    /// It is refused.
    Refuse,
    /// Its first octets are passed on, with the field `Crawlgate-Cut: pass`.
    Pass,
}

/// A page that is asked for, under a product token.
#[derive(Drop)]
pub struct PageWish {
    /// How it was named.
    pub form: TargetForm,
    /// What comes of it if it is cut.
    pub cut: CutRule,
    /// The crawler's product token.
    pub token: Token,
    /// The page.
    pub url: PageUrl,
}

/// What a request asks for.
#[derive(Drop)]
pub enum Wish {
    /// A page.
    Page(PageWish),
    /// What the gate keeps, in numbers.
    Metrics,
}

/// Why a request asks for nothing, in the order of the tests.
#[derive(Drop)]
pub enum Misasked {
    /// Its method is not GET.
    Method,
    /// Its host is not of the loopback, though the target has none.
    Host,
    /// A browser sent it for a page.
    Browser,
    /// A field that counts stands twice.
    Twice,
    /// In absolute form, no Basic credentials with a user.
    NoCredentials,
    /// In path form, no field with a token.
    NoToken,
    /// What should be a product token is none.
    BadToken,
    /// The value of the field for cut pages is not `pass`.
    BadCut,
    /// The target is no page.
    Url(UrlFault),
    /// The authority of the page is not written as in its URL, which is told.
    Elsewhere(TargetForm, PageUrl),
    /// Out of memory. The only cause that says nothing of the request.
    NoMemory,
}

impl From<AllocError> for Misasked {
    ghost use Rattle.std.specs.Prelude.{◌≡◌};
    ghost use Rattle.http_front.specs.declared.asked.Misasked.TheVariants as misasked;

    ghost from_gives = { λ _ told. told ≡ misasked.NoMemory };

    fn from(_: AllocError) -> Misasked {
        Misasked::NoMemory
    }
}
