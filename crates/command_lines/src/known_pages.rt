//! The pages of permits, which START lines repeat, and the token of the line before.
//! Used by `calls`: a word with the octets of such a page or token is not read again.
use gate_core::Book;
use path_normal::PageUrl;
use permit_book::PermitNo;
use robots_text::LastToken;

/// What is known before a line is read.
#[derive(Drop)]
pub struct Known<'a, P: KnownPages> {
    /// The pages of permits.
    pub pages: &'a P,
    /// The token that was read last.
    pub last: &'a LastToken,
}

/// The pages of permits, each used only if the argument has its octets.
pub trait KnownPages {
    /// The URL of this permit, if known.
    fn page_of(&self, number: PermitNo) -> Option<&PageUrl>;
}

/// The pages of the book's unspent permits.
impl KnownPages for Book {
    fn page_of(&self, number: PermitNo) -> Option<&PageUrl> {
        self.url_of(number)
    }
}

/// No known pages, for a line that is read by itself.
#[derive(Drop)]
pub(crate) struct NoPages;

impl KnownPages for NoPages {
    fn page_of(&self, _number: PermitNo) -> Option<&PageUrl> {
        None
    }
}
