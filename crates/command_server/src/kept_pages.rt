//! The pages of a client's permits, which its START lines repeat.
//! Used by `ClientLines`: a URL with the octets of such a page is not read again.
use command_lines::KnownPages;
use keepers::Keeper;
use path_normal::PageUrl;
use permit_book::PermitNo;

/// The pages of the permits that a keeper's session may start.
#[derive(Drop)]
pub(crate) struct KeptPages<'k, K: Keeper> {
    pub(crate) keeper: &'k K,
}

impl<K: Keeper> KnownPages for KeptPages<'_, K> {
    fn page_of(&self, number: PermitNo) -> Option<&PageUrl> {
        self.keeper.url_of(number)
    }
}
