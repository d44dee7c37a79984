//! A permit in lists: those of a history, or of a segment.
//! Used by bases, by the texts of histories, and by audits.

use crate::number::PermitNo;
use path_normal::PageUrl;
use robots_text::Token;

/// A permit for one fetch of a URL under a token, with its number.
#[derive(Drop)]
pub struct GrantedPermit {
    /// Its number.
    pub number: PermitNo,
    /// The product token that may use it.
    pub token: Token,
    /// Its URL.
    pub url: PageUrl,
}
