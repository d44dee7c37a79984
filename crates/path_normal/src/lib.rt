//! Page URLs, their authorities, and the normal forms of paths and patterns.
//! URL Standard, section 4; RFC 3986, sections 2 and 3; RFC 9309, section 2.2.2.
#![tactic(auto)]

mod authority;
mod fault;
pub mod laws;
mod normal;
mod page;
mod page_url;
mod plain_host;
mod plain_url;
mod schemes;

pub use authority::{Authority, root_text};
pub use fault::{AuthorityFault, Unread, UrlFault};
pub use normal::{
    is_kept_pattern, is_unreserved, normal_path, normal_pattern, push_normal_pattern, split_anchor,
};
pub use page_url::{MAX_AUTHORITY, MAX_URL, PageUrl};
pub use schemes::Schemes;
