//! A robots text and its policy, for tests of verdicts and answers. Rows of the built program show which
//! line
//! decides, and so does `agreement`, where three readings must agree.

use robots_text::RobotsText;
use robots_verdict::Policy;
use std::alloc::{AllocError, Global};

/// The example of RFC 9309, section 5.1.
pub const EXAMPLE: &str =
    "User-Agent: *\nDisallow: *.gif$\nDisallow: /example/\nAllow: /publications/\n\n\
    User-Agent: foobot\nDisallow:/\nAllow:/example/page.html\nAllow:/example/allowed.gif\n\n\
    User-Agent: barbot\nUser-Agent: bazbot\nDisallow: /example/page.html\n\n\
    User-Agent: quxbot\n\n";

/// The policy of a text.
pub fn policy_of(alloc: Global, text: &[u8]) -> Result<Policy, AllocError> {
    Policy::new(alloc, RobotsText::read(alloc, text)?)
}
