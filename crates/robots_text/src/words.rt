//! Octets without regard to the case of letters.
//! RFC 9309, sections 2.2 and 2.2.1; RFC 9110, section 5.1.
ghost use Rattle.std.specs.Prelude.{◌≡◌, IfOk};
ghost use Rattle.robots_text.specs.Token.{lower_case};
ghost use Rattle.robots_text.specs.Words.{is_same_word};

use std::alloc::{AllocError, Global};

/// Whether the octets are equal in any case.
pub fn is_same_word(one: &[u8], other: &[u8]) -> bool
    ensures { result ≡ is_same_word one.now other.now }
{
    one.eq_ignore_ascii_case(other)
}

/// The octets with their letters in lower case.
pub fn lower_case(alloc: Global, octets: &[u8]) -> Result<Vec<u8>, AllocError>
    ensures { IfOk result (λ text. text.items ≡ lower_case octets.now) }
{
    let mut text = Vec::from_slice(alloc, octets)?;
    text.make_ascii_lowercase();
    Ok(text)
}
