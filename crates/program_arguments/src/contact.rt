//! Whom a site may write to about a crawl: a comment after the agent of each request. RFC 9110, sections
//! 5.6.5 and 10.1.5.
//! See docs/crawlgate.1.md.
ghost use Rattle.std.specs.Prelude.{◌≡◌, ◌↔◌, IfOk, IfSome, IsTrue, None, All};
ghost use Rattle.clap.specs.Words.{found_of};
ghost use Rattle.program_arguments.specs.Contacts.{IsAllowedContact, IsContactOctet, IsContactOf, IsContactText, NamesNoContact};

use crate::subcommand::Contact;
use clap::ArgMatches;
use std::alloc::{AllocError, Global};

// The most octets of a contact.
const MAX_CONTACT: usize = 256;

/// The contact from the option; `Untold` without the option, `None` if its text can't be a comment.
pub(crate) fn contact_of(
    alloc: Global,
    matches: &ArgMatches<'_>,
) -> Result<Option<Contact>, AllocError>
    ensures range { IfOk result (λ found. IfSome found IsAllowedContact) }
    ensures words { IfOk result (λ found. IfSome found (IsContactOf (found_of matches.now))) }
    ensures refused { IfOk result (λ found. found ≡ None → NamesNoContact (found_of matches.now)) }
{
    let Some(text) = matches.get_str("contact") else {
        return Ok(Some(Contact::Untold));
    };
    if !is_contact(text.as_bytes()) {
        return Ok(None);
    }
    Ok(Some(Contact::Text(String::from_str(alloc, text)?)))
}

fn is_contact(text: &[u8]) -> bool
    ensures { IsTrue result ↔ IsContactText text.now }
{
    !text.is_empty() && text.len() <= MAX_CONTACT && are_contact(text)
}

fn are_contact(text: &[u8]) -> bool
    ensures { IsTrue result ↔ All IsContactOctet text.now }
{
    text.iter().all(|octet| is_contact_octet(*octet))
}

// A parenthesis would end the comment or begin another, and a backslash quotes the next octet.
fn is_contact_octet(octet: u8) -> bool
    ensures { IsTrue result ↔ IsContactOctet octet }
{
    matches!(octet, b' '..=b'~') && !matches!(octet, b'(' | b')' | b'\\')
}
