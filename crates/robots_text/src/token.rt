//! A product token, which names a crawler.
//! RFC 9309, section 2.2.1.
ghost use Rattle.std.specs.Prelude.{◌≡◌, ◌↔◌, None, Some, IfOk, IfErr, bytes_eq, string_bytes, true};
ghost use Rattle.std.specs.Arc.{arc_value};
ghost use Rattle.std.specs.Cmp.{partial_equiv_from_equiv};
ghost use Rattle.std.specs.Cmp.Lexicographic.{nat_list_eq_equiv};
ghost use Rattle.std.specs.List.{list_all};
ghost use Rattle.robots_text.specs.Token.{is_token_octet, is_token, lower_case, token_of};

use crate::words::lower_case;
use std::alloc::{AllocError, Global};
use std::error::Error;
use std::fmt;
use std::marker::Model;
use std::sync::Arc;

/// The most octets that a product token has.
pub const MAX_TOKEN: usize = 64;

/// A crawler's product token (RFC 9309, 2.2.1): 1 to 64 letters, `-` and `_`, kept in lower case. Its copies
/// share the text.
#[derive(Drop)]
pub struct Token {
    text: Arc<String>,
}

impl Model for Token {
    ghost use Rattle.std.specs.Prelude.{List, ℕ, string_bytes};
    ghost use Rattle.std.specs.Coded.{coded_list, coded_ℕ};

    ghost Value = { List ℕ };

    ghost coded = { coded_list coded_ℕ };

    ghost use Rattle.std.specs.Prelude.{◌≡◌, Some};
    ghost use Rattle.robots_text.specs.Token.{token_of};
    ghost use Rattle.std.specs.Arc.{arc_value};

    ghost view = { λ token. string_bytes (arc_value token.text) };

    ghost invariant = { λ token.
        let text = string_bytes (arc_value token.text) in token_of text ≡ Some text };
}

/// Why octets are no token.
#[derive(Clone, Copy, Debug, PartialEq, Eq)]
pub enum TokenFault {
    /// No octet, more than 64, or one that is no letter, `-` or `_`.
    BadToken,
    /// Out of memory.
    NoMemory,
}

impl From<AllocError> for TokenFault {
    ghost use Rattle.std.specs.Prelude.{◌≡◌};
    ghost use Rattle.robots_text.specs.declared.token.TokenFault.{TokenFault};

    ghost from_gives = { λ _ fault. fault ≡ TokenFault.NoMemory };

    fn from(_: AllocError) -> TokenFault {
        TokenFault::NoMemory
    }
}

impl fmt::Display for TokenFault {
    ghost use Rattle.std.specs.Prelude.{Some};
    ghost use Rattle.robots_text.specs.Faults.{token_fault_text};

    ghost output = { λ fault. Some (token_fault_text fault) };

    fn fmt<W: fmt::Write>(&self, f: &mut fmt::Formatter<W>) -> fmt::Result {
        f.write_str(match self {
            TokenFault::BadToken => "a product token has 1 to 64 letters, - and _",
            TokenFault::NoMemory => "no memory for the product token",
        })
    }
}

impl Error for TokenFault {}

impl Token {
    /// Reads a token in any case.
    pub fn new(alloc: Global, octets: &[u8]) -> Result<Token, TokenFault>
        ensures ok { IfOk result (λ token. token_of octets.now ≡ Some token) }
        ensures bad { IfErr result (λ fault.
            (fault ≡ TokenFault.BadToken) ↔ (token_of octets.now ≡ None)) }
    {
        if !is_token(octets) {
            return Err(TokenFault::BadToken);
        }
        let text = lower_text(alloc, octets)?;
        Ok(Token {
            text: shared(alloc, text)?,
        })
    }

    /// A copy of the token. Takes no memory: the text is shared.
    pub fn copy(&self) -> Result<Token, AllocError>
        ensures { IfOk result (λ copy. copy ≡ self.now) }
    {
        Ok(Token {
            text: Arc::try_clone(&self.text)?,
        })
    }

    /// The token in lower case.
    pub fn text(&self) -> &str
        ensures value { result.now ≡ self.now }
        ensures own { token_of self.now ≡ Some self.now }
    {
        self.text.as_str()
    }
}

impl PartialEq for Token {
    ghost eq = { λ a b. bytes_eq a b };

    ghost laws = { partial_equiv_from_equiv nat_list_eq_equiv };

    fn eq(&self, other: &Token) -> bool {
        self.text() == other.text()
    }
}

impl Eq for Token {
    ghost laws = { nat_list_eq_equiv };
}

impl fmt::Display for Token {
    ghost output = { λ token. Some token };

    fn fmt<W: fmt::Write>(&self, f: &mut fmt::Formatter<W>) -> fmt::Result {
        fmt::Display::fmt(&self.text(), f)
    }
}

pub(crate) fn is_token_octet(octet: u8) -> bool
    ensures { result ≡ is_token_octet octet }
{
    octet.is_ascii_alphabetic() || octet == b'-' || octet == b'_'
}

fn lower_text(alloc: Global, octets: &[u8]) -> Result<String, AllocError>
    requires { is_token octets.now ≡ true }
    ensures { IfOk result (λ text. string_bytes text ≡ lower_case octets.now) }
{
    match String::from_utf8(lower_case(alloc, octets)?) {
        Ok(text) => Ok(text),
        Err(_) => unreachable!(),
    }
}

fn shared(alloc: Global, text: String) -> Result<Arc<String>, AllocError>
    ensures { IfOk result (λ shared. arc_value shared ≡ text) }
{
    Ok(Arc::new(alloc, text)?)
}

fn is_token(octets: &[u8]) -> bool
    ensures { result ≡ is_token octets.now }
{
    !octets.is_empty() && octets.len() <= MAX_TOKEN && are_token_octets(octets)
}

fn are_token_octets(octets: &[u8]) -> bool
    ensures { result ≡ list_all is_token_octet octets.now }
{
    octets.iter().all(|octet| is_token_octet(*octet))
}
