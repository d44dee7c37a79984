//! The token that was read last. A crawler's lines nearly all have the same.
//! Used by what reads command lines; RFC 9309, section 2.2.1.
ghost use Rattle.std.specs.Prelude.{◌≡◌, ◌↔◌, None, Some, IfOk, IfErr};
ghost use Rattle.robots_text.specs.Token.{token_of};

use crate::token::{Token, TokenFault};
use std::alloc::Global;
use std::cell::Cell;

/// The token that was read last. Read again, it takes no memory.
#[derive(Drop)]
pub struct LastToken {
    token: Cell<Option<Token>>,
}

impl LastToken {
    /// None so far.
    pub fn none() -> LastToken {
        LastToken {
            token: Cell::new(None),
        }
    }

    /// Reads a token in any case. It is the last one from now on.
    pub fn read(&self, alloc: Global, octets: &[u8]) -> Result<Token, TokenFault>
        ensures ok { IfOk result (λ token. token_of octets.now ≡ Some token) }
        ensures bad { IfErr result (λ fault.
            (fault ≡ TokenFault.BadToken) ↔ (token_of octets.now ≡ None)) }
    {
        let last = self.token.replace(None);
        let token = read_after(alloc, last, octets)?;
        self.token.set(token.copy().ok());
        Ok(token)
    }
}

// The token before, if it has these octets, and otherwise theirs.
fn read_after(alloc: Global, last: Option<Token>, octets: &[u8]) -> Result<Token, TokenFault>
    ensures ok { IfOk result (λ token. token_of octets.now ≡ Some token) }
    ensures bad { IfErr result (λ fault.
        (fault ≡ TokenFault.BadToken) ↔ (token_of octets.now ≡ None)) }
{
    match last {
        Some(token) if token.text().as_bytes() == octets => Ok(token),
        _ => Token::new(alloc, octets),
    }
}
