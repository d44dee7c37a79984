//! One argument of a command line as a number, a token, a URL or an authority.
//! Used by `calls`, from left to right.
ghost use Rattle.std.specs.Prelude.{◌≡◌, Err, IsTrue, None, Ok};
ghost use Rattle.path_normal.specs.Capacity.{Enough, IsRead, Refused};
ghost use Rattle.path_normal.specs.PageUrl.{page_url_among};
ghost use Rattle.path_normal.specs.declared.fault.UrlFault.TheVariants.{NoMemory};
ghost use Rattle.command_lines.specs.Arguments.{authority_word, number_word, page_word};
ghost use Rattle.command_lines.specs.Arguments.{token_word};

use crate::fault::LineFault;
use line_text::number_of;
use path_normal::{Authority, PageUrl, Schemes};
use robots_text::{LastToken, Token};
use std::alloc::Global;

/// Reads a number.
pub fn read_number(word: &str) -> Result<u64, LineFault>
    ensures { result ≡ number_word word.now }
{
    number_of(word).ok_or(LineFault::Number)
}

/// Reads a product token, which usually is the last one.
pub fn read_token(alloc: Global, word: &str, last: &LastToken) -> Result<Token, LineFault>
    ensures { IsRead result (token_word word.now) }
{
    let token = last.read(alloc, word.as_bytes())?;
    Ok(token)
}

/// Reads an authority of pages of these schemes.
pub fn read_authority(alloc: Global, schemes: Schemes, word: &str) -> Result<Authority, LineFault>
    ensures { IsRead result (authority_word schemes word.now) }
{
    let authority = schemes.parse_authority(alloc, word)?;
    Ok(authority)
}

/// Reads the URL of a page of these schemes.
pub fn read_page(alloc: Global, schemes: Schemes, word: &str) -> Result<PageUrl, LineFault>
    ensures { IsRead result (page_word schemes word.now) }
{
    let url = schemes.parse_page(alloc, word)?;
    Ok(url)
}

/// Reads the URL of a page of these schemes, or returns the known page if it has the same octets.
pub fn read_known_page(
    alloc: Global,
    schemes: Schemes,
    word: &str,
    known: Option<&PageUrl>,
) -> Result<PageUrl, LineFault>
    ensures { IsRead result (page_word schemes word.now) }
{
    match known {
        Some(page) if reads_as(schemes, word, page) => Ok(page.copy()?),
        _ => read_page(alloc, schemes, word),
    }
}

// Whether the word is the text of the page, in a scheme that is read.
fn reads_as(schemes: Schemes, word: &str, page: &PageUrl) -> bool
    ensures page { IsTrue result → page_url_among schemes None word.now Enough ≡ Ok page.now }
    ensures refused { IsTrue result
        → page_url_among schemes None word.now Refused ≡ Err NoMemory }
{
    word == page.text() && (schemes == Schemes::HttpAndHttps || !page.is_https())
}
