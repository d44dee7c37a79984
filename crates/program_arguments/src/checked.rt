//! The arguments of `check`: its token, its URLs, and the source of its robots text.
//! See docs/crawlgate.1.md.
ghost use Rattle.std.specs.Prelude.{IfOk};
ghost use Rattle.clap.specs.Words.{found_of};
ghost use Rattle.program_arguments.specs.Options.{IsChosen, IsChosenBy, IsDetailOf, IsTextOf};

use crate::subcommand::{CheckDetail, CheckOptions, CheckedText, CheckedUrls, Subcommand};
use crate::word_fault::WordFault;
use crate::words::Chosen;
use clap::ArgMatches;
use robots_text::{Token, TokenFault};
use std::alloc::{AllocError, Global};

/// The check that was matched.
pub(crate) fn check_of(alloc: Global, matches: &ArgMatches<'_>) -> Result<Chosen, AllocError>
    ensures range { IfOk result IsChosen }
    ensures words { IfOk result (IsChosenBy (found_of matches.now)) }
{
    let token = matches.get_str("token").unwrap_or("");
    match Token::new(alloc, token.as_bytes()) {
        Ok(token) => Ok(Chosen::Taken(Subcommand::Check(CheckOptions {
            token,
            text: text_of(alloc, matches)?,
            urls: urls_of(alloc, matches)?,
            detail: detail_of(matches),
        }))),
        Err(TokenFault::BadToken) => Ok(Chosen::Refused(WordFault::Token)),
        Err(TokenFault::NoMemory) => Err(AllocError),
    }
}

fn text_of(alloc: Global, matches: &ArgMatches<'_>) -> Result<CheckedText, AllocError>
    ensures { IfOk result (IsTextOf (found_of matches.now)) }
{
    match matches.get_str("robots") {
        Some(name) => Ok(CheckedText::File(String::from_str(alloc, name)?)),
        None => Ok(CheckedText::Input),
    }
}

fn detail_of(matches: &ArgMatches<'_>) -> CheckDetail
    ensures { IsDetailOf (found_of matches.now) result }
{
    if matches.get_flag("explain") {
        CheckDetail::Explained
    } else {
        CheckDetail::Plain
    }
}

// The URLs of a check: a lone `-` means lines of the input.
fn urls_of(alloc: Global, matches: &ArgMatches<'_>) -> Result<CheckedUrls, AllocError> {
    let words = matches.get_strs("url").unwrap_or(&[]);
    if words.len() == 1 && words[0] == "-" {
        return Ok(CheckedUrls::Input);
    }
    let mut urls = Vec::new(alloc);
    for word in words {
        urls.push(String::from_str(alloc, word)?)?;
    }
    Ok(CheckedUrls::Words(urls))
}
