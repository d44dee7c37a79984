//! What is said of arguments that `clap` takes and that are refused: the value, its option, and what would be
//! taken.
use crate::places::is_path;
use crate::word_fault::WordFault;
use http_client::AddressBlock;
use std::alloc::{AllocError, Global};

// The options whose value is no number.
const TEXT_OPTIONS: [&str; 9] = [
    "--contact",
    "--http-socket",
    "--journal",
    "--journal-sync",
    "--not-to",
    "--seal-socket",
    "--socket",
    "--tls-by",
    "--until",
];

/// Why arguments are refused, in the form of the errors of `clap`.
pub(crate) fn refusal_of(
    alloc: Global,
    words: &[&str],
    fault: WordFault,
) -> Result<String, AllocError> {
    let mut said = String::new(alloc);
    if let Some((name, value)) = refused_in(words, fault) {
        said.push_str("invalid value '")?;
        push_escaped(&mut said, value)?;
        said.push_str("' for '")?;
        said.push_str(name)?;
        said.push_str("': ")?;
    }
    said.push_str(fault.reason())?;
    Ok(said)
}

// (A terminal would obey control characters.)
fn push_escaped(said: &mut String, value: &str) -> Result<(), AllocError> {
    for letter in value.escape_debug() {
        said.push(letter)?;
    }
    Ok(())
}

/// Whether an argument, or its part after `=`, begins with a plus sign, but for a text. (Rust reads `+5` as a
/// number.)
pub(crate) fn has_sign(words: &[&str]) -> bool {
    refused_in(words, WordFault::Number).is_some()
}

// The first option, with its value, that is refused for this reason; or the token of a check.
fn refused_in<'a>(words: &[&'a str], fault: WordFault) -> Option<(&'a str, &'a str)> {
    if fault == WordFault::Token {
        let token = token_in(words)?;
        return Some(("<TOKEN>", token));
    }
    let mut before = "";
    for word in words {
        let (name, value) = word.split_once('=').unwrap_or((before, *word));
        if is_refused(name, value, fault) {
            return Some((name, value));
        }
        before = *word;
    }
    None
}

// The token of a check: after that word, the first one that is no option, and no file of one.
fn token_in<'a>(words: &[&'a str]) -> Option<&'a str> {
    let mut before = "--robots";
    let mut is_after = false;
    for word in words {
        if is_after && before != "--robots" && !word.starts_with('-') {
            return Some(*word);
        }
        is_after = is_after || *word == "check";
        before = *word;
    }
    None
}

// Whether a value of an option is refused for this reason.
fn is_refused(name: &str, value: &str, fault: WordFault) -> bool {
    match fault {
        WordFault::Number => value.starts_with('+') && !TEXT_OPTIONS.contains(&name),
        WordFault::Path => is_of_socket(name) && !is_path(value),
        WordFault::Contact => name == "--contact",
        WordFault::Sync => name == "--journal-sync",
        WordFault::TlsBy => name == "--tls-by",
        WordFault::Block => name == "--not-to" && AddressBlock::parse(value).is_none(),
        WordFault::NoHttp | WordFault::Token | WordFault::NoMemory => false,
    }
}

fn is_of_socket(name: &str) -> bool {
    matches!(name, "--socket" | "--seal-socket" | "--http-socket")
}
