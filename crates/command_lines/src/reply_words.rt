//! The words of the replies in an ARRIVE line: two for each reply (docs/FORMATS.md).
//! Read before the walk over the replies.
ghost use Rattle.std.specs.Prelude.{◌≡◌, ◌↔◌, [], IfOk, IsTrue};
ghost use Rattle.command_lines.specs.Arrival.{HasWords, head_written};
ghost use Rattle.command_lines.specs.Arrival.{lasting_of, may_have, plain_of, replies_fault, reply_words_of, response_written};
ghost use Rattle.command_lines.specs.Arrival.{status_written, TakesReply};
ghost use Rattle.line_text.specs.Words.{words_left};

use crate::fault::LineFault;
use line_text::{Words, number_of};
use percent_encoding::percent_decode;
use robots_fetch::{RobotsReply, StatusClass, class_of};
use std::alloc::{AllocError, Global};
use std::marker::Model;

/// The meaning of a reply's first word.
#[derive(Clone, Copy)]
pub(crate) enum ReplyHead {
    /// A response of this status, whose rules may be kept for these seconds.
    Status { code: u16, max_age: Option<u64> },
    /// `CODING`: a response with a content coding.
    Coding,
    /// `NET`: the connection or the message failed.
    Network,
}

/// The words of replies without a fault.
#[derive(Drop)]
pub struct ReplyWords<'a> {
    words: Words<'a>,
}

impl<'a> Model for ReplyWords<'a> {
    ghost use Rattle.std.specs.Prelude.{◌≡◌, ℕ, List, None};
    ghost use Rattle.command_lines.specs.Arrival.{replies_fault};
    ghost use Rattle.line_text.specs.Words.{words_left};

    ghost Value = { List (List ℕ) };

    ghost view = { λ replies. words_left replies.words };

    ghost invariant = { λ replies. replies_fault (words_left replies.words) ≡ None };
}

impl<'a> ReplyWords<'a> {
    /// The words, or their first fault.
    pub(crate) fn of(words: Words<'a>) -> Result<ReplyWords<'a>, LineFault>
        ensures { result ≡ reply_words_of (words_left words.entry) }
    {
        match replies_fault(words) {
            Some(fault) => Err(fault),
            None => Ok(ReplyWords { words }),
        }
    }

    /// Takes the words of the next reply, if any.
    pub(crate) fn next(&mut self, alloc: Global) -> Result<Option<RobotsReply>, AllocError>
        ensures { IfOk result (λ reply. TakesReply self.old reply self.new) }
    {
        let mut words = self.words;
        let Some(first) = words.next() else {
            return Ok(None);
        };
        let second = words.next().unwrap();
        let reply = ReplyHead::of(first).unwrap().reply(alloc, second)?;
        self.words = words;
        Ok(Some(reply))
    }

    /// Whether no word is left.
    pub(crate) fn is_empty(&self) -> bool
        ensures { IsTrue result ↔ (self.now ≡ []) }
    {
        let mut words = self.words;
        words.next().is_none()
    }
}

fn replies_fault(words: Words<'_>) -> Option<LineFault>
    ensures { result ≡ replies_fault (words_left words.entry) }
{
    let mut left = words;
    while let Some(first) = left.next() {
        let Some(head) = ReplyHead::of(first) else {
            return Some(LineFault::Status);
        };
        match left.next() {
            Some(second) if head.may_have(second) => {}
            _ => return Some(LineFault::Replies),
        }
    }
    None
}

impl ReplyHead {
    fn of(word: &str) -> Option<ReplyHead>
        ensures { result ≡ head_written word.now }
    {
        match word {
            "NET" => Some(ReplyHead::Network),
            "CODING" => Some(ReplyHead::Coding),
            _ => response_written(word),
        }
    }

    fn may_have(self, word: &str) -> bool
        ensures { result ≡ may_have self word.now }
    {
        match self {
            ReplyHead::Status { code, .. } => match class_of(code) {
                StatusClass::Successful | StatusClass::Redirect => true,
                _ => word == "-",
            },
            ReplyHead::Coding | ReplyHead::Network => word == "-",
        }
    }

    fn reply(self, alloc: Global, word: &str) -> Result<RobotsReply, AllocError>
        ensures { IfOk result (HasWords self word.now) }
    {
        let (code, max_age) = match self {
            ReplyHead::Status { code, max_age } => (code, max_age),
            ReplyHead::Coding => return Ok(RobotsReply::CodingFault),
            ReplyHead::Network => return Ok(RobotsReply::NetworkFault),
        };
        let mut location = None;
        let mut body = Vec::new(alloc);
        match class_of(code) {
            StatusClass::Redirect if word != "-" => location = Some(word.to_string(alloc)?),
            StatusClass::Successful if word != "-" => {
                percent_decode(word.as_bytes()).append_to(&mut body)?;
            }
            _ => {}
        }
        Ok(RobotsReply::Status {
            code,
            location,
            body,
            max_age,
        })
    }
}

fn response_written(word: &str) -> Option<ReplyHead>
    ensures { result ≡ response_written word.now }
{
    match word.split_once('/') {
        Some((status, life)) => lasting_of(status, life),
        None => plain_of(word),
    }
}

fn plain_of(word: &str) -> Option<ReplyHead>
    ensures { result ≡ plain_of word.now }
{
    Some(ReplyHead::Status {
        code: status_written(word)?,
        max_age: None,
    })
}

// A response with its lifetime, as `200/60`.
fn lasting_of(status: &str, life: &str) -> Option<ReplyHead>
    ensures { result ≡ lasting_of status.now life.now }
{
    let code = status_written(status)?;
    match class_of(code) {
        StatusClass::Successful => Some(ReplyHead::Status {
            code,
            max_age: Some(number_of(life)?),
        }),
        _ => None,
    }
}

fn status_written(word: &str) -> Option<u16>
    ensures { result ≡ status_written word.now }
{
    if word.len() != 3 {
        return None;
    }
    match number_of(word)? {
        code @ 100..=999 => Some(code as u16),
        _ => None,
    }
}
