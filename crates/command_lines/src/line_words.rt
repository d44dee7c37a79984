//! The words of a command line, none of them empty. The first few are found in one pass and kept.
//! Used by `command`, which reads the words; docs/FORMATS.md has the order of the checks.
ghost use Rattle.std.specs.Prelude.{◌≡◌, ◌++◌, ◌∷◌, ◌<◌, ◌≤◌, Err, IfErr, IfOk, OnErr, drop, false, length, take, true};
ghost use Rattle.std.specs.List.{list_any};
ghost use Rattle.command_lines.specs.declared.fault.LineFault.TheVariants.{Words as NoWord};
ghost use Rattle.command_lines.specs.LineWords.{line_words_of, texts_of};
ghost use Rattle.line_text.specs.Words.{GivesWord, is_count_within, is_empty_word, words_left};

use crate::command::has_line_octets;
use crate::fault::LineFault;
use line_text::Words;
use std::marker::Model;

/// How many words are kept: those of the longest lines but `ARRIVE`.
pub(crate) const FRONT: usize = 5;

/// The unread words of a line.
#[derive(Drop)]
pub(crate) struct LineWords<'a, 'w> {
    // The kept ones that are unread, and those behind them.
    front: &'w [&'a str],
    behind: Words<'a>,
    // All words, and how many of the kept ones were taken.
    all: Words<'a>,
    taken: usize,
}

impl<'a, 'w> Model for LineWords<'a, 'w> {
    ghost use Rattle.std.specs.Prelude.{◌≡◌, ◌+◌, ◌<◌, ◌≤◌, ◌++◌, ℕ, List, drop, length};
    ghost use Rattle.command_lines.specs.LineWords.{texts_of};
    ghost use Rattle.line_text.specs.Words.{words_left};

    ghost Value = { List (List ℕ) };

    ghost view = { λ line. texts_of line.front.now ++ words_left line.behind };

    ghost invariant = { λ line. (line.taken + length line.front.now ≤ 5)
        × (0 < length line.front.now → drop line.taken (words_left line.all)
        ≡ texts_of line.front.now ++ words_left line.behind) };
}

impl<'a, 'w> LineWords<'a, 'w> {
    /// The words of a line, none empty, or the first fault of its octets and spaces.
    pub(crate) fn of(
        line: &'a [u8],
        room: &'w mut [&'a str; FRONT],
    ) -> Result<LineWords<'a, 'w>, LineFault>
        ensures { result ≡ line_words_of line.now }
    {
        if !has_line_octets(line) {
            return Err(LineFault::Chars);
        }
        // Each octet is ASCII, so the line is UTF-8 and is not checked again: a goal of the proof.
        let text = unsafe { std::str::from_utf8_unchecked(line) };
        let all = Words::of(text);
        let mut behind = all;
        let len = match keep_first(&mut behind, room) {
            Ok(len) => len,
            Err(fault) => return Err(fault),
        };
        if behind.has_empty() {
            return Err(LineFault::Words);
        }
        Ok(LineWords {
            front: &room[..len],
            behind,
            all,
            taken: 0,
        })
    }

    /// Takes the next word, if any.
    pub(crate) fn next(&mut self) -> Option<&'a str>
        ensures { GivesWord self.old result self.new }
    {
        match self.front {
            [word, front @ ..] => {
                self.front = front;
                self.taken += 1;
                Some(*word)
            }
            [] => self.behind.next(),
        }
    }

    /// Takes the next word; there must be one.
    pub(crate) fn first(&mut self) -> &'a str
        requires { 0 < length self.old }
        ensures { self.old ≡ result.now ∷ self.new }
    {
        self.next().unwrap()
    }

    /// Whether the number of words left is within these bounds.
    pub(crate) fn count_is_within(&self, least: usize, most: usize) -> bool
        ensures { result ≡ is_count_within least most self.now }
    {
        let kept = self.front.len();
        kept <= most
            && self
                .behind
                .count_is_within(least.saturating_sub(kept), most - kept)
    }

    /// The words left, for a line that may have many.
    pub(crate) fn left(&self) -> Words<'a>
        ensures { words_left result ≡ self.now }
    {
        if self.front.is_empty() {
            self.behind
        } else {
            without(self.all, self.taken)
        }
    }
}

// The words without the first ones.
fn without(words: Words<'_>, count: usize) -> Words<'_>
    ensures { words_left result ≡ drop count (words_left words.entry) }
{
    let mut left = words;
    for _ in 0..count {
        let _ = left.next();
    }
    left
}

// Takes the first words, as many as there is room for. None may be empty.
fn keep_first<'a>(words: &mut Words<'a>, room: &mut [&'a str; FRONT]) -> Result<usize, LineFault>
    ensures kept { IfOk result (λ len. (len ≤ 5) × (words_left words.old
        ≡ texts_of (take len room.new) ++ words_left words.new)) }
    ensures full { IfOk result
        (λ len. list_any is_empty_word (texts_of (take len room.new)) ≡ false) }
    ensures empty { OnErr result (list_any is_empty_word (words_left words.old) ≡ true) }
    ensures fault { IfErr result (λ fault. fault ≡ NoWord) }
{
    for len in 0..FRONT {
        let Some(word) = words.next() else {
            return Ok(len);
        };
        if word.is_empty() {
            return Err(LineFault::Words);
        }
        room[len] = word;
    }
    Ok(FRONT)
}
