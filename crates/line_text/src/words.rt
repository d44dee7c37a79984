//! The words of a line, borrowed one by one.
//! Used by `command` and the modules that read a call's words.
ghost use Rattle.std.specs.Prelude.{◌≡◌, ◌<◌, ◌∷◌, IfSome, length};
ghost use Rattle.std.specs.List.{list_any, position};
ghost use Rattle.line_text.specs.Words.{GivesWord, is_count_within, is_empty_word, is_space};
ghost use Rattle.line_text.specs.Words.{words_left, words_of, words_of_rest};

use memchr::memchr;

/// The unread words of a line.
#[derive(Clone, Copy)]
pub struct Words<'a> {
    rest: Option<&'a str>,
}

impl<'a> Words<'a> {
    /// The words of a line.
    pub fn of(line: &'a str) -> Words<'a>
        ensures { words_left result ≡ words_of line.now }
    {
        Words { rest: Some(line) }
    }

    /// The next word.
    pub fn next(&mut self) -> Option<&'a str>
        ensures { GivesWord (words_left self.old) result (words_left self.new) }
    {
        let text = self.rest?;
        let (word, rest) = cut(text);
        self.rest = rest;
        Some(word)
    }

    /// The next word; there must be one.
    pub fn first(&mut self) -> &'a str
        requires { 0 < length (words_left self.old) }
        ensures { words_left self.old ≡ result.now ∷ words_left self.new }
    {
        self.next().unwrap()
    }

    /// Whether the number of words left is in this range.
    pub fn count_is_within(self, least: usize, most: usize) -> bool
        ensures { result ≡ is_count_within least most (words_left self.entry) }
    {
        let mut words = self;
        for count in 0..most {
            if words.next().is_none() {
                return least <= count;
            }
        }
        words.next().is_none() && least <= most
    }

    /// Whether a word left is empty.
    pub fn has_empty(self) -> bool
        ensures { result ≡ list_any is_empty_word (words_left self.entry) }
    {
        let mut words = self;
        while let Some(word) = words.next() {
            if word.is_empty() {
                return true;
            }
        }
        false
    }
}

// The first word of a text, and the others' text, if any.
fn cut(text: &str) -> (&str, Option<&str>)
    ensures { words_of text.now ≡ result.0.now ∷ words_of_rest result.1 }
{
    match space_place(text) {
        Some(place) => (&text[..place], Some(&text[place + 1..])),
        None => (text, None),
    }
}

// The place of the first space. (A robots.txt is one word of a line, of up to two million octets.)
fn space_place(text: &str) -> Option<usize>
    ensures place { result ≡ position is_space text.now }
    ensures within { IfSome result (λ place. place < length text.now) }
{
    memchr(b' ', text.as_bytes())
}
