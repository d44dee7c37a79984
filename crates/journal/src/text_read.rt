//! What was read of a journal's file: its lines, and how many of them are entries. docs/FORMATS.md has the
//! texts: entries come behind a line `V 2`, or behind the line `E` of a base, or at once.
ghost use Rattle.std.specs.Prelude.{◌≡◌, ◌+◌, ◌^◌, length, min};
ghost use Rattle.journal.specs.Reading.{end_of_line, line_count, step, steps, text_at};

/// Where the entries of a text begin.
#[derive(Clone, Copy, Debug, PartialEq, Eq)]
pub(crate) enum EntriesAt {
    /// In this line.
    Here,
    /// Behind this line.
    NextLine,
    /// Behind a line `E`.
    BehindBase,
}

/// Where in a line a text ends.
#[derive(Clone, Copy, Debug, PartialEq, Eq)]
pub(crate) enum LinePlace {
    /// Before it.
    Start,
    /// Behind an `E` alone.
    LetterE,
    /// Behind something else.
    Within,
}

/// The line feeds that were read of a text, those of entries, and where it stands.
#[derive(Clone, Copy, Debug, PartialEq, Eq)]
pub(crate) struct TextRead {
    pub(crate) lines: u64,
    pub(crate) entries: u64,
    pub(crate) at: EntriesAt,
    pub(crate) place: LinePlace,
}

impl TextRead {
    /// Nothing was read.
    pub(crate) fn new(at: EntriesAt) -> TextRead
        ensures { result ≡ text_at at }
    {
        TextRead {
            lines: 0,
            entries: 0,
            at,
            place: LinePlace::Start,
        }
    }

    /// Adds octets that were read.
    pub(crate) fn note(&mut self, octets: &[u8])
        ensures { self.new ≡ steps self.old octets.now }
    {
        let mut rest = octets;
        while let [octet, behind @ ..] = rest {
            self.step(*octet);
            rest = behind;
        }
    }

    // Adds an octet.
    fn step(&mut self, octet: u8)
        ensures { self.new ≡ step self.old octet }
    {
        if octet == b'\n' {
            self.end_line();
        } else if octet == b'E' && self.place == LinePlace::Start {
            self.place = LinePlace::LetterE;
        } else {
            self.place = LinePlace::Within;
        }
    }

    fn end_line(&mut self)
        ensures { self.new ≡ end_of_line self.old }
    {
        self.lines = self.lines.saturating_add(1);
        match (self.at, self.place) {
            (EntriesAt::Here, _) => self.entries = self.entries.saturating_add(1),
            (EntriesAt::NextLine, _) | (EntriesAt::BehindBase, LinePlace::LetterE) => {
                self.at = EntriesAt::Here;
            }
            (EntriesAt::BehindBase, _) => {}
        }
        self.place = LinePlace::Start;
    }

    /// Its lines, with a last one that has no line feed.
    pub(crate) fn line_count(&self) -> u64
        ensures { result ≡ line_count self.now }
    {
        let is_torn = self.place != LinePlace::Start;
        self.lines.saturating_add(u64::from(is_torn))
    }
}
