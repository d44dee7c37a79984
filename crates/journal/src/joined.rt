//! Texts of which each goes on from the one before, read as one.
//! A start reads a journal's last files so. A file is opened only when it is read, and closed behind it.
ghost use Rattle.std.specs.Prelude.{◌≡◌, ◌<◌, ◌+◌, ◌-◌, ◌^◌, ℕ, List, Option, drop, length, min, IfOk, OnErr, OnOk};
ghost use Rattle.std.specs.Io.{ReadsAtMost};
ghost use Rattle.std.specs.Io.KnownBytes.{ReadConsumes};
ghost use Rattle.journal.specs.Joining.{GoesOn, left_of, octets_behind, open_left, opened, own_line, own_octets, places_left, then_known};
ghost use Rattle.journal.specs.Reading.{steps};

use crate::text_read::{EntriesAt, TextRead};
use std::alloc::{AllocError, Global};
use std::io;
use std::io::Read;

/// A place where a text can be opened.
pub(crate) trait TextPlace: Drop {
    /// What it is read from.
    type Text: Read + Drop;

    /// The octets there, if they are known.
    ghost octets: { Self → Option (List ℕ) };

    /// Opens it at its beginning.
    fn open(&self) -> io::Result<Self::Text>
        ensures { IfOk result (λ text. Self.Text.remaining text ≡ octets self.now) };

    /// Where its entries begin.
    fn entries_at(&self) -> EntriesAt;
}

/// What was read of one of several texts.
#[derive(Clone, Copy, Debug)]
pub(crate) struct PartRead {
    pub(crate) octets: u64,
    pub(crate) text: TextRead,
}

impl PartRead {
    /// Nothing was read.
    pub(crate) fn new(at: EntriesAt) -> PartRead {
        PartRead {
            octets: 0,
            text: TextRead::new(at),
        }
    }

    // Adds octets that were read.
    fn note(&mut self, octets: &[u8])
        ensures octets { self.new.octets ≡ min (self.old.octets + length octets.now) (2 ^ 64 - 1) }
        ensures text { self.new.text ≡ steps self.old.text octets.now }
    {
        self.octets = self.octets.saturating_add(octets.len() as u64);
        self.text.note(octets);
    }
}

/// A line of joined texts, numbered from 1 in its own, and which text that is, numbered from 0.
#[derive(Clone, Copy, Debug, PartialEq, Eq)]
pub(crate) struct JoinedLine {
    pub(crate) part: usize,
    pub(crate) line: u64,
}

/// Texts in order; what was read of those that were read to their end; the one that is read now, if one is,
/// and what was read of that. The last one stays open.
#[derive(Drop)]
pub(crate) struct Joined<P, T> {
    places: Vec<P>,
    reads: Vec<PartRead>,
    text: Option<T>,
    read: PartRead,
}

impl<P: TextPlace> Joined<P, P::Text> {
    /// All texts, from their beginning.
    pub(crate) fn new(alloc: Global, places: Vec<P>) -> Result<Joined<P, P::Text>, AllocError>
        ensures { IfOk result (λ texts. left_of P.octets P.Text.remaining texts
            ≡ places_left P.octets places.items) }
    {
        let mut reads = Vec::new(alloc);
        reads.reserve(places.len())?;
        Ok(Joined {
            places,
            reads,
            text: None,
            read: PartRead::new(EntriesAt::Here),
        })
    }

    /// The places.
    pub(crate) fn places(&self) -> &[P] {
        self.places.as_slice()
    }

    /// What was read of this text, if it was opened.
    pub(crate) fn read_of(&self, part: usize) -> Option<PartRead> {
        if part < self.reads.len() {
            return Some(self.reads[part]);
        }
        if part < self.opened() {
            return Some(self.read);
        }
        None
    }

    /// Where a line is that was read, or the one behind the last.
    pub(crate) fn line(&self, line: u64) -> JoinedLine
        ensures { result ≡ own_line 0 self.now.reads.items line }
    {
        own_line(self.reads.as_slice(), line)
    }

    /// How many of the first octets of all are the last text's; none if they end before it.
    pub(crate) fn in_last(&self, octets: u64) -> Option<u64>
        ensures { result ≡ own_octets self.now octets }
    {
        if self.opened() < self.places.len() {
            return None;
        }
        octets_behind(self.reads.as_slice(), octets)
    }

    // How many texts were opened.
    fn opened(&self) -> usize
        ensures { result ≡ opened self.now }
    {
        match &self.text {
            Some(_) => self.reads.len() + 1,
            None => self.reads.len(),
        }
    }

    // Opens the next text, behind the one that was read to its end.
    fn open_next(&mut self) -> io::Result<()>
        requires { opened self.old < length self.old.places.items }
        ensures ok { OnOk result (GoesOn P.octets P.Text.remaining self.old self.new) }
        ensures err { OnErr result (left_of P.octets P.Text.remaining self.new
            ≡ left_of P.octets P.Text.remaining self.old) }
    {
        let place = self.place_at(self.opened());
        let text = place.open()?;
        let read = PartRead::new(place.entries_at());
        self.keep_read()?;
        self.text = Some(text);
        self.read = read;
        Ok(())
    }

    // The place at which the texts from this one on begin.
    fn place_at(&self, part: usize) -> &P
        requires { part < length self.now.places.items }
        ensures { places_left P.octets (drop part self.now.places.items)
            ≡ then_known (P.octets result.now)
            (places_left P.octets (drop (part + 1) self.now.places.items)) }
    {
        &self.places[part]
    }

    // Keeps what was read of the text that is open, if one is.
    fn keep_read(&mut self) -> Result<(), AllocError>
        ensures ok { OnOk result (length self.new.reads.items ≡ opened self.old) }
        ensures err { OnErr result (length self.new.reads.items ≡ length self.old.reads.items) }
        ensures text { self.new.text ≡ self.old.text }
        ensures places { self.new.places ≡ self.old.places }
    {
        if self.text.is_some() {
            self.reads.push(self.read)?;
        }
        Ok(())
    }

    // Reads of the text that is open: nothing if none is.
    fn read_open(&mut self, buf: &mut [u8]) -> io::Result<usize>
        ensures bound { ReadsAtMost result buf.new }
        ensures bytes { ReadConsumes (open_left P.Text.remaining self.old.text)
            (open_left P.Text.remaining self.new.text) result buf.new }
        ensures places { self.new.places ≡ self.old.places }
        ensures reads { self.new.reads ≡ self.old.reads }
        ensures opened { opened self.new ≡ opened self.old }
    {
        match &mut self.text {
            Some(text) => {
                let count = text.read(buf)?;
                self.read.note(&buf[..count]);
                Ok(count)
            }
            None => Ok(0),
        }
    }
}

// Where a line of these texts is, or of the one behind them.
fn own_line(reads: &[PartRead], line: u64) -> JoinedLine
    ensures { result ≡ own_line 0 reads.now line }
{
    let mut rest = reads;
    let mut part = 0;
    let mut line = line;
    while let [read, behind @ ..] = rest {
        let count = read.text.line_count();
        if line <= count {
            return JoinedLine { part, line };
        }
        line -= count;
        part += 1;
        rest = behind;
    }
    JoinedLine { part, line }
}

// How many of the first octets of these texts and another one are that one's.
fn octets_behind(reads: &[PartRead], octets: u64) -> Option<u64>
    ensures { result ≡ octets_behind reads.now octets }
{
    let mut rest = reads;
    let mut left = octets;
    while let [read, behind @ ..] = rest {
        left = left.checked_sub(read.octets)?;
        rest = behind;
    }
    Some(left)
}

impl<P: TextPlace> Read for Joined<P, P::Text> {
    ghost remaining = { left_of P.octets P.Text.remaining };

    fn read(&mut self, buf: &mut [u8]) -> io::Result<usize> {
        let mut count = self.read_open(buf)?;
        while count == 0 && !buf.is_empty() && self.opened() < self.places.len() {
            self.open_next()?;
            count = self.read_open(buf)?;
        }
        Ok(count)
    }
}
