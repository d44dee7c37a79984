//! What a desk keeps of the entries that it made: a mark of each, and of sealed ones the place only.
ghost use Rattle.std.specs.Prelude.{◌≡◌, ◌+◌, ◌^◌, ◌<◌, ◌≤◌, ◌++◌, [], drop, length, map, OnErr, OnOk, take, vec_capacity};
ghost use Rattle.gate_history.specs.History.{is_start};
ghost use Rattle.gate_marks.specs.Marks.{AreSealed, nothing_sealed, sealed_with, starts_in, with_handed};

use gate_history::Entry;
use std::alloc::{AllocError, Global};
use std::marker::Model;

/// An entry that a desk made, and its place: the number of all entries before it.
#[derive(Drop)]
pub struct Mark {
    /// The place.
    pub place: u64,
    /// A copy of the history's entry.
    pub entry: Entry,
}

/// What is kept of sealed entries. A desk keeps eight octets for each of its own, no policy, and how many
/// it handed out; the receipts of all before the desks keep only counts.
#[derive(Drop)]
pub struct SealedMarks {
    before: u64,
    places: Vec<u64>,
    starts: u64,
    handed: u64,
}

impl Model for SealedMarks {
    ghost use Rattle.std.specs.Prelude.{◌≡◌, ◌^◌, ◌<◌, ◌≤◌, length};
    ghost use Rattle.gate_marks.specs.Marks.{SealedView};

    ghost Value = { SealedView };

    ghost view = { λ sealed. record {
      before = sealed.before;
      places = sealed.places.items;
      starts = sealed.starts;
      handed = sealed.handed;
    } };

    ghost invariant = { λ sealed. (sealed.before ≡ 0 → sealed.starts ≤ length sealed.places.items)
        × (sealed.starts < 2 ^ 63) };
}

impl SealedMarks {
    /// Nothing.
    pub fn new(alloc: Global) -> SealedMarks
        ensures { result ≡ nothing_sealed }
    {
        SealedMarks {
            before: 0,
            places: Vec::new(alloc),
            starts: 0,
            handed: 0,
        }
    }

    /// The first entries of all, which were handed out, with this many started fetches among them.
    pub fn first(alloc: Global, entries: u64, starts: u64) -> SealedMarks
        requires none { entries ≡ 0 → starts ≡ 0 }
        requires few { starts < 2 ^ 63 }
        ensures { result
            ≡ record { before = entries; places = []; starts = starts; handed = entries } }
    {
        SealedMarks {
            before: entries,
            places: Vec::new(alloc),
            starts,
            handed: entries,
        }
    }

    /// How many of the first entries of all are kept without their places. It is 0 for a desk.
    pub fn before(&self) -> u64
        ensures { result ≡ self.now.before }
    {
        self.before
    }

    /// The places of the other entries, oldest first.
    pub fn places(&self) -> &[u64]
        ensures { result.now ≡ self.now.places }
    {
        self.places.as_slice()
    }

    /// How many of all these are started fetches.
    pub fn starts(&self) -> u64
        ensures value { result ≡ self.now.starts }
        ensures bound { result < 2 ^ 63 }
    {
        self.starts
    }

    /// How many entries were handed out, of any desk.
    pub fn handed(&self) -> u64
        ensures { result ≡ self.now.handed }
    {
        self.handed
    }

    /// Counts more entries as handed out.
    pub fn hand(&mut self, count: u64)
        requires { self.old.handed + count < 2 ^ 64 }
        ensures { self.new ≡ with_handed self.old count }
    {
        self.handed += count;
    }

    /// Takes in the first marks and removes them from the list. If memory runs out nothing changes.
    pub fn take_in(&mut self, marks: &mut Vec<Mark>, count: usize) -> Result<(), AllocError>
        requires none { self.old.before ≡ 0 }
        requires count { count ≤ length marks.old.items }
        ensures capacity { vec_capacity marks.new ≡ vec_capacity marks.old }
        ensures ok { OnOk result ((marks.new.items ≡ drop count marks.old.items)
            × (self.new ≡ sealed_with self.old (take count marks.old.items))) }
        ensures err { OnErr result ((marks.new.items ≡ marks.old.items) × (self.new ≡ self.old)) }
    {
        self.places.reserve(count)?;
        let first = &marks[..count];
        self.starts += starts_among(first);
        push_places(&mut self.places, first);
        drop(marks.drain(..count));
        Ok(())
    }
}

fn push_places(places: &mut Vec<u64>, marks: &[Mark])
    requires { length places.old.items + length marks.now ≤ vec_capacity places.old }
    ensures { places.new.items ≡ places.old.items ++ map (λ mark. mark.place) marks.now }
{
    let mut rest = marks;
    while let [mark, after @ ..] = rest {
        places.push_reserved(mark.place);
        rest = after;
    }
}

/// How many marks at the front have places below a number.
pub fn count_below(marks: &[Mark], places: u64) -> usize
    ensures few { result ≤ length marks.now }
    ensures below { AreSealed places (map (λ mark. mark.place) (take result marks.now)) }
{
    let mut count = 0;
    while count < marks.len() && marks[count].place < places {
        count += 1;
    }
    count
}

/// How many of the marks are started fetches.
pub fn starts_among(marks: &[Mark]) -> u64
    ensures value { result ≡ starts_in marks.now }
    ensures few { result ≤ length marks.now }
{
    let mut count = 0;
    let mut rest = marks;
    while let [mark, after @ ..] = rest {
        if is_start(&mark.entry) {
            count += 1;
        }
        rest = after;
    }
    count
}

fn is_start(entry: &Entry) -> bool
    ensures { result ≡ is_start entry.now }
{
    matches!(entry, Entry::Started { .. })
}
