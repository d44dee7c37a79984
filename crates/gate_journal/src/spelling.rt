//! Parts of a history as texts in memory.
//! See docs/FORMATS.md.
ghost use Rattle.std.specs.Prelude.{◌≡◌, [], IfOk, IfSome, None, OnOk};
ghost use Rattle.std.specs.Io.KnownBytes.{Appends};
ghost use Rattle.history_text.specs.declared.version.Version.TheVariants.{Two};
ghost use Rattle.history_text.specs.Spell.{entry_lines};
ghost use Rattle.journal.specs.Shelves.{WritesSome};
ghost use Rattle.journal.specs.Writing.{IsRest};
ghost use Rattle.gate_journal.specs.Follows.{AreBehind, BaseNumber, BaseText, EndsFile, Follows, HandsNothing, IsRestIn, PartOf};

use crate::pieces::next_piece;
use counted_io::{Counted, DeviceFault, Output, Sink};
use gate_core::NoMemory;
use gate_history::{Base, Entry, Segment};
use history_text::{export_base, push_entries};
use journal::{JournalFault, JournalPosition, Rest};
use std::io;

/// What a journal's file lacks of what a seal handed out, in the memory of `room`: no more than a piece. It
/// fails if the room is too small and memory runs out, or if the segment does not continue at the place.
pub fn rest_of(
    sealed: &Result<Segment, NoMemory>,
    output: &mut Output,
    place: JournalPosition,
    room: Vec<u8>,
) -> Result<Rest, JournalFault>
    requires idle { output.old ≡ [] }
    requires empty { room.items ≡ [] }
    ensures rest { IfOk result (IsRest (PartOf sealed.now place) (EndsFile sealed.now place)
        (HandsNothing sealed.now)) }
    ensures idle { output.new ≡ [] }
{
    match sealed {
        // (an empty segment has no base of its own)
        Ok(segment) if segment.entries().is_empty() => Ok(Rest::Nothing(room)),
        Ok(segment) => rest_in(segment.base(), segment.entries(), output, place, room),
        Err(_) => Ok(Rest::Nothing(room)),
    }
}

// What a file lacks of a segment's entries.
fn rest_in(
    base: &Base,
    entries: &[Entry],
    output: &mut Output,
    place: JournalPosition,
    room: Vec<u8>,
) -> Result<Rest, JournalFault>
    requires idle { output.old ≡ [] }
    requires empty { room.items ≡ [] }
    ensures rest { IfOk result (λ rest. IsRestIn place
        (record { base = base.now; entries = entries.now }) rest) }
    ensures idle { output.new ≡ [] }
{
    let (text, next) = next_piece(base, entries, output, place, room)?;
    if (next.spelled - next.begun) as usize == entries.len() {
        Ok(Rest::Last(text, JournalPosition::after(next.spelled)))
    } else {
        Ok(Rest::Part(text, next))
    }
}

/// How many entries precede what a seal handed out; none if it handed out no entry.
pub fn base_entries_of(sealed: &Result<Segment, NoMemory>) -> Option<u64>
    ensures number { IfSome result (BaseNumber sealed.now) }
    ensures none { result ≡ None → HandsNothing sealed.now }
{
    match sealed {
        // (an empty segment has no base of its own)
        Ok(segment) if segment.entries().is_empty() => None,
        Ok(segment) => Some(segment.base().entries()),
        Err(_) => None,
    }
}

/// Writes the text of the base before what a seal handed out. It needs no memory, but is faster with some: see
/// `export`.
pub fn write_base_of<W: Sink>(
    sealed: &Result<Segment, NoMemory>,
    output: &mut Output,
    sink: &mut W,
) -> Result<(), DeviceFault>
    requires { output.old ≡ [] }
    ensures writes { OnOk result
        (WritesSome (BaseText sealed.now) (W.written sink.old) (W.written sink.new)) }
    ensures idle { output.new ≡ [] }
{
    let written = match sealed {
        Ok(segment) => export_base(segment.base(), output, sink),
        Err(_) => Err(DeviceFault),
    };
    // (nothing is pending behind an export: this says so)
    let _ = output.flush(&mut Counted::new(io::sink()));
    written
}

/// The lines of a segment's entries after a place.
pub(crate) fn follow(
    base: &Base,
    entries: &[Entry],
    output: &mut Output,
    place: JournalPosition,
    room: Vec<u8>,
) -> Result<Vec<u8>, JournalFault>
    requires idle { output.old ≡ [] }
    requires empty { room.items ≡ [] }
    ensures follows { IfOk result (λ text. Follows place
        (record { base = base.now; entries = entries.now }) text.items) }
    ensures idle { output.new ≡ [] }
{
    match entries_behind(base, entries, place) {
        Some(entries) => lines(entries, output, room),
        None => Err(JournalFault::Elsewhere),
    }
}

// The lines of entries. It fails only if the room is too small and memory runs out.
fn lines(entries: &[Entry], output: &mut Output, room: Vec<u8>) -> Result<Vec<u8>, JournalFault>
    requires idle { output.old ≡ [] }
    requires empty { room.items ≡ [] }
    ensures lines { IfOk result (λ text. text.items ≡ entry_lines Two entries.now) }
    ensures idle { output.new ≡ [] }
{
    let mut sink = Counted::new(room);
    match write_lines(entries, output, &mut sink) {
        Ok(()) => Ok(sink.into_inner()),
        Err(DeviceFault) => Err(JournalFault::NoMemory),
    }
}

// Writes the lines of entries. Even on failure nothing stays pending.
fn write_lines<W: Sink>(
    entries: &[Entry],
    output: &mut Output,
    sink: &mut W,
) -> Result<(), DeviceFault>
    requires { output.old ≡ [] }
    ensures ok { OnOk result
        (Appends (W.written sink.old) (W.written sink.new) (entry_lines Two entries.now)) }
    ensures idle { output.new ≡ [] }
{
    let pushed = push_entries(entries, output, sink);
    let flushed = output.flush(sink);
    pushed?;
    flushed
}

/// A segment's entries after a place in it.
pub(crate) fn entries_behind<'a>(
    base: &Base,
    entries: &'a [Entry],
    place: JournalPosition,
) -> Option<&'a [Entry]>
    ensures { IfSome result (λ behind. AreBehind place
        (record { base = base.now; entries = entries.now }) behind.now) }
{
    if base.entries() != place.begun {
        return None;
    }
    let count = place.spelled.checked_sub(place.begun)? as usize;
    if count > entries.len() {
        return None;
    }
    Some(&entries[count..])
}
