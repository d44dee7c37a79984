//! The entries of a history in pieces, so that the text of each fits into memory that was taken before.
//! docs/FORMATS.md has the lines.
ghost use Rattle.std.specs.Prelude.{◌≡◌, ◌≤◌, ◌-◌, [], length, IfOk, IfSome};
ghost use Rattle.gate_journal.specs.Follows.{IsPlaceIn, SpellsTo, spelled_count};

use crate::spelling::{entries_behind, follow};
use counted_io::Output;
use gate_history::{Base, Entry};
use journal::{JournalFault, JournalPosition, Spelled};
use path_normal::MAX_AUTHORITY;
use robots_text::MAX_TEXT;
use robots_verdict::Said;

// A piece ends with the entry that brings its text to this many octets.
const PIECE: usize = 262_144;

// The most octets of a line without its URL, authority and robots text: words, numbers, a token.
const LINE: usize = 256;

// The most octets of text for one of a robots text: `%` and two digits.
const ESCAPED: usize = 3;

/// The octets that the text of any piece fits into.
pub(crate) const ROOM: usize = PIECE + LINE + MAX_AUTHORITY + ESCAPED * MAX_TEXT;

/// The text of the next piece of a segment's entries behind a place, and where that ends.
pub(crate) fn next_piece(
    base: &Base,
    entries: &[Entry],
    output: &mut Output,
    place: JournalPosition,
    room: Vec<u8>,
) -> Result<Spelled, JournalFault>
    requires idle { output.old ≡ [] }
    requires empty { room.items ≡ [] }
    ensures spells { IfOk result (λ text. SpellsTo place
        (record { base = base.now; entries = entries.now }) text.0.items text.1) }
    ensures idle { output.new ≡ [] }
{
    let Some(next) = piece_end(base, entries, place) else {
        return Err(JournalFault::Elsewhere);
    };
    let end = (next.spelled - next.begun) as usize;
    let text = follow(base, &entries[..end], output, place, room)?;
    Ok((text, next))
}

// Where the next piece ends.
fn piece_end(base: &Base, entries: &[Entry], place: JournalPosition) -> Option<JournalPosition>
    ensures is { IfSome result (λ next. IsPlaceIn next
        (record { base = base.now; entries = entries.now })) }
    ensures goes { IfSome result
        (λ next. next ≡ place → spelled_count place ≡ length entries.now) }
{
    let behind = entries_behind(base, entries, place)?;
    let count = piece_len(behind);
    Some(JournalPosition {
        begun: place.begun,
        spelled: place.spelled.checked_add(count as u64)?,
    })
}

// How many of these entries are the next piece: none only if there are none.
fn piece_len(entries: &[Entry]) -> usize
    ensures within { result ≤ length entries.now }
    ensures some { result ≡ 0 → entries.now ≡ [] }
{
    let Some(first) = entries.first() else {
        return 0;
    };
    let mut octets = octets_at_most(first);
    let mut count = 1;
    while count < entries.len() && octets < PIECE {
        octets = octets.saturating_add(octets_at_most(&entries[count]));
        count += 1;
    }
    count
}

// The most octets of an entry's line.
fn octets_at_most(entry: &Entry) -> usize {
    match entry {
        Entry::Arrived {
            authority,
            says,
            ..
        } => (LINE + authority.text().len()).saturating_add(escaped_octets(says)),
        Entry::Begun { authority, .. } => LINE + authority.text().len(),
        Entry::Granted { fetch, .. } | Entry::AskDenied { fetch, .. } => {
            LINE + fetch.url.text().len()
        }
        _ => LINE,
    }
}

fn escaped_octets(says: &Said) -> usize {
    match says {
        Said::Rules(handle) => handle.policy().text().bytes().len().saturating_mul(ESCAPED),
        Said::Open(_) | Said::Closed(_) => 0,
    }
}
