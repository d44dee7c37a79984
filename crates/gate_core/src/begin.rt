//! `Book::begin`: a turn to fetch an authority's robots.txt.
//! RFC 9309, section 2.3.
ghost use Rattle.std.specs.Prelude.{◌≡◌, ◌+◌, ◌≤◌, IfOk, OnErr, OnOk, Some, length, vec_capacity};
ghost use Rattle.gate_core.specs.TurnNames.{KeepsName, names_by};
ghost use Rattle.gate_core.specs.Replies.{Begins};

use crate::book::Book;
use crate::refusal::BeginRefusal;
use crate::turn_names::TurnNames;
use authority_cache::TurnNo;
use gate_history::Entry;
use path_normal::Authority;
use std::alloc::AllocError;

impl Book {
    /// Begins a turn and returns its number. Room is made for the arrival, which then allocates nothing.
    pub fn begin(&mut self, authority: &Authority, moment: u64) -> Result<TurnNo, BeginRefusal>
        ensures { Begins self.old authority.now moment result self.new }
    {
        let found = self.cache.find(authority.text());
        if found.is_fetching() {
            return Err(BeginRefusal::InFlight);
        }
        if !self.has_room(2) {
            return Err(BeginRefusal::LogFull);
        }
        let moment = self.moment_of_call(moment);
        let turn = TurnNo::new(self.begins + 1);
        let room = self.promised() as usize + 2;
        let name = name_turn(&mut self.names, &mut self.entries, room, turn, authority)?;
        self.cache.begin_at(found, authority, turn, moment)?;
        self.entries.push_reserved(Entry::Begun {
            moment,
            authority: name,
            turn,
        });
        self.clock = moment;
        self.begins += 1;
        Ok(turn)
    }
}

// Keeps the authority's name for the arrival, makes room for the turn's two entries, and returns a copy for
// the first.
fn name_turn(
    names: &mut TurnNames,
    entries: &mut Vec<Entry>,
    room: usize,
    turn: TurnNo,
    authority: &Authority,
) -> Result<Authority, AllocError>
    ensures name { IfOk result (λ name. name ≡ authority.now) }
    ensures kept { OnOk result (KeepsName (names_by names.old) turn (Some authority.now)
        (names_by names.new)) }
    ensures same { OnErr result (names_by names.new ≡ names_by names.old) }
    ensures items { entries.new.items ≡ entries.old.items }
    ensures room { OnOk result (length entries.old.items + room ≤ vec_capacity entries.new) }
    ensures capacity { vec_capacity entries.old ≤ vec_capacity entries.new }
{
    let name = authority.copy()?;
    let kept = authority.copy()?;
    entries.reserve(room)?;
    names.put(turn, kept)?;
    Ok(name)
}
