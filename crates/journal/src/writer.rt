//! Writes a journal: formats what the files lack, and writes that.
//! One thread has it at a time; `GroupJournal` passes it on.
ghost use Rattle.std.specs.Prelude.{◌≡◌, ◌≢◌, ◌↔◌, ◌-◌, [], IfOk, IsTrue, OnErr, OnOk, false, length, true};
ghost use Rattle.journal.specs.Bases.{HasTextRoom, IsFar, distance_from, entries_added, octets_added};
ghost use Rattle.journal.specs.Crash.{HasKept};
ghost use Rattle.journal.specs.Journal.{Writes};
ghost use Rattle.journal.specs.declared.policy.SyncPolicy.TheVariants as SyncPolicy;
ghost use Rattle.journal.specs.Rooms.{HasRoom};
ghost use Rattle.journal.specs.Writing.{BeginsFirst, BeginsLog, CatchesUpTo, CountsFile, IsRest, WritesText, filled};

use crate::chronicle::{Chronicle, Rest, Sealer, Spelled};
use crate::distance::Distance;
use crate::fault::JournalFault;
use crate::files_room::FilesRoom;
use crate::first_file::{FirstFile, first_file};
use crate::group::FILE_OCTETS;
use crate::journal::Journal;
use crate::policy::SyncPolicy;
use crate::position::JournalPosition;
use crate::shelf::{BegunFile, Shelf};
use crate::tape::Tape;
use counted_io::Output;
use std::alloc::Global;
use std::marker::Model;
use std::mem;

// The last file, the end of its text, and its octets, now and at its beginning; the memory for texts of
// entries; the room for all files; and the distance from the last base, now and at the file's beginning.
#[derive(Drop)]
pub(crate) struct Writer<S: Shelf> {
    alloc: Global,
    output: Output,
    memory: Vec<u8>,
    shelf: S,
    journal: Journal<S::Tape>,
    place: JournalPosition,
    octets: u64,
    head: u64,
    room: FilesRoom,
    distance: Distance,
    begun: Distance,
}

impl<S: Shelf> Model for Writer<S> {
    ghost use Rattle.std.specs.Prelude.{◌≡◌, []};
    ghost use Rattle.journal.specs.Writing.{Written};

    ghost Value = { Written };

    ghost view = { λ w. record {
      noted = w.journal;
      place = w.place;
      distance = w.distance;
      begun = w.begun;
      room = w.room;
    } };

    ghost invariant = { λ w. (w.output ≡ []) × (w.memory.items ≡ []) };
}

impl<S: Shelf> Writer<S> {
    // Creates a first file. All files may have so many octets, if that is limited.
    pub fn new<H: Chronicle>(
        alloc: Global,
        chronicle: &H,
        shelf: S,
        limit: Option<u64>,
        first: FirstFile,
    ) -> Result<Writer<S>, JournalFault>
    where
        S: Drop,
        ensures { IfOk result (λ writer. BeginsFirst (H.begins chronicle.now) writer) }
    {
        let mut shelf = shelf;
        let mut output = Output::new(alloc)?;
        let memory = chronicle.room()?;
        let (file, distance) = first_file(&mut shelf, chronicle, &mut output, first)?;
        let BegunFile {
            tape,
            place,
            octets,
        } = file;
        let mut room = FilesRoom::new(limit);
        if room.is_limited() {
            room.set(shelf.octets()?);
        }
        Ok(Writer {
            alloc,
            output,
            memory,
            shelf,
            journal: Journal::new(tape),
            place,
            octets,
            head: octets,
            room,
            distance,
            begun: distance,
        })
    }

    pub fn place(&self) -> JournalPosition
        ensures { result ≡ self.now.place }
    {
        self.place
    }

    pub fn is_long(&self) -> bool {
        let own = self.octets.saturating_sub(self.head);
        own > FILE_OCTETS && own > self.head
    }

    // Looks whether the files' place is still there. With the policy `Second`, waits until a crash keeps all
    // that was written.
    pub fn tend(&mut self, policy: SyncPolicy) -> Result<(), JournalFault>
        ensures kept { OnOk result (policy ≡ SyncPolicy.Second
            → HasKept self.new.noted.written self.new.noted.kept) }
        ensures same { OnOk result (policy ≡ SyncPolicy.Second
            → Writes self.old.noted self.new.noted []) }
        ensures idle { policy ≢ SyncPolicy.Second
            → self.new ≡ record self.old { room = self.new.room } }
        ensures counts { (self.new.distance ≡ self.old.distance)
            × (self.new.begun ≡ self.old.begun) }
        ensures place { self.new.place ≡ self.old.place }
    {
        self.shelf.look()?;
        self.look_for_room();
        match policy {
            SyncPolicy::Second => self.sync(),
            SyncPolicy::Always | SyncPolicy::Never => Ok(()),
        }
    }

    // Whether entries may come.
    pub fn has_room(&self) -> bool
        ensures { IsTrue result ↔ HasRoom self.now.room × HasTextRoom self.now.distance }
    {
        self.room.is_left() && self.distance.has_text_room()
    }

    // Whether a base is due. Without room for files none is.
    pub fn is_base_due(&self) -> bool
        ensures { IsTrue result
            ↔ HasRoom self.now.room × IsFar self.now.distance self.now.room.limit }
    {
        self.room.is_left() && self.distance.is_far(self.room.limit())
    }

    // The distance from the last base to the file's beginning.
    pub fn begun(&self) -> Distance
        ensures { result ≡ self.now.begun }
    {
        self.begun
    }

    // A base of so many octets stands where the distance from the one before was this.
    pub fn note_base(&mut self, there: Distance, octets: u64)
        ensures { self.new ≡ record self.old {
          distance = distance_from self.old.distance there octets;
          begun = distance_from self.old.begun there octets;
          room = filled self.old.room octets;
        } }
    {
        self.distance = self.distance.from(there, octets);
        self.begun = self.begun.from(there, octets);
        self.room.add(octets);
    }

    // Where there was no room, counts anew: old files may have been moved away.
    fn look_for_room(&mut self)
        ensures same { self.new ≡ record self.old { room = self.new.room } }
        ensures limit { self.new.room.limit ≡ self.old.room.limit }
    {
        if self.room.is_left() {
            return;
        }
        if let Ok(octets) = self.shelf.octets() {
            self.room.set(octets);
        }
    }

    // Formats and writes the next piece of what is missing.
    pub fn catch_up<H: Chronicle>(
        &mut self,
        chronicle: &H,
        always: bool,
    ) -> Result<(), JournalFault>
        ensures { OnOk result (CatchesUpTo (H.follows chronicle.now) self.old self.new always) }
    {
        let (text, place) = self.spell(chronicle)?;
        self.write(text.as_slice(), always)?;
        self.move_to(place);
        self.give_back(text);
        Ok(())
    }

    // Takes back the memory of a text for the next one.
    pub fn give_back(&mut self, memory: Vec<u8>)
        ensures { self.new ≡ self.old }
    {
        let mut memory = memory;
        memory.clear();
        self.memory = memory;
    }

    // The memory for a text.
    fn take_memory(&mut self) -> Vec<u8>
        ensures empty { result.items ≡ [] }
        ensures same { self.new ≡ self.old }
    {
        mem::replace(&mut self.memory, Vec::new(self.alloc))
    }

    // Waits until a crash keeps all that was written.
    pub fn sync(&mut self) -> Result<(), JournalFault>
        ensures kept { OnOk result (HasKept self.new.noted.written self.new.noted.kept) }
        ensures same { OnOk result (Writes self.old.noted self.new.noted []) }
        ensures place { self.new.place ≡ self.old.place }
        ensures counts { (self.new.distance ≡ self.old.distance)
            × (self.new.begun ≡ self.old.begun) }
    {
        self.append(&[], true)
    }

    // Writes some entries of what was sealed.
    pub fn write_part(&mut self, text: &[u8], place: JournalPosition) -> Result<(), JournalFault>
        ensures writes { OnOk result (WritesText (λ t. t ≡ text.now) self.old self.new false) }
        ensures place { OnOk result (self.new.place ≡ place) }
    {
        self.write(text, false)?;
        self.move_to(place);
        Ok(())
    }

    // Writes the end of the file, with which so many entries are spelled, and syncs it.
    pub fn end_file(&mut self, rest: &[u8], spelled: u64) -> Result<(), JournalFault>
        ensures { OnOk result (WritesText (λ text. text ≡ rest.now) self.old self.new true) }
    {
        self.write(rest, true)?;
        self.move_to(JournalPosition {
            begun: self.place.begun,
            spelled,
        });
        Ok(())
    }

    // Begins the next file, without a text: entries follow at once.
    pub fn begin_log(&mut self, next: JournalPosition) -> Result<(), JournalFault>
        ensures begins { OnOk result (BeginsLog next self.new) }
        ensures counts { OnOk result (CountsFile next self.old self.new) }
    {
        let BegunFile {
            tape,
            place: _,
            octets,
        } = self.shelf.put_log(next.begun)?;
        self.journal = Journal::new(tape);
        self.move_to(next);
        self.begun = self.distance;
        self.distance.add_file();
        self.head = octets;
        self.octets = octets;
        Ok(())
    }

    // The text has grown to this place.
    fn move_to(&mut self, place: JournalPosition)
        ensures { self.new ≡ record self.old {
          place = place;
          distance = entries_added self.old.distance (place.spelled - self.old.place.spelled);
        } }
    {
        let entries = place.spelled.saturating_sub(self.place.spelled);
        self.distance.add_entries(entries);
        self.place = place;
    }

    // The text of the next piece of what is missing.
    fn spell<H: Chronicle>(&mut self, chronicle: &H) -> Result<Spelled, JournalFault>
        ensures follows { IfOk result (λ text.
            H.follows chronicle.now self.old.place text.0.items text.1) }
        ensures same { self.new ≡ self.old }
    {
        let memory = self.take_memory();
        chronicle.follow(&mut self.output, self.place, memory)
    }

    // The next text of what the file lacks of what was sealed.
    pub fn rest<K: Sealer>(&mut self, sealed: &K::Sealed) -> Result<Rest, JournalFault>
        ensures rest { IfOk result (IsRest (K.parts sealed.now self.old.place)
            (K.ends sealed.now self.old.place) (K.nothing sealed.now)) }
        ensures same { self.new ≡ self.old }
    {
        let memory = self.take_memory();
        K::rest(sealed, &mut self.output, self.place, memory)
    }

    // Appends a text, which counts, and syncs it if asked.
    fn write(&mut self, text: &[u8], always: bool) -> Result<(), JournalFault>
        ensures writes { OnOk result (Writes self.old.noted self.new.noted text.now) }
        ensures kept { OnOk result (always ≡ true
            → HasKept self.new.noted.written self.new.noted.kept) }
        ensures place { self.new.place ≡ self.old.place }
        ensures begun { self.new.begun ≡ self.old.begun }
        ensures distance { OnOk result
            (self.new.distance ≡ octets_added self.old.distance (length text.now)) }
        ensures room { OnOk result (self.new.room ≡ filled self.old.room (length text.now)) }
        ensures unwritten { OnErr result ((self.new.distance ≡ self.old.distance)
            × (self.new.room ≡ self.old.room)) }
    {
        self.append(text, always)?;
        self.octets = self.octets.saturating_add(text.len() as u64);
        self.distance.add_octets(text.len() as u64);
        self.room.add(text.len() as u64);
        Ok(())
    }

    // Appends octets that do not count, and syncs them if asked.
    fn append(&mut self, text: &[u8], always: bool) -> Result<(), JournalFault>
        ensures writes { OnOk result (Writes self.old.noted self.new.noted text.now) }
        ensures kept { OnOk result (always ≡ true
            → HasKept self.new.noted.written self.new.noted.kept) }
        ensures same { self.new ≡ record self.old { noted = self.new.noted } }
    {
        let result = if always {
            self.journal.commit(text)
        } else {
            self.journal.write(text)
        };
        match result {
            Ok(()) => Ok(()),
            Err(_) => Err(JournalFault::Device(self.journal.tape().cause())),
        }
    }
}
