//! `GroupJournal`: a journal for several threads; the first to need it writes for all.
//! The lock of the writer is not held while the chronicle is read, or while anything is written.
ghost use Rattle.std.specs.Prelude.{◌≡◌, IfOk};

use crate::chronicle::Chronicle;
use crate::fault::JournalFault;
use crate::first_file::FirstFile;
use crate::meter::JournalMeter;
use crate::policy::SyncPolicy;
use crate::shelf::Shelf;
use crate::writer::Writer;
use counted_io::DeviceFault;
use std::alloc::Global;
use std::marker::Model;
use std::sync::atomic::{AtomicBool, Ordering};
use std::sync::{Arc, Condvar, Mutex, Wait};

// What threads share: the journal's writer, unless a thread has it; how many entries may be sent; and its
// fault, if any.
#[derive(Drop)]
struct SharedWriter<S: Shelf> {
    writer: Option<Writer<S>>,
    reached: u64,
    fault: Option<JournalFault>,
}

impl<S: Shelf> SharedWriter<S> {
    // Whether another thread writes, and the target is not reached.
    fn is_awaited(&self, target: u64) -> bool {
        self.fault.is_none() && self.reached < target && self.writer.is_none()
    }

    // Whether the file is long, while no thread writes it.
    fn is_long(&self) -> bool {
        match &self.writer {
            Some(writer) => writer.is_long(),
            None => false,
        }
    }

    // Whether a base is due, while no thread writes.
    fn is_base_due(&self) -> bool {
        match &self.writer {
            Some(writer) => writer.is_base_due(),
            None => false,
        }
    }
}

/// The octets that a file may have after its beginning before the next one begins: 64 MiB.
pub const FILE_OCTETS: u64 = 67_108_864;

/// A journal for several threads. A clause sees its sync policy.
#[derive(Drop)]
pub struct GroupJournal<S: Shelf> {
    shared: Mutex<SharedWriter<S>>,
    // Notified when a writer is put back.
    moved: Condvar,
    policy: SyncPolicy,
    // Whether the files have as many octets as they may, or as many entries since the last base.
    is_full: AtomicBool,
    // What counts what is written to the files, if anything does.
    meter: Option<Arc<JournalMeter>>,
    // What puts bases before the files. Only who puts one waits for it.
    pub(crate) bases: Mutex<S::Bases>,
}

impl<S: Shelf> Model for GroupJournal<S> {
    ghost use Rattle.journal.specs.declared.policy.SyncPolicy.{SyncPolicy};

    ghost Value = { SyncPolicy };

    ghost view = { λ journal. journal.policy };
}

// What a thread may do with the journal.
#[derive(Drop)]
pub(crate) enum WriterAccess<S: Shelf> {
    // The files have the target.
    Reached,
    Failed,
    // It has the writer, and must put it back.
    Taken(Writer<S>),
}

impl<S: Shelf + Drop> GroupJournal<S> {
    /// A journal that creates the first file: with a whole chronicle, or without a text behind earlier files.
    /// Its files may have so many octets, if that is limited: those of the shelf's earlier files count, too.
    /// Past the limit `has_room` is false, and all that is entered is still written.
    pub fn begin<H: Chronicle>(
        alloc: Global,
        chronicle: &H,
        shelf: S,
        policy: SyncPolicy,
        limit: Option<u64>,
        first: FirstFile,
    ) -> Result<GroupJournal<S>, JournalFault>
        ensures { IfOk result (λ journal. journal ≡ policy) }
    {
        let meter = shelf.meter()?;
        let bases = Mutex::new(shelf.bases()?);
        let writer = Writer::new(alloc, chronicle, shelf, limit, first)?;
        Ok(GroupJournal {
            is_full: AtomicBool::new(!writer.has_room()),
            shared: Mutex::new(SharedWriter {
                reached: writer.place().spelled,
                writer: Some(writer),
                fault: None,
            }),
            moved: Condvar::new(),
            policy,
            meter,
            bases,
        })
    }

    /// Whether the files have fewer octets than they may, and fewer than `TEXT_ENTRIES` entries since the
    /// last base, as was known when they were last written, or tended where they were full. It waits for
    /// nothing. Others may write meanwhile, so an entry that is made then may lead past the limit by what
    /// several threads enter at once.
    pub fn has_room(&self) -> bool {
        !self.is_full.load(Ordering::SeqCst)
    }

    /// What counts what is written to its files, if anything does.
    pub fn meter(&self) -> Option<&JournalMeter> {
        match &self.meter {
            Some(meter) => Some(&**meter),
            None => None,
        }
    }

    /// Its fault, if it has failed: failures are final.
    pub fn fault<R: Wait>(&self, rt: &R) -> Option<JournalFault> {
        self.shared.lock(rt).fault
    }

    /// Waits until the files have all entries that exist now, and a crash keeps them if the policy is
    /// `Always`. It takes no memory.
    pub fn catch_up<H: Chronicle, R: Wait>(
        &self,
        rt: &R,
        chronicle: &H,
    ) -> Result<(), DeviceFault> {
        let target = chronicle.entry_count();
        for _ in rt.forever() {
            match self.take_writer(rt, target) {
                WriterAccess::Reached => return Ok(()),
                WriterAccess::Failed => return Err(DeviceFault),
                WriterAccess::Taken(writer) => {
                    let mut writer = writer;
                    let outcome = writer.catch_up(chronicle, self.policy == SyncPolicy::Always);
                    self.put_back(rt, writer, outcome)?;
                }
            }
        }
        unreachable!()
    }

    /// Fails if the files' place is no longer there, and looks for room if there was none. With the policy
    /// `Second`, waits until a crash keeps all that was written. To be called each second.
    pub fn tend<R: Wait>(&self, rt: &R) -> Result<(), DeviceFault> {
        match self.take_writer(rt, u64::MAX) {
            WriterAccess::Reached => Ok(()),
            WriterAccess::Failed => Err(DeviceFault),
            WriterAccess::Taken(writer) => {
                let mut writer = writer;
                let outcome = writer.tend(self.policy);
                self.put_back(rt, writer, outcome)
            }
        }
    }

    /// Whether a new file is due: by entries since the last one, or by octets after the file's beginning,
    /// if more than `FILE_OCTETS` and than the beginning has. Without room none is.
    pub fn is_due<H: Chronicle, R: Wait>(&self, rt: &R, chronicle: &H) -> bool {
        self.has_room() && (chronicle.is_due() || self.shared.lock(rt).is_long())
    }

    /// Whether a base is due, behind what is sealed first: by the entries, the files or the octets since the
    /// last base. Without room for the files' octets none is.
    pub fn is_base_due<R: Wait>(&self, rt: &R) -> bool {
        self.shared.lock(rt).is_base_due()
    }

    /// Its sync policy.
    pub fn policy(&self) -> SyncPolicy
        ensures { result ≡ self.now }
    {
        self.policy
    }

    // Waits until the files have so many entries, or takes the writer.
    pub(crate) fn take_writer<R: Wait>(&self, rt: &R, target: u64) -> WriterAccess<S> {
        let shared = self.shared.lock(rt);
        let mut shared = self
            .moved
            .wait_while(rt, shared, |shared| shared.is_awaited(target));
        if shared.fault.is_some() {
            return WriterAccess::Failed;
        }
        if shared.reached >= target {
            return WriterAccess::Reached;
        }
        match shared.writer.take() {
            Some(writer) => WriterAccess::Taken(writer),
            None => WriterAccess::Failed,
        }
    }

    // Puts the writer back, and wakes all waiting.
    pub(crate) fn put_back<R: Wait>(
        &self,
        rt: &R,
        writer: Writer<S>,
        outcome: Result<(), JournalFault>,
    ) -> Result<(), DeviceFault> {
        self.is_full.store(!writer.has_room(), Ordering::SeqCst);
        let result = {
            let mut shared = self.shared.lock(rt);
            let shared = &mut *shared;
            shared.note(writer, outcome)
        };
        self.moved.notify_all();
        result
    }
}

impl<S: Shelf + Drop> SharedWriter<S> {
    // Takes back the writer and its result.
    fn note(
        &mut self,
        writer: Writer<S>,
        outcome: Result<(), JournalFault>,
    ) -> Result<(), DeviceFault> {
        let place = writer.place();
        self.writer = Some(writer);
        match outcome {
            Ok(()) => {
                self.reached = place.spelled;
                Ok(())
            }
            Err(fault) => {
                self.fault = Some(fault);
                Err(DeviceFault)
            }
        }
    }
}
