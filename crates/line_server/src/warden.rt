//! Maintains a gate while workers serve: sweeps expired answers, and reports a full history.
//! RFC 9309, section 2.4.
ghost use Rattle.std.specs.Prelude.{◌≡◌, IfOk};
ghost use Rattle.gate_lock.specs.Desks.{KeepsOut};
ghost use Rattle.command_server.specs.Readings.{next_reading};
ghost use Rattle.line_server.specs.Sweeping.{GoesRounds, IsSwept, MaySweep, is_due};

use crate::clerk::Clerk;
use crate::fault::ServeFault;
use crate::recorded::Recorded;
use crate::server::Server;
use command_server::{NumberedClock, next_reading};
use fetchers::Fetcher;
use gate_core::Book;
use gate_history::Entry;
use gate_lock::{Desk, Gate, GateLock, Receipts};
use journal::{JournalFault, Recorder};
use robots_verdict::Said;
use std::sync::Wait;
use std::sync::atomic::{AtomicU64, Ordering};
use std::time::Duration;
use std::{thread, time};

/// The most seconds between two sweeps.
pub const SWEEP_SECONDS: u64 = 3_600;

/// The least seconds between them, while the known authorities are at their limit.
pub const FULL_SECONDS: u64 = 60;

// The sleep between two checks for remaining workers.
const NAP_MILLISECONDS: u64 = 100;

/// Called when an operator should know of something.
pub trait Alarm {
    /// The history is full: nothing is asked, begun or swept any more.
    fn log_is_full(&self);

    /// A base of the journal could not be put. It is tried again each minute, and the journal goes on
    /// meanwhile.
    fn base_failed(&self, fault: JournalFault);
}

/// The last sweep, the number of the clock's next reading, whether the full history was reported, and the
/// entries before the base whose robots texts were counted.
#[derive(Clone, Copy)]
struct Rounds {
    swept: u64,
    number: u64,
    told: bool,
    counted: u64,
}

impl<F: Fetcher, C: NumberedClock, A: Alarm, R: Wait + time::Clock> Server<'_, F, C, A, R> {
    /// Maintains the gate at one desk and its records at another, until no worker is left.
    pub(crate) fn watch<G: Gate, J: Recorder>(
        &self,
        recorded: &Recorded<'_, G, J, R>,
        left: &AtomicU64,
    ) -> Result<(Receipts<G>, Receipts<G>), ServeFault>
        ensures swept { IfOk result (λ both. IsSwept (C.reads self.now.clock.now)
            recorded.now.gate.now both.0) }
    {
        let mut clerk = Clerk::open(self.alloc, recorded)?;
        let swept = self.sweep_all(recorded.gate, &mut clerk, left);
        let sealed = clerk.close();
        Ok((swept?, sealed))
    }

    // Maintains both until no worker is left; the receipts are the sweeping desk's.
    fn sweep_all<G: Gate, J: Recorder>(
        &self,
        gate: &GateLock<G>,
        clerk: &mut Clerk<'_, '_, G, J, R>,
        left: &AtomicU64,
    ) -> Result<Receipts<G>, ServeFault>
        ensures swept { IfOk result (IsSwept (C.reads self.now.clock.now) gate.now) }
    {
        let mut desk = gate.desk(self.rt, self.alloc)?;
        self.go_round(clerk, left, &mut desk);
        Ok(desk.close())
    }

    // Maintains the gate until no worker is left, each round at its own reading.
    fn go_round<G: Gate, J: Recorder>(
        &self,
        clerk: &mut Clerk<'_, '_, G, J, R>,
        left: &AtomicU64,
        desk: &mut Desk<'_, G>,
    )
        ensures no { desk.new.no ≡ desk.old.no }
        ensures out { KeepsOut desk.old desk.new }
        ensures rounds { GoesRounds (C.reads self.now.clock.now) desk.old desk.new }
    {
        let mut rounds = Rounds {
            swept: self.clock.read(0),
            number: next_reading(0),
            told: false,
            counted: 0,
        };
        for _ in self.rt.forever() {
            if left.load(Ordering::SeqCst) == 0 {
                return;
            }
            self.see_to(desk, &mut rounds);
            self.count_texts(desk, &mut rounds);
            self.record(clerk);
            thread::sleep(self.rt, Duration::from_millis(NAP_MILLISECONDS));
        }
    }

    // Maintains the records. If they failed, clients are no longer accepted, and each worker ends.
    fn record<G: Gate, J: Recorder>(&self, clerk: &mut Clerk<'_, '_, G, J, R>) {
        if clerk.look(self.alarm).is_err() {
            // If there is no descriptor, the next look tries again.
            let _ = self.listener.shut();
        }
    }

    // Counts the robots texts that are kept, once behind each seal: it may have handed some out.
    fn count_texts<G: Gate>(&self, desk: &Desk<'_, G>, rounds: &mut Rounds)
        ensures swept { rounds.new.swept ≡ rounds.old.swept }
        ensures number { rounds.new.number ≡ rounds.old.number }
    {
        let held = desk.lend(self.rt);
        let base = held.book().base().entries();
        if rounds.counted != base {
            rounds.counted = base;
            self.fetcher.counts_texts(octets_kept(held.book()));
        }
    }

    // Sweeps if due, at the clock's next reading, and reports a full history once.
    fn see_to<G: Gate>(&self, desk: &mut Desk<'_, G>, rounds: &mut Rounds)
        ensures no { desk.new.no ≡ desk.old.no }
        ensures out { KeepsOut desk.old desk.new }
        ensures sweeps { MaySweep (C.reads self.now.clock.now rounds.old.number) desk.old desk.new }
        ensures number { rounds.new.number ≡ next_reading rounds.old.number }
    {
        let now = self.clock.read(rounds.number);
        rounds.number = next_reading(rounds.number);
        let (has_room, is_full) = {
            let held = desk.lend(self.rt);
            let book = held.book();
            let limit = book.limits().authority_limit;
            (book.has_room(3), book.known_count() >= limit)
        };
        if !has_room && !rounds.told {
            rounds.told = true;
            self.alarm.log_is_full();
        }
        if has_room && is_due(rounds.swept, now, is_full) {
            rounds.swept = now;
            // If memory ran out, the next sweep tries again.
            let _ = desk.sweep(self.rt, now);
        }
    }
}

// The octets of the robots texts in a history and its base.
fn octets_kept(book: &Book) -> u64 {
    let standing = book.base().standing().iter().map(|answer| &answer.says);
    let come = book.history().iter().filter_map(answer_in);
    standing
        .chain(come)
        .map(octets_of)
        .fold(0, u64::saturating_add)
}

// What an entry says of an answer that came.
fn answer_in(entry: &Entry) -> Option<&Said> {
    match entry {
        Entry::Arrived { says, .. } => Some(says),
        _ => None,
    }
}

fn octets_of(says: &Said) -> u64 {
    match says {
        Said::Rules(handle) => handle.policy().text().bytes().len() as u64,
        Said::Open(_) | Said::Closed(_) => 0,
    }
}

// Whether to sweep at a moment. A clock set back counts as time for a sweep.
fn is_due(swept: u64, now: u64, is_full: bool) -> bool
    ensures { result ≡ is_due swept now is_full }
{
    let seconds = if is_full { FULL_SECONDS } else { SWEEP_SECONDS };
    now < swept || now - swept >= seconds
}
