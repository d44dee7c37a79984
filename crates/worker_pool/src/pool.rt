//! A pool: it runs its workers, and takes what each returned.
ghost use Rattle.std.specs.Prelude.{◌≡◌, ◌≤◌, ◌<◌, ℕ, [], All, IfOk, Some, length, map, slice_index_or, vec_capacity, vec_len};
ghost use Rattle.std.specs.Option.{IsSome, IsSomeAnd};
ghost use Rattle.std.specs.Result.{IfErr};
ghost use Rattle.worker_pool.specs.Pools.{FailsFirst, HasRun, ReturnEach};

use crate::slot::SeatSlot;
use std::alloc::{AllocError, Global};
use std::marker::Model;
use std::thread;
use std::thread::Threads;

/// What the workers of a pool returned, in the order of their seats.
#[derive(Drop)]
pub struct Returned<T: Drop, Q: Drop> {
    pub works: Vec<T>,
    pub receipts: Vec<Q>,
}

/// The seats of workers that have not begun, with room for what they return.
#[derive(Drop)]
pub struct Pool<S: Drop, T: Drop, Q: Drop, E: Drop> {
    seats: Vec<S>,
    slots: Vec<SeatSlot<S, T, Q, E>>,
    returned: Returned<T, Q>,
}

impl<S: Drop, T: Drop, Q: Drop, E: Drop> Model for Pool<S, T, Q, E> {
    ghost use Rattle.std.specs.Prelude.{◌≡◌, ◌≤◌, List, length, vec_capacity, vec_len};

    ghost Value = { List S };

    ghost view = { λ pool. pool.seats.items };

    ghost invariant = { λ pool. (vec_len pool.slots ≡ 0)
        × (vec_len pool.returned.works ≡ 0) × (vec_len pool.returned.receipts ≡ 0)
        × (vec_len pool.seats ≤ vec_capacity pool.slots)
        × (vec_len pool.seats ≤ vec_capacity pool.returned.works)
        × (vec_len pool.seats ≤ vec_capacity pool.returned.receipts) };
}

impl<S: Send + Drop, T: Send + Drop, Q: Send + Drop, E: Send + Drop> Pool<S, T, Q, E> {
    /// A worker for each of these seats.
    pub fn new(alloc: Global, seats: Vec<S>) -> Result<Pool<S, T, Q, E>, AllocError>
        ensures { IfOk result (λ pool. pool ≡ seats.items) }
    {
        let count = seats.len();
        Ok(Pool {
            seats,
            slots: Vec::with_capacity(alloc, count)?,
            returned: Returned {
                works: Vec::with_capacity(alloc, count)?,
                receipts: Vec::with_capacity(alloc, count)?,
            },
        })
    }

    /// Runs each seat's worker, `man`, to its end: each on its own thread, as far as there are threads, and
    /// the last on the caller's. Takes no memory but that of threads. The first fault in the order of the
    /// seats is returned, and what the others returned is dropped then.
    pub fn run<M: Fn(S) -> Result<(T, Q), E> + Sync, R: Threads + Sync>(
        self,
        rt: &R,
        man: &M,
    ) -> Result<Returned<T, Q>, E>
        requires { All (M.pre man.now) self }
        ensures all { IfOk result (λ all.
            ReturnEach (M.post man.now) self all.works.items all.receipts.items) }
        ensures fault { IfErr result (FailsFirst (M.post man.now) self) }
    {
        let Pool {
            seats,
            mut slots,
            returned,
        } = self;
        seat_all(seats, &mut slots);
        run_all(rt, &mut slots, man);
        take_all(slots, returned)
    }
}

// Each seat in a slot.
fn seat_all<S: Drop, T: Drop, Q: Drop, E: Drop>(
    seats: Vec<S>,
    slots: &mut Vec<SeatSlot<S, T, Q, E>>,
)
    requires none { vec_len slots.old ≡ 0 }
    requires room { vec_len seats ≤ vec_capacity slots.old }
    ensures len { vec_len slots.new ≡ vec_len seats }
    ensures seats { map (λ slot. slot.seat) slots.new.items ≡ map Some seats.items }
{
    for seat in seats {
        slots.push_reserved(SeatSlot {
            seat: Some(seat),
            end: None,
        });
    }
}

// Takes what the workers returned, up to the first fault.
fn take_all<S: Drop, T: Drop, Q: Drop, E: Drop>(
    slots: Vec<SeatSlot<S, T, Q, E>>,
    mut returned: Returned<T, Q>,
) -> Result<Returned<T, Q>, E>
    requires none { (returned.works.items ≡ []) × (returned.receipts.items ≡ []) }
    requires works { vec_len slots ≤ vec_capacity returned.works }
    requires receipts { vec_len slots ≤ vec_capacity returned.receipts }
    requires ended { All (λ slot. IsSome slot.end) slots.items }
    ensures all { IfOk result (λ all. ReturnEach (λ slot end. slot.end ≡ Some end)
        slots.items all.works.items all.receipts.items) }
    ensures fault { IfErr result (FailsFirst (λ slot end. slot.end ≡ Some end) slots.items) }
{
    for slot in slots {
        let Some(end) = slot.into_end() else {
            unreachable!();
        };
        let (work, receipts) = match end {
            Ok(both) => both,
            Err(fault) => return Err(fault),
        };
        returned.works.push_reserved(work);
        returned.receipts.push_reserved(receipts);
    }
    Ok(returned)
}

// Runs each worker on its own thread, and the last on this.
fn run_all<
    S: Send + Drop,
    T: Send + Drop,
    Q: Send + Drop,
    E: Send + Drop,
    M: Fn(S) -> Result<(T, Q), E> + Sync,
    R: Threads + Sync,
>(rt: &R, slots: &mut [SeatSlot<S, T, Q, E>], man: &M)
    requires { All (λ slot. IsSomeAnd slot.seat (M.pre man.now)) slots.old }
    ensures { (i : ℕ) (d : _) → i < length slots.old →
        HasRun (M.post man.now) (slice_index_or slots.old i d).seat (slice_index_or slots.new i d).end }
{
    let threads = slots.len().max(1);
    thread::for_each_mut(
        rt,
        slots,
        threads,
        &|_: usize, slot: &mut SeatSlot<S, T, Q, E>|
            requires { IsSomeAnd slot.old.seat (M.pre man.now) }
            ensures { HasRun (M.post man.entry.now) slot.old.seat slot.new.end }
        { slot.run(man) },
    );
}
