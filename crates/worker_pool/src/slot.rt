//! The slot of a seat: what its worker begins with, and what it returned.
//! Used by `Pool`.
ghost use Rattle.std.specs.Prelude.{◌≡◌};
ghost use Rattle.std.specs.Option.{IsSomeAnd};
ghost use Rattle.worker_pool.specs.Pools.{HasRun};

/// A seat until its worker begins, and the worker's work and receipts once it has ended, or its fault.
#[derive(Drop)]
pub(crate) struct SeatSlot<S: Drop, T: Drop, Q: Drop, E: Drop> {
    pub(crate) seat: Option<S>,
    pub(crate) end: Option<Result<(T, Q), E>>,
}

impl<S: Drop, T: Drop, Q: Drop, E: Drop> SeatSlot<S, T, Q, E> {
    /// Runs the seat's worker to its end.
    pub(crate) fn run<M: Fn(S) -> Result<(T, Q), E>>(&mut self, man: &M)
        requires { IsSomeAnd self.old.seat (M.pre man.now) }
        ensures { HasRun (M.post man.now) self.old.seat self.new.end }
    {
        let Some(seat) = self.seat.take() else {
            return;
        };
        self.end = Some(man(seat));
    }

    /// What its worker returned, if it has ended.
    pub(crate) fn into_end(self) -> Option<Result<(T, Q), E>>
        ensures { result ≡ self.end }
    {
        let SeatSlot { seat: _, end } = self;
        end
    }
}
