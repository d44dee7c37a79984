//! The right to serve a place, and where the place goes afterwards.
//! Made by `Queues` alone, and used up there.

/// What a turn is for.
#[derive(Clone, Copy, Debug, PartialEq, Eq)]
pub(crate) enum Task {
    /// The client has octets, or takes some.
    Serve,
    /// The conversation's slow step.
    Work,
    /// The client's time is over, or the loop is shut.
    End,
}

/// A worker's right to serve a place. It has no `Drop`: each is given back once, to the queues, and until
/// then no other worker is given the place.
#[must_use]
#[derive(Debug)]
pub(crate) struct PlaceTurn {
    pub(crate) place: usize,
    pub(crate) task: Task,
}

/// Where a place goes after a turn.
#[derive(Clone, Copy, Debug, PartialEq, Eq)]
pub(crate) enum AfterTurn {
    /// It waits for its client.
    Waits,
    /// It is called again soon.
    Parked,
    /// It is called at once.
    Quick,
    /// It is called once a slow step may be taken.
    Slow,
    /// Its client has left.
    Free,
}
