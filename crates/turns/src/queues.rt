//! The places that are called, and whose turn it is.
//! What lies under the lock of a `Dispatcher`.
ghost use Rattle.std.specs.Prelude.{◌≡◌, ◌≤◌, IfOk, replicate, vec_len};
ghost use Rattle.turns.specs.Marks.{Lists, is_free, is_quick, is_slow};

use crate::load::Load;
use crate::moment::Moment;
use crate::sizes::Sizes;
use crate::turn::{AfterTurn, PlaceTurn, Task};
use std::alloc::{AllocError, Global};
use std::collections::VecDeque;

/// How many clients a loop takes.
#[derive(Clone, Copy, Debug, PartialEq, Eq)]
pub enum Clients {
    /// This many more.
    Left(u64),
    /// All that come.
    Endless,
    /// None, and those that are here are let go.
    Shut,
}

/// What a place is doing.
#[derive(Clone, Copy, Debug, PartialEq, Eq)]
pub(crate) enum PlaceMark {
    /// It has no client.
    Free,
    /// It waits for its client.
    Waits,
    /// It waits for something else, and is called soon.
    Parked,
    /// It is called.
    Quick,
    /// It is called for a slow step.
    Slow,
    /// It is called to let its client go.
    Ends,
    /// A worker has its turn.
    Served,
}

/// Whether a client may be waiting at the listener who was not let in.
#[derive(Clone, Copy, Debug, PartialEq, Eq)]
pub(crate) enum Door {
    Clear,
    Blocked,
}

/// Which of the two queues is next if a place stands in both.
#[derive(Clone, Copy, Debug, PartialEq, Eq)]
pub(crate) enum Line {
    Quick,
    Slow,
}

/// What each place is doing. Each place that is free or called stands once in its queue, and no other does.
#[derive(Drop)]
pub(crate) struct Queues {
    marks: Vec<PlaceMark>,
    untils: Vec<Moment>,
    free: VecDeque<usize>,
    quick: VecDeque<usize>,
    slow: VecDeque<usize>,
    next: Line,
    slow_now: usize,
    most_slow: usize,
    clients: Clients,
    door: Door,
    ghost frees: { Lists is_free marks.items free.items },
    ghost quicks: { Lists is_quick marks.items quick.items },
    ghost slows: { Lists is_slow marks.items slow.items },
    ghost deadlines: { vec_len untils ≡ vec_len marks },
    ghost few_slow: { slow_now ≤ most_slow },
}

impl Queues {
    ghost use Rattle.std.specs.Prelude.{◌-◌, ◌<◌, ◌↔◌, IfNone, IfSome, IsTrue, Some, [], false, slice_get, true};
    ghost use Rattle.std.specs.VecDeque.{deque_capacity, deque_len};
    ghost use Rattle.turns.specs.Marks.{IsUnlisted};
    ghost use Rattle.turns.specs.Turns.{Admits, CallsPlace, GoesTo, HasNone, HasRoom, IsAtRest, IsNext, MayWork, Remarks, Takes, TakesQuick, TakesSlow, mark_of, slow_after};

    /// All places are free.
    pub(crate) fn new(alloc: Global, sizes: Sizes, clients: Clients) -> Result<Queues, AllocError> {
        let places = sizes.places();
        let mut queues = Queues {
            marks: all_served(alloc, places)?,
            untils: Vec::from_elem(alloc, Moment::NEVER, places)?,
            free: VecDeque::with_capacity(alloc, places)?,
            quick: VecDeque::with_capacity(alloc, places)?,
            slow: VecDeque::with_capacity(alloc, places)?,
            next: Line::Quick,
            slow_now: 0,
            most_slow: sizes.slow(),
            clients,
            door: Door::Clear,
        };
        for place in 0..places {
            let task = Task::Serve;
            let _ = queues.end_turn(PlaceTurn { place, task }, AfterTurn::Free, Moment::NEVER);
        }
        Ok(queues)
    }

    /// How many places have a client, are called, and are in slow steps.
    pub(crate) fn load(&self) -> Load
        ensures open { result.open ≡ vec_len self.now.marks - deque_len self.now.free }
        ensures called { result.called ≡ deque_len self.now.quick }
        ensures called_slow { result.called_slow ≡ deque_len self.now.slow }
        ensures slow { result.slow ≡ self.now.slow_now }
    {
        Load {
            open: self.marks.len().saturating_sub(self.free.len()),
            called: self.quick.len(),
            called_slow: self.slow.len(),
            slow: self.slow_now,
        }
    }

    /// Whether a client may be waiting at the listener.
    pub(crate) fn door(&self) -> Door {
        self.door
    }

    /// A client may be waiting at the listener.
    pub(crate) fn knock(&mut self) {
        self.door = Door::Blocked;
    }

    /// No more clients are taken, and those that are here are let go.
    pub(crate) fn shut(&mut self) {
        self.clients = Clients::Shut;
    }

    // What a place is doing.
    fn mark_at(&self, place: usize) -> Option<PlaceMark>
        ensures { result ≡ slice_get self.now.marks.items place }
    {
        self.marks.get(place).copied()
    }

    // Whether a place is marked so.
    fn is_marked(&self, place: usize, mark: PlaceMark) -> bool
        ensures { IsTrue result ↔ slice_get self.now.marks.items place ≡ Some mark }
    {
        match self.mark_at(place) {
            Some(found) => found == mark,
            None => false,
        }
    }

    // Whether a place is marked so, with a mark that is in no queue.
    fn has(&self, place: usize, mark: PlaceMark) -> bool
        requires { (is_free mark ≡ false) × (is_quick mark ≡ false) × (is_slow mark ≡ false) }
        ensures marked { IsTrue result ↔ slice_get self.now.marks.items place ≡ Some mark }
        ensures unlisted { IsTrue result → IsUnlisted self.now.marks.items place }
    {
        self.is_marked(place, mark)
    }

    // Whether a place waits or is parked, so may be called.
    fn is_at_rest(&self, place: usize) -> bool
        ensures marked { IsTrue result ↔ IsAtRest self.now place }
        ensures unlisted { IsTrue result → IsUnlisted self.now.marks.items place }
    {
        self.has(place, PlaceMark::Waits) || self.has(place, PlaceMark::Parked)
    }

    // Whether a place that is called for a slow step may be taken.
    fn may_work(&self) -> bool
        ensures { IsTrue result ↔ MayWork self.now }
    {
        match self.clients {
            Clients::Shut => true,
            Clients::Left(_) | Clients::Endless => self.slow_now < self.most_slow,
        }
    }

    /// The queue from which the next place is taken: the queues take turns where both have one.
    pub(crate) fn next_line(&self) -> Option<Line>
        ensures some { IfSome result (IsNext self.now) }
        ensures none { IfNone result (HasNone self.now) }
    {
        let has_slow = !self.slow.is_empty() && self.may_work();
        if self.quick.is_empty() {
            return if has_slow { Some(Line::Slow) } else { None };
        }
        Some(if has_slow { self.next } else { Line::Quick })
    }

    /// Takes the next place that is called.
    pub(crate) fn take(&mut self) -> Option<PlaceTurn>
        ensures some { IfSome result (λ turn. Takes self.old turn self.new) }
        ensures none { IfNone result (HasNone self.old × (self.new ≡ self.old)) }
    {
        match self.next_line()? {
            Line::Quick => self.take_quick(),
            Line::Slow => self.take_slow(),
        }
    }

    fn take_quick(&mut self) -> Option<PlaceTurn>
        ensures some { IfSome result (λ turn. TakesQuick self.old turn self.new) }
        ensures none { IfNone result (self.old.quick.items ≡ []) }
    {
        let place = self.quick.pop_front()?;
        let ends = self.clients == Clients::Shut || self.marks[place] == PlaceMark::Ends;
        self.marks[place] = PlaceMark::Served;
        self.next = Line::Slow;
        let task = if ends { Task::End } else { Task::Serve };
        Some(PlaceTurn { place, task })
    }

    fn take_slow(&mut self) -> Option<PlaceTurn>
        requires { MayWork self.old }
        ensures some { IfSome result (λ turn. TakesSlow self.old turn self.new) }
        ensures none { IfNone result (self.old.slow.items ≡ []) }
    {
        let place = self.slow.pop_front()?;
        self.marks[place] = PlaceMark::Served;
        self.next = Line::Quick;
        let task = match self.clients {
            Clients::Shut => Task::End,
            Clients::Left(_) | Clients::Endless => {
                self.slow_now += 1;
                Task::Work
            }
        };
        Some(PlaceTurn { place, task })
    }

    /// Calls a place that waits or is parked.
    pub(crate) fn call(&mut self, place: usize)
        ensures { CallsPlace self.old place self.new }
    {
        if self.is_at_rest(place) {
            self.join_quick(place, PlaceMark::Quick);
        }
    }

    /// Calls the parked places.
    pub(crate) fn call_parked(&mut self) {
        for place in 0..self.marks.len() {
            if self.has(place, PlaceMark::Parked) {
                self.join_quick(place, PlaceMark::Quick);
            }
        }
    }

    /// Calls the places whose deadline is over, to let their clients go.
    pub(crate) fn call_expired(&mut self, now: Moment) {
        for place in 0..self.marks.len() {
            let is_over = matches!(self.untils.get(place), Some(until) if until.is_over(now));
            if is_over && self.is_at_rest(place) {
                self.join_quick(place, PlaceMark::Ends);
            }
        }
    }

    // Calls each place that waits or is parked, to let its client go.
    fn call_all(&mut self) {
        for place in 0..self.marks.len() {
            if self.is_at_rest(place) {
                self.join_quick(place, PlaceMark::Ends);
            }
        }
    }

    /// Whether no client is to come and none is here. With the loop shut, those that are here are called
    /// first.
    pub(crate) fn is_over(&mut self) -> bool {
        match self.clients {
            Clients::Endless => false,
            Clients::Left(left) => left == 0 && self.load().open == 0,
            Clients::Shut => {
                self.call_all();
                self.quick.is_empty() && self.slow.is_empty()
            }
        }
    }

    /// A free place for a client, with its turn. None is given if no client is to come.
    pub(crate) fn admit(&mut self) -> Option<PlaceTurn>
        ensures { IfSome result (λ turn. Admits self.old turn self.new) }
    {
        let clients = match self.clients {
            Clients::Endless => Clients::Endless,
            Clients::Left(left) if 0 < left => Clients::Left(left - 1),
            Clients::Left(_) | Clients::Shut => {
                self.door = Door::Clear;
                return None;
            }
        };
        let place = self.free.pop_front()?;
        self.clients = clients;
        self.marks[place] = PlaceMark::Served;
        Some(PlaceTurn {
            place,
            task: Task::Serve,
        })
    }

    /// Takes back the turn of a place that was free: no client was there.
    pub(crate) fn refuse(&mut self, turn: PlaceTurn, door: Door) {
        if let Clients::Left(left) = self.clients {
            self.clients = Clients::Left(left.saturating_add(1));
        }
        let _ = self.end_turn(turn, AfterTurn::Free, Moment::NEVER);
        self.door = door;
    }

    /// Takes back a turn. Says whether a client may be waiting at the listener.
    pub(crate) fn end_turn(&mut self, turn: PlaceTurn, rest: AfterTurn, until: Moment) -> Door
        ensures goes { GoesTo self.old turn.place rest self.new }
        ensures slow { self.new.slow_now ≡ slow_after turn.task self.old.slow_now }
    {
        let PlaceTurn { place, task } = turn;
        if task == Task::Work {
            self.slow_now = self.slow_now.saturating_sub(1);
        }
        if self.has(place, PlaceMark::Served) {
            self.untils[place] = until;
            self.go_to(place, rest);
        }
        self.door
    }

    fn go_to(&mut self, place: usize, rest: AfterTurn)
        requires { IsUnlisted self.old.marks.items place }
        ensures goes { HasRoom self.old rest → Remarks self.old place (mark_of rest) self.new }
        ensures slow { self.new.slow_now ≡ self.old.slow_now }
    {
        match rest {
            AfterTurn::Waits => self.marks[place] = PlaceMark::Waits,
            AfterTurn::Parked => self.marks[place] = PlaceMark::Parked,
            AfterTurn::Quick => self.join_quick(place, PlaceMark::Quick),
            AfterTurn::Slow => self.join_slow(place),
            AfterTurn::Free => self.join_free(place),
        }
    }

    // A place that stands in no queue joins one. Only with no memory it does not, and is called again.
    fn join_quick(&mut self, place: usize, mark: PlaceMark)
        requires mark { is_quick mark ≡ true }
        requires place { IsUnlisted self.old.marks.items place }
        ensures joined { deque_len self.old.quick < deque_capacity self.old.quick
            → Remarks self.old place mark self.new }
        ensures slow { self.new.slow_now ≡ self.old.slow_now }
    {
        if self.quick.push_back(place).is_ok() {
            self.marks[place] = mark;
        } else {
            self.marks[place] = PlaceMark::Parked;
        }
    }

    fn join_slow(&mut self, place: usize)
        requires { IsUnlisted self.old.marks.items place }
        ensures joined { deque_len self.old.slow < deque_capacity self.old.slow
            → Remarks self.old place PlaceMark.Slow self.new }
        ensures slow { self.new.slow_now ≡ self.old.slow_now }
    {
        if self.slow.push_back(place).is_ok() {
            self.marks[place] = PlaceMark::Slow;
        } else {
            self.marks[place] = PlaceMark::Parked;
        }
    }

    fn join_free(&mut self, place: usize)
        requires { IsUnlisted self.old.marks.items place }
        ensures joined { deque_len self.old.free < deque_capacity self.old.free
            → Remarks self.old place PlaceMark.Free self.new }
        ensures slow { self.new.slow_now ≡ self.old.slow_now }
    {
        if self.free.push_back(place).is_ok() {
            self.marks[place] = PlaceMark::Free;
        } else {
            self.marks[place] = PlaceMark::Parked;
        }
    }

    /// Has a waiting place end at the next look at deadlines.
    pub(crate) fn give_up(&mut self, place: usize) {
        if self.has(place, PlaceMark::Waits) {
            self.untils[place] = Moment { milliseconds: 0 };
        }
    }
}

// The marks of places that are served.
fn all_served(alloc: Global, places: usize) -> Result<Vec<PlaceMark>, AllocError>
    ensures items { IfOk result (λ marks. marks.items ≡ replicate places PlaceMark.Served) }
    ensures len { IfOk result (λ marks. vec_len marks ≡ places) }
{
    Vec::from_elem(alloc, PlaceMark::Served, places)
}
