//! Places: each is for one client after the other, with a conversation of its own.
ghost use Rattle.std.specs.Prelude.{◌≡◌, ◌+◌, ◌≤◌, IfOk, IfErr, vec_capacity, vec_len};

use crate::seat::{Seat, SeatClient};
use std::alloc::Global;
use std::sync::Mutex;

/// A place of one conversation, under a lock that only the worker with the place's turn takes.
pub struct LoopPlace<C> {
    pub(crate) seat: Mutex<Seat<C>>,
}

/// The places of conversations, with the room to give them back. It has no `Drop` unless these have, so
/// none can be forgotten: `into_talks` gives each back.
pub struct Places<C> {
    places: Vec<LoopPlace<C>>,
    talks: Vec<C>,
    ghost none: { vec_len talks ≡ 0 },
    ghost room: { vec_len places ≤ vec_capacity talks },
}

impl<C> Places<C> {
    /// A place for each of these conversations, in their order. They are given back if there is no memory.
    pub fn new(alloc: Global, mut talks: Vec<C>) -> Result<Places<C>, Vec<C>>
        ensures places { IfOk result (λ made. vec_len made.places ≡ vec_len talks) }
        ensures back { IfErr result (λ back. back.items ≡ talks.items) }
    {
        let mut places = match Vec::with_capacity(alloc, talks.len()) {
            Ok(places) => places,
            Err(_) => return Err(talks),
        };
        while let Some(talk) = talks.pop() {
            places.push_reserved(LoopPlace {
                seat: Mutex::new(Seat {
                    client: SeatClient::Nobody,
                    talk,
                }),
            });
        }
        Ok(Places { places, talks })
    }

    /// The places, to be shared by workers.
    pub fn as_slice(&self) -> &[LoopPlace<C>] {
        self.places.as_slice()
    }

    /// The conversations in an order of no matter, once no worker serves them: as many as were given.
    pub fn into_talks(self) -> Vec<C>
        ensures { vec_len result ≡ vec_len self.places }
    {
        let Places {
            mut places,
            mut talks,
        } = self;
        while let Some(place) = places.pop() {
            let LoopPlace { seat } = place;
            let Seat { client: _, talk } = seat.into_inner();
            talks.push_reserved(talk);
        }
        places.destroy_empty();
        talks
    }
}
