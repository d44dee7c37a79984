//! One connection: what a client sends, and all that it is answered.

use super::demand;
use super::script::{Numbers, Scene, Script, octets_of};
use http_front::{Forwarding, Front, SiteDoor, front_config};
use http_server::Connection;
use http_turns::Asker;
use keepers::Keeper;
use scripted_sites::FixedClock;
use std::alloc::Global;
use std::hash::RandomState;
use std::random::RandomSource;
use std::test::Fail;
use turns::Moment;

/// A name, what each visit comes to, what is sent, the visits, and what is answered.
pub(super) type Row = (
    &'static str,
    Scene,
    &'static str,
    &'static str,
    &'static str,
);

/// Checks each row over a connection of its own.
pub(super) fn check_rows<R: RandomSource>(rt: &R, alloc: Global, rows: &[Row]) -> Result<(), Fail> {
    for row in rows {
        check_row(rt, alloc, row)?;
    }
    Ok(())
}

fn check_row<R: RandomSource>(rt: &R, alloc: Global, row: &Row) -> Result<(), Fail> {
    let (name, scene, sent, visits, answer) = row;
    let mut keeper = Script {
        alloc,
        scene: *scene,
        visits: Vec::new(alloc),
    };
    let sent = octets_of(alloc, sent)?;
    let talked = talk(rt, alloc, &mut keeper, &(), sent.as_slice())?;
    talked.demand(alloc, name, answer)?;
    demand(!talked.later, name, "later")?;
    let visited = String::from_utf8_lossy(alloc, keeper.visits.as_slice())?;
    demand(visited.as_str() == *visits, name, visited.as_str())
}

/// What a connection came to.
#[derive(Drop)]
pub(super) struct Talked {
    /// All that the client is answered.
    pub(super) told: Vec<u8>,
    /// Whether the last request was not begun.
    pub(super) later: bool,
}

impl Talked {
    /// Fails with this name unless the client is answered so.
    pub(super) fn demand(&self, alloc: Global, name: &str, answer: &str) -> Result<(), Fail> {
        let wanted = octets_of(alloc, answer)?;
        let seen = String::from_utf8_lossy(alloc, self.told.as_slice())?;
        demand(
            self.told.as_slice() == wanted.as_slice(),
            name,
            seen.as_str(),
        )
    }
}

/// What comes of a client who sends this and then no more.
pub(super) fn talk<R: RandomSource, K: Keeper, D: SiteDoor>(
    rt: &R,
    alloc: Global,
    keeper: &mut K,
    door: &D,
    sent: &[u8],
) -> Result<Talked, Fail> {
    let mut connection = Connection::new(alloc, RandomState::new(rt)?, front_config());
    let mut front = Front {
        alloc,
        keeper,
        door,
        forwarding: Forwarding::Nothing,
        asker: Asker {
            place: 0,
            until: Moment::NEVER,
        },
        clock: &FixedClock(110),
        metrics: &Numbers,
        number: 0,
        later: false,
        octets: 0,
    };
    let mut output = Vec::new(alloc);
    let mut input = sent;
    for _ in 0..1_000 {
        if connection.wants_read() {
            connection.read_from(&mut input)?;
        }
        connection.advance(&mut front);
        if connection.wants_write() {
            connection.write_to(&mut output)?;
        } else if connection.is_done() {
            break;
        }
    }
    Ok(Talked {
        told: output,
        later: front.later,
    })
}
