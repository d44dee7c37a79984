//! A gate's limit of desks.

use super::gates::book;
use gate_lock::{Gate, GateLock, MAX_DESKS};
use gate_settlement::{Visit, with_gate};
use std::alloc::Global;
use std::hash::RandomState;
use std::sync::Wait;
use std::test::Fail;

// The number of the last possible desk, each closed before the next.
#[derive(Drop)]
struct DeskRow<'r, R: Wait> {
    rt: &'r R,
    alloc: Global,
}

impl<R: Wait> Visit for DeskRow<'_, R> {
    type Output = u64;

    fn visit<G: Gate>(self, gate: &GateLock<G>) -> u64 {
        last_desk(self.rt, self.alloc, gate)
    }
}

fn last_desk<G: Gate, R: Wait>(rt: &R, alloc: Global, gate: &GateLock<G>) -> u64 {
    let mut made = 0;
    for _ in 0..70_000 {
        let Ok(desk) = gate.desk(rt, alloc) else {
            break;
        };
        made = desk.desk_no();
        desk.close();
    }
    made
}

#[test]
fn so_many_desks_and_no_more_are_made(rt: HostRuntime) -> Result<(), Fail> {
    let row = DeskRow {
        rt: &rt,
        alloc: rt.alloc(),
    };
    let book = book(rt.alloc(), RandomState::new(&rt)?, 1_024, 65_536)?;
    if with_gate(book, row) == MAX_DESKS {
        Ok(())
    } else {
        Err(Fail::new("the last desk's number"))
    }
}
