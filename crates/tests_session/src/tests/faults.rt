//! Sessions at a desk whose read or write fails, at each place in turn: nothing stays out, and after a failed
//! write no line is answered.

use super::{PAGES, demand};
use command_lines::SessionFault;
use command_server::serve;
use counted_io::FailAt;
use gate_core::Limits;
use gate_lock::{Gate, GateLock};
use gate_settlement::{SettleFault, Visit, settle, with_gate};
use keepers::DeskKeeper;
use scripted_sites::{FixedClock, ScriptedSites, new_book};
use std::alloc::Global;
use std::random::RandomSource;
use std::sync::Wait;
use std::test::Fail;

const LINES: &str = "\
REFRESH a.example
ASK foobot http://a.example/x
ASK foobot http://a.example/y
START 65536 foobot http://a.example/x
";

// The length of the replies in octets.
const REPLIES: u64 = 61;

// A session whose reads or writes fail after so many calls of one octet.
#[derive(Drop)]
struct FaultRow<'r, R: Wait> {
    rt: &'r R,
    alloc: Global,
    read_fails: Option<u64>,
    write_fails: Option<u64>,
}

impl<R: Wait> Visit for FaultRow<'_, R> {
    type Output = Result<Ended, Fail>;

    fn visit<G: Gate>(self, gate: &GateLock<G>) -> Self::Output {
        let lines = LINES.as_bytes().to_vec(self.alloc)?;
        let mut reader = FailAt::new(lines, 1, self.read_fails);
        let mut writer = FailAt::new(Vec::new(self.alloc), 1, self.write_fails);
        session_at(self.rt, self.alloc, gate, &mut reader, &mut writer)
    }
}

// How a session ended, and its gate's events and starts, if that is settled.
type Ended = (Result<(), SessionFault>, Result<(u64, u64), SettleFault>);

fn session_at<G: Gate, R: Wait>(
    rt: &R,
    alloc: Global,
    gate: &GateLock<G>,
    reader: &mut FailAt,
    writer: &mut FailAt,
) -> Result<Ended, Fail> {
    let sites = ScriptedSites {
        alloc,
        pages: &PAGES,
    };
    let mut all = Vec::with_capacity(alloc, 1)?;
    let mut keeper = DeskKeeper::open(rt, alloc, gate, &sites)?;
    let end = serve(alloc, reader, writer, &mut keeper, &FixedClock(110));
    all.push_reserved(keeper.close());
    let totals = match settle(rt, alloc, gate, all.as_slice()) {
        Ok(settled) => Ok((settled.events(), settled.starts())),
        Err(fault) => Err(fault),
    };
    Ok((end, totals))
}

fn ended<R: Wait + RandomSource>(
    rt: &R,
    alloc: Global,
    read_fails: Option<u64>,
    write_fails: Option<u64>,
) -> Result<Ended, Fail> {
    let book = new_book(rt, alloc, Limits::usual())?;
    let row = FaultRow {
        rt,
        alloc,
        read_fails,
        write_fails,
    };
    with_gate(book, row)
}

// Whether a session ended by this fault, and left nothing out.
fn has_ended(ended: Ended, want: SessionFault) -> bool {
    ended.0 == Err(want) && ended.1.is_ok()
}

#[test]
fn reads_that_fail(rt: HostRuntime) -> Result<(), Fail> {
    for at in 0..LINES.len() as u64 {
        let ended = ended(&rt, rt.alloc(), Some(at), None)?;
        demand(has_ended(ended, SessionFault::Read), "a read", at)?;
    }
    Ok(())
}

// The gate's events and starts if the write after so many octets fails. The line after a reply is read once that
// is written, so the lines answered are those up to the one whose reply has that octet; what they left out
// is given back.
fn settled_to(written: u64) -> (u64, u64) {
    match written {
        // The answer.
        0..=20 => (2, 0),
        // A permit, given back.
        21..=33 => (4, 0),
        // Another permit.
        34..=46 => (6, 0),
        // A fetch, started and ended.
        _ => (7, 1),
    }
}

#[test]
fn writes_that_fail(rt: HostRuntime) -> Result<(), Fail> {
    for at in 0..REPLIES {
        let ended = ended(&rt, rt.alloc(), None, Some(at))?;
        let holds = has_ended(ended, SessionFault::Write) && ended.1 == Ok(settled_to(at));
        demand(holds, "a write", at)?;
    }
    Ok(())
}
