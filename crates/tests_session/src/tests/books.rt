//! Sessions over a book alone: each call is the book's, nothing is fetched, and each line is answered at its
//! own reading of the clock.
ghost use Rattle.std.specs.Prelude.{◌<◌};

use super::demand;
use authority_cache::{LIFE, TimedAnswer, TurnNo};
use command_lines::SessionFault;
use command_server::serve;
use counted_io::FailAt;
use gate_core::{Book, Limits};
use keepers::BookKeeper;
use page_worker::Clock;
use path_normal::Authority;
use robots_verdict::{Answer, Opening};
use scripted_sites::new_book;
use std::alloc::Global;
use std::sync::atomic::{AtomicUsize, Ordering};
use std::test::Fail;

// The answer of a.example has expired by then.
const LATE: u64 = 300_000;

// Time stands still.
const STILL: [u64; 3] = [110, 110, 110];

// A name, the moments of the readings, a client's lines, and the replies. The answer of a.example is open.
const ROWS: &[(&str, [u64; 3], &str, &str)] = &[
    (
        "spent once",
        STILL,
        "ASK foobot http://a.example/x\nSTART 65536 foobot http://a.example/x\n\
         START 65536 foobot http://a.example/x\nDONE 65536\nDONE 65536\nQUIT\n",
        "PERMIT 65536\nGO 65536 open\nNO a.example spent\nDONE 65536\nERR notout\nBYE\n",
    ),
    (
        "nothing is fetched",
        STILL,
        "FETCH foobot http://a.example/x\nFETCH\nREFRESH a.example\nREFRESH\n",
        "ERR verb\nERR verb\nERR verb\nERR verb\n",
    ),
    (
        "verbs of a replay",
        STILL,
        "BEGIN b.example\nARRIVE b.example 2 404 -\nSWEEP\n110 STATE a.example\n",
        "ERR verb\nERR verb\nERR verb\nERR verb\n",
    ),
    (
        "checks in their order",
        STILL,
        "\nASK  foobot\nask foobot http://a.example/x\nASK foobot\nBACK x\nASK f00 http://a.example/x\n\
         ASK foobot https://a.example/x\nASK foobot http://u@a.example/x\nSTATE a b\nSTATE a/b\nQUIT now\n",
        "ERR words\nERR words\nERR verb\nERR words\nERR number\nERR token\n\
         ERR url scheme\nERR url user\nERR words\nERR authority\nERR words\n",
    ),
    (
        "an octet outside",
        STILL,
        "STATE a.example\u{7f}\nSTATE a.example\r\nSTATE A.EXAMPLE",
        "ERR chars\nSTATE a.example open idle\nSTATE a.example open idle\n",
    ),
    (
        "nothing behind the farewell",
        STILL,
        "ASK foobot http://b.example/\nBACK 65536\nQUIT\nASK foobot http://a.example/x\n",
        "NO b.example unknown\nERR notout\nBYE\n",
    ),
    ("no line", STILL, "", ""),
    (
        "an answer that expires between two lines",
        [110, 120, LATE],
        "ASK foobot http://a.example/x\nSTART 65536 foobot http://a.example/x\n\
         ASK foobot http://a.example/x\n",
        "PERMIT 65536\nGO 65536 open\nNO a.example expired\n",
    ),
    (
        "a permit that is older than its answer",
        [110, LATE, LATE],
        "ASK foobot http://a.example/x\nSTART 65536 foobot http://a.example/x\n",
        "PERMIT 65536\nNO a.example expired\n",
    ),
    (
        "a state that is asked for twice",
        [110, LATE, LATE],
        "STATE a.example\nSTATE a.example\n",
        "STATE a.example open idle\nSTATE a.example expired idle\n",
    ),
    (
        "a line with a fault has a reading too",
        [110, 120, LATE],
        "STATE a.example\nSTATE\nSTATE a.example\n",
        "STATE a.example open idle\nERR words\nSTATE a.example expired idle\n",
    ),
];

// A clock whose readings give these moments in turn, then always the last.
#[derive(Drop)]
struct Passing {
    moments: [u64; 3],
    readings: AtomicUsize,
}

impl Clock for Passing {
    fn now(&self) -> u64 {
        let reading = self.readings.fetch_add(1, Ordering::SeqCst);
        self.moments[reading.min(2)]
    }
}

#[test]
fn sessions_over_a_book(rt: HostRuntime) -> Result<(), Fail> {
    for (name, moments, lines, replies) in ROWS {
        let mut book = new_book(&rt, rt.alloc(), Limits::usual())?;
        check_row(rt.alloc(), &mut book, *moments, name, lines, replies)?;
    }
    Ok(())
}

// All lines are available from the start, so no read comes between them.
fn check_row(
    alloc: Global,
    book: &mut Book,
    moments: [u64; 3],
    name: &str,
    lines: &str,
    replies: &str,
) -> Result<(), Fail> {
    open_site(alloc, book)?;
    let clock = Passing {
        moments,
        readings: AtomicUsize::new(0),
    };
    let mut reader = FailAt::new(lines.as_bytes().to_vec(alloc)?, 65_536, None);
    let holds = replies_to(alloc, &mut reader, book, &clock, replies);
    demand(holds, name, 0)
}

// Makes the answer of a.example open.
fn open_site(alloc: Global, book: &mut Book) -> Result<(), Fail> {
    let site = Authority::new(alloc, "a.example")?;
    let turn: TurnNo = book.begin(&site, 100)?;
    let open = TimedAnswer::new(Answer::Open(Opening::Unavailable), LIFE);
    book.arrive(&site, turn, open, 105)?;
    Ok(())
}

// Whether a session ends well with these replies.
fn replies_to(
    alloc: Global,
    reader: &mut FailAt,
    book: &mut Book,
    clock: &Passing,
    replies: &str,
) -> bool {
    let mut writer = FailAt::new(Vec::new(alloc), 65_536, None);
    let end = serve(
        alloc,
        reader,
        &mut writer,
        &mut BookKeeper::new(book),
        clock,
    );
    end == Ok(()) && writer.bytes() == replies.as_bytes()
}

// Octets without an LF, however many a read brings, are read no further than promised.
#[test]
fn a_line_without_an_end(rt: HostRuntime) -> Result<(), Fail> {
    let mut book = new_book(&rt, rt.alloc(), Limits::usual())?;
    check_long(rt.alloc(), &mut book, 1)?;
    check_long(rt.alloc(), &mut book, 4_096)?;
    check_long(rt.alloc(), &mut book, 65_536)
}

fn check_long(alloc: Global, book: &mut Book, per_read: usize) -> Result<(), Fail>
    requires { 0 < per_read }
{
    let mut reader = FailAt::new(vec![in alloc; b'a'; 200_000]?, per_read, None);
    let holds = is_too_long(alloc, &mut reader, book);
    demand(holds, "a line without an end", per_read as u64)
}

fn is_too_long(alloc: Global, reader: &mut FailAt, book: &mut Book) -> bool {
    let clock = Passing {
        moments: STILL,
        readings: AtomicUsize::new(0),
    };
    let mut writer = FailAt::new(Vec::new(alloc), 65_536, None);
    let end = serve(
        alloc,
        reader,
        &mut writer,
        &mut BookKeeper::new(book),
        &clock,
    );
    // The limit, and 65,537 octets past it.
    end == Err(SessionFault::LongLine)
        && writer.bytes() == b"ERR long\n".as_slice()
        && reader.unread().len() + 73_729 >= 200_000
}
