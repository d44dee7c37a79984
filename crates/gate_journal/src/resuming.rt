//! A book that continues a journal's last files, and what ends their text.
//! docs/FORMATS.md has the texts; RFC 9309, sections 2.3.1 and 2.4.
ghost use Rattle.std.specs.Prelude.{◌≡◌, List, [], Some, ℕ, IfOk, OnOk};
ghost use Rattle.gate_core.specs.Limits.{AreLimits};
ghost use Rattle.gate_core.specs.Resuming.{CanGoOn, IsIdle};
ghost use Rattle.gate_journal.specs.Resuming.{AreFirst, GoesOnFrom, IsResumed};

use crate::resume_fault::ResumeFault;
use authority_cache::{Cache, StandingAnswer};
use counted_io::Source;
use crawl_audit::{Recovered, recover_among};
use gate_core::{Book, Config, Limits};
use gate_history::Base;
use path_normal::{Authority, Schemes};
use robots_verdict::{Closure, Said};
use std::alloc::{AllocError, Global};
use std::cmp::Reverse;
use std::hash::RandomState;

// More started fetches than a gate's receipts count.
const MOST_STARTS: u64 = 1 << 63;

/// How many sites closed by network faults are fetched anew, beside those with a fetch under way.
pub const MOST_CLOSED: usize = 16;

/// The result of reading a text.
#[derive(Drop)]
pub struct Resumed {
    /// The book that continues it.
    pub book: Book,
    /// The octets of the whole lines. A line after them was torn by a crash.
    pub whole: u64,
    /// The lines that end what was out, to be appended to the whole ones.
    pub ending: Vec<u8>,
    /// The sites whose robots.txt files were being fetched; then up to `MOST_CLOSED` sites last closed by
    /// network faults, since an earlier process may have ended before it fetched its own anew.
    pub begun: Vec<Authority>,
}

/// Reads the text of a journal's last files with sites of these schemes, and makes the book with these
/// limits that continues it. The tables of both get these keys.
pub fn resume<R: Source>(
    alloc: Global,
    keys: RandomState,
    schemes: Schemes,
    limits: Limits,
    reader: &mut R,
) -> Result<Resumed, ResumeFault>
    requires { AreLimits limits }
    ensures idle { IfOk result (λ resumed. IsIdle resumed.book) }
    ensures limits { IfOk result (λ resumed. resumed.book.limits ≡ limits) }
    ensures ok { IfOk result (λ resumed. (text : List ℕ) → R.left reader.old ≡ Some text
        → IsResumed schemes text resumed) }
{
    let found = recover_among(alloc, keys, schemes, reader)?;
    let Recovered {
        whole,
        ending,
        begun,
        base,
        cache,
    } = found;
    let book = book_from(alloc, Config { limits, keys }, base, cache)?;
    let mut begun = begun;
    add_closed(alloc, book.base(), &mut begun)?;
    Ok(Resumed {
        book,
        whole,
        ending,
        begun,
    })
}

// The book that continues a base, or a new one if it has no entry.
fn book_from(alloc: Global, config: Config, base: Base, cache: Cache) -> Result<Book, ResumeFault>
    requires limits { AreLimits config.limits }
    requires base { CanGoOn base cache }
    ensures idle { IfOk result IsIdle }
    ensures limits { IfOk result (λ book. book.limits ≡ config.limits) }
    ensures base { IfOk result (GoesOnFrom base) }
{
    if base.entries() == 0 {
        return Ok(Book::new(alloc, config)?);
    }
    if base.started() >= MOST_STARTS {
        return Err(ResumeFault::Starts);
    }
    Ok(Book::resume(alloc, config, base, cache)?)
}

// Adds the sites last closed by network faults.
fn add_closed(alloc: Global, base: &Base, sites: &mut Vec<Authority>) -> Result<(), AllocError>
    ensures { OnOk result (AreFirst sites.old.items sites.new.items) }
{
    let mut closed = closed_last(alloc, base.standing(), sites.as_slice())?;
    sites.append(&mut closed)
}

// The sites last closed by network faults, without those known.
fn closed_last(
    alloc: Global,
    standing: &[StandingAnswer],
    known: &[Authority],
) -> Result<Vec<Authority>, AllocError> {
    let mut closed = closed_by_network(alloc, standing)?;
    closed.sort_unstable_by_key(|answer| Reverse(answer.turn.number()));
    first_unknown(alloc, closed.as_slice(), known)
}

// The sites of the first answers, without those known.
fn first_unknown(
    alloc: Global,
    closed: &[&StandingAnswer],
    known: &[Authority],
) -> Result<Vec<Authority>, AllocError> {
    let mut sites = Vec::new(alloc);
    for answer in closed.iter().take(MOST_CLOSED) {
        if !is_among(known, &answer.authority) {
            sites.push(answer.authority.copy()?)?;
        }
    }
    Ok(sites)
}

fn is_among(known: &[Authority], authority: &Authority) -> bool {
    known.iter().any(|site| site == authority)
}

fn closed_by_network<'a>(
    alloc: Global,
    standing: &'a [StandingAnswer],
) -> Result<Vec<&'a StandingAnswer>, AllocError> {
    let mut closed = Vec::new(alloc);
    for answer in standing {
        if let Said::Closed(Closure::Network) = &answer.says {
            closed.push(answer)?;
        }
    }
    Ok(closed)
}
