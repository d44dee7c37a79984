//! A gate that continues from a base is settled with the earlier receipts, and not without them.
//! RFC 9309, sections 2.2 and 2.4.
ghost use Rattle.std.specs.Prelude.{◌≡◌, ◌^◌, ◌<◌, [], true};

use super::desk_calls::{Totals, rounds, totals, worked};
use super::gates::{PAGE, book};
use super::indexes::load;
use gate_core::Book;
use gate_lock::{Blanks, Gate, GateLock, Receipts};
use gate_settlement::SettleFault;
use path_normal::PageUrl;
use permit_book::PermitNo;
use robots_text::Token;
use std::alloc::Global;
use std::hash::RandomState;
use std::marker::Brand;
use std::sync::Wait;
use std::test::Fail;

// The settlement without the earlier receipts, and with them.
type Settlements = [Totals; 2];

// A book with five sealed entries, of a turn and a fetch.
fn sealed_book(alloc: Global, keys: RandomState) -> Result<Book, Fail> {
    let mut book = book(alloc, keys, 2, 65_536)?;
    load(alloc, &mut book, "User-agent: *\nAllow: /\n")?;
    let number = ask(alloc, &mut book)?;
    fetch_once(alloc, &mut book, number)?;
    book.seal()?;
    Ok(book)
}

fn ask(alloc: Global, book: &mut Book) -> Result<PermitNo, Fail> {
    let token = Token::new(alloc, b"foobot")?;
    let page = PageUrl::parse(alloc, PAGE)?;
    match book.ask(token, page, 110) {
        Ok(number) => Ok(number),
        Err(_) => Err(Fail::new("no permit")),
    }
}

// A permit's fetch, from start to end.
fn fetch_once(alloc: Global, book: &mut Book, number: PermitNo) -> Result<(), Fail> {
    let token = Token::new(alloc, b"foobot")?;
    let page = PageUrl::parse(alloc, PAGE)?;
    if book.start(number, &token, page, 110).is_err() || book.finish(number).is_err() {
        return Err(Fail::new("no fetch"));
    }
    Ok(())
}

// Whether the book has no entry since its base, which followed sealed ones, and nothing outstanding.
fn is_at_rest(book: &Book) -> bool
    ensures entries { result ≡ true → book.now.entries ≡ [] }
    ensures out { result ≡ true → (book.now.base.in_flight ≡ [])
        × (book.now.base.unspent ≡ []) × (book.now.base.running ≡ []) }
    ensures some { result ≡ true → 0 < book.now.base.entries }
    ensures starts { result ≡ true → book.now.base.started < 2 ^ 63 }
{
    let base = book.base();
    book.history().is_empty()
        && base.in_flight().is_empty()
        && base.unspent().is_empty()
        && base.running().is_empty()
        && base.entries() > 0
        && base.started() < 1_000_000
}

// A gate that continues from what was sealed.
fn from_sealed<G: Gate, R: Wait>(
    rt: &R,
    alloc: Global,
    book: Book,
    blanks: Blanks,
) -> Result<Settlements, Fail>
    requires entries { book.entries ≡ [] }
    requires out { (book.base.in_flight ≡ []) × (book.base.unspent ≡ [])
        × (book.base.running ≡ []) }
    requires some { 0 < book.base.entries }
    requires starts { book.base.started < 2 ^ 63 }
    requires blanks { blanks ≡ G.ledgers }
{
    let (gate, past): (GateLock<G>, Receipts<G>) = GateLock::resume(alloc, book, blanks);
    let mut all = Vec::new(alloc);
    settlements(rt, alloc, &gate, past, &mut all)
}

// Two desks make a hundred rounds each; then one of them seals and keeps only places.
fn settlements<G: Gate, R: Wait>(
    rt: &R,
    alloc: Global,
    gate: &GateLock<G>,
    past: Receipts<G>,
    all: &mut Vec<Receipts<G>>,
) -> Result<Settlements, Fail> {
    all.push(worked(rt, alloc, gate)?)?;
    let mut desk = gate.desk(rt, alloc)?;
    rounds(rt, alloc, &mut desk);
    let sealed = desk.seal(rt);
    desk.condense(rt);
    all.push(desk.close())?;
    sealed?;
    let without = totals(rt, alloc, gate, all.as_slice());
    all.push(past)?;
    Ok([without, totals(rt, alloc, gate, all.as_slice())])
}

fn settled_behind_a_seal<R: Wait>(
    rt: &R,
    alloc: Global,
    keys: RandomState,
) -> Result<Settlements, Fail> {
    let book = sealed_book(alloc, keys)?;
    if !is_at_rest(&book) {
        return Err(Fail::new("something is out"));
    }
    from_sealed::<Brand, R>(rt, alloc, book, Blanks::new())
}

#[test]
fn a_gate_goes_on_from_a_base(rt: HostRuntime) -> Result<(), Fail> {
    let got = settled_behind_a_seal(&rt, rt.alloc(), RandomState::new(&rt)?)?;
    if got == [Err(SettleFault::Mismatch), Ok((605, 201))] {
        Ok(())
    } else {
        Err(Fail::new("settled behind a seal"))
    }
}
