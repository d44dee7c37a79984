//! A gate shared by desks: its settlement, and the marks of its own entries.
//! RFC 9309, sections 2.2 to 2.4.
ghost use Rattle.std.specs.Prelude.{◌≡◌, ◌≤◌, [], IfOk};
ghost use Rattle.gate_history.specs.Base.{empty_base};

use super::desk_calls::{CallForm, Totals, bring, give_back, totals};
use authority_cache::{LIFE, TurnNo};
use gate_core::{Book, Config, Limits, NoMemory};
use gate_history::Entry;
use gate_lock::{Gate, GateLock, Receipts, marks_fit};
use gate_settlement::{SettleFault, Visit, receipts_fit, with_gate};
use path_normal::{Authority, PageUrl};
use permit_book::{Fetch, PermitNo};
use robots_text::Token;
use robots_verdict::{Opening, Said};
use std::alloc::Global;
use std::hash::RandomState;
use std::sync::Wait;
use std::test::Fail;

pub(super) const PAGE: &str = "http://a.example/x";

const OTHER_PAGE: &str = "http://a.example/y";

// A book with the default limits, except these.
pub(super) fn book(
    alloc: Global,
    keys: RandomState,
    slots: u64,
    authorities: u64,
) -> Result<Book, NoMemory>
    requires slots { (1 ≤ slots) × (slots ≤ 65536) }
    requires authorities { (1 ≤ authorities) × (authorities ≤ 65536) }
    ensures { IfOk result (λ book. (book.base ≡ empty_base) × (book.entries ≡ [])) }
{
    let mut limits = Limits::usual();
    limits.slots = slots;
    limits.authority_limit = authorities;
    Book::new(alloc, Config { limits, keys })
}

// What a gate of two desks shows: its settlements with a permit outstanding, without the last desk's receipts, and
// with all; and whether the marks of both desks, and their receipts, are the entries of an ask for the page.
type Shown = ([Totals; 3], [bool; 2]);

// Settles a gate twice too early, and then by both desks' receipts.
#[derive(Drop)]
struct SettleRow<'r, R: Wait> {
    rt: &'r R,
    alloc: Global,
    form: CallForm,
    page: &'r str,
}

impl<R: Wait> Visit for SettleRow<'_, R> {
    type Output = Result<Shown, Fail>;

    fn visit<G: Gate>(self, gate: &GateLock<G>) -> Self::Output {
        let mut all = Vec::new(self.alloc);
        settle_with(self.rt, self.alloc, gate, self.form, self.page, &mut all)
    }
}

fn settle_with<G: Gate, R: Wait>(
    rt: &R,
    alloc: Global,
    gate: &GateLock<G>,
    form: CallForm,
    page: &str,
    all: &mut Vec<Receipts<G>>,
) -> Result<Shown, Fail> {
    bring(rt, alloc, gate, form, all)?;
    let [before, after] = give_back(rt, alloc, gate, form, page, all)?;
    let both = totals(rt, alloc, gate, all.as_slice());
    Ok(([before, after, both], are_fit(alloc, all.as_slice())?))
}

fn begun(alloc: Global) -> Result<Entry, Fail> {
    Ok(Entry::Begun {
        moment: 100,
        authority: Authority::new(alloc, "a.example")?,
        turn: TurnNo::new(1),
    })
}

fn arrived(alloc: Global) -> Result<Entry, Fail> {
    Ok(Entry::Arrived {
        moment: 100,
        authority: Authority::new(alloc, "a.example")?,
        turn: TurnNo::new(1),
        says: Said::Open(Opening::Unavailable),
        life: LIFE as u32,
    })
}

fn granted(alloc: Global, page: &str, number: u64) -> Result<Entry, Fail> {
    let token = Token::new(alloc, b"foobot")?;
    let url = PageUrl::parse(alloc, page)?;
    Ok(Entry::Granted {
        moment: 110,
        number: PermitNo::new(number),
        fetch: Fetch::of(&token, &url)?,
    })
}

// The entries of a gate at which one desk brings an answer, and another asks for the page and gives its
// permit back.
fn add_entries(
    alloc: Global,
    page: &str,
    number: u64,
    entries: &mut Vec<Entry>,
) -> Result<(), Fail> {
    entries.push(begun(alloc)?)?;
    entries.push(arrived(alloc)?)?;
    entries.push(granted(alloc, page, number)?)?;
    entries.push(Entry::Returned {
        number: PermitNo::new(number),
    })?;
    Ok(())
}

// Whether the marks of two desks are a gate's entries after an ask for the page; and whether their receipts
// are.
fn are_fit<G: Gate>(alloc: Global, all: &[Receipts<G>]) -> Result<[bool; 2], Fail> {
    let mut entries = Vec::new(alloc);
    are_fit_with(alloc, &mut entries, all)
}

fn are_fit_with<G: Gate>(
    alloc: Global,
    entries: &mut Vec<Entry>,
    all: &[Receipts<G>],
) -> Result<[bool; 2], Fail> {
    add_entries(alloc, PAGE, 65_536, entries)?;
    if entries.len() != 4 {
        return Err(Fail::new("four entries"));
    }
    let [one, other] = all else {
        return Err(Fail::new("the receipts of two desks"));
    };
    let history = entries.as_slice();
    let of_marks = marks_fit(alloc, 0, history, &[one.marks(), other.marks()])?;
    let of_receipts = receipts_fit(alloc, 0, history, all)?;
    Ok([of_marks, of_receipts])
}

// The form of the calls, the page that is asked for, and whether the marks are the entries of an ask for the one page.
const ROWS: [(CallForm, &str, bool); 3] = [
    (CallForm::Plain, PAGE, true),
    (CallForm::Held, PAGE, true),
    (CallForm::Plain, OTHER_PAGE, false),
];

#[test]
fn a_gate_is_settled_by_all_receipts(rt: HostRuntime) -> Result<(), Fail> {
    let keys = RandomState::new(&rt)?;
    for (form, page, fit) in &ROWS {
        let (settled, marks) = shown(&rt, rt.alloc(), keys, *form, page)?;
        if !is_settled(settled) || marks != [*fit, *fit] {
            return Err(Fail::new(page));
        }
    }
    Ok(())
}

fn shown<R: Wait>(
    rt: &R,
    alloc: Global,
    keys: RandomState,
    form: CallForm,
    page: &str,
) -> Result<Shown, Fail> {
    let row = SettleRow {
        rt,
        alloc,
        form,
        page,
    };
    with_gate(book(alloc, keys, 1_024, 65_536)?, row)
}

fn is_settled(settled: [Totals; 3]) -> bool {
    settled
        == [
            Err(SettleFault::StillOut),
            Err(SettleFault::Mismatch),
            Ok((4, 0)),
        ]
}
