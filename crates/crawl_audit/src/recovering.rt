//! Recovery: where a gate continues, by the text of its journal's last file, whose last line may be torn.
//! See docs/FORMATS.md; RFC 9309, sections 2.3.1 and 2.4.
ghost use Rattle.std.specs.Prelude.{◌≡◌, List, Option, Some, ℕ, [], IfErr, IfOk, map};
ghost use Rattle.path_normal.specs.declared.schemes.Schemes.{Schemes};
ghost use Rattle.path_normal.specs.declared.schemes.Schemes.TheVariants.{Http};
ghost use Rattle.gate_history.specs.Base.{IsBase};
ghost use Rattle.gate_history.specs.History.{History, from};
ghost use Rattle.gate_history.specs.Legal.{IsLegal};
ghost use Rattle.gate_history.specs.Order.{IsInOrder};
ghost use Rattle.gate_history.specs.Seal.{SaysAs};
ghost use Rattle.gate_core.specs.Resuming.{CanGoOn};
ghost use Rattle.crawl_audit.specs.Recovering.{HeardCut, IsRecoverFault, IsRecovered};
ghost use Rattle.crawl_audit.specs.Recovering.{EndsOpen, Recovers, failures_after_recovery};
ghost use Rattle.crawl_audit.specs.Tables.{TellsAll};

use crate::auditor::{Auditor, MAX_LINES};
use crate::ending::ends_of;
use crate::open_state::OpenState;
use crate::recover_fault::RecoverFault;
use crate::whole_lines::WholeLines;
use authority_cache::{Cache, Turn};
use counted_io::Source;
use gate_history::{Base, Numbers};
use path_normal::{Authority, Schemes};
use std::alloc::{AllocError, Global};
use std::hash::RandomState;

/// The state that the text of a journal's last file leads to.
#[derive(Drop)]
pub struct Recovered {
    /// The octets of the text's whole lines. A crash tore what is behind them.
    pub whole: u64,
    /// The lines that end what was outstanding, each with its LF: to be written over what was torn.
    pub ending: Vec<u8>,
    /// The sites whose turns these lines end, in the order of the turns: their robots.txt files were being
    /// fetched.
    pub begun: Vec<Authority>,
    /// Where the history continues: no permit, fetch or turn is outstanding.
    pub base: Base,
    /// The valid answers. It does not limit authorities.
    pub cache: Cache,
}

/// Like `audit`, except that a last line without LF counts as not written. A line that names an `https`
/// site or page is bad.
pub fn recover<R: Source>(
    alloc: Global,
    keys: RandomState,
    reader: &mut R,
) -> Result<Recovered, RecoverFault>
    ensures ok { IfOk result (λ found. (text : List ℕ) → R.left reader.old ≡ Some text
        → IsRecovered Http text found) }
    ensures fault { IfErr result (λ fault. (text : List ℕ) → R.left reader.old ≡ Some text
        → IsRecoverFault Http text fault) }
    ensures reads { R.failures reader.new
        ≡ failures_after_recovery (R.failures reader.old) result }

    // Whatever the source gave, a book can continue from it.
    ensures rest { IfOk result (λ found. IsBase found.base × CanGoOn found.base found.cache) }
{
    recover_among(alloc, keys, Schemes::Http, reader)
}

/// Like `recover`, for sites of these schemes. A line that names another scheme is bad.
pub fn recover_among<R: Source>(
    alloc: Global,
    keys: RandomState,
    schemes: Schemes,
    reader: &mut R,
) -> Result<Recovered, RecoverFault>
    ensures ok { IfOk result (λ found. (text : List ℕ) → R.left reader.old ≡ Some text
        → IsRecovered schemes text found) }
    ensures fault { IfErr result (λ fault. (text : List ℕ) → R.left reader.old ≡ Some text
        → IsRecoverFault schemes text fault) }
    ensures reads { R.failures reader.new
        ≡ failures_after_recovery (R.failures reader.old) result }

    ensures rest { IfOk result (λ found. IsBase found.base × CanGoOn found.base found.cache) }
{
    let mut whole = WholeLines::new(alloc, keys, schemes)?;
    // The allowed lines, one too many, and the end.
    for _taken in 0..MAX_LINES + 2 {
        match whole.take(alloc, reader) {
            Ok(more) => {
                if !more {
                    return go_on_from(alloc, whole);
                }
            }
            Err(fault) => {
                drop(whole);
                return Err(RecoverFault::from(fault));
            }
        }
    }
    unreachable!()
}

// Ends what is outstanding, and returns the state that follows. (A value with tables is passed to `drop`:
// let go in place, each return here would have a proof of its own for each of its parts.)
fn go_on_from(alloc: Global, whole: WholeLines) -> Result<Recovered, RecoverFault>
    requires { (schemes : Schemes) × ((input : Option (List ℕ)) × HeardCut schemes whole input) }
    ensures recovers { (schemes : Schemes) (input : Option (List ℕ))
        → HeardCut schemes whole input → Recovers schemes input result }
    ensures rest { IfOk result (λ found. IsBase found.base × CanGoOn found.base found.cache) }
{
    let octets = whole.octets;
    let mut auditor = whole.into_auditor();
    if !auditor.has_begun() {
        let line = auditor.lines.saturating_add(1);
        drop(auditor);
        return Err(RecoverFault::NoEntries(line));
    }
    match end_open(alloc, &mut auditor) {
        Ok((ending, begun)) => match auditor.open_state.base(alloc) {
            Ok(base) => Ok(Recovered {
                whole: octets,
                ending,
                begun,
                base,
                cache: auditor.into_cache(),
            }),
            Err(_) => {
                drop(auditor);
                Err(RecoverFault::NoMemory)
            }
        },
        Err(fault) => {
            drop(auditor);
            Err(fault)
        }
    }
}

// Ends what is outstanding. Returns the text of these lines, and the sites of turns.
fn end_open(alloc: Global, auditor: &mut Auditor) -> Result<(Vec<u8>, Vec<Authority>), RecoverFault>
    requires { (h : History) × (IsLegal h × TellsAll auditor.old.open_state h) }
    ensures { EndsOpen auditor.old result auditor.new }
{
    let left = match auditor.open_state.base(alloc) {
        Ok(left) => left,
        Err(_) => return Err(RecoverFault::NoMemory),
    };
    let ends = match ends_of(alloc, &left) {
        Ok(ends) => ends,
        Err(_) => return Err(RecoverFault::NoMemory),
    };
    let begun = match sites_of(alloc, left.in_flight()) {
        Ok(begun) => begun,
        Err(_) => return Err(RecoverFault::NoMemory),
    };
    match auditor.end_each(alloc, ends.as_slice()) {
        Ok(ending) => Ok((ending, begun)),
        Err(fault) => Err(fault),
    }
}

impl WholeLines {
    fn into_auditor(self) -> Auditor
        ensures { result ≡ self.auditor }
    {
        self.auditor
    }
}

impl Auditor {
    fn into_cache(self) -> Cache
        ensures { result ≡ self.open_state.cache }
    {
        drop(self.stage);
        let open_state = self.open_state;
        drop(open_state.numbers);
        open_state.cache
    }
}

impl OpenState {
    /// What the entries so far left open, in order, with their numbers.
    pub(crate) fn base(&self, alloc: Global) -> Result<Base, AllocError>
        requires { (h : History) × (IsLegal h × TellsAll self.now h) }
        ensures says { IfOk result (λ base. (h : History) → IsLegal h → TellsAll self.now h
            → SaysAs (from base) h) }
        ensures base { IfOk result (λ base. IsBase base) }
        ensures order { IfOk result (λ base. IsInOrder base) }
    {
        let numbers = Numbers {
            begins: self.begins,
            moment: self.clock,
            entries: self.entries,
            started: self.started,
        };
        Ok(Base::of(self.left_open(alloc)?, numbers))
    }
}

fn sites_of(alloc: Global, turns: &[Turn]) -> Result<Vec<Authority>, AllocError>
    ensures { IfOk result (λ sites. sites.items ≡ map (λ t. t.authority) turns.now) }
{
    let mut sites = Vec::new(alloc);
    for turn in turns {
        sites.push(turn.authority.copy()?)?;
    }
    Ok(sites)
}
