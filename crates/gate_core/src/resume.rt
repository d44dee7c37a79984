//! `Book::resume`: a book that continues from an earlier history's base, with nothing outstanding.
//! RFC 9309, sections 2.3.1 and 2.4.
ghost use Rattle.std.specs.Prelude.{◌≡◌, [], true, IfOk};
ghost use Rattle.std.specs.List.{list_all};
ghost use Rattle.gate_core.specs.Kept.{is_grant_of};
ghost use Rattle.gate_core.specs.Limits.{AreLimits};
ghost use Rattle.gate_core.specs.Resuming.{CanGoOn, IsBehind, Resumes};

use crate::book::Book;
use crate::config::{Config, Limits};
use crate::place_counts::PlaceCounts;
use crate::refusal::NotResumed;
use crate::turn_names::TurnNames;
use authority_cache::Cache;
use gate_history::{Base, SlotGrant};
use permit_book::{LAST_GENERATION, Permits};
use std::alloc::{AllocError, Global};

impl Book {
    /// A book without entries that continues from an earlier history's base. The base has no turn in flight
    /// and no outstanding permit. The cache has the base's valid answers, and keeps its own hash keys.
    ///
    /// No permit number is granted again: the next grant in a slot has the generation after its greatest,
    /// or the limits' first if it had none. A slot whose last generation was granted is retired. The cache
    /// gets the limits' limit of authorities; while it knows more, none is added. The book takes about a
    /// hundred bytes a slot.
    pub fn resume(
        alloc: Global,
        config: Config,
        base: Base,
        cache: Cache,
    ) -> Result<Book, NotResumed>
        requires limits { AreLimits config.limits }
        requires base { CanGoOn base cache }
        ensures limits { IfOk result (λ book. book.limits ≡ config.limits) }
        ensures base { IfOk result (λ book. book.base ≡ base) }
        ensures entries { IfOk result (λ book. book.entries ≡ []) }
        ensures slots { Resumes config.limits base result }
    {
        let Config { limits, keys } = config;
        if !fit_limits(limits, base.grants()) {
            return Err(NotResumed::Slots);
        }
        let permits = table_behind(alloc, limits, base.grants())?;
        Ok(Book {
            limits,
            clock: base.moment(),
            begins: base.begins(),
            starts: base.started(),
            base,
            entries: Vec::new(alloc),
            cache: cache.limited(limits.authority_limit),
            permits,
            names: TurnNames::new(alloc, keys),
            places: PlaceCounts::new(alloc, keys),
        })
    }
}

// Whether each grant has a slot within these limits and a possible generation.
fn fit_limits(limits: Limits, grants: &[SlotGrant]) -> bool
    ensures { result ≡ list_all (is_grant_of limits) grants.now }
{
    grants.iter().all(|grant| fits(limits, *grant))
}

fn fits(limits: Limits, grant: SlotGrant) -> bool
    ensures { result ≡ is_grant_of limits grant }
{
    grant.slot < limits.slots && grant.generation > 0 && grant.generation <= LAST_GENERATION
}

// A table with nothing outstanding, after these earlier grants.
fn table_behind(alloc: Global, limits: Limits, grants: &[SlotGrant]) -> Result<Permits, AllocError>
    requires limits { AreLimits limits }
    requires fit { list_all (is_grant_of limits) grants.now ≡ true }
    ensures { IfOk result (λ table. IsBehind limits grants.now table) }
{
    let mut permits = Permits::with_slots(alloc, limits.slots, limits.first_generation)?;
    for place in 0..grants.len() {
        let grant = grants[place];
        permits.note_grant(grant.slot, grant.generation);
    }
    Ok(permits)
}
