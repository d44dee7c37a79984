//! A fetch that is refused.
//! docs/FORMATS.md has the reply.
ghost use Rattle.std.specs.Prelude.{Some};
ghost use Rattle.keepers.specs.Bounding.{TellsRefused};

use crawl_job::{Hop, Outcome, Refusal};
use gate_core::NoMemory;
use std::alloc::Global;

/// The outcome of a fetch that is refused: one hop, which says why.
pub(crate) fn refused_fetch(alloc: Global, refusal: Refusal) -> Result<Outcome, NoMemory>
    ensures { TellsRefused refusal (Some result) }
{
    let mut hops = Vec::new(alloc);
    if hops.push(Hop::Err(refusal)).is_err() {
        return Err(NoMemory);
    }
    Ok(Outcome {
        hops,
        body: Vec::new(alloc),
    })
}
