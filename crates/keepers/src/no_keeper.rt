//! Why a gate has no further keeper.
//! Told by `DeskKeeper::open`.

use gate_lock::DesksFull;

/// Why a gate has no further keeper.
#[derive(Clone, Copy, Debug, PartialEq, Eq)]
pub enum NoKeeper {
    /// The most desks are open.
    DesksFull,
    /// Out of memory.
    NoMemory,
}

impl From<DesksFull> for NoKeeper {
    ghost use Rattle.std.specs.Prelude.{◌≡◌};
    ghost use Rattle.keepers.specs.declared.no_keeper.NoKeeper.TheVariants as refusals;

    ghost from_gives = { λ _ told. told ≡ refusals.DesksFull };

    fn from(_: DesksFull) -> NoKeeper {
        NoKeeper::DesksFull
    }
}
