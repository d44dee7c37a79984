//! What has marks: the receipts of a desk, or a plain list.
//! What is found of all lists is found of any such type.
ghost use Rattle.std.specs.Prelude.{◌≡◌};
ghost use Rattle.gate_marks.specs.Marks.{Receipt};

use crate::mark::Mark;

/// A list of marks, and the places that it has before them.
pub trait MarkList {
    /// What it has, as receipts.
    ghost receipt: { Self → Receipt };

    /// How many of the first places it has.
    fn first_places(&self) -> u64
        ensures { result ≡ (receipt self.now).sealed.before };

    /// Its single places without marks, in their order.
    fn sealed_places(&self) -> &[u64]
        ensures { result.now ≡ (receipt self.now).sealed.places };

    /// Its marks, which are later, in their order.
    fn later_marks(&self) -> &[Mark]
        ensures { result.now ≡ (receipt self.now).marks };
}

impl<'a> MarkList for &'a [Mark] {
    ghost use Rattle.gate_marks.specs.Marks.{alone};

    ghost receipt = { λ marks. alone marks.now };

    fn first_places(&self) -> u64 {
        0
    }

    fn sealed_places(&self) -> &[u64] {
        &[]
    }

    fn later_marks(&self) -> &[Mark] {
        self
    }
}
