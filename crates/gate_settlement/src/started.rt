//! Whether receipts have as many started fetches as a history, and handed out all that was sealed.
ghost use Rattle.std.specs.Prelude.{◌≡◌, ◌↔◌, IsTrue};
ghost use Rattle.gate_marks.specs.Marks.{handed_at_all, starts_of_all};

use gate_lock::{Gate, Receipts};

pub(crate) fn has_starts<G: Gate>(all: &[Receipts<G>], count: u64) -> bool
    ensures { IsTrue result ↔ (starts_of_all all.now ≡ count) }
{
    let mut left = count;
    let mut rest = all;
    while let [receipts, after @ ..] = rest {
        let starts = receipts.starts();
        if left < starts {
            return false;
        }
        left -= starts;
        rest = after;
    }
    left == 0
}

pub(crate) fn has_handed<G: Gate>(all: &[Receipts<G>], count: u64) -> bool
    ensures { IsTrue result ↔ (handed_at_all all.now ≡ count) }
{
    let mut left = count;
    let mut rest = all;
    while let [receipts, after @ ..] = rest {
        let handed = receipts.sealed().handed();
        if left < handed {
            return false;
        }
        left -= handed;
        rest = after;
    }
    left == 0
}
