//! Laws of an explanation's rows.
//! RFC 9309, section 2.2.2.
ghost use Rattle.std.specs.Prelude.{◌≡◌, ℕ, List};
ghost use Rattle.robots_text.specs.Groups.{Ruled};
ghost use Rattle.robots_verdict.specs.Weights.{is_above, weight_of};
ghost use Rattle.robots_check.specs.Rows.{IsRow, Tried, row_weight};

/// Rows rank as the weights of their rule lines do.
pub fn rows_rank_as_weights()
    ensures { (path : List ℕ) (one other : Ruled) (row beside : Tried) → IsRow path one row
        → IsRow path other beside → is_above (row_weight row) (row_weight beside)
        ≡ is_above (weight_of one) (weight_of other) }
{}
