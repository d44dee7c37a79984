//! A worked example, computed from the definitions.
//! RFC 9309, section 2.3.1.3.
ghost use Rattle.std.specs.Prelude.{◌≡◌};
ghost use Rattle.gate_history.specs.Legal.{IsLegal};
ghost use Rattle.gate_history.specs.Rows.{after_one_fetch, one_fetch};
ghost use Rattle.gate_history.specs.Seal.{base_after};

/// The history of one fetch of a site without a robots.txt is legal, and leads to its base.
pub fn one_fetch_leads_to_its_base()
    ensures legal { IsLegal one_fetch }
    ensures base { base_after one_fetch ≡ after_one_fetch }
{}
