//! What an answer says, without spares: histories keep and compare it.
//! RFC 9309, section 2.3.1.
ghost use Rattle.std.specs.Prelude.{◌≡◌, bytes_eq};
ghost use Rattle.std.specs.Cmp.{partial_equiv_from_equiv};
ghost use Rattle.std.specs.Cmp.Lexicographic.{nat_list_eq_equiv};

use crate::answer::{Closure, Opening};
use crate::policy::Policy;
use std::marker::Model;
use std::sync::Arc;

/// What an answer says. Without spares, it can't make twins.
#[derive(Drop, PartialEq, Eq)]
pub enum Said {
    /// The rules of the robots.txt apply.
    Rules(PolicyHandle),
    /// No robots.txt applies: every page may be fetched.
    Open(Opening),
    /// The robots.txt can't be fetched or read: no page may be fetched.
    Closed(Closure),
}

/// A handle of a shared policy. A clause sees it as the policy's text.
#[derive(Drop)]
pub struct PolicyHandle {
    pub(crate) policy: Arc<Policy>,
}

impl Model for PolicyHandle {
    ghost use Rattle.std.specs.Prelude.{List, ℕ};
    ghost use Rattle.std.specs.Coded.{coded_list, coded_ℕ};

    ghost Value = { List ℕ };

    ghost coded = { coded_list coded_ℕ };

    ghost use Rattle.std.specs.Arc.{arc_value};

    ghost view = { λ handle. arc_value handle.policy };
}

impl PolicyHandle {
    /// The policy that applies.
    pub fn policy(&self) -> &Policy
        ensures { result.now ≡ self.now }
    {
        &self.policy
    }
}

/// Handles are equal if their policies' texts are.
impl PartialEq for PolicyHandle {
    ghost eq = { λ a b. bytes_eq a b };

    ghost laws = { partial_equiv_from_equiv nat_list_eq_equiv };

    fn eq(&self, other: &PolicyHandle) -> bool {
        self.policy.text().bytes() == other.policy.text().bytes()
    }
}

impl Eq for PolicyHandle {
    ghost laws = { nat_list_eq_equiv };
}
