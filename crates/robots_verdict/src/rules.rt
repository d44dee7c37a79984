//! The answer of a readable robots.txt: its policy, with spare handles.
//! RFC 9309, section 2.3.1.1.
ghost use Rattle.std.specs.Prelude.{◌≡◌, ◌+◌, ◌<◌, ℕ, List, IfOk, bytes_eq};
ghost use Rattle.std.specs.Cmp.{on_equiv, partial_equiv_from_equiv};
ghost use Rattle.std.specs.Cmp.Lexicographic.{nat_list_eq_equiv};
ghost use Rattle.std.specs.Arc.{arc_value};
ghost use Rattle.robots_verdict.specs.Kept.{KeptRules};
ghost use Rattle.robots_verdict.specs.Spares.{AreOf, count};

use crate::policy::Policy;
use crate::said::PolicyHandle;
use robots_text::RobotsText;
use std::alloc::{AllocError, Global};
use std::marker::Model;
use std::mem;
use std::sync::Arc;

// Handles of the same policy, since cloning an `Arc` can fail.
#[derive(Drop)]
enum Spares {
    None,
    One(Arc<Policy>),
    Two(Arc<Policy>, Arc<Policy>),
}

/// The shared policy of an answer, and up to two spare handles.
pub struct Rules {
    policy: Arc<Policy>,
    spares: Spares,
}

// Let go by one call: no crate above proves anew how its parts end.
impl Drop for Rules {
    fn drop(self) {
        let Rules {
            policy: _,
            spares: _,
        } = self;
    }
}

impl Model for Rules {
    ghost use Rattle.robots_verdict.specs.Kept.{KeptRules};

    ghost Value = { KeptRules };

    ghost use Rattle.std.specs.Arc.{arc_value};
    ghost use Rattle.robots_verdict.specs.Spares.{AreOf, count};

    ghost view = { λ rules. record {
      text = arc_value rules.policy;
      spares = count rules.spares;
    } };

    ghost invariant = { λ rules. AreOf (arc_value rules.policy) rules.spares };
}

impl Rules {
    /// The policy of a text, with two spares.
    pub(crate) fn new(alloc: Global, text: RobotsText) -> Result<Rules, AllocError>
        ensures { IfOk result (λ rules. rules ≡ record { text = text; spares = 2 }) }
    {
        Rules::of(Arc::new(alloc, Policy::new(alloc, text)?)?)
    }

    fn of(policy: Arc<Policy>) -> Result<Rules, AllocError>
        ensures { IfOk result (λ rules. rules ≡ record { text = arc_value policy; spares = 2 }) }
    {
        let first = Arc::try_clone(&policy)?;
        let second = Arc::try_clone(&policy)?;
        Ok(Rules {
            policy,
            spares: Spares::Two(first, second),
        })
    }

    /// Rules of the same policy without spares; spends a spare.
    pub(crate) fn twin(&mut self) -> Rules
        requires { 0 < self.old.spares }
        ensures twin { result ≡ record { text = self.old.text; spares = 0 } }
        ensures kept { self.new.text ≡ self.old.text }
        ensures spent { self.new.spares + 1 ≡ self.old.spares }
    {
        Rules {
            policy: take_spare(&mut self.spares),
            spares: Spares::None,
        }
    }

    /// How many spares there are.
    pub fn spares(&self) -> u8
        ensures { result ≡ self.now.spares }
    {
        match self.spares {
            Spares::None => 0,
            Spares::One(_) => 1,
            Spares::Two(_, _) => 2,
        }
    }

    /// The policy that applies.
    pub fn policy(&self) -> &Policy
        ensures { result.now ≡ self.now.text }
    {
        &self.policy
    }

    /// A handle of the policy for a history; the spares stay.
    pub(crate) fn policy_handle(&self) -> Result<PolicyHandle, AllocError>
        ensures { IfOk result (λ handle. handle ≡ self.now.text) }
    {
        Ok(PolicyHandle {
            policy: self.handle()?,
        })
    }

    /// The handle of the policy, without the spares.
    pub(crate) fn into_handle(self) -> PolicyHandle
        ensures { result ≡ self.text }
    {
        let Rules { policy, spares: _ } = self;
        PolicyHandle { policy }
    }

    /// Makes an index, if it pays and memory suffices.
    pub fn make_index(&mut self, alloc: Global)
        ensures { self.new ≡ self.old }
    {
        if !self.policy.wants_index() {
            return;
        }
        if let Ok(policy) = indexed(alloc, &self.policy) {
            self.policy = policy;
        }
    }

    /// Replaces its policy by this one, if the text is the same and its own has no index.
    pub fn take_index(&mut self, policy: Arc<Policy>)
        ensures { self.new ≡ self.old }
    {
        if policy.is_indexed()
            && !self.policy.is_indexed()
            && self.policy.text().bytes() == policy.text().bytes()
        {
            self.policy = policy;
        }
    }

    /// Replaces its policy by this one, if the text is the same and no spare was spent, so that it is in
    /// memory once. If a handle is refused its own stays.
    pub fn share(&mut self, policy: Arc<Policy>)
        ensures { self.new ≡ self.old }
    {
        if self.spares() < 2 || self.policy.text().bytes() != policy.text().bytes() {
            return;
        }
        if let Ok(rules) = Rules::of(policy) {
            drop(mem::replace(self, rules));
        }
    }

    /// A handle of the policy; the spares stay.
    pub fn handle(&self) -> Result<Arc<Policy>, AllocError>
        ensures { IfOk result (λ handle. arc_value handle ≡ self.now.text) }
    {
        Arc::try_clone(&self.policy)
    }
}

/// The policy with an index if it pays and memory suffices, else unchanged.
pub fn with_index(alloc: Global, policy: Arc<Policy>) -> Arc<Policy>
    ensures { arc_value result ≡ arc_value policy }
{
    if !policy.wants_index() {
        return policy;
    }
    match indexed(alloc, &policy) {
        Ok(other) => other,
        Err(_) => policy,
    }
}

fn indexed(alloc: Global, policy: &Policy) -> Result<Arc<Policy>, AllocError>
    ensures { IfOk result (λ handle. arc_value handle ≡ policy.now) }
{
    Ok(Arc::new(alloc, policy.indexed(alloc)?)?)
}

/// Rules are equal if their texts are.
impl PartialEq for Rules {
    ghost eq = { λ a b. bytes_eq a.text b.text };

    ghost laws = { partial_equiv_from_equiv
        (on_equiv (λ (kept : KeptRules). kept.text) nat_list_eq_equiv) };

    fn eq(&self, other: &Rules) -> bool {
        self.policy.text().bytes() == other.policy.text().bytes()
    }
}

impl Eq for Rules {
    ghost laws = { on_equiv (λ (kept : KeptRules). kept.text) nat_list_eq_equiv };
}

fn take_spare(spares: &mut Spares) -> Arc<Policy>
    requires { 0 < count spares.old }
    ensures one_less { count spares.new + 1 ≡ count spares.old }
    ensures taken { (text : List ℕ) → AreOf text spares.old → arc_value result ≡ text }
    ensures left { (text : List ℕ) → AreOf text spares.old → AreOf text spares.new }
{
    match mem::replace(spares, Spares::None) {
        Spares::None => unreachable!(),
        Spares::One(first) => first,
        Spares::Two(first, second) => {
            *spares = Spares::One(second);
            first
        }
    }
}
