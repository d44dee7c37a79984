//! The names of groups, and which groups a token has.
//! RFC 9309, section 2.2.1.
ghost use Rattle.std.specs.Prelude.{◌≡◌, ◌++◌, [], ◌↔◌, ℕ, Contains, IfOk, map};
ghost use Rattle.std.specs.List.Sorted.{IsNonDecreasing, IsPermutation};
ghost use Rattle.std.specs.Ordering.{is_gt, is_lt, nat_cmp};
ghost use Rattle.std.specs.Cmp.Lexicographic.{slice_cmp};
ghost use Rattle.robots_text.specs.Records.{agent_seen, agent};
ghost use Rattle.robots_verdict.specs.Heads.{compare_names, IsGroupFor, name_seen};
ghost use Rattle.robots_verdict.specs.Placed.{everybody_at, named_at};

use robots_text::{Agent, lower_case};
use std::alloc::{AllocError, Global};
use std::cmp::Ordering;
use std::marker::Model;

/// A name in lower case, and the number of a group with it.
#[derive(Drop)]
pub(crate) struct Name {
    text: Vec<u8>,
    group: u32,
}

/// The names in reading order, and the groups for `*`.
#[derive(Drop)]
pub(crate) struct NamedGroups {
    names: Vec<Name>,
    everybody: Vec<u32>,
}

/// The sorted names, and the groups for `*`.
#[derive(Drop)]
pub(crate) struct Heads {
    names: Vec<Name>,
    // The groups of the names, index by index.
    groups: Vec<u32>,
    everybody: Vec<u32>,
}

impl Model for Heads {
    ghost use Rattle.robots_verdict.specs.Placed.{Names};

    ghost Value = { Names };

    ghost use Rattle.std.specs.Prelude.{◌≡◌, map};
    ghost use Rattle.std.specs.List.Sorted.{IsNonDecreasing, IsSortedBy};
    ghost use Rattle.robots_verdict.specs.Heads.{is_name_before, name_seen};

    ghost view = { λ heads. record {
      named = map name_seen heads.names.items;
      everybody = heads.everybody.items;
    } };

    ghost invariant = { λ heads. (heads.groups.items ≡ map (λ name. name.group) heads.names.items)
        × IsSortedBy is_name_before (map name_seen heads.names.items)
        × IsNonDecreasing heads.everybody.items };
}

impl NamedGroups {
    pub(crate) fn new(alloc: Global) -> NamedGroups
        ensures { (result.names.items ≡ []) × (result.everybody.items ≡ []) }
    {
        NamedGroups {
            names: Vec::new(alloc),
            everybody: Vec::new(alloc),
        }
    }

    /// Adds the name of a user-agent line.
    pub(crate) fn push(
        &mut self,
        alloc: Global,
        who: Agent<'_>,
        group: u32,
    ) -> Result<(), AllocError>
        ensures named { IfOk result (λ _. map name_seen self.new.names.items
            ≡ map name_seen self.old.names.items ++ named_at group (agent (agent_seen who.entry))) }
        ensures everybody { IfOk result (λ _. self.new.everybody.items
            ≡ self.old.everybody.items ++ everybody_at group (agent (agent_seen who.entry))) }
    {
        match who {
            Agent::All => self.everybody.push(group)?,
            Agent::Name(name) => {
                let text = lower_case(alloc, name)?;
                self.names.push(Name { text, group })?;
            }
            Agent::Nobody => {}
        }
        Ok(())
    }
}

impl Heads {
    /// Sorts the names and the groups for `*`.
    pub(crate) fn of(alloc: Global, names: NamedGroups) -> Result<Heads, AllocError>
        ensures named { IfOk result (λ heads.
            IsPermutation (map name_seen names.names.items) heads.named) }
        ensures everybody { IfOk result (λ heads.
            IsPermutation names.everybody.items heads.everybody) }
    {
        let NamedGroups {
            mut names,
            mut everybody,
        } = names;
        names.sort_unstable_by(|one, other| compare_names(one, other));
        everybody.sort_unstable();
        let groups = groups_of(alloc, names.as_slice())?;
        Ok(Heads {
            names,
            groups,
            everybody,
        })
    }

    /// The groups for a token, in lower case: those of its name, or for `*` if there are none. Their
    /// numbers rise.
    pub(crate) fn groups_for(&self, token: &[u8]) -> &[u32]
        ensures groups { (group : ℕ) → Contains result.now group
            ↔ IsGroupFor self.now token.now group }
        ensures rise { IsNonDecreasing result.now }
    {
        let low = self.names.partition_point(|name| is_before(name, token));
        let high = self.names.partition_point(|name| !is_behind(name, token));
        if low < high {
            &self.groups[low..high]
        } else {
            self.everybody.as_slice()
        }
    }
}

fn groups_of(alloc: Global, names: &[Name]) -> Result<Vec<u32>, AllocError>
    ensures { IfOk result (λ groups. groups.items ≡ map (λ name. name.group) names.now) }
{
    let mut groups = Vec::with_capacity(alloc, names.len())?;
    for name in names {
        groups.push(name.group)?;
    }
    Ok(groups)
}

fn compare_names(one: &Name, other: &Name) -> Ordering
    ensures { result ≡ compare_names (name_seen one.now) (name_seen other.now) }
{
    one.text
        .as_slice()
        .cmp(other.text.as_slice())
        .then(one.group.cmp(&other.group))
}

fn is_before(name: &Name, token: &[u8]) -> bool
    ensures { result ≡ is_lt (slice_cmp nat_cmp (name_seen name.now).name token.now) }
{
    name.text.as_slice().cmp(token).is_lt()
}

fn is_behind(name: &Name, token: &[u8]) -> bool
    ensures { result ≡ is_gt (slice_cmp nat_cmp (name_seen name.now).name token.now) }
{
    name.text.as_slice().cmp(token).is_gt()
}
