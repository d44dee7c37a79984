//! The parents of plain places: the longest other prefix of each, where there is one.
//! Used by `Plain`: few patterns begin with another one, so only these are listed.
ghost use Rattle.std.specs.Prelude.{◌≡◌, ◌<◌, ◌++◌, [], All, IfOk, IfSome};
ghost use Rattle.robots_text.specs.Lines.{text_limit};
ghost use Rattle.robots_verdict.specs.Parents.{listed, parent_of};

use crate::three_octets::ThreeOctets;
use std::alloc::{AllocError, Global};
use std::marker::Model;

/// The indices that have a parent, in order, and its index.
#[derive(Drop)]
pub(crate) struct Parents {
    children: Vec<Child>,
}

/// An index that has a parent.
#[derive(Drop)]
struct Child {
    index: ThreeOctets,
    parent: ThreeOctets,
}

impl Model for Parents {
    ghost use Rattle.std.specs.Prelude.{List, ℕ, map};
    ghost use Rattle.std.specs.List.Sorted.{IsNonDecreasingBy};
    ghost use Rattle.robots_verdict.specs.Parents.{child, index_of};

    ghost Value = { List (ℕ × ℕ) };

    ghost view = { λ parents. map child parents.children.items };

    ghost invariant = { λ parents. IsNonDecreasingBy index_of parents.children.items };
}

impl Parents {
    /// No index has a parent.
    pub(crate) fn new(alloc: Global) -> Parents
        ensures { result ≡ [] }
    {
        Parents {
            children: Vec::new(alloc),
        }
    }

    /// Lists one more index, if it has a parent.
    pub(crate) fn push(&mut self, index: u32, parent: Option<u32>) -> Result<(), AllocError>
        requires few { index < text_limit }
        requires parent { IfSome parent (λ parent. parent < text_limit) }
        requires behind { All (λ child. child.0 < index) self.old }
        ensures { IfOk result (λ _. self.new ≡ self.old ++ listed index parent) }
    {
        if let Some(parent) = parent {
            self.children.push(Child {
                index: ThreeOctets::of(index),
                parent: ThreeOctets::of(parent),
            })?;
        }
        Ok(())
    }

    /// Gives spare memory back.
    pub(crate) fn fit(&mut self)
        ensures { self.new ≡ self.old }
    {
        self.children.shrink_to_fit();
    }

    /// The parent of an index, if it has one.
    pub(crate) fn of(&self, index: usize) -> Option<u32>
        ensures { result ≡ parent_of self.now index }
    {
        let children = self.children.as_slice();
        let at = children.partition_point(|child| (child.index.number() as usize) < index);
        match children.get(at) {
            Some(child) if child.index.number() as usize == index => Some(child.parent.number()),
            _ => None,
        }
    }
}
