//! The rows of a policy in one list, and the octets of their patterns in another.
//! RFC 9309, section 2.2.2.
ghost use Rattle.std.specs.Prelude.{◌≡◌, ◌+◌, ◌^◌, ◌∷◌, ◌++◌, [], ◌<◌, ◌≤◌, length, IfOk, IfSome};
ghost use Rattle.std.specs.List.Sorted.{IsPermutation, IsSortedBy};
ghost use Rattle.robots_verdict.specs.Rows.{is_row_above, part, row_at, weight_kept};
ghost use Rattle.robots_verdict.specs.Strongest.{verdict_at};
ghost use Rattle.robots_verdict.specs.Weights.{falling};

use crate::decision::{Allowed, Verdict};
use crate::rule_row::RuleRow;
use crate::three_octets::ThreeOctets;
use crate::weight::Weight;
use robots_text::RuleKind;
use std::alloc::{AllocError, Global};
use std::cmp::Ordering;
use std::marker::Model;

/// The rows and the octets of their patterns.
#[derive(Drop)]
pub(crate) struct Rows {
    octets: Vec<u8>,
    rows: Vec<RuleRow>,
}

impl Model for Rows {
    ghost use Rattle.robots_verdict.specs.Placed.{Table};

    ghost Value = { Table };

    ghost use Rattle.std.specs.Prelude.{All, length};
    ghost use Rattle.robots_verdict.specs.Rows.{IsThere, rows_seen};

    ghost view = { λ table. record {
      rows = rows_seen table.octets.items table.rows.items;
      octets = length table.octets.items;
    } };

    ghost invariant = { λ table. All (IsThere table.octets.items) table.rows.items };
}

impl Rows {
    pub(crate) fn new(alloc: Global) -> Rows
        ensures { result ≡ record { rows = []; octets = 0 } }
    {
        Rows {
            octets: Vec::new(alloc),
            rows: Vec::new(alloc),
        }
    }

    /// Adds a rule line, with its pattern in normal form.
    pub(crate) fn push(
        &mut self,
        group: u32,
        line: u32,
        kind: RuleKind,
        form: &[u8],
    ) -> Result<(), AllocError>
        requires { (self.old.octets + length form.now < 2 ^ 24)
            × (group < 2 ^ 24) × (line < 2 ^ 24) }
        ensures row { IfOk result (λ _. self.new.rows ≡ self.old.rows
            ++ record { group = group; line = line; kind = kind; form = form.now } ∷ []) }
        ensures octets { IfOk result (λ _. self.new.octets ≡ self.old.octets + length form.now) }
    {
        let start = self.octets.len();
        self.octets.extend_from_slice(form)?;
        self.rows.push(RuleRow {
            start: ThreeOctets::of(start as u32),
            len: ThreeOctets::of(form.len() as u32),
            line: ThreeOctets::of(line),
            group: ThreeOctets::of(group),
            kind,
        })?;
        Ok(())
    }

    /// Frees spare capacity.
    pub(crate) fn fit(&mut self)
        ensures { self.new ≡ self.old }
    {
        self.octets.shrink_to_fit();
        self.rows.shrink_to_fit();
    }

    /// Sorts the strongest first. Takes no memory.
    pub(crate) fn sort(&mut self)
        ensures permutation { IsPermutation self.old.rows self.new.rows }
        ensures falling { IsSortedBy is_row_above self.new.rows }
        ensures len { length self.new.rows ≡ length self.old.rows }
    {
        self.rows
            .sort_unstable_by(|one, other| falling_rows(one, other));
    }

    /// How many rows there are.
    pub(crate) fn len(&self) -> usize
        ensures { result ≡ length self.now.rows }
    {
        self.rows.len()
    }

    /// The row's group, and 0 past the end.
    pub(crate) fn group(&self, place: usize) -> u32
        ensures { result ≡ (row_at self.now.rows place).group }
    {
        if place < self.rows.len() {
            self.rows[place].group.number()
        } else {
            0
        }
    }

    /// The row's pattern in normal form, and nothing past the end.
    pub(crate) fn form(&self, place: usize) -> &[u8]
        ensures { result.now ≡ (row_at self.now.rows place).form }
    {
        if place < self.rows.len() {
            let row = &self.rows[place];
            part(
                self.octets.as_slice(),
                row.start.number() as usize,
                row.len.number() as usize,
            )
        } else {
            &[]
        }
    }

    /// The verdict by the first row that decides, if any.
    pub(crate) fn verdict(&self, first: Option<usize>) -> Verdict
        requires { IfSome first (λ place. place < length self.now.rows) }
        ensures { result ≡ verdict_at self.now.rows first }
    {
        let Some(place) = first else {
            return Verdict::Allow(Allowed::NoRule);
        };
        let row = &self.rows[place];
        let line = u64::from(row.line.number());
        match row.kind {
            RuleKind::Allow => Verdict::Allow(Allowed::Line(line)),
            RuleKind::Disallow => Verdict::Deny(line),
        }
    }
}

/// A part of the octets.
pub(crate) fn part(octets: &[u8], start: usize, len: usize) -> &[u8]
    requires { start + len ≤ length octets.now }
    ensures { result.now ≡ part octets.now start len }
{
    &octets[start..start + len]
}

fn falling_rows(one: &RuleRow, other: &RuleRow) -> Ordering
    ensures { result ≡ falling (weight_kept one.now) (weight_kept other.now) }
{
    weight(one).falling(&weight(other))
}

fn weight(row: &RuleRow) -> Weight
    ensures { result ≡ weight_kept row.now }
{
    Weight {
        octets: row.len.number() as usize,
        kind: row.kind,
        line: u64::from(row.line.number()),
    }
}
