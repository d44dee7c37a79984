//! The rule lines for a token compared with a path: which match, and how the strongest of these weigh.
//! RFC 9309, section 2.2.2.
ghost use Rattle.std.specs.Prelude.{◌≡◌, IfOk, map};
ghost use Rattle.std.specs.List.{All};
ghost use Rattle.robots_check.specs.Forms.{IsFormed, formed_rule};
ghost use Rattle.robots_check.specs.Rows.{AreRows, IsBestFor, IsRow, IsSecond, is_other, row_seen, row_weight, weighed_row};

use crate::rules::Formed;
use path_pattern::{Path, matches};
use robots_text::RuleLine;
use robots_verdict::{Weight, stronger};
use std::alloc::{AllocError, Global};

/// A rule line compared with a path.
#[derive(Clone, Copy)]
pub(crate) struct ComparedRule<'t> {
    pub(crate) rule: RuleLine<'t>,
    /// The octets of its normalized pattern.
    pub(crate) octets: usize,
    /// Whether it matches the path.
    pub(crate) matches: bool,
}

/// The rule lines compared with a path, in order, and the weight of the strongest that matches.
#[derive(Drop)]
pub(crate) struct Comparison<'t> {
    pub(crate) rows: Vec<ComparedRule<'t>>,
    pub(crate) strongest: Option<Weight>,
}

pub(crate) fn compare<'t>(
    alloc: Global,
    rules: &[Formed<'t>],
    path: &mut Path<'_, '_>,
) -> Result<Comparison<'t>, AllocError>
    requires { All IsFormed rules.now }
    ensures rows { IfOk result (λ compared.
        AreRows path.old (map formed_rule rules.now) (map row_seen compared.rows.items)) }
    ensures strongest { IfOk result (λ compared.
        IsBestFor path.old (map formed_rule rules.now) compared.strongest) }
    ensures stays { path.new ≡ path.old }
{
    let mut rows = Vec::with_capacity(alloc, rules.len())?;
    let mut strongest = None;
    for rule in rules {
        let row = row_of(rule, path);
        strongest = weighed(strongest, row, row.matches);
        rows.push(row)?;
    }
    Ok(Comparison { rows, strongest })
}

/// The weight of the strongest of the rule lines that match the path. Takes no memory.
pub(crate) fn strongest(rules: &[Formed<'_>], path: &mut Path<'_, '_>) -> Option<Weight>
    requires { All IsFormed rules.now }
    ensures strongest { IsBestFor path.old (map formed_rule rules.now) result }
    ensures stays { path.new ≡ path.old }
{
    let mut best = None;
    for rule in rules {
        let row = row_of(rule, path);
        best = weighed(best, row, row.matches);
    }
    best
}

fn row_of<'t>(formed: &Formed<'t>, path: &mut Path<'_, '_>) -> ComparedRule<'t>
    requires { IsFormed formed.now }
    ensures row { IsRow path.old (formed_rule formed.now) (row_seen result) }
    ensures stays { path.new ≡ path.old }
{
    let form = formed.form();
    ComparedRule {
        rule: formed.rule,
        octets: form.len(),
        matches: matches(form, path),
    }
}

/// The weight of the strongest matching row other than this line's.
pub(crate) fn second(rows: &[ComparedRule<'_>], line: u64) -> Option<Weight>
    ensures { IsSecond (map row_seen rows.now) line result }
{
    let mut best = None;
    for row in rows {
        best = weighed(best, *row, is_other(*row, line));
    }
    best
}

fn is_other(row: ComparedRule<'_>, line: u64) -> bool
    ensures { result ≡ is_other line (row_seen row.entry) }
{
    row.matches && row.rule.line != line
}

// The better of the best and one more row, if it counts.
fn weighed(best: Option<Weight>, row: ComparedRule<'_>, counts: bool) -> Option<Weight>
    ensures { result ≡ weighed_row counts best (row_seen row.entry) }
{
    if counts {
        Some(stronger(best, weight_of(row)))
    } else {
        best
    }
}

fn weight_of(row: ComparedRule<'_>) -> Weight
    ensures { result ≡ row_weight (row_seen row.entry) }
{
    Weight {
        octets: row.octets,
        kind: row.rule.kind,
        line: row.rule.line,
    }
}
