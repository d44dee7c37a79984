//! The rule lines of a text whose patterns are not in normal form, with their normal forms.
//! RFC 9309, section 2.2.2.
ghost use Rattle.std.specs.Prelude.{◌≡◌, ◌↔◌, ◌+◌, ◌*◌, ◌^◌, ◌∷◌, ◌≤◌, ◌<◌, ◌++◌, [], IfOk, IsTrue, length, map, MatchOption};
ghost use Rattle.std.specs.List.Sorted.{IsNonDecreasing};
ghost use Rattle.robots_text.specs.Grouped.{grouped_records, value_octets};
ghost use Rattle.robots_text.specs.Records.{kind_seen};
ghost use Rattle.robots_verdict.specs.Rewritten.{form_at, HasForm, HasNoForm, rewritten_at, rewritten_in};

use crate::rows::part;
use path_normal::{is_kept_pattern, push_normal_pattern};
use robots_text::{GroupedRecord, RecordKind, RobotsText};
use std::alloc::{AllocError, Global};
use std::marker::Model;

/// Where a line's form is among the octets of all forms.
#[derive(Clone, Copy)]
pub(crate) struct Form {
    pub line: u32,
    pub start: u32,
    pub len: u32,
}

/// Those rule lines, in line order.
#[derive(Drop)]
pub(crate) struct Rewritten {
    octets: Vec<u8>,
    forms: Vec<Form>,
}

impl Model for Rewritten {
    ghost use Rattle.robots_verdict.specs.Rewritten.{Forms};

    ghost Value = { Forms };

    ghost use Rattle.std.specs.Prelude.{All, length, map};
    ghost use Rattle.robots_verdict.specs.Rewritten.{form_seen, HasOctets};

    ghost view = { λ rewritten. record {
      of_lines = map (form_seen rewritten.octets.items) rewritten.forms.items;
      octets = length rewritten.octets.items;
    } };

    ghost invariant = { λ rewritten. All (HasOctets rewritten.octets.items) rewritten.forms.items };
}

impl Rewritten {
    /// Those of a text.
    pub(crate) fn of(alloc: Global, text: &RobotsText) -> Result<Rewritten, AllocError>
        ensures { IfOk result (λ rewritten. rewritten.of_lines
            ≡ rewritten_in (grouped_records text.now)) }
    {
        let mut rewritten = read(alloc, text)?;
        rewritten.fit();
        Ok(rewritten)
    }

    fn new(alloc: Global) -> Rewritten
        ensures { result ≡ record { of_lines = []; octets = 0 } }
    {
        Rewritten {
            octets: Vec::new(alloc),
            forms: Vec::new(alloc),
        }
    }

    fn push(&mut self, line: u32, form: &[u8]) -> Result<(), AllocError>
        requires { self.old.octets + length form.now < 2 ^ 32 }
        ensures line { IfOk result (λ _. self.new.of_lines
            ≡ self.old.of_lines ++ record { line = line; form = form.now } ∷ []) }
        ensures octets { IfOk result (λ _. self.new.octets ≡ self.old.octets + length form.now) }
    {
        let start = self.octets.len();
        self.octets.extend_from_slice(form)?;
        self.forms.push(Form {
            line,
            start: start as u32,
            len: form.len() as u32,
        })?;
        Ok(())
    }

    fn fit(&mut self)
        ensures { self.new ≡ self.old }
    {
        self.octets.shrink_to_fit();
        self.forms.shrink_to_fit();
    }

    /// Whether there are none.
    pub(crate) fn is_empty(&self) -> bool
        ensures { IsTrue result ↔ (self.now.of_lines ≡ []) }
    {
        self.forms.is_empty()
    }

    /// The normal form of this line's pattern, if written otherwise. Tries this place first and sets it to
    /// the next line's, so a walk over the lines seldom searches.
    pub(crate) fn form_near(&self, line: u64, near: &mut usize) -> Option<&[u8]>
        requires { IsNonDecreasing (map (λ form. form.line) self.now.of_lines) }
        ensures { MatchOption result (HasNoForm self.now.of_lines line)
            (λ octets. HasForm self.now.of_lines line octets.now) }
    {
        let place = *near;
        if self.is_gap(line, place) {
            return None;
        }
        if place < self.forms.len() && self.line(place) == line {
            *near = place + 1;
            return Some(self.form(place));
        }
        match self
            .forms
            .binary_search_by_key(&line, |form| u64::from(form.line))
        {
            Ok(place) => {
                *near = place + 1;
                Some(self.form(place))
            }
            Err(place) => {
                *near = place;
                None
            }
        }
    }

    // Whether the forms up to this place are of earlier lines, the others of later ones.
    fn is_gap(&self, line: u64, place: usize) -> bool
        requires { IsNonDecreasing (map (λ form. form.line) self.now.of_lines) }
        ensures { IsTrue result → HasNoForm self.now.of_lines line }
    {
        if place > self.forms.len() || (place > 0 && self.line(place - 1) >= line) {
            return false;
        }
        place == self.forms.len() || line < self.line(place)
    }

    fn line(&self, place: usize) -> u64
        requires { place < length self.now.of_lines }
        ensures { result ≡ (form_at self.now.of_lines place).line }
    {
        u64::from(self.forms[place].line)
    }

    fn form(&self, place: usize) -> &[u8]
        requires { place < length self.now.of_lines }
        ensures { result.now ≡ (form_at self.now.of_lines place).form }
    {
        let form = self.forms[place];
        part(
            self.octets.as_slice(),
            form.start as usize,
            form.len as usize,
        )
    }
}

fn read(alloc: Global, text: &RobotsText) -> Result<Rewritten, AllocError>
    ensures { IfOk result (λ rewritten. rewritten.of_lines
        ≡ rewritten_in (grouped_records text.now)) }
{
    let mut rewritten = Rewritten::new(alloc);
    let mut form = Vec::new(alloc);
    let mut records = text.groups();
    while let Some(item) = records.next() {
        take(&mut rewritten, &mut form, item)?;
    }
    Ok(rewritten)
}

// Adds a record's line if its pattern is not in normal form. Most patterns keep each octet and are not
// copied; the others share one buffer.
fn take(
    rewritten: &mut Rewritten,
    form: &mut Vec<u8>,
    item: GroupedRecord<'_>,
) -> Result<(), AllocError>
    requires octets { rewritten.old.octets + 3 * value_octets (kind_seen item.kind) < 2 ^ 32 }
    requires line { item.line < 2 ^ 32 }
    ensures lines { IfOk result (λ _. rewritten.new.of_lines
        ≡ rewritten.old.of_lines ++ rewritten_at item.entry.line (kind_seen item.entry.kind)) }
    ensures octets { IfOk result (λ _. rewritten.new.octets
        ≤ rewritten.old.octets + 3 * value_octets (kind_seen item.entry.kind)) }
{
    let RecordKind::Rule(_, pattern) = item.kind else {
        return Ok(());
    };
    if is_kept_pattern(pattern) {
        return Ok(());
    }
    form.clear();
    push_normal_pattern(form, pattern)?;
    if form.as_slice() == pattern {
        return Ok(());
    }
    rewritten.push(item.line as u32, form.as_slice())
}
