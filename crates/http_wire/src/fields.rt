//! The fields of a head: their values and list members, by name.
//! RFC 9110, sections 5.1 and 5.6.1.
ghost use Rattle.std.specs.Prelude.{◌≡◌, ◌≤◌, ◌∷◌, ◌++◌, [], flat_map, All, length, map, reverse, take, MatchOption};
ghost use Rattle.std.specs.Iterator.{YieldsFirstRef, item_count};
ghost use Rattle.httparse.specs.Grammar.{skip_ows, trim_ows};
ghost use Rattle.httparse.specs.Spans.{IsHeaderWithin, header_bytes};
ghost use Rattle.http_wire.specs.Fields.{members, members_of, values_of};
ghost use Rattle.http_wire.specs.Left.{HasNoComma, IsSplitAtComma, members_left, pairs, members_after, values_left};

use httparse::is_space_or_tab;
use httparse::spans::HeaderSpan;
use memchr::memchr;
use robots_text::is_same_word;

/// One field of a head.
#[derive(Clone, Copy)]
pub(crate) struct Field<'h> {
    pub(crate) name: &'h [u8],
    // Without surrounding white space.
    pub(crate) value: &'h [u8],
}

/// An empty field, to fill an array with.
pub(crate) const EMPTY_FIELD: Field<'static> = Field {
    name: b"",
    value: b"",
};

/// Puts the fields that the spans cover at the front of `fields`.
pub(crate) fn cover<'h>(head: &'h [u8], spans: &[HeaderSpan], fields: &mut [Field<'h>])
    requires within { All (IsHeaderWithin (length head.now)) spans.now }
    requires room { length spans.now ≤ length fields.old }
    ensures covered { pairs (take (length spans.now) fields.new)
        ≡ map (header_bytes head.now) spans.now }
    ensures room_kept { length fields.new ≡ length fields.old }
{
    for i in 0..spans.len() {
        fields[i] = Field {
            name: spans[i].name.of(head),
            value: spans[i].value.of(head),
        };
    }
}

/// The values of the fields with one name.
#[derive(Drop)]
pub(crate) struct Values<'h> {
    fields: &'h [Field<'h>],
    seen: usize,
    name: &'static [u8],
}

impl<'h> Values<'h> {
    /// The values of the fields with this name, in any case.
    pub(crate) fn of(fields: &'h [Field<'h>], name: &'static [u8]) -> Values<'h>
        ensures { values_left result ≡ values_of name.now (pairs fields.now) }
    {
        Values {
            fields,
            seen: 0,
            name,
        }
    }
}

impl<'h> Iterator for Values<'h> {
    type Item = &'h [u8];

    ghost next_gives = { YieldsFirstRef values_left };

    ghost remaining = { item_count values_left };

    fn next(&mut self) -> Option<&'h [u8]> {
        while self.seen < self.fields.len() {
            let field = self.fields[self.seen];
            self.seen += 1;
            if is_same_word(field.name, self.name) {
                return Some(field.value);
            }
        }
        None
    }
}

/// The list members of the fields with one name, without surrounding white space. An empty member counts.
#[derive(Drop)]
pub(crate) struct Members<'h> {
    values: Values<'h>,
    rest: Option<&'h [u8]>,
}

impl<'h> Members<'h> {
    /// The members of the fields with this name.
    pub(crate) fn of(fields: &'h [Field<'h>], name: &'static [u8]) -> Members<'h>
        ensures { members_left result ≡ members_of name.now (pairs fields.now) }
    {
        Members {
            values: Values::of(fields, name),
            rest: None,
        }
    }

    fn next_list(&mut self) -> Option<&'h [u8]>
        ensures { MatchOption result
            ((members_left self.old ≡ []) × (members_left self.new ≡ []))
            (λ list. members_left self.old
            ≡ members list.now ++ flat_map members (values_left self.new.values)) }
    {
        match self.rest {
            Some(rest) => Some(rest),
            None => self.values.next(),
        }
    }
}

impl<'h> Iterator for Members<'h> {
    type Item = &'h [u8];

    ghost next_gives = { YieldsFirstRef members_left };

    ghost remaining = { item_count members_left };

    fn next(&mut self) -> Option<&'h [u8]> {
        let list = self.next_list()?;
        let (member, rest) = split_member(list);
        self.rest = rest;
        Some(member)
    }
}

// [ element ] *( OWS "," OWS [ element ] ): the first member of a list, and the text after its comma, if
// any.
fn split_member(list: &[u8]) -> (&[u8], Option<&[u8]>)
    ensures { members list.now ≡ result.0.now ∷ members_after result.1 }
{
    match split_at_comma(list) {
        Some((member, rest)) => (trim_ows(member), Some(rest)),
        None => (trim_ows(list), None),
    }
}

fn split_at_comma(list: &[u8]) -> Option<(&[u8], &[u8])>
    ensures { MatchOption result (HasNoComma list.now)
        (λ parts. IsSplitAtComma list.now parts.0.now parts.1.now) }
{
    let comma = memchr(b',', list)?;
    Some((&list[..comma], &list[comma + 1..]))
}

// OWS text OWS, without that white space.
fn trim_ows(text: &[u8]) -> &[u8]
    ensures { result.now ≡ trim_ows text.now }
{
    trim_end(trim_start(text))
}

fn trim_start(text: &[u8]) -> &[u8]
    ensures { result.now ≡ skip_ows text.now }
{
    let mut rest = text;
    while let [first, after @ ..] = rest
        && is_space_or_tab(*first)
    {
        rest = after;
    }
    rest
}

fn trim_end(text: &[u8]) -> &[u8]
    ensures { result.now ≡ reverse (skip_ows (reverse text.now)) }
{
    let mut rest = text;
    while let [before @ .., last] = rest
        && is_space_or_tab(*last)
    {
        rest = before;
    }
    rest
}
