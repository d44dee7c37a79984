//! A robots text, kept up to the limit.
//! RFC 9309, sections 2.2 and 2.5.
ghost use Rattle.std.specs.Prelude.{◌≡◌, ◌≤◌, ◌<◌, All, length, IfOk};
ghost use Rattle.robots_text.specs.Left.{records_left};
ghost use Rattle.robots_text.specs.Grouped.{grouped_left, grouped_records, IsWithin, values_octets};
ghost use Rattle.robots_text.specs.Lines.{kept, IsLongestFront, text_limit};
ghost use Rattle.robots_text.specs.Records.{numbered_records};

use crate::grouped::GroupedRecords;
use crate::line::{unmarked, whole_lines};
use crate::records::Records;
use std::alloc::{AllocError, Global};
use std::marker::Model;

/// The most octets that are read of a robots text (RFC 9309, 2.5).
pub const MAX_TEXT: usize = 512000;

/// A robots text: the octets kept of it, with any byte order mark.
#[derive(Drop)]
pub struct RobotsText {
    octets: Vec<u8>,
}

impl Model for RobotsText {
    ghost use Rattle.std.specs.Prelude.{◌≤◌, ℕ, List, vec_len};
    ghost use Rattle.robots_text.specs.Lines.{text_limit};

    ghost Value = { List ℕ };

    ghost view = { λ text. text.octets.items };

    ghost invariant = { λ text. vec_len text.octets ≤ text_limit };
}

impl RobotsText {
    /// Reads a text of any octets. If it is over the limit, keeps the lines that end within the limit.
    pub fn read(alloc: Global, body: &[u8]) -> Result<RobotsText, AllocError>
        ensures kept { IfOk result (λ text. text ≡ kept body.now) }
        ensures longest { IfOk result (λ text.
            text_limit < length body.now → IsLongestFront body.now text) }
    {
        Ok(RobotsText {
            octets: Vec::from_slice(alloc, kept(body))?,
        })
    }

    /// Takes over a body as a text. Takes no memory.
    pub fn of(body: Vec<u8>) -> RobotsText
        ensures { result ≡ kept body.items }
    {
        let mut octets = body;
        octets.truncate(kept(octets.as_slice()).len());
        octets.shrink_to_fit();
        RobotsText { octets }
    }

    /// The records of the text, in line order.
    pub fn records(&self) -> Records<'_>
        ensures records { records_left result ≡ numbered_records self.now }
        ensures few { length (records_left result) ≤ text_limit }
    {
        Records::of(unmarked(self.octets.as_slice()))
    }

    /// The records of the text with their groups, in line order.
    pub fn groups(&self) -> GroupedRecords<'_>
        ensures records { grouped_left result ≡ grouped_records self.now }
        ensures within { All (IsWithin text_limit) (grouped_left result) }
        ensures few { length (grouped_left result) ≤ text_limit }
        ensures small { values_octets (grouped_left result) ≤ text_limit }
    {
        GroupedRecords::of(Records::of(unmarked(self.octets.as_slice())))
    }

    /// The octets kept, with any byte order mark.
    pub fn bytes(&self) -> &[u8]
        ensures value { result.now ≡ self.now }
        ensures few { length result.now ≤ text_limit }
        ensures own { kept result.now ≡ result.now }
    {
        self.octets.as_slice()
    }
}

fn kept(body: &[u8]) -> &[u8]
    ensures value { result.now ≡ kept body.now }
    ensures longest { text_limit < length body.now → IsLongestFront body.now result.now }
    ensures within { length result.now ≤ text_limit }
{
    if body.len() <= MAX_TEXT {
        return body;
    }
    whole_lines(body.split_at(MAX_TEXT).0)
}
