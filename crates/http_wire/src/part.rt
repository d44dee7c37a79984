//! The parts of a response, each found by looks at the octets received.
//! RFC 9112, section 2.2. Between two looks lies one read.
ghost use Rattle.std.specs.Prelude.{◌≡◌, ◌≢◌, ◌≤◌, ◌++◌, ℕ, List, Err, length, IfErr, IfOk, MatchOption};
ghost use Rattle.http_wire.specs.Parts.{Breaks, Stops};
ghost use Rattle.http_wire.specs.Reading.{TakesTheRest};
ghost use Rattle.http_wire.specs.Response.{failures_after_reading};

use crate::buffer::{Buffer, Fill};
use crate::fault::WireFault;
use crate::limits::MOST_RAW;
use counted_io::Source;
use std::alloc::Global;

/// A part of a response, searched for in the octets received.
pub(crate) trait Part {
    ghost use Rattle.http_wire.specs.declared.fault.WireFault.{WireFault};

    /// What the part gives.
    type Parsed;

    // What no look changes.
    ghost Kept: { Type 0 };

    ghost kept: { Self → Self.Kept };

    // What is known of the octets before a look.
    ghost stands: { Self → List ℕ → Type 0 };

    // What is known of them after a look that found nothing.
    ghost waits: { Self → List ℕ → Type 0 };

    // What was found in the first octets; the second are left in the buffer.
    ghost gives: { Self.Kept → List ℕ → List ℕ → Self.Parsed → Type 0 };

    // Why the octets give nothing, whatever follows.
    ghost refuses: { Self.Kept → List ℕ → WireFault → Type 0 };

    /// Looks at the octets received, and gives what is certain whatever follows.
    fn look(
        &mut self,
        alloc: Global,
        buffer: &mut Buffer,
    ) -> Result<Option<Self::Parsed>, WireFault>
        requires stands { Self.stands self.old buffer.old }
        requires few { length buffer.old ≤ MOST_RAW }
        ensures kept { Self.kept self.new ≡ Self.kept self.old }
        ensures ok { IfOk result (λ found. MatchOption found
            ((buffer.new ≡ buffer.old) × Self.waits self.new buffer.old
            × ((more : List ℕ) → Self.stands self.new (buffer.old ++ more)))
            (Self.gives (Self.kept self.old) buffer.old buffer.new)) }
        ensures err { IfErr result (Self.refuses (Self.kept self.old) buffer.old) }
        ensures no_device { result ≢ Err WireFault.Device };
}

/// How the reading of a part ends.
#[derive(Drop)]
pub(crate) enum Reached<T> {
    /// The part was found.
    Parsed(T),
    /// The input ends before the part does.
    Ended,
    /// The part was not found in as many octets as a response may have, and more follow.
    Past,
}

/// Looks for a part, and reads more until it is found, at most `most` octets of the response in all.
pub(crate) fn fill_until<S: Source, P: Part>(
    alloc: Global,
    source: &mut S,
    buffer: &mut Buffer,
    part: &mut P,
    most: usize,
) -> Result<Reached<P::Parsed>, WireFault>
    requires stands { P.stands part.old buffer.old }
    requires few { (length buffer.old ≤ most) × (most ≤ MOST_RAW) }
    ensures kept { P.kept part.new ≡ P.kept part.old }
    ensures ok { IfOk result (Stops most (P.waits part.new) (P.gives (P.kept part.old))
        (S.left source.old) (S.left source.new) buffer.old buffer.new) }
    ensures err { IfErr result
        (Breaks (P.refuses (P.kept part.old)) (S.left source.old) buffer.old) }
    ensures count { S.failures source.new ≡ failures_after_reading (S.failures source.old) result }
    ensures takes { TakesTheRest most buffer.old (S.left source.old) (S.left source.new) }
{
    loop {
        match part.look(alloc, buffer)? {
            Some(found) => return Ok(Reached::Parsed(found)),
            None => {}
        }
        match buffer.fill(source, most)? {
            Fill::More => {}
            Fill::Ended => return Ok(Reached::Ended),
            Fill::Past => return Ok(Reached::Past),
        }
    }
}
