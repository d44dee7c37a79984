//! `audit` over the standard streams.
//! Input and output are in docs/FORMATS.md.
ghost use Rattle.std.specs.Prelude.{◌≡◌, List, Some, ℕ};
ghost use Rattle.program_commands.specs.Messages.{BlamesDevice, TellsAudit};

use crate::audit_result::AuditResult;
use crate::ending::Ending;
use crate::reasoned::Reasoned;
use crate::streams::Stream;
use crate::telling::{tell_failed, tell_to};
use counted_io::{Counted, Sink, Source};
use crawl_audit::{AuditFault, Audited, audit_among};
use path_normal::Schemes;
use std::alloc::Global;
use std::hash::RandomState;

/// Audits standard input, with pages of these schemes. The audit's tables get new random keys.
pub(crate) fn audit_streams(rt: &HostRuntime, schemes: Schemes) -> Ending {
    let Ok(keys) = RandomState::new(rt) else {
        return Ending::Device;
    };
    let mut reader = Counted::new(Reasoned::new(rt.stdin()));
    let mut writer = Counted::new(Reasoned::new(rt.stdout()));
    let end = audit_over(rt.alloc(), keys, schemes, &mut reader, &mut writer);
    let end = tell_failed(rt, end, Stream::Input, reader);
    tell_failed(rt, end, Stream::Output, writer)
}

// Audits a source, and writes the result.
fn audit_over<R: Source, W: Sink>(
    alloc: Global,
    keys: RandomState,
    schemes: Schemes,
    reader: &mut R,
    writer: &mut W,
) -> Ending
    ensures tells { (text : List ℕ) → R.left reader.old ≡ Some text
        → TellsAudit schemes text (W.written writer.old) (W.written writer.new) result }
    ensures blames { BlamesDevice (R.failures reader.old) (R.failures reader.new)
        (W.failures writer.old) (W.failures writer.new) result }
{
    match audit_among(alloc, keys, schemes, reader) {
        Ok(Audited { events, starts }) => {
            let found = AuditResult::Right { events, starts };
            tell_to(alloc, writer, found.pieces(), Ending::Done)
        }
        Err(AuditFault::BadLine(line)) => {
            tell_to(
                alloc,
                writer,
                AuditResult::BadLine(line).pieces(),
                Ending::BadLine,
            )
        }
        Err(AuditFault::Read) => Ending::Device,
        Err(AuditFault::NoMemory) => Ending::NoMemory,
    }
}
