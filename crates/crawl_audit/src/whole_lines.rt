//! The whole lines of a text whose last line may be torn.
//! docs/FORMATS.md: the lines, and causes of bad ones.
ghost use Rattle.std.specs.Prelude.{◌≡◌, ℕ, IfOk, List, Option};
ghost use Rattle.std.specs.Io.KnownBytes.{prepend_known};
ghost use Rattle.crawl_audit.specs.Audit.{failures_after_audit};
ghost use Rattle.crawl_audit.specs.Recovering.{HeardWhole, TakesWhole};

use crate::auditor::{Auditor, MAX_LINE};
use crate::fault::AuditFault;
use counted_io::{LineEnd, NextLine, ReadLineFault, Source};
use path_normal::Schemes;
use std::alloc::{AllocError, Global};
use std::hash::RandomState;

#[derive(Drop)]
pub(crate) struct WholeLines {
    pub(crate) auditor: Auditor,
    /// The octets of the lines read, with their ends.
    pub(crate) octets: u64,
}

impl WholeLines {
    pub(crate) fn new(
        alloc: Global,
        keys: RandomState,
        schemes: Schemes,
    ) -> Result<WholeLines, AllocError>
        ensures heard { IfOk result (λ whole. (left : Option (List ℕ))
            → HeardWhole schemes whole left (prepend_known whole.auditor.reader left)) }
        ensures lines { IfOk result (λ whole. whole.auditor.lines ≡ 0) }
    {
        Ok(WholeLines {
            auditor: Auditor::new(alloc, keys, schemes)?,
            octets: 0,
        })
    }

    /// Takes the next whole line of a source; false if there is none.
    pub(crate) fn take<R: Source>(
        &mut self,
        alloc: Global,
        reader: &mut R,
    ) -> Result<bool, AuditFault>
        ensures steps { (schemes : Schemes) (input : Option (List ℕ))
            → HeardWhole schemes self.old input
            (prepend_known self.old.auditor.reader (R.left reader.old))
            → TakesWhole schemes input self.old result self.new
            (prepend_known self.new.auditor.reader (R.left reader.new)) }
        ensures reads { R.failures reader.new
            ≡ failures_after_audit (R.failures reader.old) result }
    {
        let number = self.auditor.lines.saturating_add(1);
        match self
            .auditor
            .reader
            .next_line_to(reader, LineEnd::Lf, MAX_LINE, &mut self.auditor.line)
        {
            Ok(NextLine::Line) => {
                let octets = self.auditor.line.len() as u64;
                match self.auditor.take_line(alloc) {
                    Ok(()) => {
                        self.octets = self.octets.saturating_add(octets).saturating_add(1);
                        Ok(true)
                    }
                    Err(fault) => Err(fault),
                }
            }
            // The last line is torn.
            Ok(NextLine::Last) => Ok(false),
            Ok(NextLine::End) => Ok(false),
            Ok(NextLine::TooLong) => Err(AuditFault::BadLine(number)),
            Err(ReadLineFault::Read) => Err(AuditFault::Read),
            Err(ReadLineFault::NoMemory) => Err(AuditFault::NoMemory),
        }
    }
}
