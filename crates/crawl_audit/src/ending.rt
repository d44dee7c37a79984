//! The entries and lines that end what a base left open, written behind what an auditor read.
//! See docs/FORMATS.md; RFC 9309, section 2.3.1.4.
ghost use Rattle.std.specs.Prelude.{◌≡◌, ◌++◌, ◌↔◌, ℕ, All, Bool, IfOk, IsTrue, List, OnOk, [], map};
ghost use Rattle.path_normal.specs.declared.schemes.Schemes.{Schemes};
ghost use Rattle.gate_history.specs.History.{History};
ghost use Rattle.history_text.specs.declared.version.Version.{Version};
ghost use Rattle.crawl_audit.specs.Audit.{Holds, StandsAt};
ghost use Rattle.crawl_audit.specs.Ending.{EndsAll, EndsOne, HasBegun, IsEnding, ends_of, finish, give_back, unanswered};
ghost use Rattle.history_text.specs.Entries.{HasFields};
ghost use Rattle.crawl_audit.specs.Records.{entry_of};
ghost use Rattle.history_text.specs.Spell.{entry_line};
ghost use Rattle.history_text.specs.SpellBase.{ended};
ghost use Rattle.crawl_audit.specs.Steps.{Place, among};

use crate::auditor::{AuditState, Auditor};
use crate::fault::AuditFault;
use crate::record::Record;
use crate::record_pieces::record_pieces;
use crate::recover_fault::RecoverFault;
use authority_cache::{LIFE, Turn};
use counted_io::{Counted, DeviceFault, Output};
use gate_history::Base;
use history_text::Version;
use permit_book::GrantedPermit;
use robots_verdict::{Answer, Closure};
use std::alloc::{AllocError, Global};

/// The entries that end what a base left open: permits are given back, fetches end, and turns end without
/// an answer from the network, at the base's moment.
pub(crate) fn ends_of(alloc: Global, left: &Base) -> Result<Vec<Record>, AllocError>
    ensures { IfOk result (λ ends. map entry_of ends.items ≡ ends_of left.now) }
{
    let mut ends = Vec::new(alloc);
    push_returns(&mut ends, left.unspent())?;
    push_finishes(&mut ends, left.running())?;
    push_arrivals(&mut ends, left.moment(), left.in_flight())?;
    Ok(ends)
}

fn push_returns(ends: &mut Vec<Record>, permits: &[GrantedPermit]) -> Result<(), AllocError>
    ensures { OnOk result (map entry_of ends.new.items
        ≡ map entry_of ends.old.items ++ map give_back permits.now) }
{
    for permit in permits {
        ends.push(Record::Returned {
            number: permit.number,
        })?;
    }
    Ok(())
}

fn push_finishes(ends: &mut Vec<Record>, permits: &[GrantedPermit]) -> Result<(), AllocError>
    ensures { OnOk result (map entry_of ends.new.items
        ≡ map entry_of ends.old.items ++ map finish permits.now) }
{
    for permit in permits {
        ends.push(Record::Finished {
            number: permit.number,
        })?;
    }
    Ok(())
}

// Ends each turn at the moment, unanswered by the network.
fn push_arrivals(ends: &mut Vec<Record>, moment: u64, turns: &[Turn]) -> Result<(), AllocError>
    ensures { OnOk result (map entry_of ends.new.items
        ≡ map entry_of ends.old.items ++ map (unanswered moment) turns.now) }
{
    for turn in turns {
        ends.push(Record::Arrived {
            moment,
            authority: turn.authority.copy()?,
            turn: turn.turn,
            answer: Answer::Closed(Closure::Network),
            life: LIFE,
        })?;
    }
    Ok(())
}

impl Auditor {
    /// Whether a line was read and entries may come next.
    pub(crate) fn has_begun(&self) -> bool
        ensures { (place : Place) → StandsAt self.now place → IsTrue result ↔ HasBegun place }
    {
        matches!(self.stage, AuditState::Entries)
    }

    /// Takes the lines of these entries, and returns their text.
    pub(crate) fn end_each(
        &mut self,
        alloc: Global,
        ends: &[Record],
    ) -> Result<Vec<u8>, RecoverFault>
        ensures { (schemes : Schemes) (lines : List (List ℕ)) (version : Version) (rising : Bool)
            (h : History) (count : ℕ)
            → Holds schemes self.old lines (among version rising h count)
            → All IsEnding (map entry_of ends.now)
            → EndsAll schemes lines version rising h count (map entry_of ends.now)
            result self.new }
    {
        let mut text = Vec::new(alloc);
        let mut output = Output::new(alloc)?;
        for end in ends {
            match self.end_one(alloc, end, &mut output, &mut text) {
                Ok(()) => {}
                Err(fault) => return Err(fault),
            }
        }
        Ok(text)
    }

    fn end_one(
        &mut self,
        alloc: Global,
        end: &Record,
        output: &mut Output,
        text: &mut Vec<u8>,
    ) -> Result<(), RecoverFault>
        requires { output.old ≡ [] }
        ensures ends { (schemes : Schemes) (lines : List (List ℕ)) (version : Version)
            (rising : Bool) (h : History) (count : ℕ)
            → Holds schemes self.old lines (among version rising h count)
            → IsEnding (entry_of end.now)
            → EndsOne schemes lines version rising h count (entry_of end.now) result self.new }
        ensures text { OnOk result (text.new.items
            ≡ text.old.items ++ ended (entry_line self.old.version (entry_of end.now))) }
        ensures idle { output.new ≡ [] }
    {
        self.line = spelled(alloc, self.version, end, output)?;
        text.extend_from_slice(self.line.as_slice())?;
        text.extend_from_slice(b"\n")?;
        match self.take_line(alloc) {
            Ok(()) => Ok(()),
            Err(AuditFault::BadLine(number)) => Err(RecoverFault::NoRoom(number)),
            Err(_) => Err(RecoverFault::NoMemory),
        }
    }
}

fn spelled(
    alloc: Global,
    version: Version,
    found: &Record,
    output: &mut Output,
) -> Result<Vec<u8>, AllocError>
    requires { output.old ≡ [] }
    ensures line { IfOk result (λ line. line.items ≡ entry_line version (entry_of found.now)) }
    ensures fields { HasFields (entry_of found.now) }
    ensures idle { output.new ≡ [] }
{
    let mut sink = Counted::new(Vec::new(alloc));
    let pieces = record_pieces(version, found);
    let pushed = pieces.push(output, &mut sink);
    let flushed = output.flush(&mut sink);
    match (pushed, flushed) {
        (Ok(()), Ok(())) => Ok(sink.into_inner()),
        _ => Err(AllocError),
    }
}
