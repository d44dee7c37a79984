//! The auditor: what was read of texts so far, and how their next line is taken.
//! docs/FORMATS.md: the lines, and causes of bad ones.
ghost use Rattle.std.specs.Prelude.{◌≡◌, ◌≢◌, ◌<◌, ◌+◌, ◌↔◌, ℕ, Bool, Err, IfOk, IsTrue, List, Option};
ghost use Rattle.std.specs.Io.KnownBytes.{prepend_known};
ghost use Rattle.path_normal.specs.declared.schemes.Schemes.{Schemes};
ghost use Rattle.gate_history.specs.History.{History};
ghost use Rattle.crawl_audit.specs.Audit.{AddsLine, AreEntries, BeginsEntries, EntersLine, Heard, Holds};
ghost use Rattle.crawl_audit.specs.Audit.{Moves, StandsAt, TakesStep, failures_after_audit};
ghost use Rattle.crawl_audit.specs.ChainAudit.{IsAmong, names_https};
ghost use Rattle.crawl_audit.specs.Steps.{MayEnd, Place, among, start};

use crate::fault::{AuditFault, Audited};
use crate::first_base::FirstBase;
use crate::next_base::{BaseLine, NextBase};
use crate::open_state::OpenState;
use crate::read::read_line;
use crate::unread_line::UnreadLine;
use counted_io::{LineEnd, LineReader, NextLine, ReadLineFault, Source};
use gate_core::MAX_LOG;
use history_text::Version;
use line_text::MAX_LONG_LINE;
use path_normal::Schemes;
use std::alloc::{AllocError, Global};
use std::hash::RandomState;

/// The most octets of a line, without its end.
pub const MAX_LINE: usize = MAX_LONG_LINE;

/// The most lines of texts audited together.
pub const MAX_LINES: u64 = 100_000_000;

/// What may come next.
#[derive(Drop)]
pub(crate) enum AuditState {
    Start,
    /// An entry or a head.
    Entries,
    First(FirstBase),
    Further(NextBase),
}

/// What was read so far, and the expected state.
#[derive(Drop)]
pub(crate) struct Auditor {
    pub(crate) reader: LineReader,
    pub(crate) line: Vec<u8>,
    pub(crate) open_state: OpenState,
    pub(crate) version: Version,
    pub(crate) stage: AuditState,
    /// A line that names another scheme is bad.
    pub(crate) schemes: Schemes,
    pub(crate) keys: RandomState,
    pub(crate) lines: u64,
    pub(crate) count: u64,
    /// The entries of all texts, and the started fetches among them.
    pub(crate) events: u64,
    pub(crate) starts: u64,
}

impl Auditor {
    pub(crate) fn new(
        alloc: Global,
        keys: RandomState,
        schemes: Schemes,
    ) -> Result<Auditor, AllocError>
        ensures heard { IfOk result (λ auditor. (left : Option (List ℕ))
            → Heard schemes auditor left (prepend_known auditor.reader left)) }
        ensures lines { IfOk result (λ auditor. auditor.lines ≡ 0) }
    {
        Ok(Auditor {
            reader: LineReader::new(alloc)?,
            line: Vec::new(alloc),
            open_state: OpenState::new(alloc, keys),
            version: Version::One,
            stage: AuditState::Start,
            schemes,
            keys,
            lines: 0,
            count: 0,
            events: 0,
            starts: 0,
        })
    }

    /// Takes the next line of a source; false at the end.
    pub(crate) fn take<R: Source>(
        &mut self,
        alloc: Global,
        reader: &mut R,
    ) -> Result<bool, AuditFault>
        ensures steps { (schemes : Schemes) (input : Option (List ℕ))
            → Heard schemes self.old input (prepend_known self.old.reader (R.left reader.old))
            → TakesStep schemes input self.old result self.new
            (prepend_known self.new.reader (R.left reader.new)) }
        ensures reads { R.failures reader.new
            ≡ failures_after_audit (R.failures reader.old) result }
    {
        let number = self.lines.saturating_add(1);
        match self
            .reader
            .next_line_to(reader, LineEnd::Lf, MAX_LINE, &mut self.line)
        {
            Ok(NextLine::Line) => match self.take_line(alloc) {
                Ok(()) => Ok(true),
                Err(fault) => Err(fault),
            },
            Ok(NextLine::Last) => Err(AuditFault::BadLine(number)),
            Ok(NextLine::TooLong) => Err(AuditFault::BadLine(number)),
            Ok(NextLine::End) => {
                if self.may_end() {
                    Ok(false)
                } else {
                    Err(AuditFault::BadLine(number))
                }
            }
            Err(ReadLineFault::Read) => Err(AuditFault::Read),
            Err(ReadLineFault::NoMemory) => Err(AuditFault::NoMemory),
        }
    }

    // Whether a text may end here, that is, not within a base.
    fn may_end(&self) -> bool
        ensures { (place : Place) → StandsAt self.now place → IsTrue result ↔ MayEnd place }
    {
        matches!(self.stage, AuditState::Start | AuditState::Entries)
    }

    pub(crate) fn take_line(&mut self, alloc: Global) -> Result<(), AuditFault>
        ensures line { (schemes : Schemes) (lines : List (List ℕ)) (place : Place)
            → Holds schemes self.old lines place
            → AddsLine schemes lines place self.old.line.items result self.new }
        ensures reader { self.new.reader ≡ self.old.reader }
        ensures faults { result ≢ Err AuditFault.Read }
    {
        let number = self.lines.saturating_add(1);
        if self.lines >= MAX_LINES {
            return Err(AuditFault::BadLine(number));
        }
        if !self.is_among() {
            return Err(AuditFault::BadLine(number));
        }
        match self.step(alloc) {
            Ok(()) => {}
            Err(UnreadLine::NotOne) => return Err(AuditFault::BadLine(number)),
            Err(UnreadLine::NoMemory) => return Err(AuditFault::NoMemory),
        }
        self.lines = number;
        Ok(())
    }

    // Whether the line names only sites of the schemes that are read.
    fn is_among(&self) -> bool
        ensures { IsTrue result ↔ IsAmong self.now.schemes self.now.line.items }
    {
        match self.schemes {
            Schemes::Http => !names_https(self.line.as_slice()),
            Schemes::HttpAndHttps => true,
        }
    }

    fn step(&mut self, alloc: Global) -> Result<(), UnreadLine>
        ensures moves { (place : Place) → StandsAt self.old place
            → Moves place self.old.line.items self.old result self.new }
        ensures reader { self.new.reader ≡ self.old.reader }
        ensures schemes { self.new.schemes ≡ self.old.schemes }
    {
        match &mut self.stage {
            AuditState::Start => self.step_from_start(alloc),
            AuditState::Entries => self.step_among_entries(alloc),
            AuditState::First(first) => {
                match first.take(alloc, &mut self.open_state, self.line.as_slice()) {
                    Ok(false) => Ok(()),
                    Ok(true) => {
                        self.begin_entries();
                        Ok(())
                    }
                    Err(unread) => Err(unread),
                }
            }
            AuditState::Further(next) => match next.take(self.line.as_slice()) {
                BaseLine::Taken => Ok(()),
                BaseLine::Last => {
                    self.open_state.numbers.rise();
                    self.begin_entries();
                    Ok(())
                }
                BaseLine::Other => Err(UnreadLine::NotOne),
            },
        }
    }

    fn begin_entries(&mut self)
        ensures { BeginsEntries self.old self.new }
    {
        self.version = Version::Two;
        self.stage = AuditState::Entries;
        self.count = 0;
    }

    // The head of version 2 or 3, or an entry of version 1.
    fn step_from_start(&mut self, alloc: Global) -> Result<(), UnreadLine>
        ensures moves { StandsAt self.old start
            → Moves start self.old.line.items self.old result self.new }
        ensures reader { self.new.reader ≡ self.old.reader }
        ensures schemes { self.new.schemes ≡ self.old.schemes }
    {
        if self.line.as_slice() == "V 2".as_bytes() {
            self.version = Version::Two;
            self.stage = AuditState::Entries;
            return Ok(());
        }
        if self.line.as_slice() == "V 3".as_bytes() {
            self.stage = AuditState::First(FirstBase::new(alloc, self.keys));
            return Ok(());
        }
        self.take_entry(alloc)
    }

    // An entry, or the head of a further text.
    fn step_among_entries(&mut self, alloc: Global) -> Result<(), UnreadLine>
        ensures moves { (version : Version) (rising : Bool) (h : History) (count : ℕ)
            → AreEntries self.old version rising h count
            → Moves (among version rising h count) self.old.line.items self.old result self.new }
        ensures reader { self.new.reader ≡ self.old.reader }
        ensures schemes { self.new.schemes ≡ self.old.schemes }
    {
        if self.line.as_slice() == "V 3".as_bytes() {
            self.stage = AuditState::Further(self.open_state.next_base(alloc)?);
            return Ok(());
        }
        self.take_entry(alloc)
    }

    fn take_entry(&mut self, alloc: Global) -> Result<(), UnreadLine>
        ensures line { (version : Version) (rising : Bool) (h : History) (count : ℕ)
            → AreEntries self.old version rising h count
            → EntersLine version rising h count self.old.line.items self.old result self.new }
        ensures reader { self.new.reader ≡ self.old.reader }
        ensures schemes { self.new.schemes ≡ self.old.schemes }
    {
        if self.count >= MAX_LOG || self.open_state.entries == u64::MAX {
            return Err(UnreadLine::NotOne);
        }
        let found = read_line(alloc, self.version, self.line.as_slice())?;
        let is_start = self.open_state.enter(found)?;
        self.stage = AuditState::Entries;
        self.count += 1;
        self.events = self.events.saturating_add(1);
        if is_start {
            self.starts = self.starts.saturating_add(1);
        }
        Ok(())
    }

    pub(crate) fn into_audited(self) -> Audited
        ensures { result ≡ record { events = self.events; starts = self.starts } }
    {
        let audited = Audited {
            events: self.events,
            starts: self.starts,
        };
        drop(self);
        audited
    }
}

// Whether a word of the line begins with `https://`.
fn names_https(line: &[u8]) -> bool
    ensures { result ≡ names_https line.now }
{
    line.split(|octet| *octet == b' ')
        .any(|word| word.starts_with(b"https://"))
}
