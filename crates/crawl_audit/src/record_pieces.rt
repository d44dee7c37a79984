//! The line of an entry that was read, as pieces.
//! See docs/FORMATS.md.
ghost use Rattle.std.specs.Prelude.{◌≡◌};
ghost use Rattle.history_text.specs.Entries.{HasFields};
ghost use Rattle.line_text.specs.Pieces.{pieces_text};
ghost use Rattle.crawl_audit.specs.Records.{entry_of};
ghost use Rattle.history_text.specs.Spell.{entry_line};

use crate::record::Record;
use history_text::kinds::{
    arrived, ask_denied, begun, finished, granted, returned, start_denied, started, swept,
};
use history_text::{Version, told_by};
use line_text::Pieces;

/// The line of an entry that was read.
pub(crate) fn record_pieces(version: Version, found: &Record) -> Pieces<'_>
    ensures text { pieces_text result ≡ entry_line version (entry_of found.now) }
    ensures fields { HasFields (entry_of found.now) }
{
    match found {
        Record::Begun {
            moment,
            authority,
            turn,
        } => begun(*moment, authority, *turn),
        Record::Arrived {
            moment,
            authority,
            turn,
            answer,
            life,
        } => arrived(version, *moment, authority, *turn, told_by(answer), *life),
        Record::Granted {
            moment,
            number,
            fetch,
        } => granted(*moment, *number, fetch),
        Record::AskDenied {
            moment,
            fetch,
            cause,
        } => ask_denied(*moment, fetch, *cause),
        Record::Started {
            moment,
            number,
            reason,
        } => started(*moment, *number, *reason),
        Record::StartDenied {
            moment,
            number,
            cause,
        } => start_denied(*moment, *number, *cause),
        Record::Returned { number } => returned(*number),
        Record::Finished { number } => finished(*number),
        Record::Swept { moment, count } => swept(*moment, *count),
    }
}
