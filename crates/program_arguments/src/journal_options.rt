//! The folder of a gate's journal, when it is synced, and its room.
//! See docs/crawlgate.1.md.
ghost use Rattle.std.specs.Prelude.{IfErr, IfOk, IfSome, codes};
ghost use Rattle.clap.specs.Words.{found_of};
ghost use Rattle.program_arguments.specs.Journals.{IsJournalOf, IsRoom, IsSyncOf, NamesNoSync};
ghost use Rattle.program_arguments.specs.Numbers.{IsBoundOf};

use crate::subcommand::JournalOptions;
use clap::ArgMatches;
use journal::SyncPolicy;
use std::alloc::{AllocError, Global};

/// The option names no time to sync a journal.
#[derive(Clone, Copy, Debug, PartialEq, Eq)]
pub(crate) struct NoSync;

/// When to sync the journal by the option; always without it.
pub(crate) fn sync_of(matches: &ArgMatches<'_>) -> Result<SyncPolicy, NoSync>
    ensures words { IfOk result (IsSyncOf (found_of matches.now)) }
    ensures refused { IfErr result (λ _. NamesNoSync (found_of matches.now)) }
{
    match matches.get_str("journal-sync") {
        None | Some("always") => Ok(SyncPolicy::Always),
        Some("second") => Ok(SyncPolicy::Second),
        Some("never") => Ok(SyncPolicy::Never),
        Some(_) => Err(NoSync),
    }
}

/// The journal in the option's folder, if any.
pub(crate) fn journal_of(
    alloc: Global,
    sync: SyncPolicy,
    room: Option<u64>,
    matches: &ArgMatches<'_>,
) -> Result<Option<JournalOptions>, AllocError>
    requires sync { IsSyncOf (found_of matches.now) sync }
    requires room { IsBoundOf (found_of matches.now) (codes "journal-room") room }
    requires range { IsRoom room }
    ensures range { IfOk result (λ found. IfSome found (λ journal. IsRoom journal.room)) }
    ensures words { IfOk result (IsJournalOf (found_of matches.now)) }
{
    match matches.get_str("journal") {
        Some(name) => {
            let folder = String::from_str(alloc, name)?;
            Ok(Some(JournalOptions { folder, sync, room }))
        }
        None => Ok(None),
    }
}
