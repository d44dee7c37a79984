//! The options of what fetches: a shift and a server have them alike.
//! See docs/crawlgate.1.md.
ghost use Rattle.std.specs.Prelude.{IfOk, map};
ghost use Rattle.clap.specs.Words.{found_of};
ghost use Rattle.program_arguments.specs.Options.{AreForFetching, AreFetchingOf, ArePageConnectionsOf, IsReachOf};
ghost use Rattle.program_arguments.specs.Blocks.{AreBlocks, AreBlocksOf};

use crate::contact::contact_of;
use crate::journal_options::{journal_of, sync_of};
use crate::number_options::{JOURNAL_ROOM, RETRY_CLOSED};
use crate::numbers::bound_of;
use crate::subcommand::{Contact, JournalOptions, PageConnections};
use crate::tls::tls_by_of;
use crate::word_fault::WordFault;
use clap::ArgMatches;
use http_client::{AddressBlock, Reach};
use std::alloc::Global;
use std::net::SocketAddr;

/// What fetches reach, by which program, whom they name, how long a network fault keeps a site closed, over
/// which connections pages are fetched, and where what is decided is kept.
#[derive(Drop)]
pub(crate) struct Fetching {
    pub(crate) reach: Reach,
    pub(crate) not_to: Vec<AddressBlock>,
    pub(crate) tls_by: Option<SocketAddr>,
    pub(crate) contact: Contact,
    pub(crate) retry_closed: Option<u64>,
    pub(crate) page_connections: PageConnections,
    pub(crate) journal: Option<JournalOptions>,
}

/// These options, or why they are refused.
pub(crate) fn fetching_of(alloc: Global, matches: &ArgMatches<'_>) -> Result<Fetching, WordFault>
    ensures range { IfOk result AreForFetching }
    ensures words { IfOk result (AreFetchingOf (found_of matches.now)) }
{
    let Some(room) = bound_of(matches, JOURNAL_ROOM) else {
        return Err(WordFault::Number);
    };
    let Some(retry_closed) = bound_of(matches, RETRY_CLOSED) else {
        return Err(WordFault::Number);
    };
    let sync = sync_of(matches)?;
    let tls_by = tls_by_of(matches)?;
    let Some(contact) = contact_of(alloc, matches)? else {
        return Err(WordFault::Contact);
    };
    Ok(Fetching {
        reach: reach_of(matches),
        not_to: not_to_of(alloc, matches)?,
        tls_by,
        contact,
        retry_closed,
        page_connections: page_connections_of(matches),
        journal: journal_of(alloc, sync, room, matches)?,
    })
}

fn reach_of(matches: &ArgMatches<'_>) -> Reach
    ensures { IsReachOf (found_of matches.now) result }
{
    if matches.get_flag("public") {
        Reach::PublicOnly
    } else {
        Reach::Anywhere
    }
}

fn page_connections_of(matches: &ArgMatches<'_>) -> PageConnections
    ensures { ArePageConnectionsOf (found_of matches.now) result }
{
    if matches.get_flag("keep-alive") {
        PageConnections::Kept
    } else {
        PageConnections::Single
    }
}

// The blocks that the option names, in order.
fn not_to_of(alloc: Global, matches: &ArgMatches<'_>) -> Result<Vec<AddressBlock>, WordFault>
    ensures { IfOk result (λ blocks. AreBlocksOf (found_of matches.now) blocks.items) }
{
    match matches.get_strs("not-to") {
        Some(texts) => blocks_in(alloc, texts),
        None => Ok(Vec::new(alloc)),
    }
}

fn blocks_in(alloc: Global, texts: &[&str]) -> Result<Vec<AddressBlock>, WordFault>
    ensures { IfOk result (λ blocks. AreBlocks (map (λ text. text.now) texts.now) blocks.items) }
{
    let mut blocks = Vec::new(alloc);
    for text in texts {
        match AddressBlock::parse(text) {
            Some(block) => match blocks.push(block) {
                Ok(()) => {}
                Err(_) => return Err(WordFault::NoMemory),
            },
            None => return Err(WordFault::Block),
        }
    }
    Ok(blocks)
}
