//! `crawlgate serve`: serves clients that connect to its gate.
ghost use Rattle.std.specs.Prelude.{◌≡◌};
ghost use Rattle.gate_core.specs.Resuming.{IsIdle};
ghost use Rattle.job_line.specs.Limits.{IsCrew};
ghost use Rattle.program_arguments.specs.Options.{AreForServe};

use crate::fetching::{Ways, new_noting_fetcher};
use crate::http_place::{HttpPlace, open_http, tell_http_place};
use crate::journal_start::{
    JournalStart, OpenJournal, Past, begin_with, clock_of, folder_of, open_journal,
};
use crate::tls_program::find_tls_program;
use client_connections::{Connections, Listener, MAX_CONNECTIONS};
use gate_journal::Recording;
use gate_lock::{Blanks, Gate, GateLock};
use gate_settlement::SettleFault;
use journal::{GroupJournal, JournalFault, Recorder, Unrecorded};
use keepers::Bounds;
use line_server::{Alarm, ServeFault, Served, Server};
use program_arguments::{Ahead, ListenAddress, ServeOptions};
use program_commands::{
    Ending, tell_failed_base, tell_failed_journal, tell_full_log, tell_listening,
    tell_listening_at, tell_no_place, tell_sealing, tell_sealing_at, tell_served, tell_usual_end,
};
use std::marker::Brand;
use std::sync::Wait;
use std::thread::Threads;
use std::time::Duration;
use std::{fs, io, time};

// Reports on standard error what an operator should know of. The folder is that of the journal, if there is
// one.
#[derive(Drop)]
struct Warnings<'a> {
    rt: &'a HostRuntime,
    folder: &'a str,
}

impl Alarm for Warnings<'_> {
    fn log_is_full(&self) {
        tell_full_log(self.rt);
    }

    fn base_failed(&self, fault: JournalFault) {
        tell_failed_base(self.rt, self.folder, fault);
    }
}

/// Listens, and serves clients. The first handle is for threads, the second for streams.
pub(crate) fn serve<R: Threads + Wait + time::Clock + Sync>(
    rt: &R,
    host: &HostRuntime,
    options: ServeOptions,
) -> Ending
    requires { AreForServe options }
{
    if let Err(ending) = find_tls_program(host, options.tls_by, options.times.connect) {
        return ending;
    }
    match open_journal(host, &options.journal) {
        Ok(journal) => open_and_serve(rt, host, &options, journal),
        Err(ending) => ending,
    }
}

// Listens, and serves with this journal, if any, from where it ends.
fn open_and_serve<R: Threads + Wait + time::Clock + Sync>(
    rt: &R,
    host: &HostRuntime,
    options: &ServeOptions,
    journal: Option<OpenJournal<'_>>,
) -> Ending
    requires { AreForServe options.now }
{
    match begin_with(host, options.limits, &journal) {
        Ok(begun) => match listen(host, &options.place) {
            Ok(listener) => {
                let ending = listen_and_serve(rt, host, options, begun, &listener, journal);
                leave(host, &options.place);
                ending
            }
            Err(error) => tell_no_place(host, &options.place, &error),
        },
        Err(ending) => ending,
    }
}

// Listens for overseers too, if the options say so, and serves.
fn listen_and_serve<R: Threads + Wait + time::Clock + Sync>(
    rt: &R,
    host: &HostRuntime,
    options: &ServeOptions,
    begun: JournalStart,
    listener: &Listener,
    journal: Option<OpenJournal<'_>>,
) -> Ending
    requires options { AreForServe options.now }
    requires book { IsIdle begun.book }
{
    let Some(place) = &options.seal_place else {
        return visit_and_serve(rt, host, options, begun, listener, None, journal);
    };
    match listen(host, place) {
        Ok(overseers) => {
            let overseers = Some(&overseers);
            let ending = visit_and_serve(rt, host, options, begun, listener, overseers, journal);
            leave(host, place);
            ending
        }
        Err(error) => tell_no_place(host, place, &error),
    }
}

// Listens for clients of HTTP too, if the options say so, and serves.
fn visit_and_serve<'e, R: Threads + Wait + time::Clock + Sync>(
    rt: &'e R,
    host: &HostRuntime,
    options: &ServeOptions,
    begun: JournalStart,
    listener: &'e Listener,
    overseers: Option<&'e Listener>,
    journal: Option<OpenJournal<'_>>,
) -> Ending
    requires options { AreForServe options.now }
    requires book { IsIdle begun.book }
{
    let Some(http) = &options.http else {
        let entrances = Entrances {
            clients: listener,
            overseers,
            http: None,
        };
        return serve_clients(rt, host, options, begun, entrances, journal);
    };
    match open_http(rt, host, http, options.workers) {
        Ok(opened) => {
            let entrances = Entrances {
                clients: listener,
                overseers,
                http: Some(&opened),
            };
            let ending = serve_clients(rt, host, options, begun, entrances, journal);
            leave(host, &http.place);
            ending
        }
        Err(error) => tell_no_place(host, &http.place, &error),
    }
}

// Where clients connect, and overseers and clients of HTTP beside them, if they do.
#[derive(Drop)]
struct Entrances<'a, R: Wait + time::Clock> {
    clients: &'a Listener,
    overseers: Option<&'a Listener>,
    http: Option<&'a HttpPlace<'a, R>>,
}

fn listen(host: &HostRuntime, place: &ListenAddress) -> io::Result<Listener> {
    let listener = match place {
        ListenAddress::Port(port) => Listener::bind(host, *port)?,
        ListenAddress::Socket(path) => Listener::bind_socket(host, host.alloc(), path.as_str())?,
    };
    Ok(listener.counting(host, host.alloc()))
}

// Reports where it listens: only the listeners know the free ports that they got.
fn tell_places<F, C, A, R: Wait + time::Clock>(
    host: &HostRuntime,
    options: &ServeOptions,
    server: &Server<'_, F, C, A, R>,
) -> Ending {
    let mut told = tell_place(host, &options.place, server.listener);
    if let (Ending::Done, Some(place), Some(overseers)) = (
        told,
        &options.seal_place,
        server.overseers,
    ) {
        told = tell_seal_place(host, place, overseers);
    }
    match (told, &options.http, server.http) {
        (Ending::Done, Some(http), Some(entrance)) => tell_http_place(host, &http.place, entrance),
        _ => told,
    }
}

fn tell_seal_place(host: &HostRuntime, place: &ListenAddress, listener: &Listener) -> Ending {
    if let ListenAddress::Socket(path) = place {
        return tell_sealing_at(host, path.as_str());
    }
    match listener.port() {
        Ok(port) => tell_sealing(host, port),
        Err(error) => tell_no_place(host, place, &error),
    }
}

fn tell_place(host: &HostRuntime, place: &ListenAddress, listener: &Listener) -> Ending {
    if let ListenAddress::Socket(path) = place {
        return tell_listening_at(host, path.as_str());
    }
    match listener.port() {
        Ok(port) => tell_listening(host, port),
        Err(error) => tell_no_place(host, place, &error),
    }
}

// Removes the socket. While this server listens there, no other takes its path.
fn leave(host: &HostRuntime, place: &ListenAddress) {
    if let ListenAddress::Socket(path) = place {
        let _ = fs::remove_file(host, path.as_str());
    }
}

// Serves those that come in at these entrances.
fn serve_clients<R: Threads + Wait + time::Clock + Sync>(
    rt: &R,
    host: &HostRuntime,
    options: &ServeOptions,
    begun: JournalStart,
    entrances: Entrances<'_, R>,
    journal: Option<OpenJournal<'_>>,
) -> Ending
    requires options { AreForServe options.now }
    requires book { IsIdle begun.book }
{
    let ways = Ways {
        times: options.times,
        reach: options.reach,
        not_to: options.not_to.as_slice(),
        tls_by: options.tls_by,
        retry_closed: options.retry_closed,
        page_connections: options.page_connections,
        texts: options.texts,
        page_limit: Some(options.page_limit),
    };
    match new_noting_fetcher(host, ways, &options.contact) {
        Ok(fetcher) => {
            let http = entrances.http.map(HttpPlace::entrance);
            let server = Server {
                rt,
                alloc: host.alloc(),
                listener: entrances.clients,
                overseers: entrances.overseers,
                http: http.as_ref(),
                fetcher: &fetcher,
                clock: &clock_of(rt, host, &begun.book),
                alarm: &Warnings {
                    rt: host,
                    folder: folder_of(&journal),
                },
                workers: options.workers,
                connections: options.connections,
                patience: Duration::from_secs(options.patience),
                ahead: ahead_of(options.ahead),
                bounds: Bounds {
                    permits: options.client_permits.unwrap_or(u64::MAX),
                    authorities: options.client_authorities.unwrap_or(u64::MAX),
                    entries: options.client_entries.unwrap_or(u64::MAX),
                },
            };
            let blanks = Blanks::new();
            run_server::<Brand, _, _, _, _>(host, options, &server, begun, blanks, journal)
        }
        Err(_) => Ending::NoMemory,
    }
}

// The limit of fetching for lines sent ahead, if any.
fn ahead_of(ahead: Ahead) -> Option<Duration> {
    match ahead {
        Ahead::Unbounded => None,
        Ahead::Seconds(seconds) => Some(Duration::from_secs(seconds)),
    }
}

// Runs a server over the gate's beginning, with its journal, if any.
fn run_server<
    G: Gate + Send + Sync,
    F: crawl_workers::Fetcher + Sync,
    C: crawl_workers::Clock + Sync,
    A: Alarm + Sync,
    R: Threads + Wait + time::Clock + Sync,
>(
    host: &HostRuntime,
    options: &ServeOptions,
    server: &Server<'_, F, C, A, R>,
    begun: JournalStart,
    blanks: Blanks,
    journal: Option<OpenJournal<'_>>,
) -> Ending
    requires workers { IsCrew server.now.workers }
    requires book { IsIdle begun.book }
    requires blanks { blanks ≡ G.ledgers }
{
    let JournalStart { book, sites, first } = begun;
    let (gate, receipts) = GateLock::<G>::resume(server.alloc, book, blanks);
    let past = Past {
        receipts,
        sites,
        first,
    };
    match journal {
        Some(journal) => run_with_journal(host, options, server, &gate, past, journal),
        None => run_and_tell(host, options, server, &gate, past, &Unrecorded),
    }
}

// Begins the journal of a gate, and runs a server with it. Reports why the journal has failed.
fn run_with_journal<
    G: Gate + Send + Sync,
    F: crawl_workers::Fetcher + Sync,
    C: crawl_workers::Clock + Sync,
    A: Alarm + Sync,
    R: Threads + Wait + time::Clock + Sync,
>(
    host: &HostRuntime,
    options: &ServeOptions,
    server: &Server<'_, F, C, A, R>,
    gate: &GateLock<G>,
    past: Past<G>,
    journal: OpenJournal<'_>,
) -> Ending
    requires { IsCrew server.now.workers }
{
    let OpenJournal {
        name,
        folder,
        sync,
        room,
    } = journal;
    let chronicle = Recording {
        alloc: server.alloc,
        rt: server.rt,
        shared: gate.shared(),
    };
    match GroupJournal::begin(server.alloc, &chronicle, folder, sync, room, past.first) {
        Ok(journal) => {
            let ending = run_and_tell(host, options, server, gate, past, &journal);
            match journal.fault(server.rt) {
                Some(fault) => tell_failed_journal(host, name, fault),
                None => ending,
            }
        }
        Err(fault) => tell_failed_journal(host, name, fault),
    }
}

// Reports where it listens, runs a recorded server, and reports what it has done.
fn run_and_tell<
    G: Gate + Send + Sync,
    F: crawl_workers::Fetcher + Sync,
    C: crawl_workers::Clock + Sync,
    A: Alarm + Sync,
    R: Threads + Wait + time::Clock + Sync,
    J: Recorder + Sync,
>(
    host: &HostRuntime,
    options: &ServeOptions,
    server: &Server<'_, F, C, A, R>,
    gate: &GateLock<G>,
    past: Past<G>,
    journal: &J,
) -> Ending
    requires { IsCrew server.now.workers }
{
    warn_of_usual_end(host, options.connections);
    match tell_places(host, options, server) {
        Ending::Done => {
            let Past {
                receipts,
                sites,
                first: _,
            } = past;
            let end = server.run(gate, receipts, sites.as_slice(), journal);
            ending(host, end)
        }
        ending => ending,
    }
}

// Says when the server ends, if that is after the usual number of connections.
fn warn_of_usual_end(host: &HostRuntime, connections: Connections) {
    match connections {
        Connections::AtMost(count) if count == MAX_CONNECTIONS => tell_usual_end(host, count),
        Connections::AtMost(_) | Connections::Endless => {}
    }
}

fn ending<G: Gate>(rt: &HostRuntime, end: Result<Served<G>, ServeFault>) -> Ending {
    match end {
        Ok(served) => tell_served(rt, served.connections, served.settled.events()),
        Err(ServeFault::NoMemory | ServeFault::Unsettled(SettleFault::NoMemory)) => {
            Ending::NoMemory
        }
        Err(ServeFault::Device | ServeFault::DesksFull | ServeFault::Unsettled(_)) => {
            Ending::Device
        }
    }
}
