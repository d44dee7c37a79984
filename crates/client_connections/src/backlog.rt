//! How many clients have connected and are not accepted yet, by the system's tables of its sockets.
//! Linux: proc_net(5), of /proc/net/tcp and /proc/net/unix. Used by `Listener`.

use memchr::memmem;
use std::alloc::{AllocError, Global};
use std::fs::{File, Files};
use std::io;
use std::os::unix::fs::FileExt;

/// The most octets that one read of a table gives: whole lines.
const PAGE: usize = 4_096;

/// How many reads of a table are made at most: tens of thousands of sockets.
const MOST_PAGES: u64 = 1_024;

/// The digits of a number of octets or connections that wait.
const DIGITS: usize = 8;

/// A table in which a listener stands, and how its lines are known there.
#[derive(Drop)]
pub(crate) enum Backlog {
    /// The system does not tell.
    Untold,
    /// A port's line has this text, and then how many connections wait for `accept`.
    Port { table: File, text: String },
    /// A connection that waits for a socket file has a line of its own, which ends in this text.
    File { table: File, text: String },
}

impl Backlog {
    /// That of a port of 127.0.0.1.
    pub(crate) fn of_port<R: Files<File = File>>(rt: &R, alloc: Global, port: u16) -> Backlog {
        match (File::open(rt, "/proc/net/tcp"), port_text(alloc, port)) {
            (Ok(table), Ok(text)) => Backlog::Port { table, text },
            _ => Backlog::Untold,
        }
    }

    /// That of a socket file, by the path at which it was bound.
    pub(crate) fn of_file<R: Files<File = File>>(rt: &R, alloc: Global, path: &str) -> Backlog {
        match (
            File::open(rt, "/proc/net/unix"),
            format!(in alloc; " {path}"),
        ) {
            (Ok(table), Ok(text)) => Backlog::File { table, text },
            _ => Backlog::Untold,
        }
    }

    /// How many connections wait, and 0 where the system does not tell.
    pub(crate) fn count(&self) -> u64 {
        match self {
            Backlog::Untold => 0,
            Backlog::Port { table, text } => count_at_port(table, text.as_bytes()),
            Backlog::File { table, text } => count_at_file(table, text.as_bytes()),
        }
    }
}

// The text of a port that listens: its address, no other one, the state of a listener, and no octets to be
// sent.
fn port_text(alloc: Global, port: u16) -> Result<String, AllocError> {
    format!(in alloc; " 0100007F:{port:04X} 00000000:0000 0A 00000000:")
}

// Listeners come first in the table, so few pages are read.
fn count_at_port(table: &File, text: &[u8]) -> u64 {
    let mut room = [0; PAGE];
    let mut offset = 0;
    for _ in 0..MOST_PAGES {
        let Some(page) = read_page(table, offset, &mut room) else {
            return 0;
        };
        if let Some(place) = memmem::find(page, text) {
            return number_at(page, place.saturating_add(text.len()));
        }
        offset = offset.saturating_add(page.len() as u64);
    }
    0
}

fn count_at_file(table: &File, text: &[u8]) -> u64 {
    let mut room = [0; PAGE];
    let mut offset = 0;
    let mut count = 0;
    for _ in 0..MOST_PAGES {
        let Some(page) = read_page(table, offset, &mut room) else {
            return count;
        };
        count = count.saturating_add(waiting_in(page, text));
        offset = offset.saturating_add(page.len() as u64);
    }
    count
}

// The octets of the table from this place on that one read gives; none at its end.
fn read_page<'p>(table: &File, offset: u64, room: &'p mut [u8; PAGE]) -> Option<&'p [u8]> {
    match table.read_at(room, offset) {
        Ok(count) if count > 0 => Some(&room[..count]),
        _ => None,
    }
}

// The number whose digits begin here.
fn number_at(page: &[u8], place: usize) -> u64 {
    let Some(digits) = page.get(place..place.saturating_add(DIGITS)) else {
        return 0;
    };
    match str::from_utf8(digits) {
        Ok(text) => u64::from_str_radix(text, 16).unwrap_or(0),
        Err(_) => 0,
    }
}

// How many lines are of connections that wait for the socket file of this text.
fn waiting_in(page: &[u8], text: &[u8]) -> u64 {
    page.split(|octet| *octet == b'\n')
        .filter(|line| line.ends_with(text) && is_connecting(line))
        .count() as u64
}

// Whether the state of a line's socket, its sixth word, is that of one that no program has accepted.
fn is_connecting(line: &[u8]) -> bool {
    let mut words = line.split(|octet| *octet == b' ');
    for _ in 0..5 {
        let _ = words.next();
    }
    match words.next() {
        Some(state) => state == b"02".as_slice(),
        None => false,
    }
}
