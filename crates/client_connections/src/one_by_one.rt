//! Clients who are served one at a time.
//! Used for a server's overseers.

use crate::accept_fault::AcceptFault;
use crate::listener::Listener;
use crate::seated::Queue;
use std::net::TcpStream;
use std::sync::{Mutex, Wait};
use std::time;

/// The clients of a listener, one at a time. One who waits while another is served is accepted ahead. Only
/// one thread may accept at this listener.
#[derive(Drop)]
pub struct OneByOne<'a, R: Wait> {
    rt: &'a R,
    listener: &'a Listener,
    next: Mutex<Option<TcpStream>>,
}

impl<'a, R: Wait> OneByOne<'a, R> {
    /// This listener's clients.
    pub fn new(rt: &'a R, listener: &'a Listener) -> OneByOne<'a, R> {
        OneByOne {
            rt,
            listener,
            next: Mutex::new(None),
        }
    }

    // The one accepted ahead.
    fn take_next(&self) -> Option<TcpStream> {
        self.next.lock(self.rt).take()
    }
}

impl<'a, R: Wait + time::Clock> OneByOne<'a, R> {
    /// The one accepted ahead, or waits for one, as `Listener::accept` does.
    pub fn accept(&self) -> Result<TcpStream, AcceptFault> {
        match self.take_next() {
            Some(stream) => Ok(stream),
            None => self.listener.accept(self.rt),
        }
    }
}

impl<'a, R: Wait> Queue for OneByOne<'a, R> {
    fn has_next(&self) -> bool {
        let mut next = self.next.lock(self.rt);
        if next.is_none() {
            *next = self.listener.accept_at_hand();
        }
        next.is_some()
    }
}
