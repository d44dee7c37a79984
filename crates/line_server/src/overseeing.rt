//! Overseers of a server connect at their own listener, so clients that take all workers don't block them.
//! They are served one at a time, and a silent one leaves its place to the next.

use crate::fault::ServeFault;
use crate::recorded::Recorded;
use crate::server::Server;
use crate::warden::Alarm;
use client_connections::{AcceptFault, ClientStream, Listener, OneByOne, Seated, Waiting, close};
use command_server::{FirstLine, NumberedClock, serve_overseer};
use counted_io::{Counted, DeviceFault};
use fetchers::Fetcher;
use gate_lock::{Gate, Receipts};
use journal::{JournaledSink, Recorder};
use keepers::{Bounds, DeskKeeper, DeskRecords, Keeper};
use std::cell::Cell;
use std::io::{Read, Write};
use std::net::TcpStream;
use std::sync::Wait;
use std::sync::atomic::{AtomicU64, Ordering};
use std::time::Duration;
use std::{thread, time};

// The wait before another try to shut a listener, when there was no descriptor.
const NAP_MILLISECONDS: u64 = 100;

impl<F: Fetcher, C: NumberedClock, A: Alarm, R: Wait + time::Clock> Server<'_, F, C, A, R> {
    /// Serves overseers at its own desk, until no worker is left and the listener is shut.
    pub(crate) fn oversee<G: Gate, J: Recorder>(
        &self,
        recorded: &Recorded<'_, G, J, R>,
        listener: &Listener,
        left: &AtomicU64,
    ) -> Result<Receipts<G>, ServeFault> {
        let fetcher = recorded.journaled(self.fetcher);
        self.oversee_at_desk(recorded, listener, left, &fetcher, recorded.records())
    }

    // Opens a desk with this fetcher beside these records, serves overseers at it, and closes it whatever
    // happened.
    fn oversee_at_desk<G: Gate, J: Recorder, B: Fetcher, N: DeskRecords + Drop>(
        &self,
        recorded: &Recorded<'_, G, J, R>,
        listener: &Listener,
        left: &AtomicU64,
        fetcher: &B,
        records: N,
    ) -> Result<Receipts<G>, ServeFault> {
        let (gate, bounds) = (recorded.gate, Bounds::none());
        let mut keeper = DeskKeeper::open_within(
            self.rt, self.alloc, gate, fetcher, records, bounds,
        )?;
        let ended = self.take_overseers(recorded, listener, left, &mut keeper);
        let receipts = keeper.close();
        ended?;
        Ok(receipts)
    }

    // Serves them one at a time, until no worker is left.
    fn take_overseers<G: Gate, J: Recorder, K: Keeper>(
        &self,
        recorded: &Recorded<'_, G, J, R>,
        listener: &Listener,
        left: &AtomicU64,
        keeper: &mut K,
    ) -> Result<(), DeviceFault> {
        let overseers = OneByOne::new(self.rt, listener);
        for _ in self.rt.forever() {
            if left.load(Ordering::SeqCst) == 0 {
                return Ok(());
            }
            match overseers.accept() {
                Ok(stream) => {
                    self.serve_one(recorded, &overseers, stream, keeper);
                    recorded.journal.catch_up(self.rt, &recorded.chronicle)?;
                }
                Err(AcceptFault::Want) => {}
                Err(AcceptFault::Client | AcceptFault::Device) => {
                    // (a listener that was shut fails too)
                    if left.load(Ordering::SeqCst) > 0 {
                        return Err(DeviceFault);
                    }
                }
            }
        }
        unreachable!()
    }

    // Serves one to its end, or until it is silent while another one waits. A fault of its session ends
    // only its connection.
    fn serve_one<G: Gate, J: Recorder, K: Keeper>(
        &self,
        recorded: &Recorded<'_, G, J, R>,
        overseers: &OneByOne<'_, R>,
        stream: TcpStream,
        keeper: &mut K,
    ) {
        let waiting = Cell::new(Waiting::new(self.patience));
        let seated = Seated::new(self.rt, &stream, overseers);
        let reader = ClientStream::new(self.rt, seated, &waiting);
        let writer = ClientStream::new(self.rt, &stream, &waiting);
        self.oversee_lines(recorded, reader, writer, keeper);
        close(self.rt, stream);
    }

    // Serves an overseer's lines to their end, writing only what is recorded.
    fn oversee_lines<G: Gate, J: Recorder, K: Keeper, I: Read + Drop, O: Write + Drop>(
        &self,
        recorded: &Recorded<'_, G, J, R>,
        reader: I,
        writer: O,
        keeper: &mut K,
    ) {
        let mut reader = Counted::new(reader);
        let mut writer = JournaledSink::new(recorded.caught_up(), Counted::new(writer));
        let first = FirstLine::NoRequest;
        let _ = serve_overseer(
            self.alloc,
            &mut reader,
            &mut writer,
            keeper,
            self.clock,
            first,
            &recorded.counters,
        );
    }

    /// Shuts the listener, which then accepts nobody.
    pub(crate) fn shut(&self, listener: &Listener) {
        for _ in self.rt.forever() {
            if listener.shut().is_ok() {
                return;
            }
            thread::sleep(self.rt, Duration::from_millis(NAP_MILLISECONDS));
        }
    }
}
