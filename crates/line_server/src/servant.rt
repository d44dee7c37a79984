//! A worker of a server: serves one client after the other to its end.

use crate::fault::ServeFault;
use crate::line_turns::{LinesInARow, RepliesInARow};
use crate::numbers::{ConnectionNumbers, share_of};
use crate::recorded::Recorded;
use crate::server::Server;
use crate::warden::Alarm;
use client_connections::{
    AcceptFault, ClientStream, FetchedAhead, LinesInTurn, RepliesInTurn, Waiting, close,
};
use command_server::{FirstLine, NumberedClock, serve_from};
use counted_io::{Counted, DeviceFault};
use fetchers::Fetcher;
use gate_lock::{Gate, Receipts};
use journal::{JournaledSink, Recorder};
use keepers::{DeskKeeper, DeskRecords, Keeper};
use std::cell::Cell;
use std::io::{Read, Write};
use std::net::TcpStream;
use std::sync::Wait;
use std::sync::atomic::{AtomicU64, Ordering};
use std::time;

impl<F: Fetcher, C: NumberedClock, A: Alarm, R: Wait + time::Clock> Server<'_, F, C, A, R> {
    /// Serves until no number is left to draw: the connections that it took, and its desk's receipts.
    /// Whatever ended it, one worker less is left.
    pub(crate) fn employ<G: Gate, J: Recorder>(
        &self,
        recorded: &Recorded<'_, G, J, R>,
        left: &AtomicU64,
        numbers: ConnectionNumbers<'_>,
    ) -> Result<(u64, Receipts<G>), ServeFault> {
        let fetcher = recorded.journaled(self.fetcher);
        let end = self.serve_at_desk(recorded, numbers, &fetcher, recorded.records());
        left.fetch_sub(1, Ordering::SeqCst);
        end
    }

    // Opens a desk with this fetcher beside these records, serves clients at it, and closes it whatever
    // happened.
    fn serve_at_desk<G: Gate, J: Recorder, B: Fetcher, N: DeskRecords + Drop>(
        &self,
        recorded: &Recorded<'_, G, J, R>,
        mut numbers: ConnectionNumbers<'_>,
        fetcher: &B,
        records: N,
    ) -> Result<(u64, Receipts<G>), ServeFault> {
        let gate = recorded.gate;
        let mut keeper = DeskKeeper::open_within(
            self.rt,
            self.alloc,
            gate,
            fetcher,
            records,
            self.bounds,
        )?;
        let mut taken = 0;
        let ended = self.take_all(recorded, &mut numbers, &mut keeper, &mut taken);
        let receipts = keeper.close();
        ended?;
        Ok((taken, receipts))
    }

    // Serves clients until no number is left, or none can be accepted.
    fn take_all<G: Gate, J: Recorder, K: Keeper>(
        &self,
        recorded: &Recorded<'_, G, J, R>,
        numbers: &mut ConnectionNumbers<'_>,
        keeper: &mut K,
        taken: &mut u64,
    ) -> Result<(), DeviceFault> {
        for _ in self.rt.forever() {
            if !numbers.draw() {
                return Ok(());
            }
            self.take_share(recorded, keeper, taken)?;
        }
        unreachable!()
    }

    // Serves the clients of one number in turn.
    fn take_share<G: Gate, J: Recorder, K: Keeper>(
        &self,
        recorded: &Recorded<'_, G, J, R>,
        keeper: &mut K,
        taken: &mut u64,
    ) -> Result<(), DeviceFault> {
        for _ in 0..share_of(self.connections) {
            let stream = self.accept()?;
            *taken = taken.saturating_add(1);
            recorded.counters.enter();
            self.serve_client(recorded, stream, keeper);
            recorded.counters.leave();
            // If what the client left can't be recorded, no other is served.
            recorded.journal.catch_up(self.rt, &recorded.chronicle)?;
        }
        Ok(())
    }

    // Waits for a client, while descriptors or memory are short too.
    fn accept(&self) -> Result<TcpStream, DeviceFault> {
        for _ in self.rt.forever() {
            match self.listener.accept(self.rt) {
                Ok(stream) => return Ok(stream),
                Err(AcceptFault::Want) => {}
                Err(AcceptFault::Client | AcceptFault::Device) => return Err(DeviceFault),
            }
        }
        unreachable!()
    }

    // Serves a client to its end unless it is a browser. A fault of its session ends only its connection.
    fn serve_client<G: Gate, J: Recorder, K: Keeper>(
        &self,
        recorded: &Recorded<'_, G, J, R>,
        stream: TcpStream,
        keeper: &mut K,
    ) {
        let waiting = Cell::new(Waiting::new(self.patience));
        let reader = ClientStream::new(self.rt, &stream, &waiting);
        let writer = ClientStream::new(self.rt, &stream, &waiting);
        match self.ahead {
            Some(most) => {
                let turn = Cell::new(FetchedAhead::new(most));
                // (without memory for its lines the connection is closed)
                if let Ok(lines) = LinesInTurn::new(self.alloc, reader, &turn) {
                    self.serve_lines(recorded, lines, RepliesInTurn::new(writer, &turn), keeper);
                }
            }
            None => self.serve_lines(recorded, reader, writer, keeper),
        }
        close(self.rt, stream);
    }

    // Serves a client's lines to their end, writing only what is recorded.
    fn serve_lines<G: Gate, J: Recorder, K: Keeper, I: Read + Drop, O: Write + Drop>(
        &self,
        recorded: &Recorded<'_, G, J, R>,
        reader: I,
        writer: O,
        keeper: &mut K,
    ) {
        let turn = recorded.turns.session();
        let mut reader = LinesInARow {
            turn: &turn,
            lines: Counted::new(reader),
        };
        let mut writer = RepliesInARow {
            turn: &turn,
            replies: JournaledSink::new(recorded.caught_up(), Counted::new(writer)),
        };
        let first = FirstLine::NoRequest;
        let _ = serve_from(
            self.alloc,
            &mut reader,
            &mut writer,
            keeper,
            self.clock,
            first,
            &recorded.counters,
        );
        turn.give_back();
    }
}
