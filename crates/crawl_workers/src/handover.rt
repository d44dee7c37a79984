//! What a shift's workers hand over when they end.
//! Called by `run_shift`, after the last job.
ghost use Rattle.std.specs.Prelude.{◌≡◌, ◌≤◌, IfOk, vec_len};
ghost use Rattle.job_line.specs.Limits.{max_workers};
ghost use Rattle.crawl_workers.specs.Crews.{HandsOver, nothing_handed};

use crate::crew::{Done, Work};
use gate_lock::{Gate, Receipts};
use job_line::{JobSeat, MAX_WORKERS};
use std::alloc::{AllocError, Global};
use std::marker::Model;
use worker_pool::Returned;

/// The workers' seats, jobs drawn and done, and receipts, in the order of the workers. Room for 16 is
/// allocated at the start, so that no failed allocation loses what was done.
#[derive(Drop)]
pub(crate) struct Handover<G: Gate> {
    pub(crate) seats: Vec<JobSeat>,
    pub(crate) drawn: Vec<Vec<u64>>,
    pub(crate) done: Vec<Vec<Done>>,
    pub(crate) receipts: Vec<Receipts<G>>,
}

impl<G: Gate> Model for Handover<G> {
    ghost use Rattle.std.specs.Prelude.{◌≤◌, map, vec_capacity};
    ghost use Rattle.job_line.specs.Limits.{max_workers};
    ghost use Rattle.crawl_workers.specs.Crews.{HandoverView};

    ghost Value = { HandoverView };

    ghost view = { λ h. record {
      seats = h.seats.items;
      drawn = map (λ list. list.items) h.drawn.items;
      done = map (λ list. list.items) h.done.items;
      receipts = h.receipts.items;
    } };

    ghost invariant = { λ h. (max_workers ≤ vec_capacity h.seats)
        × (max_workers ≤ vec_capacity h.drawn) × (max_workers ≤ vec_capacity h.done) };
}

impl<G: Gate> Handover<G> {
    /// Empty, with room for 16 workers.
    pub(crate) fn with_room(alloc: Global) -> Result<Handover<G>, AllocError>
        ensures { IfOk result (λ h. h ≡ nothing_handed) }
    {
        Ok(Handover {
            seats: Vec::with_capacity(alloc, MAX_WORKERS as usize)?,
            drawn: Vec::with_capacity(alloc, MAX_WORKERS as usize)?,
            done: Vec::with_capacity(alloc, MAX_WORKERS as usize)?,
            receipts: Vec::new(alloc),
        })
    }

    /// What these workers hand over.
    pub(crate) fn filled(self, returned: Returned<Work, Receipts<G>>) -> Handover<G>
        requires new { self ≡ nothing_handed }
        requires few { vec_len returned.works ≤ max_workers }
        ensures { HandsOver returned.works.items returned.receipts.items result }
    {
        let Handover {
            mut seats,
            mut drawn,
            mut done,
            receipts: _,
        } = self;
        let Returned { works, receipts } = returned;
        for work in works {
            seats.push_reserved(work.seat);
            drawn.push_reserved(work.drawn);
            done.push_reserved(work.done);
        }
        Handover {
            seats,
            drawn,
            done,
            receipts,
        }
    }
}
