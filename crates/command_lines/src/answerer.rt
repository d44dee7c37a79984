//! What answers the lines of a session.
//! Used by `run_session`.
ghost use Rattle.std.specs.Prelude.{◌≡◌, ℕ, List, Bool, IfOk, OnErr};
ghost use Rattle.counted_io.specs.Device.{failures_after};
ghost use Rattle.command_lines.specs.Answers.{ends_session, GivesReply, LosesReply};

use counted_io::{DeviceFault, Output, Sink};
use std::alloc::Global;

/// Whether a session goes on after a line.
#[derive(Clone, Copy, Debug, PartialEq, Eq)]
pub enum Flow {
    /// The session goes on.
    Goes,
    /// The line was the last one.
    Ends,
}

/// Answers line after line from a state lent to it.
pub trait Answerer<S> {
    /// A line may turn the first state into the second with this reply, which ends the session or not. The
    /// number counts the failed writes so far.
    ghost answers: { Self → ℕ → S → List ℕ → List ℕ → Bool → S → Type 0 };

    /// Answers a line, given without its end: pushes the reply to `output`, and says whether the session
    /// goes on. After a fault the line has still had its effect.
    fn answer<W: Sink>(
        &self,
        alloc: Global,
        state: &mut S,
        line: &[u8],
        output: &mut Output,
        sink: &mut W,
    ) -> Result<Flow, DeviceFault>
        ensures ok { IfOk result (λ flow. GivesReply
            (λ reply. answers self.now (W.failures sink.old)
            state.old line.now reply (ends_session flow) state.new)
            (W.written sink.old) (W.written sink.new) output.old output.new) }
        ensures err { OnErr result (LosesReply
            (λ reply ended. answers self.now (W.failures sink.old)
            state.old line.now reply ended state.new)
            (W.written sink.old) (W.written sink.new) output.old) }
        ensures count { W.failures sink.new ≡ failures_after (W.failures sink.old) result };
}
