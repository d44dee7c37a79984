//! What is left of an earlier process's last file, and the text that ends it: all of that text or none of it.
//! Used by `LastFiles`.
ghost use Rattle.std.specs.Prelude.{◌≡◌, OnOk, OnErr};
ghost use Rattle.std.specs.Io.KnownBytes.{Appends};
ghost use Rattle.counted_io.specs.Device.{AppendsPrefix, failures_after};
ghost use Rattle.journal.specs.Crash.{HasKept};
ghost use Rattle.journal.specs.declared.cutting.TextEnd.TheVariants as TextEnd;
ghost use Rattle.journal.specs.Cutting.{Cuts, EndsWith};

use crate::file_tape::FileTape;
use crate::tape::{Tape, append_all};
use counted_io::DeviceFault;
use std::fs::File;

/// A tape whose end can be cut off.
pub(crate) trait CutTape: Tape {
    /// Leaves the first octets, after which others are appended.
    fn cut(&mut self, size: u64) -> Result<(), DeviceFault>
        ensures cuts { OnOk result (Cuts size (Self.written self.old) (Self.written self.new)) }
        ensures same { OnErr result (Self.written self.new ≡ Self.written self.old) }
        ensures count { Self.failures self.new ≡ failures_after (Self.failures self.old) result };
}

impl CutTape for FileTape<File> {
    fn cut(&mut self, size: u64) -> Result<(), DeviceFault> {
        self.set_end(size)
    }
}

/// What became of the text that was to end a tape.
#[derive(Clone, Copy, Debug, PartialEq, Eq)]
pub(crate) enum TextEnd {
    /// It was appended, and a crash keeps it.
    Appended,
    /// The tape could not be cut, and is as it was.
    Uncut,
    /// It could not be appended, and the tape was cut again: it has no part of the text.
    Undone,
    /// The same, but the tape could not be cut again, and may have a part of the text.
    Torn,
}

/// Cuts a tape after this many octets, appends a text, and waits until a crash keeps it.
pub(crate) fn end_text<T: CutTape>(tape: &mut T, whole: u64, text: &[u8]) -> TextEnd
    ensures appended { result ≡ TextEnd.Appended
        → EndsWith whole text.now (T.written tape.old) (T.written tape.new) (T.kept tape.new) }
    ensures uncut { result ≡ TextEnd.Uncut → T.written tape.new ≡ T.written tape.old }
    ensures undone { result ≡ TextEnd.Undone
        → Cuts whole (T.written tape.old) (T.written tape.new) }
{
    if tape.cut(whole).is_err() {
        return TextEnd::Uncut;
    }
    if append_kept(tape, text).is_ok() {
        return TextEnd::Appended;
    }
    match tape.cut(whole) {
        Ok(()) => TextEnd::Undone,
        Err(DeviceFault) => TextEnd::Torn,
    }
}

// Appends a text, and waits until a crash keeps it.
fn append_kept<T: Tape>(tape: &mut T, text: &[u8]) -> Result<(), DeviceFault>
    ensures ok { OnOk result (Appends (T.written tape.old) (T.written tape.new) text.now
        × HasKept (T.written tape.new) (T.kept tape.new)) }
    ensures err { OnErr result
        (AppendsPrefix (T.written tape.old) (T.written tape.new) text.now) }
{
    append_all(tape, text)?;
    tape.sync()
}
