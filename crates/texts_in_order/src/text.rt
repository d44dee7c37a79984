//! What can be written as a text, or as several.
//! Implemented by those who know the words of the texts.
ghost use Rattle.std.specs.Prelude.{◌≡◌, ◌<◌, ℕ, List, length};
ghost use Rattle.texts_in_order.specs.Order.{text_at};
ghost use Rattle.counted_io.specs.Output.{Pushes};

use counted_io::{DeviceFault, Output, Sink};

/// What can be written as a text.
pub trait Text {
    /// The text's octets.
    ghost octets: { Self → List ℕ };

    /// Pushes the text.
    fn push<W: Sink>(&self, output: &mut Output, sink: &mut W) -> Result<(), DeviceFault>
        ensures { Pushes (W.written sink.old) (W.written sink.new)
            (W.failures sink.old) (W.failures sink.new) output.old output.new
            (octets self.now) result };
}

/// Texts with the numbers from 0 on.
pub trait Texts {
    /// The octets of each text.
    ghost texts: { Self → List (List ℕ) };

    /// How many texts there are.
    fn count(&self) -> usize
        ensures { result ≡ length (texts self.now) };

    /// Pushes the text of a number.
    fn push_at<W: Sink>(
        &self,
        number: usize,
        output: &mut Output,
        sink: &mut W,
    ) -> Result<(), DeviceFault>
        requires { number < length (texts self.now) }
        ensures { Pushes (W.written sink.old) (W.written sink.new)
            (W.failures sink.old) (W.failures sink.new) output.old output.new
            (text_at (texts self.now) number) result };
}
