//! What is left to do after the arguments were read.
//! A shift and a server need threads and sockets, which only `main` has.
use crate::ending::Ending;
use program_arguments::{ServeOptions, ShiftOptions};

/// How the program goes on.
#[derive(Drop)]
pub enum Next {
    /// It is done, or can't be.
    Ends(Ending),
    /// Workers must do the jobs on standard input.
    Shift(ShiftOptions),
    /// Workers must serve clients that connect.
    Serve(ServeOptions),
}
