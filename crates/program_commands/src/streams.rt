//! Whether the standard streams are open.
//! What is opened later takes the lowest free number: a socket in place of standard output
//! would send the report of a shift to a site, and the port of a server to a client.
ghost use Rattle.std.specs.Prelude.{◌≡◌};
ghost use Rattle.program_commands.specs.Endings.{stream_name};

use std::os::fd::AsFd;

/// A standard stream.
#[derive(Clone, Copy, Debug, PartialEq, Eq)]
pub enum Stream {
    Input,
    Output,
    Errors,
}

impl Stream {
    /// Its name in messages.
    pub(crate) fn name(self) -> &'static str
        ensures { result.now ≡ stream_name self }
    {
        match self {
            Stream::Input => "standard input",
            Stream::Output => "standard output",
            Stream::Errors => "standard error",
        }
    }
}

/// The first closed one of the three, if any.
pub(crate) fn closed_stream(rt: &HostRuntime) -> Option<Stream> {
    if !is_open(&rt.stdin()) {
        Some(Stream::Input)
    } else if !is_open(&rt.stdout()) {
        Some(Stream::Output)
    } else if !is_open(&rt.stderr()) {
        Some(Stream::Errors)
    } else {
        None
    }
}

// A closed stream has no second descriptor.
fn is_open<S: AsFd>(stream: &S) -> bool {
    stream.as_fd().try_clone_to_owned().is_ok()
}
