//! Whether the TLS program is there.
//! It is connected to once, first of all: without it every https site would be closed for a day.
ghost use Rattle.std.specs.Prelude.{◌≡◌, IfErr, Some, option_map};
ghost use Rattle.program_commands.specs.declared.ending.Ending.TheVariants as endings;

use program_commands::Ending;
use std::net::{SocketAddr, TcpStream};
use std::time::Duration;

/// Connects to the program at this address, if there is to be one. If nobody accepts in time, crawlgate
/// ends.
pub(crate) fn find_tls_program(
    host: &HostRuntime,
    tls_by: Option<SocketAddr>,
    most: Duration,
) -> Result<(), Ending>
    ensures { IfErr result (λ ending. option_map endings.NoTlsProgram tls_by ≡ Some ending) }
{
    let Some(at) = tls_by else {
        return Ok(());
    };
    match TcpStream::connect_timeout(host, &at, most) {
        Ok(_) => Ok(()),
        Err(_) => Err(Ending::NoTlsProgram(at)),
    }
}
