//! Fetches that fail before they connect.

use super::demand;
use http_client::{Failure, TcpClient, TimeLimits};
use http_wire::WireFault;
use path_normal::{PageUrl, Schemes};
use std::alloc::Global;
use std::net::{Net, TcpStream};
use std::test::Fail;
use std::time;
use std::time::Duration;

// A name that no name server is asked for, since its label has 64 octets.
const LONG_NAME: &str =
    "https://aaaaaaaaaaaaaaaaaaaaaaaaaaaaaaaaaaaaaaaaaaaaaaaaaaaaaaaaaaaaaaaa.invalid/";

// A fetch of no time fails before it connects, and without a program for TLS no name is looked up.
#[test]
fn nothing_is_sent(rt: HostRuntime) -> Result<(), Fail> {
    let no_time = failure_of(&rt, rt.alloc(), Duration::ZERO, "http://127.0.0.1:1/")?;
    demand(no_time == Some(Failure::TooLong(Duration::ZERO)), "no time")?;
    let no_program = failure_of(&rt, rt.alloc(), Duration::from_secs(40), LONG_NAME)?;
    demand(no_program == Some(Failure::NoTlsProgram), "no TLS program")
}

fn failure_of<R: Net<Stream = TcpStream> + time::Clock>(
    rt: &R,
    alloc: Global,
    whole: Duration,
    text: &str,
) -> Result<Option<Failure>, Fail> {
    let url = Schemes::HttpAndHttps.parse_page(alloc, text)?;
    let step = Duration::from_secs(20);
    let limits = TimeLimits {
        connect: step,
        step,
        whole,
    };
    let mut failure = None;
    match TcpClient::new(rt, limits).fetch(alloc, &url, "crawlgate", 9, &mut failure) {
        Err(WireFault::Device) => Ok(failure),
        _ => Ok(None),
    }
}
