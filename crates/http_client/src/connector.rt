//! The connections of a client, made in time and within its reach.
ghost use Rattle.std.specs.Net.Socket.{socket_ip};
ghost use Rattle.http_client.specs.Reach.{MayReach};

use crate::failure::Failure;
use crate::network::{Network, Way};
use path_normal::PageUrl;
use std::net::{Net, TcpStream};
use std::sync::atomic::{AtomicBool, Ordering};
use std::time;
use std::time::Duration;
use stream_waits::Deadline;

/// What makes connections: a network, how long each may take to be made, and whether that was stopped.
#[derive(Clone, Copy)]
pub(crate) struct Connector<'a, R: Net<Stream = TcpStream> + time::Clock> {
    pub(crate) network: &'a Network<R>,
    pub(crate) most: Duration,
    pub(crate) stopped: &'a AtomicBool,
}

impl<R: Net<Stream = TcpStream> + time::Clock> Connector<'_, R> {
    // Connects to the first address of the page's server that is within reach and accepts. The address
    // checked is the one connected to, even if the name changes.
    pub(crate) fn connect(&self, url: &PageUrl, deadline: &Deadline) -> Result<TcpStream, Failure> {
        let Ok(addresses) = self.network.addresses_of(url) else {
            return Err(Failure::NoName);
        };
        let mut last = Failure::NoName;
        for address in addresses {
            let Some(way) = self.network.way_to(address) else {
                last = Failure::Unreachable;
                continue;
            };
            match self.connect_to(&way, deadline) {
                Ok(stream) => return Ok(stream),
                Err(why) => last = why,
            }
        }
        Err(last)
    }

    fn connect_to(&self, way: &Way, deadline: &Deadline) -> Result<TcpStream, Failure>
        requires { MayReach self.now.network.now.reach self.now.network.now.not_to
            (socket_ip way.now.address) }
    {
        let (most, past) = self.patience(deadline)?;
        match self.network.connect(way, most) {
            Ok(stream) => Ok(stream),
            Err(error) => Err(Failure::of(error.kind(), past)),
        }
    }

    pub(crate) fn connect_program(&self, deadline: &Deadline) -> Result<TcpStream, Failure> {
        let (most, past) = self.patience(deadline)?;
        match self.network.connect_program(most) {
            Ok(stream) => Ok(stream),
            Err(error) => match Failure::of(error.kind(), past) {
                Failure::TooLong(limit) => Err(Failure::TooLong(limit)),
                _ => Err(Failure::NoTlsProgram),
            },
        }
    }

    // How long a connection may take to be made, and the failure if it takes longer.
    fn patience(&self, deadline: &Deadline) -> Result<(Duration, Failure), Failure> {
        if self.stopped.load(Ordering::SeqCst) {
            return Err(Failure::Stopped);
        }
        let most = self.most;
        let Ok(left) = self.network.left(deadline, most) else {
            return Err(Failure::TooLong(deadline.whole));
        };
        let past = if left < most {
            Failure::TooLong(deadline.whole)
        } else {
            Failure::NotConnected(most)
        };
        Ok((left, past))
    }
}
