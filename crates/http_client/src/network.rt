//! The network as a client has it: it connects to what is within its reach, or to its TLS program.
//! RFC 6890, section 2.2.
ghost use Rattle.std.specs.Prelude.{◌≡◌, [], IfOk, IfSome};
ghost use Rattle.std.specs.Net.Socket.{socket_ip};
ghost use Rattle.http_client.specs.Reach.{MayReach, may_reach};

use crate::address_block::AddressBlock;
use crate::host_port::host_port_of;
use crate::own_address::may_be_own;
use crate::reach::{Reach, is_among};
use crate::timed_stream::TimedStream;
use path_normal::PageUrl;
use std::marker::Model;
use std::net::{IpAddr, Net, SocketAddr, TcpStream, ToSocketAddrs};
use std::sync::atomic::AtomicBool;
use std::time::{Duration, Instant};
use std::{array, io, iter, time};
use stream_waits::Deadline;

// The addresses of a host, as the system gives them: at most so many.
type Addresses = iter::Take<array::IntoIter<SocketAddr, 32>>;

/// A network, its clock, and what of it may be reached. A connection is made along a `Way`, or to the
/// program that opens TLS, if there is one: nothing else here connects, and nobody else has the network.
#[derive(Drop)]
pub(crate) struct Network<R: Net<Stream = TcpStream> + time::Clock> {
    rt: R,
    reach: Reach,
    not_to: Option<Vec<AddressBlock>>,
    tls_by: Option<SocketAddr>,
}

impl<R: Net<Stream = TcpStream> + time::Clock> Model for Network<R> {
    ghost use Rattle.http_client.specs.Clients.{NetworkView, blocks_of};

    ghost Value = { NetworkView };

    ghost view = { λ network. record {
      reach = network.reach;
      not_to = blocks_of network.not_to;
      tls_by = network.tls_by;
    } };
}

/// An address within a network's reach, and in none of the blocks that its operator rules out. Only
/// `Network::way_to` makes one.
#[derive(Clone, Copy)]
pub(crate) struct Way {
    address: SocketAddr,
}

impl Way {
    /// Its address, without the port.
    pub(crate) fn ip(&self) -> IpAddr
        ensures { result ≡ socket_ip self.now.address }
    {
        self.address.ip()
    }
}

impl<R: Net<Stream = TcpStream> + time::Clock> Network<R> {
    /// A network of which this much may be reached, but no block is ruled out; with the TLS program at this
    /// address, if any.
    pub(crate) fn new(rt: R, reach: Reach, tls_by: Option<SocketAddr>) -> Network<R>
        ensures { result ≡ record { reach = reach; not_to = []; tls_by = tls_by } }
    {
        Network {
            rt,
            reach,
            not_to: None,
            tls_by,
        }
    }

    /// This network without these blocks.
    pub(crate) fn avoiding(self, not_to: Vec<AddressBlock>) -> Network<R>
    where
        R: Drop,
        ensures { result ≡ record self { not_to = not_to.items } }
    {
        let Network {
            rt,
            reach,
            not_to: _,
            tls_by,
        } = self;
        Network {
            rt,
            reach,
            not_to: Some(not_to),
            tls_by,
        }
    }

    /// Whether there is a TLS program.
    pub(crate) fn has_tls(&self) -> bool {
        self.tls_by.is_some()
    }

    /// The time of a whole fetch, from now on.
    pub(crate) fn begin(&self, whole: Duration) -> io::Result<Deadline>
        ensures { IfOk result (λ deadline. deadline.whole ≡ whole) }
    {
        Deadline::begin(&self.rt, whole)
    }

    /// This moment.
    pub(crate) fn now(&self) -> io::Result<Instant> {
        Instant::now(&self.rt)
    }

    /// How long a step with its own limit may take from now on; `TimedOut` if no time is left.
    pub(crate) fn left(&self, deadline: &Deadline, step: Duration) -> io::Result<Duration> {
        deadline.left(&self.rt, step)
    }

    /// The addresses of a page's server, which the system looks up.
    pub(crate) fn addresses_of(&self, url: &PageUrl) -> io::Result<Addresses> {
        let server = host_port_of(url);
        (server.host, server.port).to_socket_addrs(&self.rt)
    }

    /// The way to an address, if within reach. One of this machine is not of the public internet.
    pub(crate) fn way_to(&self, address: SocketAddr) -> Option<Way>
        ensures { IfSome result
            (λ way. MayReach self.now.reach self.now.not_to (socket_ip way.address)) }
    {
        if !may_reach(self.reach, self.not_to(), &address.ip()) {
            return None;
        }
        if self.reach == Reach::PublicOnly && may_be_own(&self.rt, address) {
            return None;
        }
        Some(Way { address })
    }

    fn not_to(&self) -> &[AddressBlock]
        ensures { result.now ≡ self.now.not_to }
    {
        match &self.not_to {
            Some(blocks) => blocks.as_slice(),
            None => &[],
        }
    }

    /// Connects along a way within this time.
    pub(crate) fn connect(&self, way: &Way, most: Duration) -> io::Result<TcpStream>
        requires { MayReach self.now.reach self.now.not_to (socket_ip way.now.address) }
    {
        TcpStream::connect_timeout(&self.rt, &way.address, most)
    }

    /// Connects to the TLS program within this time.
    pub(crate) fn connect_program(&self, most: Duration) -> io::Result<TcpStream> {
        match self.tls_by {
            Some(program) => TcpStream::connect_timeout(&self.rt, &program, most),
            None => Err(io::Error::from(io::ErrorKind::NotFound)),
        }
    }

    /// A connection with a time limit for each read and write, which ends in time and when stopped.
    pub(crate) fn timed<'a>(
        &'a self,
        stream: &'a TcpStream,
        deadline: Deadline,
        step: Duration,
        stopped: &'a AtomicBool,
    ) -> TimedStream<'a, R, &'a TcpStream>
        ensures step { result.step ≡ step }
        ensures deadline { result.deadline ≡ deadline }
    {
        TimedStream {
            rt: &self.rt,
            stream,
            deadline,
            step,
            stopped,
            read_limit: None,
            write_limit: None,
            failure: None,
        }
    }
}

fn may_reach(reach: Reach, not_to: &[AddressBlock], address: &IpAddr) -> bool
    ensures { result ≡ may_reach reach not_to.now address.now }
{
    reach.allows(address) && !is_among(not_to, address)
}
