//! The place at which a server listens for clients of HTTP.
//! docs/crawlgate.1.md has the options.
ghost use Rattle.program_arguments.specs.Options.{AreHttpWithin};

use client_connections::bind_socket_file;
use http_front::Forwarding;
use http_turns::{AnswerBudget, MOST_ANSWER_OCTETS};
use line_server::HttpEntrance;
use program_arguments::{ClientFields, HttpOptions, ListenAddress, RetryAfter};
use program_commands::{Ending, tell_http, tell_http_at, tell_no_place};
use site_door::{AskedPauses, Manners, SiteDoors};
use std::hash::RandomState;
use std::io::ErrorKind;
use std::sync::Wait;
use std::{io, time};
use turns::{Clients, Dispatcher, LoopListener, Sizes};

// The milliseconds of a second.
const MILLISECONDS: u64 = 1_000;

/// A listener for clients of HTTP, with what their workers share.
#[derive(Drop)]
pub(crate) struct HttpPlace<'a, R: Wait + time::Clock> {
    listener: LoopListener,
    dispatcher: Dispatcher,
    sizes: Sizes,
    keys: RandomState,
    forwarding: Forwarding,
    budget: AnswerBudget,
    doors: SiteDoors<'a, R>,
}

impl<R: Wait + time::Clock> HttpPlace<'_, R> {
    /// The place, as a server sees it.
    pub(crate) fn entrance(&self) -> HttpEntrance<'_, R> {
        HttpEntrance {
            listener: &self.listener,
            dispatcher: &self.dispatcher,
            sizes: self.sizes,
            keys: self.keys,
            forwarding: self.forwarding,
            budget: &self.budget,
            doors: &self.doors,
        }
    }
}

/// Listens where the options say. As many workers as the lines have take the quick turns, and the fetchers the
/// visits.
pub(crate) fn open_http<'a, R: Wait + time::Clock>(
    rt: &'a R,
    host: &HostRuntime,
    options: &HttpOptions,
    workers: u64,
) -> io::Result<HttpPlace<'a, R>>
    requires { AreHttpWithin options.now }
{
    let Some(sizes) = sizes_of(options, workers) else {
        return Err(io::Error::from(ErrorKind::InvalidInput));
    };
    let keys = RandomState::new(host)?;
    let pauses = match options.retry_after {
        RetryAfter::Heeded => AskedPauses::Kept,
        RetryAfter::Ignored => AskedPauses::Ignored,
    };
    let delay = options.delay.saturating_mul(MILLISECONDS);
    let manners = Manners::of_fetchers(options.fetchers, delay, pauses);
    Ok(HttpPlace {
        listener: listen(host, &options.place)?,
        dispatcher: Dispatcher::new(host, host.alloc(), sizes, Clients::Endless)?,
        sizes,
        keys,
        forwarding: match options.fields {
            ClientFields::Forwarded => Forwarding::Conditions,
            ClientFields::Dropped => Forwarding::Nothing,
        },
        budget: AnswerBudget::new(MOST_ANSWER_OCTETS),
        doors: SiteDoors::new(rt, host.alloc(), manners, keys)?,
    })
}

fn sizes_of(options: &HttpOptions, workers: u64) -> Option<Sizes> {
    let fetchers = options.fetchers as usize;
    let all = fetchers.saturating_add(workers as usize);
    Sizes::new(options.connections as usize, all)?.with_slow(fetchers)
}

fn listen(host: &HostRuntime, place: &ListenAddress) -> io::Result<LoopListener> {
    match place {
        ListenAddress::Port(port) => LoopListener::bind(host, *port),
        ListenAddress::Socket(path) => {
            LoopListener::of_file(bind_socket_file(host, host.alloc(), path.as_str())?)
        }
    }
}

/// Reports where clients of HTTP connect.
pub(crate) fn tell_http_place<R: Wait + time::Clock>(
    host: &HostRuntime,
    place: &ListenAddress,
    entrance: &HttpEntrance<'_, R>,
) -> Ending {
    if let ListenAddress::Socket(path) = place {
        return tell_http_at(host, path.as_str());
    }
    match entrance.listener.port() {
        Ok(port) => tell_http(host, port),
        Err(error) => tell_no_place(host, place, &error),
    }
}
