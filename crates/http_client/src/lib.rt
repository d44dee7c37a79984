//! Fetches pages over TCP in bounded time, each over its own connection, or over one that an earlier page
//! left open. RFC 9110, section 4.2.1; RFC 9112, sections 2, 3 and 9.
#![tactic(auto)]

mod address_block;
mod connector;
mod exchanged;
mod failure;
mod heard;
mod host_port;
mod http_exchange;
mod kept_connections;
mod network;
mod noted;
mod own_address;
mod page_request;
mod reach;
mod special_blocks;
mod tcp_client;
mod time_limits;
mod timed_stream;
mod tls_exchange;
mod tls_header;

pub use address_block::AddressBlock;
pub use failure::Failure;
pub use host_port::{HostPort, host_port_of};
pub use http_exchange::{exchange, exchange_with_header};
pub use page_request::PageRequest;
pub use reach::Reach;
pub use tcp_client::TcpClient;
pub use time_limits::{CONNECT_SECONDS, STEP_SECONDS, TimeLimits, WHOLE_SECONDS};
pub use timed_stream::TimedStream;
pub use tls_header::{TlsHeaderFault, tls_header_of};
