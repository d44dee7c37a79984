//! Which addresses a client connects to: all, or only those of the public internet.
//! RFC 6890, section 2.2.
ghost use Rattle.std.specs.Prelude.{◌≡◌};
ghost use Rattle.http_client.specs.Reach.{allows, is_among, is_inner};

use crate::address_block::AddressBlock;
use crate::special_blocks::{global_blocks, inner_blocks};
use std::net::IpAddr;

/// Where a client may connect.
#[derive(Clone, Copy, Debug, PartialEq, Eq)]
pub enum Reach {
    /// Each address.
    Anywhere,
    /// Only the public internet: not this machine, a private network, one link, or several hosts.
    PublicOnly,
}

impl Reach {
    /// Whether it includes an address. An address of IPv6 with one of IPv4 in it is judged by that one.
    pub fn allows(&self, address: &IpAddr) -> bool
        ensures { result ≡ allows self.now address.now }
    {
        match self {
            Reach::Anywhere => true,
            Reach::PublicOnly => !is_inner(address),
        }
    }
}

/// Whether an address is not of the public internet.
fn is_inner(address: &IpAddr) -> bool
    ensures { result ≡ is_inner address.now }
{
    is_among(inner_blocks(), address) && !is_among(global_blocks(), address)
}

/// Whether one of the blocks holds an address.
pub(crate) fn is_among(blocks: &[AddressBlock], address: &IpAddr) -> bool
    ensures { result ≡ is_among blocks.now address.now }
{
    blocks.iter().any(|block| block.holds(address))
}
