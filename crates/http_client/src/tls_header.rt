//! The header for the TLS program, before the request.
//! The PROXY protocol, version 2, sections 2.2 and 2.2.2.
ghost use Rattle.std.specs.Prelude.{◌≡◌, ◌≤◌, Err, length, IfOk};
ghost use Rattle.http_client.specs.TlsHeader.{HasLongHost, IsHeaderOf, header_of_family};

use crate::host_port::host_port_of;
use path_normal::PageUrl;
use std::alloc::{AllocError, Global};
use std::net::IpAddr;

/// The start of each header.
const SIGNATURE: [u8; 12] = *b"\r\n\r\n\0\r\nQUIT\n";

/// Version 2, and the command PROXY.
const VERSION_AND_COMMAND: u8 = 0x21;

const TCP_OVER_IPV4: u8 = 0x11;

const TCP_OVER_IPV6: u8 = 0x21;

/// PP2_TYPE_AUTHORITY.
const AUTHORITY: u8 = 0x02;

/// The longest name.
const LONGEST_NAME: usize = 255;

/// The octets of a header's addresses and names besides an address and the name: two ports, and the type
/// and length of the name.
const OTHER_OCTETS: usize = 7;

/// Why there is no header.
#[derive(Clone, Copy, Debug, PartialEq, Eq)]
pub enum TlsHeaderFault {
    /// The host is longer than 255 octets.
    LongName,
    /// Out of memory.
    NoMemory,
}

impl From<AllocError> for TlsHeaderFault {
    ghost use Rattle.std.specs.Prelude.{◌≡◌};
    ghost use Rattle.http_client.specs.declared.tls_header.TlsHeaderFault.{TlsHeaderFault};

    ghost from_gives = { λ _ fault. fault ≡ TlsHeaderFault.NoMemory };

    fn from(_: AllocError) -> TlsHeaderFault {
        TlsHeaderFault::NoMemory
    }
}

/// The header to open TLS for a page to one address of its server, with its host's name.
///
/// The reader has no use for a source address, so the target fills that in too.
pub fn tls_header_of(
    alloc: Global,
    url: &PageUrl,
    address: IpAddr,
) -> Result<Vec<u8>, TlsHeaderFault>
    ensures ok { IfOk result (λ header. IsHeaderOf url.now address header.items) }
    ensures long { result ≡ Err TlsHeaderFault.LongName → HasLongHost url.now }
{
    let server = host_port_of(url);
    let name = server.host.as_bytes();
    let port = server.port;
    if name.len() > LONGEST_NAME {
        return Err(TlsHeaderFault::LongName);
    }
    let header = match address {
        IpAddr::V4(address) => header_of_family(
            alloc,
            TCP_OVER_IPV4,
            &address.octets(),
            port,
            name,
        )?,
        IpAddr::V6(address) => header_of_family(
            alloc,
            TCP_OVER_IPV6,
            &address.octets(),
            port,
            name,
        )?,
    };
    Ok(header)
}

// The header of a family, for a target's port.
fn header_of_family(
    alloc: Global,
    family: u8,
    target: &[u8],
    port: u16,
    name: &[u8],
) -> Result<Vec<u8>, AllocError>
    requires target { length target.now ≤ 16 }
    requires name { length name.now ≤ 255 }
    ensures { IfOk result (λ header.
        header.items ≡ header_of_family family target.now port name.now) }
{
    let len = 2 * target.len() + OTHER_OCTETS + name.len();
    let mut header = Vec::from_slice(alloc, &SIGNATURE)?;
    header.extend_from_slice(&[VERSION_AND_COMMAND, family])?;
    header.extend_from_slice(&(len as u16).to_be_bytes())?;
    header.extend_from_slice(target)?;
    header.extend_from_slice(target)?;
    header.extend_from_slice(&port.to_be_bytes())?;
    header.extend_from_slice(&port.to_be_bytes())?;
    header.push(AUTHORITY)?;
    header.extend_from_slice(&(name.len() as u16).to_be_bytes())?;
    header.extend_from_slice(name)?;
    Ok(header)
}
