//! Blocks of addresses as they are written, and what they hold.
//! RFC 4632, section 3.1; RFC 4291, section 2.3.

use super::demand;
use http_client::AddressBlock;
use std::net::IpAddr;
use std::test::Fail;

// A name, a block, an address, and whether the block holds it.
const HELD: &[(&str, &str, &str, bool)] = &[
    ("first", "192.0.2.0/24", "192.0.2.0", true),
    ("last", "192.0.2.0/24", "192.0.2.255", true),
    ("before", "192.0.2.0/24", "192.0.1.255", false),
    ("after", "192.0.2.0/24", "192.0.3.0", false),
    ("one address", "168.63.129.16/32", "168.63.129.16", true),
    (
        "another address",
        "168.63.129.16/32",
        "168.63.129.17",
        false,
    ),
    ("all of IPv4", "0.0.0.0/0", "255.255.255.255", true),
    ("none of IPv6", "0.0.0.0/0", "2001:db8::1", false),
    ("mapped", "192.0.2.0/24", "::ffff:192.0.2.1", true),
    ("compatible", "192.0.2.0/24", "::192.0.2.1", true),
    ("translated", "192.0.2.0/24", "::ffff:0:192.0.2.1", true),
    ("NAT64", "192.0.2.0/24", "64:ff9b::192.0.2.1", true),
    ("6to4", "192.0.2.0/24", "2002:c000:201::1", true),
    ("NAT64 itself", "64:ff9b::/96", "64:ff9b::192.0.2.1", true),
    ("6to4 itself", "2002::/16", "2002:c000:201::1", true),
    (
        "mapped, written so",
        "::ffff:192.0.2.0/120",
        "192.0.2.255",
        true,
    ),
    ("all of IPv6", "::/0", "2001:db8::1", true),
    ("all of both", "::/0", "192.0.2.1", true),
    ("one of IPv6", "2001:db8::1/128", "2001:db8::1", true),
    ("another of IPv6", "2001:db8::1/128", "2001:db8::2", false),
    (
        "last of IPv6",
        "2001:db8::/33",
        "2001:db8:7fff:ffff:ffff:ffff:ffff:ffff",
        true,
    ),
    ("after of IPv6", "2001:db8::/33", "2001:db8:8000::", false),
];

#[test]
fn held_addresses(_rt: HostRuntime) -> Result<(), Fail> {
    for (name, block, text, is_held) in HELD {
        let (Some(block), Ok(address)) = (AddressBlock::parse(block), text.parse::<IpAddr>()) else {
            return Err(Fail::new(name));
        };
        demand(block.holds(&address) == *is_held, name)?;
    }
    Ok(())
}

// What is no block.
const NO_BLOCKS: &[&str] = &[
    "",
    "/",
    "/8",
    "10.0.0.0",
    "10.0.0.0/",
    "10.0.0.0/33",
    "10.0.0.0/256",
    "10.0.0.0/-1",
    "10.0.0.0/+8",
    "10.0.0.0/8 ",
    " 10.0.0.0/8",
    "10.0.0.0 /8",
    "10.0.0.0/ 8",
    "10.0.0.0/8/8",
    "10.0.0.1/8",
    "10.0.0/8",
    "010.0.0.0/8",
    "10.0.0.0/x",
    "10.0.0.0/255.0.0.0",
    "::/129",
    "::1/64",
    "1::/0",
    "0.0.0.1/0",
    "[::]/0",
    "fe80::%1/64",
    "localhost/8",
    "2001:db8::/8",
];

#[test]
fn no_blocks(_rt: HostRuntime) -> Result<(), Fail> {
    for text in NO_BLOCKS {
        demand(AddressBlock::parse(text) == None, text)?;
    }
    Ok(())
}
