//! Which addresses are of the public internet, at the ends of each block.
//! RFC 6890, and IANA's registries of special-purpose addresses.

use super::demand;
use http_client::Reach;
use std::net::IpAddr;
use std::test::Fail;

// A name, an address, and whether it is of the public internet.
type Row = (&'static str, &'static str, bool);

// Of each block below 192.0.0.0: the first and the last address, and those before and after these.
const IPV4_BELOW_192: &[Row] = &[
    ("this network, first", "0.0.0.0", false),
    ("this network, last", "0.255.255.255", false),
    ("this network, after", "1.0.0.0", true),
    ("private use, 10, first", "10.0.0.0", false),
    ("private use, 10, last", "10.255.255.255", false),
    ("private use, 10, before", "9.255.255.255", true),
    ("private use, 10, after", "11.0.0.0", true),
    ("shared address space, first", "100.64.0.0", false),
    ("shared address space, last", "100.127.255.255", false),
    ("shared address space, before", "100.63.255.255", true),
    ("shared address space, after", "100.128.0.0", true),
    ("loopback, first", "127.0.0.0", false),
    ("loopback, last", "127.255.255.255", false),
    ("loopback, before", "126.255.255.255", true),
    ("loopback, after", "128.0.0.0", true),
    ("link local, first", "169.254.0.0", false),
    ("link local, last", "169.254.255.255", false),
    ("link local, before", "169.253.255.255", true),
    ("link local, after", "169.255.0.0", true),
    ("private use, 172, first", "172.16.0.0", false),
    ("private use, 172, last", "172.31.255.255", false),
    ("private use, 172, before", "172.15.255.255", true),
    ("private use, 172, after", "172.32.0.0", true),
    ("protocol assignments, before", "191.255.255.255", true),
    ("a site of IPv4", "93.184.215.14", true),
];

// The same of those from 192.0.0.0 on.
const IPV4_FROM_192: &[Row] = &[
    ("protocol assignments, first", "192.0.0.0", false),
    ("protocol assignments, last", "192.0.0.255", false),
    ("protocol assignments, after", "192.0.1.0", true),
    ("TEST-NET-1, first", "192.0.2.0", false),
    ("TEST-NET-1, last", "192.0.2.255", false),
    ("TEST-NET-1, before", "192.0.1.255", true),
    ("TEST-NET-1, after", "192.0.3.0", true),
    ("relays of 6to4, first", "192.88.99.0", false),
    ("relays of 6to4, last", "192.88.99.255", false),
    ("relays of 6to4, before", "192.88.98.255", true),
    ("relays of 6to4, after", "192.88.100.0", true),
    ("private use, 192, first", "192.168.0.0", false),
    ("private use, 192, last", "192.168.255.255", false),
    ("private use, 192, before", "192.167.255.255", true),
    ("private use, 192, after", "192.169.0.0", true),
    ("benchmarking, first", "198.18.0.0", false),
    ("benchmarking, last", "198.19.255.255", false),
    ("benchmarking, before", "198.17.255.255", true),
    ("benchmarking, after", "198.20.0.0", true),
    ("TEST-NET-2, first", "198.51.100.0", false),
    ("TEST-NET-2, last", "198.51.100.255", false),
    ("TEST-NET-2, before", "198.51.99.255", true),
    ("TEST-NET-2, after", "198.51.101.0", true),
    ("TEST-NET-3, first", "203.0.113.0", false),
    ("TEST-NET-3, last", "203.0.113.255", false),
    ("TEST-NET-3, before", "203.0.112.255", true),
    ("TEST-NET-3, after", "203.0.114.0", true),
    ("multicast, first", "224.0.0.0", false),
    ("multicast, last", "239.255.255.255", false),
    ("multicast, before", "223.255.255.255", true),
    ("multicast, after", "240.0.0.0", false),
    ("reserved, first", "240.0.0.0", false),
    ("reserved, last", "255.255.255.255", false),
    ("reserved, before", "239.255.255.255", false),
    ("port control anycast, first", "192.0.0.9", true),
    ("port control anycast, last", "192.0.0.9", true),
    ("port control anycast, before", "192.0.0.8", false),
    ("port control anycast, after", "192.0.0.10", true),
    ("TURN anycast, first", "192.0.0.10", true),
    ("TURN anycast, last", "192.0.0.10", true),
    ("TURN anycast, before", "192.0.0.9", true),
    ("TURN anycast, after", "192.0.0.11", false),
];

// The same of blocks of IPv6.
const IPV6_BLOCKS: &[Row] = &[
    ("local translation, first", "64:ff9b:1::", false),
    (
        "local translation, last",
        "64:ff9b:1:ffff:ffff:ffff:ffff:ffff",
        false,
    ),
    (
        "local translation, before",
        "64:ff9b:0:ffff:ffff:ffff:ffff:ffff",
        true,
    ),
    ("local translation, after", "64:ff9b:2::", true),
    ("discard only, first", "100::", false),
    ("discard only, last", "100::ffff:ffff:ffff:ffff", false),
    (
        "discard only, before",
        "ff:ffff:ffff:ffff:ffff:ffff:ffff:ffff",
        true,
    ),
    ("discard only, after", "100:0:0:1::", false),
    ("dummy prefix, first", "100:0:0:1::", false),
    ("dummy prefix, last", "100::1:ffff:ffff:ffff:ffff", false),
    ("dummy prefix, before", "100::ffff:ffff:ffff:ffff", false),
    ("dummy prefix, after", "100:0:0:2::", true),
    ("protocol assignments of IPv6, first", "2001::", false),
    (
        "protocol assignments of IPv6, last",
        "2001:1ff:ffff:ffff:ffff:ffff:ffff:ffff",
        false,
    ),
    (
        "protocol assignments of IPv6, before",
        "2000:ffff:ffff:ffff:ffff:ffff:ffff:ffff",
        true,
    ),
    ("protocol assignments of IPv6, after", "2001:200::", true),
    ("documentation of IPv6, first", "2001:db8::", false),
    (
        "documentation of IPv6, last",
        "2001:db8:ffff:ffff:ffff:ffff:ffff:ffff",
        false,
    ),
    (
        "documentation of IPv6, before",
        "2001:db7:ffff:ffff:ffff:ffff:ffff:ffff",
        true,
    ),
    ("documentation of IPv6, after", "2001:db9::", true),
    ("more documentation, first", "3fff::", false),
    (
        "more documentation, last",
        "3fff:fff:ffff:ffff:ffff:ffff:ffff:ffff",
        false,
    ),
    (
        "more documentation, before",
        "3ffe:ffff:ffff:ffff:ffff:ffff:ffff:ffff",
        true,
    ),
    ("more documentation, after", "3fff:1000::", true),
    ("segment routing, first", "5f00::", false),
    (
        "segment routing, last",
        "5f00:ffff:ffff:ffff:ffff:ffff:ffff:ffff",
        false,
    ),
    (
        "segment routing, before",
        "5eff:ffff:ffff:ffff:ffff:ffff:ffff:ffff",
        true,
    ),
    ("segment routing, after", "5f01::", true),
    ("unique local, first", "fc00::", false),
    (
        "unique local, last",
        "fdff:ffff:ffff:ffff:ffff:ffff:ffff:ffff",
        false,
    ),
    (
        "unique local, before",
        "fbff:ffff:ffff:ffff:ffff:ffff:ffff:ffff",
        true,
    ),
    ("unique local, after", "fe00::", false),
    ("reserved by IETF, first", "fe00::", false),
    (
        "reserved by IETF, last",
        "fe7f:ffff:ffff:ffff:ffff:ffff:ffff:ffff",
        false,
    ),
    (
        "reserved by IETF, before",
        "fdff:ffff:ffff:ffff:ffff:ffff:ffff:ffff",
        false,
    ),
    ("reserved by IETF, after", "fe80::", false),
    ("link local of IPv6, first", "fe80::", false),
    (
        "link local of IPv6, last",
        "febf:ffff:ffff:ffff:ffff:ffff:ffff:ffff",
        false,
    ),
];

// The same of further ones.
const IPV6_FURTHER_BLOCKS: &[Row] = &[
    (
        "link local of IPv6, before",
        "fe7f:ffff:ffff:ffff:ffff:ffff:ffff:ffff",
        false,
    ),
    ("link local of IPv6, after", "fec0::", false),
    ("site local, first", "fec0::", false),
    (
        "site local, last",
        "feff:ffff:ffff:ffff:ffff:ffff:ffff:ffff",
        false,
    ),
    (
        "site local, before",
        "febf:ffff:ffff:ffff:ffff:ffff:ffff:ffff",
        false,
    ),
    ("site local, after", "ff00::", false),
    ("multicast of IPv6, first", "ff00::", false),
    (
        "multicast of IPv6, last",
        "ffff:ffff:ffff:ffff:ffff:ffff:ffff:ffff",
        false,
    ),
    (
        "multicast of IPv6, before",
        "feff:ffff:ffff:ffff:ffff:ffff:ffff:ffff",
        false,
    ),
    ("port control anycast of IPv6, first", "2001:1::1", true),
    ("port control anycast of IPv6, last", "2001:1::1", true),
    ("port control anycast of IPv6, before", "2001:1::", false),
    ("port control anycast of IPv6, after", "2001:1::2", true),
    ("TURN anycast of IPv6, first", "2001:1::2", true),
    ("TURN anycast of IPv6, last", "2001:1::2", true),
    ("TURN anycast of IPv6, before", "2001:1::1", true),
    ("TURN anycast of IPv6, after", "2001:1::3", true),
    ("DNS-SD anycast, first", "2001:1::3", true),
    ("DNS-SD anycast, last", "2001:1::3", true),
    ("DNS-SD anycast, before", "2001:1::2", true),
    ("DNS-SD anycast, after", "2001:1::4", false),
    ("AMT, first", "2001:3::", true),
    ("AMT, last", "2001:3:ffff:ffff:ffff:ffff:ffff:ffff", true),
    ("AMT, before", "2001:2:ffff:ffff:ffff:ffff:ffff:ffff", false),
    ("AMT, after", "2001:4::", false),
    ("AS112, first", "2001:4:112::", true),
    ("AS112, last", "2001:4:112:ffff:ffff:ffff:ffff:ffff", true),
    (
        "AS112, before",
        "2001:4:111:ffff:ffff:ffff:ffff:ffff",
        false,
    ),
    ("AS112, after", "2001:4:113::", false),
    ("ORCHIDv2, first", "2001:20::", true),
    (
        "ORCHIDv2, last",
        "2001:2f:ffff:ffff:ffff:ffff:ffff:ffff",
        true,
    ),
    (
        "ORCHIDv2, before",
        "2001:1f:ffff:ffff:ffff:ffff:ffff:ffff",
        false,
    ),
    ("ORCHIDv2, after", "2001:30::", true),
    ("drones, first", "2001:30::", true),
    (
        "drones, last",
        "2001:3f:ffff:ffff:ffff:ffff:ffff:ffff",
        true,
    ),
    (
        "drones, before",
        "2001:2f:ffff:ffff:ffff:ffff:ffff:ffff",
        true,
    ),
    ("drones, after", "2001:40::", false),
    ("this machine, mapped", "::ffff:7f00:1", false),
];

// Addresses of IPv6 that have one of IPv4 in them, and others.
const IPV6_WITH_IPV4: &[Row] = &[
    ("this machine, compatible", "::7f00:1", false),
    ("this machine, translated", "::ffff:0:7f00:1", false),
    ("this machine, NAT64", "64:ff9b::7f00:1", false),
    ("this machine, 6to4", "2002:7f00:1::1", false),
    ("this machine, Teredo", "2001:0:7f00:1::80ff:fffe", false),
    ("this machine, local NAT64", "64:ff9b:1::7f00:1", false),
    ("a private one, mapped", "::ffff:a00:1", false),
    ("a private one, compatible", "::a00:1", false),
    ("a private one, translated", "::ffff:0:a00:1", false),
    ("a private one, NAT64", "64:ff9b::a00:1", false),
    ("a private one, 6to4", "2002:a00:1::1", false),
    ("a private one, Teredo", "2001:0:a00:1::f5ff:fffe", false),
    ("a private one, local NAT64", "64:ff9b:1::a00:1", false),
    ("a cloud's, mapped", "::ffff:a9fe:a9fe", false),
    ("a cloud's, compatible", "::a9fe:a9fe", false),
    ("a cloud's, translated", "::ffff:0:a9fe:a9fe", false),
    ("a cloud's, NAT64", "64:ff9b::a9fe:a9fe", false),
    ("a cloud's, 6to4", "2002:a9fe:a9fe::1", false),
    ("a cloud's, Teredo", "2001:0:a9fe:a9fe::5601:5601", false),
    ("a cloud's, local NAT64", "64:ff9b:1::a9fe:a9fe", false),
    ("a public one, mapped", "::ffff:808:808", true),
    ("a public one, compatible", "::808:808", true),
    ("a public one, translated", "::ffff:0:808:808", true),
    ("a public one, NAT64", "64:ff9b::808:808", true),
    ("a public one, 6to4", "2002:808:808::1", true),
    ("a public one, Teredo", "2001:0:808:808::f7f7:f7f7", false),
    ("a public one, local NAT64", "64:ff9b:1::808:808", false),
    ("the last public one, mapped", "::ffff:dfff:ffff", true),
    ("the last public one, compatible", "::dfff:ffff", true),
    (
        "the last public one, translated",
        "::ffff:0:dfff:ffff",
        true,
    ),
    ("the last public one, NAT64", "64:ff9b::dfff:ffff", true),
    ("the last public one, 6to4", "2002:dfff:ffff::1", true),
    (
        "the last public one, Teredo",
        "2001:0:dfff:ffff::2000:0",
        false,
    ),
    (
        "the last public one, local NAT64",
        "64:ff9b:1::dfff:ffff",
        false,
    ),
    ("unspecified", "::", false),
    ("loopback of IPv6", "::1", false),
    ("a site of IPv6", "2606:4700::6810:84e5", true),
];

fn demand_all(rows: &[Row]) -> Result<(), Fail> {
    for (name, text, is_public) in rows {
        let Ok(address) = text.parse::<IpAddr>() else {
            return Err(Fail::new(name));
        };
        demand(Reach::PublicOnly.allows(&address) == *is_public, name)?;
        demand(Reach::Anywhere.allows(&address), name)?;
    }
    Ok(())
}

#[test]
fn ipv4_below_192(_rt: HostRuntime) -> Result<(), Fail> {
    demand_all(IPV4_BELOW_192)
}

#[test]
fn ipv4_from_192(_rt: HostRuntime) -> Result<(), Fail> {
    demand_all(IPV4_FROM_192)
}

#[test]
fn ipv6_blocks(_rt: HostRuntime) -> Result<(), Fail> {
    demand_all(IPV6_BLOCKS)
}

#[test]
fn ipv6_further_blocks(_rt: HostRuntime) -> Result<(), Fail> {
    demand_all(IPV6_FURTHER_BLOCKS)
}

#[test]
fn ipv6_with_ipv4(_rt: HostRuntime) -> Result<(), Fail> {
    demand_all(IPV6_WITH_IPV4)
}
