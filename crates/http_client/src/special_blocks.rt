//! Blocks of addresses that are not globally reachable, and those within them that are.
//! RFC 6890, section 2.2; their names in IANA's registries stand in `specs/Reach.antt`.
ghost use Rattle.std.specs.Prelude.{◌≡◌};
ghost use Rattle.http_client.specs.Reach.{inner_blocks, global_blocks};

use crate::address_block::AddressBlock;

/// Those whose addresses are not globally reachable, or not those of one host.
pub(crate) fn inner_blocks() -> &'static [AddressBlock]
    ensures { result.now ≡ inner_blocks }
{
    &INNER_BLOCKS
}

/// Those within them that the registries call globally reachable.
pub(crate) fn global_blocks() -> &'static [AddressBlock]
    ensures { result.now ≡ global_blocks }
{
    &GLOBAL_BLOCKS
}

// An address of IPv4 is written as the IPv4-mapped one of IPv6.

const INNER_BLOCKS: [AddressBlock; 27] = [
    // 0.0.0.0/8
    AddressBlock {
        first: 0xffff_0000_0000,
        spare: 24,
    },
    // 10.0.0.0/8
    AddressBlock {
        first: 0xffff_0a00_0000,
        spare: 24,
    },
    // 100.64.0.0/10
    AddressBlock {
        first: 0xffff_6440_0000,
        spare: 22,
    },
    // 127.0.0.0/8
    AddressBlock {
        first: 0xffff_7f00_0000,
        spare: 24,
    },
    // 169.254.0.0/16
    AddressBlock {
        first: 0xffff_a9fe_0000,
        spare: 16,
    },
    // 172.16.0.0/12
    AddressBlock {
        first: 0xffff_ac10_0000,
        spare: 20,
    },
    // 192.0.0.0/24
    AddressBlock {
        first: 0xffff_c000_0000,
        spare: 8,
    },
    // 192.0.2.0/24
    AddressBlock {
        first: 0xffff_c000_0200,
        spare: 8,
    },
    // 192.88.99.0/24
    AddressBlock {
        first: 0xffff_c058_6300,
        spare: 8,
    },
    // 192.168.0.0/16
    AddressBlock {
        first: 0xffff_c0a8_0000,
        spare: 16,
    },
    // 198.18.0.0/15
    AddressBlock {
        first: 0xffff_c612_0000,
        spare: 17,
    },
    // 198.51.100.0/24
    AddressBlock {
        first: 0xffff_c633_6400,
        spare: 8,
    },
    // 203.0.113.0/24
    AddressBlock {
        first: 0xffff_cb00_7100,
        spare: 8,
    },
    // 224.0.0.0/4
    AddressBlock {
        first: 0xffff_e000_0000,
        spare: 28,
    },
    // 240.0.0.0/4
    AddressBlock {
        first: 0xffff_f000_0000,
        spare: 28,
    },
    // 64:ff9b:1::/48
    AddressBlock {
        first: 0x0064_ff9b_0001_0000_0000_0000_0000_0000,
        spare: 80,
    },
    // 100::/64
    AddressBlock {
        first: 0x0100_0000_0000_0000_0000_0000_0000_0000,
        spare: 64,
    },
    // 100:0:0:1::/64
    AddressBlock {
        first: 0x0100_0000_0000_0001_0000_0000_0000_0000,
        spare: 64,
    },
    // 2001::/23
    AddressBlock {
        first: 0x2001_0000_0000_0000_0000_0000_0000_0000,
        spare: 105,
    },
    // 2001:db8::/32
    AddressBlock {
        first: 0x2001_0db8_0000_0000_0000_0000_0000_0000,
        spare: 96,
    },
    // 3fff::/20
    AddressBlock {
        first: 0x3fff_0000_0000_0000_0000_0000_0000_0000,
        spare: 108,
    },
    // 5f00::/16
    AddressBlock {
        first: 0x5f00_0000_0000_0000_0000_0000_0000_0000,
        spare: 112,
    },
    // fc00::/7
    AddressBlock {
        first: 0xfc00_0000_0000_0000_0000_0000_0000_0000,
        spare: 121,
    },
    // fe00::/9
    AddressBlock {
        first: 0xfe00_0000_0000_0000_0000_0000_0000_0000,
        spare: 119,
    },
    // fe80::/10
    AddressBlock {
        first: 0xfe80_0000_0000_0000_0000_0000_0000_0000,
        spare: 118,
    },
    // fec0::/10
    AddressBlock {
        first: 0xfec0_0000_0000_0000_0000_0000_0000_0000,
        spare: 118,
    },
    // ff00::/8
    AddressBlock {
        first: 0xff00_0000_0000_0000_0000_0000_0000_0000,
        spare: 120,
    },
];

const GLOBAL_BLOCKS: [AddressBlock; 9] = [
    // 192.0.0.9/32
    AddressBlock {
        first: 0xffff_c000_0009,
        spare: 0,
    },
    // 192.0.0.10/32
    AddressBlock {
        first: 0xffff_c000_000a,
        spare: 0,
    },
    // 2001:1::1/128
    AddressBlock {
        first: 0x2001_0001_0000_0000_0000_0000_0000_0001,
        spare: 0,
    },
    // 2001:1::2/128
    AddressBlock {
        first: 0x2001_0001_0000_0000_0000_0000_0000_0002,
        spare: 0,
    },
    // 2001:1::3/128
    AddressBlock {
        first: 0x2001_0001_0000_0000_0000_0000_0000_0003,
        spare: 0,
    },
    // 2001:3::/32
    AddressBlock {
        first: 0x2001_0003_0000_0000_0000_0000_0000_0000,
        spare: 96,
    },
    // 2001:4:112::/48
    AddressBlock {
        first: 0x2001_0004_0112_0000_0000_0000_0000_0000,
        spare: 80,
    },
    // 2001:20::/28
    AddressBlock {
        first: 0x2001_0020_0000_0000_0000_0000_0000_0000,
        spare: 100,
    },
    // 2001:30::/28
    AddressBlock {
        first: 0x2001_0030_0000_0000_0000_0000_0000_0000,
        spare: 100,
    },
];
