//! Blocks of addresses.
//! RFC 4632, section 3.1; RFC 4291, sections 2.3 and 2.5.5.
ghost use Rattle.std.specs.Prelude.{◌≡◌, ◌<◌, ◌%◌, ◌^◌, ◌≤◌, ◌↔◌, ℕ, IsTrue, MatchOption};
ghost use Rattle.std.specs.Net.Grammar.{IsNumber};
ghost use Rattle.http_client.specs.Blocks.{IsBlock, IsBlockText, ends_in_ipv4, first_bits, has, holds, is_6to4, judged, mapped, number_of};
ghost use Rattle.http_client.specs.declared.address_block.AddressBlock.{AddressBlock};

use std::net::IpAddr;

/// The octet of a sign that `parse` of std reads, and this one doesn't.
const PLUS: u8 = b'+';

/// The addresses that begin with the same bits. One of IPv4 holds the addresses of IPv6 too that have an
/// address of it in them: IPv4-mapped and IPv4-compatible ones, translated ones (NAT64 by the prefix
/// `64:ff9b::/96`, SIIT), and those of 6to4.
#[derive(Clone, Copy, Debug, PartialEq, Eq)]
pub struct AddressBlock {
    // Its first address; of IPv4 the IPv4-mapped one.
    pub(crate) first: u128,
    // How many bits follow those that its addresses share.
    pub(crate) spare: u8,
}

impl AddressBlock {
    /// Reads `ADDRESS/BITS`: an address and how many of its first bits count, at most 32 or 128. Its other
    /// bits must be 0.
    pub fn parse(text: &str) -> Option<AddressBlock>
        ensures { MatchOption result
            ((block : AddressBlock) → ¬ (IsBlockText text.now block)) (IsBlockText text.now) }
    {
        let (address, digits) = text.split_once('/')?;
        let address = address.parse().ok()?;
        AddressBlock::of(address, number_in(digits)?)
    }

    // The addresses that begin with so many bits of this one.
    fn of(address: IpAddr, bits: u8) -> Option<AddressBlock>
        ensures { MatchOption result
            ((block : AddressBlock) → ¬ (IsBlock address bits block)) (IsBlock address bits) }
    {
        let width: u8 = if address.is_ipv4() { 32 } else { 128 };
        let spare = width.checked_sub(bits)?;
        let first = number_of(&address);
        if is_clear(first, spare) {
            Some(AddressBlock { first, spare })
        } else {
            None
        }
    }

    /// Whether it holds an address, or the one of IPv4 that this has in it.
    pub fn holds(&self, address: &IpAddr) -> bool
        ensures { result ≡ holds address.now self.now }
    {
        let number = number_of(address);
        self.has(number) || self.has(judged(number))
    }

    fn has(&self, number: u128) -> bool
        ensures { result ≡ has self.now number }
    {
        first_bits(self.spare, number) == first_bits(self.spare, self.first)
    }
}

fn first_bits(spare: u8, number: u128) -> u128
    ensures { result ≡ first_bits spare number }
{
    number.checked_shr(spare as u32).unwrap_or(0)
}

// Whether the last bits are 0.
fn is_clear(number: u128, spare: u8) -> bool
    requires { spare ≤ 128 }
    ensures { IsTrue result ↔ (number % 2 ^ spare ≡ 0) }
{
    match 1u128.checked_shl(spare as u32) {
        Some(size) => number % size == 0,
        None => number == 0,
    }
}

// Digits alone, below 256.
fn number_in(digits: &str) -> Option<u8>
    ensures { MatchOption result ((number : ℕ) → number < 256 → ¬ (IsNumber 10 digits.now number))
        (IsNumber 10 digits.now) }
{
    if digits.as_bytes().first() == Some(&PLUS) {
        return None;
    }
    digits.parse().ok()
}

// An address as a number; of IPv4, that of the IPv4-mapped one.
fn number_of(address: &IpAddr) -> u128
    ensures { result ≡ number_of address.now }
{
    match address {
        IpAddr::V4(address) => mapped(address.to_bits()),
        IpAddr::V6(address) => address.to_bits(),
    }
}

fn mapped(bits: u32) -> u128
    ensures { result ≡ mapped bits }
{
    0xffff_0000_0000 + bits as u128
}

// The number of the IPv4 address in it, or its own.
fn judged(number: u128) -> u128
    ensures { result ≡ judged number }
{
    if ends_in_ipv4(number) {
        mapped(low_bits(number))
    } else if is_6to4(number) {
        mapped(low_bits(number >> 80))
    } else {
        number
    }
}

fn low_bits(number: u128) -> u32
    ensures { result ≡ number % 2 ^ 32 }
{
    (number % 0x1_0000_0000) as u32
}

// ::/96, ::ffff:0:0:0/96 and 64:ff9b::/96.
fn ends_in_ipv4(number: u128) -> bool
    ensures { result ≡ ends_in_ipv4 number }
{
    matches!(
        number >> 32,
        0 | 0xffff_0000 | 0x0064_ff9b_0000_0000_0000_0000
    )
}

fn is_6to4(number: u128) -> bool
    ensures { result ≡ is_6to4 number }
{
    number >> 112 == 0x2002
}
