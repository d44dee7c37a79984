//! The slots at which literals are kept.
//! Nothing but speed depends on them.
ghost use Rattle.std.specs.Prelude.{◌+◌, ◌<◌, ◌≤◌, length};

/// The most literals kept of a path that many patterns are tried on.
pub(crate) const KEPT: usize = 8_192;

/// The most first octets of longer literals kept of it.
pub(crate) const FIRSTS: usize = 8_192;

// After this many literals that took the slot of another, the slots are drawn anew: literals with equal
// slots mostly differ then.
const PUSHED: u32 = 16_384;

/// How the slots of literals are drawn.
#[derive(Clone, Copy)]
pub struct SlotDraw {
    // Each number gives other slots.
    pub(crate) seed: u64,
    // Literals that took the slot of another since.
    pushed: u32,
}

/// The first draw.
pub(crate) const FIRST_SLOTS: SlotDraw = SlotDraw {
    seed: ODD,
    pushed: 0,
};

/// Counts a literal that took the slot of another, and draws anew after enough.
pub(crate) fn count_pushed(draw: &mut SlotDraw) {
    draw.pushed = draw.pushed.wrapping_add(1);
    if draw.pushed >= PUSHED {
        draw.pushed = 0;
        draw.seed = draw.seed.wrapping_add(ODD);
    }
}

/// The two slots of a literal, by the highest bits of its hash, which depend on all octets of short literals.
pub(crate) fn slots_of(literal: &[u8], seed: u64) -> (usize, usize) {
    let number = (hash_of(literal, seed) >> 32) as usize;
    (number % KEPT, number / KEPT % KEPT)
}

const ODD: u64 = 0x9E37_79B9_7F4A_7C15;

/// The two slots of a longer literal's first octets, behind those of literals.
pub(crate) fn slots_of_first(first: &[u8], seed: u64) -> (usize, usize) {
    let (one, other) = slots_of(first, seed);
    (KEPT + one % FIRSTS, KEPT + other % FIRSTS)
}

// A hash of the literal's first octets, middle octets, last octets and length. Literals with equal hashes
// have different ones with another seed, unless they are equal in these.
fn hash_of(literal: &[u8], seed: u64) -> u64 {
    let count = literal.len();
    if count < 4 {
        return mixed(seed ^ short_hash(literal));
    }
    let last = count - 4;
    let ends = four_at(literal, 0) << 32 | four_at(literal, last);
    let hash = mixed(seed.wrapping_add((count as u64).wrapping_mul(ODD)) ^ ends);
    if count <= 8 {
        return hash;
    }
    mixed(hash ^ (four_at(literal, 4) << 32 | four_at(literal, last / 2)))
}

// All octets, at most three, and their count.
fn short_hash(literal: &[u8]) -> u64
    requires { length literal.now < 4 }
{
    match literal {
        [] => 0,
        [first, .., last] => {
            u64::from(*first) << 24
                | u64::from(literal[literal.len() / 2]) << 16
                | u64::from(*last) << 8
                | literal.len() as u64
        }
        [octet] => u64::from(*octet) << 24 | 1,
    }
}

// Four octets from here on as a number.
fn four_at(literal: &[u8], start: usize) -> u64
    requires { start + 4 ≤ length literal.now }
{
    u64::from(u32::from_le_bytes([
        literal[start],
        literal[start + 1],
        literal[start + 2],
        literal[start + 3],
    ]))
}

// A number all of whose bits depend on all bits before.
fn mixed(number: u64) -> u64 {
    let product = (number ^ (number >> 32)).wrapping_mul(ODD);
    (product ^ (product >> 29)).wrapping_mul(ODD)
}
