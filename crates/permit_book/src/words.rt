//! Words of 64 bits, read and written by bit number.
//! Used for the sets of free slots.
ghost use Rattle.std.specs.Prelude.{◌≡◌, ◌≢◌, ℕ, ◌/◌, ◌<◌, ◌≤◌, length, slice_index};
ghost use Rattle.permit_book.specs.Bits.{bit_of, KeepsEmpty, KeepsOthers, SetsBit, SumsUp};

/// Sets bit `i`. A word that has it is not written, so that other processors keep what they have of it.
pub fn set_bit(words: &mut [u64], i: u64)
    requires { i / 64 < length words.old }
    ensures bits { SetsBit words.old i 1 words.new }
    ensures others { KeepsOthers words.old (i / 64) words.new }
{
    let word = words[(i / 64) as usize];
    let with_bit = word | 1 << (i % 64);
    if with_bit != word {
        words[(i / 64) as usize] = with_bit;
    }
}

/// Clears bit `i`.
pub fn clear_bit(words: &mut [u64], i: u64)
    requires { i / 64 < length words.old }
    ensures bits { SetsBit words.old i 0 words.new }
    ensures others { KeepsOthers words.old (i / 64) words.new }
    ensures empty { KeepsEmpty words.old (i / 64) words.new }
{
    words[(i / 64) as usize] &= !(1 << (i % 64));
}

/// Clears the bit for the word of `lower` at this place, if that word is 0.
pub fn sum_up(upper: &mut [u64], lower: &[u64], place: u64)
    requires upper { place / 64 < length upper.old }
    requires lower { place < length lower.now }
    ensures bits { SumsUp upper.old lower.now place upper.new }
    ensures others { KeepsOthers upper.old (place / 64) upper.new }
    ensures empty { KeepsEmpty upper.old (place / 64) upper.new }
{
    if lower[place as usize] == 0 {
        clear_bit(upper, place);
    }
}

/// The lowest bit set in the word at this place, which is not 0.
pub fn lowest_in(words: &[u64], place: u64) -> u64
    requires few { length words.now ≤ 4096 }
    requires full { slice_index words.now place ≢ 0 }
    ensures word { result / 64 ≡ place }
    ensures set { bit_of words.now result ≡ 1 }
    ensures lowest { (j : ℕ) → j / 64 ≡ place → j < result → bit_of words.now j ≡ 0 }
{
    place * 64 + u64::from(words[place as usize].trailing_zeros())
}
