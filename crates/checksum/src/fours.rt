// The second way: four octets at a time, two words with the low octet first; the octets of the sum change places at the end.
ghost use Rattle.std.specs.Prelude.{◌≡◌, ℕ, ◌+◌, ◌*◌, ◌%◌, ◌^◌, ◌<◌, ◌≤◌, length, slice_index};
ghost use Rattle.checksum.specs.code.EndAround.{end_around, low_sum, low_four, short_length, block_length};

use crate::ALL_ONES;

// Fewer octets than this are summed by a loop with little setup.
const SHORT: usize = 64;

// This many octets are summed within 32 bits.
const BLOCK: usize = 0x40000;

// The number of four octets, the low one first: two words, the first in the low half.
fn four(a: u8, b: u8, c: u8, d: u8) -> u32
    ensures { result ≡ low_four a b c d }
{
    u32::from_le_bytes([a, b, c, d])
}

// The number in four octets from a place on.
fn four_at(s: &[u8], i: usize) -> u32
    requires { i + 3 < length s.now }
    ensures { result ≡ low_four (slice_index s.now i) (slice_index s.now (i + 1)) (slice_index s.now (i + 2)) (slice_index s.now (i + 3)) }
{
    four(s[i], s[i + 1], s[i + 2], s[i + 3])
}

// A word of which the low octet comes first.
fn word(low: u8, high: u8) -> u64
    ensures value { result ≡ low + high * 256 }
    ensures upper_bound { result < 0x10000 }
{
    low as u64 + high as u64 * 0x100
}

// The sum of the words of fewer than four octets.
fn last(s: &[u8]) -> u64
    requires { length s.now < 4 }
    ensures value { result ≡ low_sum s.now }
    ensures upper_bound { result < 0x20000 }
{
    match s {
        [] => 0,
        [a] => word(*a, 0),
        [a, b] => word(*a, *b),
        [a, b, c, ..] => word(*a, *b) + word(*c, 0),
    }
}

// The same of fewer than eight octets, up to carries.
#[tactic(auto, using(crate::proofs::LowFirst::four_and_rest))]
fn few(s: &[u8]) -> u64
    requires { length s.now < 8 }
    ensures congruent { end_around result ≡ end_around (low_sum s.now) }
    ensures upper_bound { result < 2 ^ 33 }
{
    match s {
        [a, b, c, d, rest @ ..] => four(*a, *b, *c, *d) as u64 + last(rest),
        _ => last(s),
    }
}

// A number congruent to the sum of a few octets' words: eight octets at a time, then the rest.
#[tactic(auto, using(crate::proofs::LowFirst::two_fours, crate::proofs::LowFirst::after_turns))]
fn short(s: &[u8]) -> u64
    requires { length s.now < short_length }
    ensures { end_around result ≡ end_around (low_sum s.now) }
{
    let mut sum: u64 = 0;
    let mut left = s;
    while let [a, b, c, d, e, f, g, h, rest @ ..] = left {
        sum += four(*a, *b, *c, *d) as u64 + four(*e, *f, *g, *h) as u64;
        left = rest;
    }
    sum + few(left)
}

// The sum of numbers' high and low halves, from the sum of the high ones and that of the numbers, cut to 32 bits.
fn halves(high: u32, sum: u32) -> u64
    ensures by_index { (low : ℕ) → low < 2 ^ 32 → sum ≡ (high * 0x10000 + low) % 2 ^ 32 → result ≡ high + low }
    ensures upper_bound { result < 2 ^ 33 }
{
    let low = sum.wrapping_sub(high % 0x10000 * 0x10000);
    high as u64 + low as u64
}

// The sum of a block's words. The places are counted: over `chunks_exact`, or by a pattern, the loop is no vector code and takes seven times as long.
#[tactic(auto, using(crate::proofs::LowFirst::two_halves))]
fn total(s: &[u8]) -> u64
    requires { length s.now ≤ block_length }
    ensures { result ≡ low_sum s.now }
{
    let fours = s.len() / 4;
    let mut sum: u32 = 0;
    let mut high: u32 = 0;
    for k in 0..fours {
        let number = four_at(s, 4 * k);
        sum = sum.wrapping_add(number);
        high += number / 0x10000;
    }
    halves(high, sum) + last(&s[4 * fours..])
}

// A total with its carries added in.
#[tactic(auto, unfolding(crate::specs::code::EndAround::end_around))]
fn end_around(t: u64) -> u16
    ensures { result ≡ end_around t }
{
    if t == 0 {
        return 0;
    }
    ((t - 1) % ALL_ONES as u64 + 1) as u16
}

// The folded sum of many octets' words, the low octet first. More than a block is halved.
fn long(s: &[u8]) -> u16
    ensures { result ≡ end_around (low_sum s.now) }
{
    if s.len() <= BLOCK {
        return end_around(total(s));
    }
    let (first, second) = s.split_at(s.len() / 4 * 2);
    end_around(long(first) as u64 + long(second) as u64)
}

// The folded sum of the words, the low octet first.
pub fn low_first(s: &[u8]) -> u16
    ensures { result ≡ end_around (low_sum s.now) }
{
    if s.len() < SHORT {
        return end_around(short(s));
    }
    long(s)
}

// A word with its octets in each other's places: 256 times as much, with the carries added in.
#[tactic(auto, using(crate::proofs::LowFirst::swapped_word))]
pub fn swapped(w: u16) -> u16
    ensures { result ≡ end_around (w * 256) }
{
    w % 0x100 * 0x100 + w / 0x100
}
