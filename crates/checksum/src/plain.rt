// The plain way: two octets at a time, each word added in one's complement, as the definition says it.
// It has its own `folded` and `complement`: the library exports both ways.
ghost use Rattle.std.specs.Prelude.{◌≡◌, ◌+◌, ◌*◌};
ghost use Rattle.checksum.specs.Checksum.{fold, folded, checksum_of};

use crate::ALL_ONES;

// The word of two octets, the high one first.
fn word(high: u8, low: u8) -> u16
    ensures { result ≡ high * 256 + low }
{
    high as u16 * 256 + low as u16
}

// Two words added in one's complement: the carry, if there is one, is added in.
#[tactic(auto, using(crate::proofs::Words::no_carry, crate::proofs::Words::with_carry))]
fn added(a: u16, b: u16) -> u16
    ensures { result ≡ fold a b }
{
    let (sum, carried) = a.overflowing_add(b);
    if carried {
        return sum + 1;
    }
    sum
}

// The folded one's complement sum of all words.
#[tactic(auto, using(crate::proofs::Words::even_end, crate::proofs::Folding::folded_sum, crate::proofs::Words::odd_end, octets::proofs::Each::of_places, crate::proofs::Words::turned))]
pub fn folded(s: &[u8]) -> u16
    ensures { result ≡ folded s.now }
{
    let mut sum: u16 = 0;
    let mut left = s;
    while let [high, low, rest @ ..] = left {
        sum = added(sum, word(*high, *low));
        left = rest;
    }
    match left {
        [] => sum,
        [high, ..] => added(sum, word(*high, 0)),
    }
}

// The checksum to send with the octets.
#[tactic(auto, unfolding(crate::specs::Checksum::checksum_of))]
pub fn complement(s: &[u8]) -> u16
    ensures { result ≡ checksum_of s.now }
{
    ALL_ONES - folded(s)
}
