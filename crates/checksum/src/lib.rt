// The internet checksum, in two ways: four octets at a time, which all calls use, and the plain one.
#![tactic(auto)]

ghost use Rattle.std.specs.Prelude.{◌≡◌};
ghost use Rattle.checksum.specs.Checksum.{folded, checksum_good, checksum_of};

mod fours;
pub mod plain;

// A word of all ones: what a good sum folds to.
const ALL_ONES: u16 = 0xFFFF;

// The folded one's complement sum of all words: the second way, four octets at a time.
#[tactic(auto, using(crate::proofs::LowFirst::changed_over, crate::proofs::Folding::folded_sum, octets::proofs::Each::of_places))]
pub fn folded(s: &[u8]) -> u16
    ensures { result ≡ folded s.now }
{
    fours::swapped(fours::low_first(s))
}

// Whether the octets, their checksum among them, add up to a word of all ones.
#[tactic(auto, unfolding(crate::specs::Checksum::checksum_good))]
pub fn good(s: &[u8]) -> bool
    ensures { result ≡ checksum_good s.now }
{
    folded(s) == ALL_ONES
}

// The checksum to send with the octets.
#[tactic(auto, unfolding(crate::specs::Checksum::checksum_of))]
pub fn complement(s: &[u8]) -> u16
    ensures { result ≡ checksum_of s.now }
{
    ALL_ONES - folded(s)
}
