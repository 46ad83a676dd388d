// Numbers in octets, the high octet first: read from a place, and written there.
#![tactic(auto)]

ghost use Rattle.std.specs.Prelude.{◌≡◌, ◌++◌, ◌+◌, ◌*◌, ◌≤◌, ◌<◌, length, set};
ghost use Rattle.std.proofs.lemmas.List.Edits.{sets};
ghost use Rattle.octets.specs.Octets.{two, four, eight, octet_at, two_at, four_at, eight_at};
ghost use Rattle.octets.specs.ReadBack.{ReadBack, WrittenBack};

// ---- read

pub fn octet_at(s: &[u8], i: usize) -> usize
    requires { i < length s.now }
    ensures { result ≡ octet_at s.now i }
{
    usize::from(s[i])
}

// A function for each width: the number's type and the length of its octets change together, and std has them for each type.
pub fn two_at(s: &[u8], i: usize) -> u16
    requires { i + 2 ≤ length s.now }
    ensures { result ≡ two_at s.now i }
{
    u16::from_be_bytes([s[i], s[i + 1]])
}

pub fn four_at(s: &[u8], i: usize) -> u32
    requires { i + 4 ≤ length s.now }
    ensures { result ≡ four_at s.now i }
{
    u32::from_be_bytes([s[i], s[i + 1], s[i + 2], s[i + 3]])
}

pub fn eight_at(s: &[u8], i: usize) -> u64
    requires { i + 8 ≤ length s.now }
    ensures { result ≡ eight_at s.now i }
{
    let high = four_at(s, i);
    let low = four_at(s, i + 4);
    u64::from(high) * 0x100000000 + u64::from(low)
}

// ---- written

fn put(s: &mut [u8], i: usize, octets: &[u8])
    requires { i + length octets.now ≤ length s.old }
    ensures { s.new ≡ sets s.old i octets.now }
{
    s[i..i + octets.len()].copy_from_slice(octets);
}

pub fn put_octet(s: &mut [u8], i: usize, n: u8)
    requires { i < length s.old }
    ensures { s.new ≡ set s.old i n }
{
    s[i] = n;
}

#[tactic(auto, using(crate::proofs::Widths::be_bytes))]
pub fn put_two(s: &mut [u8], i: usize, n: u16)
    requires { i + 2 ≤ length s.old }
    ensures { s.new ≡ sets s.old i (two n) }
{
    put(s, i, &u16::to_be_bytes(n));
}

#[tactic(auto, using(crate::proofs::Widths::be_bytes))]
pub fn put_four(s: &mut [u8], i: usize, n: u32)
    requires { i + 4 ≤ length s.old }
    ensures { s.new ≡ sets s.old i (four n) }
{
    put(s, i, &u32::to_be_bytes(n));
}

#[tactic(auto, using(crate::proofs::Widths::be_bytes))]
pub fn put_eight(s: &mut [u8], i: usize, n: u64)
    requires { i + 8 ≤ length s.old }
    ensures { s.new ≡ sets s.old i (eight n) }
{
    put(s, i, &u64::to_be_bytes(n));
}

// Two adjacent words as one number of four octets: the processor stores them at once, so a sum that reads four octets at a time does not stall.
pub fn put_words(s: &mut [u8], i: usize, first: u16, second: u16)
    requires { i + 4 ≤ length s.old }
    ensures { s.new ≡ sets s.old i (two first ++ two second) }
{
    put_four(s, i, first as u32 * 0x10000 + second as u32);
}

// ---- theorems

// For every width: a number that fits is read back from its octets.
#[tactic(auto, using(crate::proofs::Widths::read_back))]
pub fn read_back()
    ensures { ReadBack }
{}

// For every width: octets that are read as a number are that number's octets.
#[tactic(auto, using(crate::proofs::Widths::written_back))]
pub fn written_back()
    ensures { WrittenBack }
{}
