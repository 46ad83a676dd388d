// The search for packets.
ghost use Rattle.std.specs.Prelude.{◌≡◌, false, ◌+◌, ◌≤◌, ◌<◌, min, length, drop};
ghost use Rattle.wire.specs.Octets.{octet_at};
ghost use Rattle.wire.specs.Ip.{version_place, version_and_length};
ghost use Rattle.capture.specs.Search.{hit};
ghost use Rattle.capture.specs.code.Next.{length_found, NoneBetween, IsNext};

use super::Hit;

// The octets of a packet without hosts: no packet is shorter.
const SHORTEST: usize = 32;

// The first octet of an IP header.
const VERSION_AND_LENGTH: u8 = 0x45;

const HELLO: u8 = 63;

// The octets of an IP header.
const HEADER: usize = 20;

// The places of the fields that distinguish most packets from other octets cheaply.
pub const TOTAL: usize = 2;

const FRAGMENT: usize = 6;

const PROTOCOL: usize = 9;

const NHOSTS: usize = 31;

// How many places are tested at a time.
const LANES: usize = 32;

// The length of the packet with which the octets begin, if there is one. The tests that cost little come first.
#[tactic(auto, using(crate::proofs::Hits::Shows, crate::proofs::Steps::as_found, crate::proofs::Steps::found_nothing, crate::proofs::Hits::hit_none, crate::proofs::Hits::shown_hit))]
fn hit(octets: &[u8]) -> Option<usize>
    requires { octet_at octets.now version_place ≡ version_and_length }
    ensures { result ≡ length_found (hit octets.now) }
{
    if octets.len() < SHORTEST {
        return None;
    }
    if octets[PROTOCOL] != HELLO {
        return None;
    }
    if octets::two_at(octets, FRAGMENT) % 0x4000 != 0 {
        return None;
    }
    let total = octets::two_at(octets, TOTAL) as usize;
    if octets.len() < total {
        return None;
    }
    if total != wire::length(octets[NHOSTS]) {
        return None;
    }
    if !checksum::good(&octets[..HEADER]) {
        return None;
    }
    if !checksum::good(&octets[HEADER..total]) {
        return None;
    }
    Some(total)
}

// The length of the packet at a place, if there is one.
#[tactic(auto, using(crate::proofs::Steps::found_nothing, crate::proofs::Hits::hit_none, crate::proofs::Steps::version_at))]
fn hit_at(input: &[u8], at: usize) -> Option<usize>
    requires { at < length input.now }
    ensures { result ≡ length_found (hit (drop at input.now)) }
{
    if input[at] != VERSION_AND_LENGTH {
        return None;
    }
    hit(&input[at..])
}

// Can a packet begin at one of the 32 places from a place on? Only if its first octet and its protocol are right. The loop becomes vector code.
#[tactic(auto, using(crate::proofs::Steps::at_neither, lists::proofs::Tests::neither))]
fn any_may(input: &[u8], at: usize) -> bool
    requires { at + 41 ≤ length input.now }
    ensures { result ≡ false → NoneBetween input.now at (at + 32) }
{
    let mut any = false;
    for i in 0..LANES {
        any = any | ((input[at + i] == VERSION_AND_LENGTH) & (input[at + i + PROTOCOL] == HELLO));
    }
    any
}

// Passes over places at which no packet begins, 32 at a time. The place after the last step is what a caller needs, so the loop counts it.
fn leap(input: &[u8], from: usize) -> usize
    requires { from ≤ length input.now }
    ensures { NoneBetween input.now from result }
{
    let mut at = from;
    while at + LANES + PROTOCOL <= input.len() {
        if any_may(input, at) {
            return at;
        }
        at += LANES;
    }
    at
}

// The end of n places from a place on, or of the input.
fn end_of(input: &[u8], at: usize, n: usize) -> usize
    requires { at ≤ length input.now }
    ensures { result ≡ min (at + n) (length input.now) }
{
    if input.len() - at < n {
        return input.len();
    }
    at + n
}

// The next hit from a place on, if there is one. One packet often follows another, so this place is tested alone first.
pub fn next(input: &[u8], from: usize) -> Option<Hit>
    requires { from ≤ length input.now }
    ensures { IsNext input.now from result }
{
    let mut start = from;
    let mut end = end_of(input, from, 1);
    loop {
        for at in start..end {
            if let Some(size) = hit_at(input, at) {
                return Some(Hit { at, size });
            }
        }
        if end == input.len() {
            return None;
        }
        start = leap(input, end);
        end = end_of(input, start, LANES);
    }
}
