// Times and exponents in octets: read from a place, and written there.
ghost use Rattle.std.specs.Prelude.{◌≡◌, ◌+◌, ◌<◌, ◌≤◌, length};
ghost use Rattle.std.proofs.lemmas.List.Edits.{sets};
ghost use Rattle.octets.specs.Octets.{eight};
ghost use Rattle.ntp.specs.Octets.{signed_at, time_at};

use super::{Exponent, Timestamp};

pub fn time_at(s: &[u8], i: usize) -> Timestamp
    requires { i + 8 ≤ length s.now }
    ensures { result ≡ time_at s.now i }
{
    Timestamp(octets::eight_at(s, i))
}

pub fn signed_at(s: &[u8], i: usize) -> Exponent
    requires { i < length s.now }
    ensures { result ≡ signed_at s.now i }
{
    Exponent(s[i].cast_signed())
}

pub fn put_time(s: &mut [u8], i: usize, time: Timestamp)
    requires { i + 8 ≤ length s.old }
    ensures { s.new ≡ sets s.old i (eight time.0) }
{
    octets::put_eight(s, i, time.0);
}
