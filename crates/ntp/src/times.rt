// Times of 64 bits: their signed differences, and the offset and delay of an exchange.
ghost use Rattle.std.specs.Prelude.{◌≡◌, ◌+ℤ◌};
ghost use Rattle.std.specs.Int.Signed.{shr_z};
ghost use Rattle.ntp.specs.Times.{interval, since, later, offset, delay};

use super::{Interval, Timestamp};

// The difference of two times modulo 2^64, signed.
fn since(later: Timestamp, earlier: Timestamp) -> i64
    ensures { result ≡ since later earlier }
{
    later.0.wrapping_sub(earlier.0).cast_signed()
}

// Whether a time is later than another.
pub fn later(a: Timestamp, b: Timestamp) -> bool
    ensures { result ≡ later a b }
{
    0 < since(a, b)
}

// Half of the full sum of two numbers, rounded down: half of each, and the lowest bit that both have.
#[tactic(auto, using(crate::proofs::Words::mean_is))]
fn mean(a: i64, b: i64) -> i64
    ensures { result ≡ shr_z (a +ℤ b) 2 }
{
    (a >> 1) + (b >> 1) + (a & b & 1)
}

// The offset of an exchange: ((T2 - T1) + (T3 - T4)) / 2. The four times are apart, as in the formulas of crate exchange.
pub fn offset(
    origin: Timestamp,
    receive: Timestamp,
    transmit: Timestamp,
    destination: Timestamp,
) -> Interval
    ensures { result ≡ offset origin receive transmit destination }
{
    Interval(mean(since(receive, origin), since(transmit, destination)))
}

// The delay of an exchange: (T4 - T1) - (T3 - T2).
pub fn delay(
    origin: Timestamp,
    receive: Timestamp,
    transmit: Timestamp,
    destination: Timestamp,
) -> Interval
    ensures { result ≡ delay origin receive transmit destination }
{
    let away = since(destination, origin);
    let held = since(transmit, receive);
    Interval(away.wrapping_sub(held))
}
