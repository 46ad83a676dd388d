// The sorts of quantity that a host counts in. They are never added to each other unconverted.
// All signed arithmetic of the library is here.
#![tactic(auto)]

ghost use Rattle.std.specs.Prelude.{◌≡◌, ◌^◌, pos, nat_abs, ◌+ℤ◌, ◌-ℤ◌, ◌*ℤ◌, ◌≤ℤ◌, ◌<ℤ◌};
ghost use Rattle.std.specs.Int.{w64};
ghost use Rattle.std.proofs.Common.{SFits};
ghost use Rattle.quantity.specs.Quantity.{
  add_units,
  sub_units,
  div_units,
  millis,
  add_millis,
  sub_millis,
  half_millis,
  fall_seconds,
  units_per_milli,
  to_units,
  count_millis,
  whole_millis,
};
ghost use Rattle.quantity.specs.Words.{to_word, of_word, bits16, signed16, word};

use std::ops::{Add, Sub};

// Units and milliseconds are added and subtracted alike, each to its own: so each has operators of its own.

// Clock units: 65,536 of them are a millisecond.
#[repr(C)]
#[derive(Clone, Copy, PartialEq, Eq, PartialOrd, Ord)]
pub struct Units(pub i64);

// Milliseconds.
#[repr(C)]
#[derive(Clone, Copy, PartialEq, Eq, PartialOrd, Ord)]
pub struct Millis(pub i64);

// A count of milliseconds of 16 bits: what the 1000 Hz counter of a crystal clock shows.
#[repr(C)]
#[derive(Clone, Copy)]
pub struct Count(pub u16);

// Seconds.
#[repr(C)]
#[derive(Clone, Copy)]
pub struct Seconds(pub u16);

// A signed 16-bit word of milliseconds, as links, entries and packets hold it: TSP and OFFSET.
#[repr(C)]
#[derive(Clone, Copy, PartialEq, Eq)]
pub struct Word(pub i16);

impl Add for Units {
    type Output = Units;

    ghost can_add = { λ a b. SFits w64 (a.0 +ℤ b.0) };

    ghost add_gives = { λ a b r. r ≡ add_units a b };

    fn add(self, other: Units) -> Units {
        Units(self.0 + other.0)
    }
}

impl Sub for Units {
    type Output = Units;

    ghost can_sub = { λ a b. SFits w64 (a.0 -ℤ b.0) };

    ghost sub_gives = { λ a b r. r ≡ sub_units a b };

    fn sub(self, other: Units) -> Units {
        Units(self.0 - other.0)
    }
}

impl Add for Millis {
    type Output = Millis;

    ghost can_add = { λ a b. SFits w64 (a.0 +ℤ b.0) };

    ghost add_gives = { λ a b r. r ≡ add_millis a b };

    fn add(self, other: Millis) -> Millis {
        Millis(self.0 + other.0)
    }
}

impl Sub for Millis {
    type Output = Millis;

    ghost can_sub = { λ a b. SFits w64 (a.0 -ℤ b.0) };

    ghost sub_gives = { λ a b r. r ≡ sub_millis a b };

    fn sub(self, other: Millis) -> Millis {
        Millis(self.0 - other.0)
    }
}

impl Units {
    // A 128th, rounded down.
    pub fn share(self) -> Units
        ensures { result ≡ div_units self 128 }
    {
        Units(self.0 >> 7)
    }

    // The units of a number of milliseconds. Not a `From`: it asks that they fit.
    pub fn of_millis(m: Millis) -> Units
        requires { SFits w64 (m.0 *ℤ pos units_per_milli) }
        ensures { result ≡ to_units m }
    {
        Units(m.0 * 65536)
    }
}

impl Millis {
    // Half, rounded down.
    pub fn half(self) -> Millis
        ensures { result ≡ half_millis self }
    {
        Millis(self.0 >> 1)
    }

    // The whole milliseconds of a number of units, rounded down. Not a `From`: the rest is lost.
    pub fn whole(u: Units) -> Millis
        ensures { result ≡ whole_millis u }
    {
        Millis(u.0 >> 16)
    }

    // The count, unsigned, as a packet has it. Not a `TryFrom`: a caller whose time is in range has no failure to handle.
    pub fn unsigned(self) -> u32
        requires pos_bound { (pos 0) ≤ℤ self.0 }
        requires self_bound { self.0 <ℤ (pos (2 ^ 32)) }
        ensures { result ≡ nat_abs self.0 }
    {
        self.0 as u32
    }

    // The low 16 bits, as an unsigned number.
    pub fn bits(self) -> u16
        ensures { result ≡ bits16 self.0 }
    {
        (self.0.cast_unsigned() % 65536) as u16
    }
}

// A signed count of milliseconds.
impl From<i32> for Millis {
    ghost from_gives = { λ n m. m ≡ millis n };

    fn from(n: i32) -> Millis {
        Millis(i64::from(n))
    }
}

// An unsigned count of milliseconds, as a packet has it.
impl From<u32> for Millis {
    ghost from_gives = { λ n m. m ≡ millis (pos n) };

    fn from(n: u32) -> Millis {
        Millis(i64::from(n))
    }
}

// A counter's count.
impl From<Count> for Millis {
    ghost from_gives = { λ n m. m ≡ count_millis n };

    fn from(n: Count) -> Millis {
        Millis(i64::from(n.0))
    }
}

impl From<Word> for Millis {
    ghost from_gives = { λ w m. m ≡ of_word w };

    fn from(w: Word) -> Millis {
        Millis(i64::from(w.0))
    }
}

impl Seconds {
    // One less, unless zero.
    pub fn fall(self) -> Seconds
        ensures { result ≡ fall_seconds self }
    {
        Seconds(self.0.saturating_sub(1))
    }
}

impl Word {
    // The low 16 bits of a number of milliseconds, signed.
    pub fn of_millis(m: Millis) -> Word
        ensures { result ≡ to_word m }
    {
        Word::of_bits(m.bits())
    }

    // 16 bits, read as signed. Not a `From`: from 32,768 on the number is another.
    pub fn of_bits(n: u16) -> Word
        ensures { result ≡ word (signed16 n) }
    {
        Word(n.cast_signed())
    }

    // The 16 bits, as an unsigned number.
    pub fn bits(self) -> u16
        ensures { result ≡ bits16 self.0 }
    {
        self.0.cast_unsigned()
    }
}
