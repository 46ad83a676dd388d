// A host's clock.
#![tactic(auto)]

ghost use Rattle.std.specs.Prelude.{◌≡◌, true, false, pos};
ghost use Rattle.std.specs.Int.{w32};
ghost use Rattle.std.proofs.Common.{SFits};
ghost use Rattle.quantity.specs.Quantity.{units, millis, less_millis, to_units};
ghost use Rattle.clock.specs.Midnight.{
  day_millis,
  day,
  plus_count,
  exceeds_day,
  day_on,
  below_zero,
  day_back,
  days_on,
  days_back,
  midnight,
  Whiles,
  Rests,
};
ghost use Rattle.clock.specs.Clock.{
  fresh_clock,
  tick,
  adjust,
  slew_least,
  slew_most,
  slews,
  set_by,
  count_used,
  overflowed,
  reading,
  hold_second,
  clock_least,
  within,
  tick_in_range,
  clock_in_range,
};
ghost use Rattle.clock.specs.Crystal.{Crystal};
ghost use Rattle.clock.specs.LineClock.{no_counter, LineClock};
ghost use Rattle.clock.specs.Slew.{OneMilli};
ghost use Rattle.clock.specs.code.Near.{Near};

use calendar::Date;
use quantity::{Count, Millis, Seconds, Units};

// CLOCK-1: the clock of a host. C programs lay it out and may write its fields, as they do the settings with CLOCK-TICK: so the ranges of both are no invariants of the types. A call tests them once, and the functions below ask for them.
#[repr(C)]
#[derive(Clone, Copy)]
pub struct Clock {
    pub clock: Units,
    pub delta: Units,
    pub hold: Seconds,
    pub date: Date,
}

// A clock whose CLOCK is so near its day that no sum of the midnight rule overflows, and whose DATE is a day of the calendar.
#[derive(Clone, Copy)]
struct NearClock {
    clock: Clock,
    ghost near: { Near clock },
}

// What a reading is handed: the count of the crystal's counter, a mark (not 0) where the counter has overflowed since the last tick, and the count taken again after that. A line clock's are zero.
#[repr(C)]
#[derive(Clone, Copy)]
pub struct Counter {
    pub count: Count,
    pub overflow: u8,
    pub again: Count,
}

// What a reading yields: the clock to carry on with, and the time.
#[derive(Clone, Copy)]
pub struct Reading {
    pub clock: Clock,
    pub time: Millis,
}

// The milliseconds of a day.
pub const DAY: Millis = Millis(86_400_000);

// The least CLOCK: a count may bring it up to 0.
const CLOCK_LEAST: Millis = Millis(-65_535);

const TICK_MOST: Millis = Millis(65_536);

// A set by this much, from the least to the most, is a slew; any other is a step.
const SLEW_LEAST: Millis = Millis(-128);

const SLEW_MOST: Millis = Millis(127);

// The units of a day.
fn day() -> Units
    ensures { result ≡ day }
{
    Units::of_millis(DAY)
}

// Whether u lies from the least to the most.
fn within(least: Units, most: Units, u: Units) -> bool
    ensures { result ≡ within least most u }
{
    least <= u && u <= most
}

// Whether a CLOCK lies within its day, or as far below as a count may reach.
fn in_day(clock: Units) -> bool
    ensures { result ≡ within (to_units clock_least) day clock }
{
    within(Units::of_millis(CLOCK_LEAST), day(), clock)
}

// Whether a DELTA lies within the limits of a slew.
fn in_slew(delta: Units) -> bool
    ensures { result ≡ within (to_units slew_least) (to_units slew_most) delta }
{
    within(
        Units::of_millis(SLEW_LEAST),
        Units::of_millis(SLEW_MOST),
        delta,
    )
}

// Whether a CLOCK-TICK may be set.
#[tactic(auto, unfolding(crate::specs::Clock::tick_in_range))]
pub fn tick_in_range(clock_tick: Units) -> bool
    ensures { result ≡ tick_in_range clock_tick }
{
    within(Units(1), Units::of_millis(TICK_MOST), clock_tick)
}

// Whether a set by this many milliseconds is a slew.
fn slews(ms: Millis) -> bool
    ensures { result ≡ slews ms }
{
    SLEW_LEAST <= ms && ms <= SLEW_MOST
}

impl Counter {
    // That of a line clock.
    pub fn zero() -> Counter
        ensures { result ≡ no_counter }
    {
        Counter {
            count: Count(0),
            overflow: 0,
            again: Count(0),
        }
    }

    // The count that counts: the second one where the counter has overflowed.
    pub fn used(self) -> Count
        ensures { result ≡ count_used self }
    {
        if self.overflow != 0 {
            return self.again;
        }
        self.count
    }
}

impl Clock {
    // A clock at its starting time and date. A master's date is awaited.
    #[tactic(auto, unfolding(crate::specs::Clock::fresh_clock))]
    pub fn fresh(time: Millis, date: Date) -> Clock
        requires pos_value { less_millis time (millis (pos 0)) ≡ false }
        requires day_millis_value { less_millis time day_millis ≡ true }
        ensures { result ≡ fresh_clock time date }
    {
        Clock {
            clock: Units::of_millis(time),
            delta: Units(0),
            hold: Seconds(0),
            date: date.awaiting(),
        }
    }

    // Whether CLOCK, DELTA, HOLD and DATE are in their ranges.
    #[tactic(auto, unfolding(crate::specs::Clock::clock_in_range))]
    pub fn in_range(self) -> bool
        ensures { result ≡ clock_in_range self }
    {
        in_day(self.clock) && in_slew(self.delta) && self.hold.0 <= 255 && self.date.is_real()
    }

    // The clock a tick later.
    pub fn ticked(self, clock_tick: Units, hold_interval: Seconds, n: Count) -> Clock
        requires self_value { clock_in_range self ≡ true }
        requires clock_tick_value { tick_in_range clock_tick ≡ true }
        ensures { result ≡ tick clock_tick hold_interval n self }
    {
        let moved = Clock {
            clock: self.clock + clock_tick,
            ..self
        };
        NearClock { clock: moved }.midnight(hold_interval, n).clock
    }

    // The clock with a share of DELTA moved into CLOCK.
    pub fn adjusted(self, hold_interval: Seconds, n: Count) -> Clock
        requires { clock_in_range self ≡ true }
        ensures { result ≡ adjust hold_interval n self }
    {
        let share = self.delta.share();
        let moved = Clock {
            clock: self.clock + share,
            delta: self.delta - share,
            ..self
        };
        NearClock { clock: moved }.midnight(hold_interval, n).clock
    }

    // The clock set by a count of milliseconds, by a slew or by a step.
    pub fn set_by(self, hold_interval: Seconds, n: Count, ms: Millis) -> Clock
        requires self_value { clock_in_range self ≡ true }
        requires sfits { SFits w32 ms.0 }
        ensures { result ≡ set_by hold_interval n ms self }
    {
        let moved = Units::of_millis(ms);
        let c = if slews(ms) {
            Clock {
                delta: moved,
                ..self
            }
        } else {
            Clock {
                clock: self.clock + moved,
                delta: Units(0),
                hold: hold_interval,
                ..self
            }
        };
        NearClock { clock: c }.midnight(hold_interval, n).clock
    }

    // The clock with the tick of a counter that has overflowed.
    #[tactic(auto, using(crate::proofs::Bounds::in_range_near, crate::proofs::Bounds::nearby, crate::proofs::Bounds::off_fits, crate::proofs::Bounds::range_says, crate::proofs::Bounds::ticked_off))]
    fn overflowed(self, clock_tick: Units, k: Counter) -> NearClock
        requires self_value { clock_in_range self ≡ true }
        requires clock_tick_value { tick_in_range clock_tick ≡ true }
        ensures { result.clock ≡ overflowed clock_tick k self }
    {
        if k.overflow == 0 {
            return NearClock { clock: self };
        }
        NearClock {
            clock: Clock {
                clock: self.clock + clock_tick,
                ..self
            },
        }
    }

    // The whole milliseconds of CLOCK plus the count, and the clock to carry on with.
    #[tactic(auto, unfolding(crate::specs::Clock::reading))]
    pub fn reading(self, clock_tick: Units, hold_interval: Seconds, k: Counter) -> Reading
        requires self_value { clock_in_range self ≡ true }
        requires clock_tick_value { tick_in_range clock_tick ≡ true }
        ensures { result ≡ reading clock_tick hold_interval k self }
    {
        let n = k.used();
        let c = self.overflowed(clock_tick, k).midnight(hold_interval, n);
        Reading {
            clock: c.clock,
            time: Millis::whole(c.plus_count(n)),
        }
    }

    // The clock a second later: HOLD falls.
    #[tactic(auto, unfolding(crate::specs::Clock::hold_second))]
    pub fn second(self) -> Clock
        ensures { result ≡ hold_second self }
    {
        Clock {
            hold: self.hold.fall(),
            ..self
        }
    }
}

impl NearClock {
    // CLOCK plus the count.
    fn plus_count(self, n: Count) -> Units
        ensures { result ≡ plus_count n self.clock }
    {
        self.clock.clock + Units::of_millis(Millis::from(n))
    }

    fn exceeds_day(self, n: Count) -> bool
        ensures { result ≡ exceeds_day n self.clock }
    {
        day() < self.plus_count(n)
    }

    fn below_zero(self, n: Count) -> bool
        ensures { result ≡ below_zero n self.clock }
    {
        self.plus_count(n) < Units(0)
    }

    // A day off CLOCK, DATE on a day, HOLD loaded.
    #[tactic(auto, unfolding(crate::specs::Midnight::day_on))]
    fn day_on(self, hold_interval: Seconds) -> Clock
        ensures { result ≡ day_on hold_interval self.clock }
    {
        Clock {
            clock: self.clock.clock - day(),
            hold: hold_interval,
            date: self.clock.date.next().awaiting(),
            ..self.clock
        }
    }

    // A day added to CLOCK, DATE back a day, HOLD loaded.
    #[tactic(auto, unfolding(crate::specs::Midnight::day_back))]
    fn day_back(self, hold_interval: Seconds) -> Clock
        ensures { result ≡ day_back hold_interval self.clock }
    {
        Clock {
            clock: self.clock.clock + day(),
            hold: hold_interval,
            date: self.clock.date.previous().awaiting(),
            ..self.clock
        }
    }

    fn days_on(self, hold_interval: Seconds, n: Count) -> NearClock
        ensures { result.clock ≡ days_on hold_interval n self.clock }
    {
        let mut c = self;
        while c.exceeds_day(n) {
            c.clock = c.day_on(hold_interval);
        }
        c
    }

    // As `days_on`, with another test and another turn. Each keeps CLOCK near for a reason of its own, so one function over two closures would need both as clauses.
    fn days_back(self, hold_interval: Seconds, n: Count) -> NearClock
        ensures { result.clock ≡ days_back hold_interval n self.clock }
    {
        let mut c = self;
        while c.below_zero(n) {
            c.clock = c.day_back(hold_interval);
        }
        c
    }

    // The midnights that were passed.
    #[tactic(auto, unfolding(crate::specs::Midnight::midnight))]
    fn past_midnight(self, hold_interval: Seconds, n: Count) -> NearClock
        ensures { result.clock ≡ midnight hold_interval n self.clock }
    {
        self.days_on(hold_interval, n).days_back(hold_interval, n)
    }

    // The clock, made anew of its fields. What a call hands back lies in memory, where a clock of the usual case must then go too; one that is so made need not.
    fn by_fields(self) -> NearClock
        ensures { result.clock ≡ self.clock }
    {
        let clock = self.clock.clock;
        let delta = self.clock.delta;
        let hold = self.clock.hold;
        let date = self.clock.date;
        NearClock {
            clock: Clock {
                clock,
                delta,
                hold,
                date,
            },
        }
    }

    // The clock so that CLOCK plus the count lies within its day: each midnight passed moves DATE and loads HOLD. The usual case, none, is quick: the two calls are apart, so that it alone is compiled into the callers.
    fn midnight(self, hold_interval: Seconds, n: Count) -> NearClock
        ensures { result.clock ≡ midnight hold_interval n self.clock }
    {
        if self.exceeds_day(n) {
            let c = self;
            return c.past_midnight(hold_interval, n).by_fields();
        }
        if self.below_zero(n) {
            let c = self;
            return c.past_midnight(hold_interval, n).by_fields();
        }
        self
    }
}

// The same in place, on a borrowed clock.

// The clock ticks.
pub fn tick(c: &mut Clock, clock_tick: Units, hold_interval: Seconds, n: Count)
    requires c_value { clock_in_range c.old ≡ true }
    requires clock_tick_value { tick_in_range clock_tick ≡ true }
    ensures { c.new ≡ tick clock_tick hold_interval n c.old }
{
    *c = c.ticked(clock_tick, hold_interval, n);
}

// A share of DELTA goes into CLOCK.
pub fn adjust(c: &mut Clock, hold_interval: Seconds, n: Count)
    requires { clock_in_range c.old ≡ true }
    ensures { c.new ≡ adjust hold_interval n c.old }
{
    *c = c.adjusted(hold_interval, n);
}

// The clock is set by a count of milliseconds.
pub fn set(c: &mut Clock, hold_interval: Seconds, n: Count, ms: Millis)
    requires c_value { clock_in_range c.old ≡ true }
    requires sfits { SFits w32 ms.0 }
    ensures { c.new ≡ set_by hold_interval n ms c.old }
{
    *c = c.set_by(hold_interval, n, ms);
}

// The whole milliseconds of CLOCK plus the count. A reading may move the clock.
pub fn read(c: &mut Clock, clock_tick: Units, hold_interval: Seconds, k: Counter) -> Millis
    requires c_value { clock_in_range c.old ≡ true }
    requires clock_tick_value { tick_in_range clock_tick ≡ true }
    ensures { (c.new ≡ (reading clock_tick hold_interval k c.old).clock)
        × (result ≡ (reading clock_tick hold_interval k c.old).time) }
{
    let r = c.reading(clock_tick, hold_interval, k);
    *c = r.clock;
    r.time
}

// The midnight rule is the paper's loops, and does not change a CLOCK within its day.
#[tactic(auto, using(crate::proofs::Midnight::whiles_hold))]
pub fn whiles()
    ensures { Whiles }
{}

#[tactic(auto, using(crate::proofs::Midnight::rests_hold))]
pub fn rests()
    ensures { Rests }
{}

// A reading lies within its day; read again, it changes nothing; and within its day it changes nothing but a marked tick.
#[tactic(auto, using(crate::proofs::Readings::crystal_holds))]
pub fn crystal()
    ensures { Crystal }
{}

// With counts of zero the clock is the line clock.
#[tactic(auto, using(crate::proofs::Readings::line_clock_holds))]
pub fn line_clock()
    ensures { LineClock }
{}

// Of a clock in range one adjust moves CLOCK by a millisecond at most, on or back.
#[tactic(auto, using(crate::proofs::Slew::one_milli_holds))]
pub fn one_milli()
    ensures { OneMilli }
{}
