// Clocks: midnight of the blackboard, and what may surprise.
use super::show;
use calendar::Date;
use clock::{Clock, Counter};
use quantity::{Count, Millis, Seconds, Units};
use std::io;

// HOLD-INTERVAL of the clocks that are run.
const HOLD_INTERVAL: Seconds = Seconds(1);

// A line clock's count.
const NO_COUNT: u16 = 0;

// The clock a tick later. A clock or a tick out of range stays, as with a host.
fn ticked(c: Clock, clock_tick: Units, n: u16) -> Clock {
    if c.in_range() && clock::tick_in_range(clock_tick) {
        return c.ticked(clock_tick, HOLD_INTERVAL, Count(n));
    }
    c
}

// The clock after an adjust.
fn adjusted(c: Clock, n: u16) -> Clock {
    if c.in_range() {
        return c.adjusted(HOLD_INTERVAL, Count(n));
    }
    c
}

// The clock after n adjusts.
fn adjusts(c: Clock, times: u32) -> Clock {
    let mut x = c;
    for _ in 0..times {
        x = adjusted(x, NO_COUNT);
    }
    x
}

// The clock set by a count of milliseconds.
fn set(c: Clock, ms: i32, n: u16) -> Clock {
    if c.in_range() {
        return c.set_by(HOLD_INTERVAL, Count(n), Millis::from(ms));
    }
    c
}

// SUM-7: a full day stays; a unit more is 1 unit of the next day.
pub(crate) fn midnight(rt: &impl Print) -> io::Result<()> {
    let late = Clock::fresh(Millis(86_399_999), Date::FIRST);
    let stays = ticked(late, Units::of_millis(Millis(1)), NO_COUNT);
    show::clock(rt, "86,400,000 ms", stays)?;
    show::clock(rt, "one unit more", ticked(stays, Units(1), NO_COUNT))
}

// A clock of n units at the start of 1972.
fn clock_of(clock: Units, delta: Units) -> Clock {
    Clock {
        clock,
        delta,
        hold: Seconds(0),
        date: Date::FIRST,
    }
}

// A line about a clock after n adjusts.
fn after_adjusts(
    rt: &impl Print,
    name: &str,
    clock: i64,
    delta: i64,
    times: u32,
) -> io::Result<()> {
    show::clock(
        rt,
        name,
        adjusts(clock_of(Units(clock), Units(delta)), times),
    )
}

// CLOCK-3: a DELTA of -1 to -128 units loses one unit at each adjust until it is 0; one of +1 to +127 never changes.
pub(crate) fn deltas(rt: &impl Print) -> io::Result<()> {
    after_adjusts(rt, "DELTA -1 after 1 adjust", 1000, -1, 1)?;
    after_adjusts(rt, "DELTA -127 after 1 adjust", 1000, -127, 1)?;
    after_adjusts(rt, "DELTA -127 after 126 adjusts", 1000, -127, 126)?;
    after_adjusts(rt, "DELTA -127 after 127 adjusts", 1000, -127, 127)?;
    after_adjusts(rt, "DELTA -127 after 128 adjusts", 1000, -127, 128)?;
    after_adjusts(rt, "DELTA +1 after 1000 adjusts", 1000, 1, 1000)?;
    after_adjusts(rt, "DELTA +127 after 1000 adjusts", 1000, 127, 1000)?;
    after_adjusts(rt, "DELTA +128 after 1000 adjusts", 1000, 128, 1000)
}

// CLOCK-6: an adjust at CLOCK 0 with DELTA -1 goes back a day and loads HOLD.
pub(crate) fn below_zero(rt: &impl Print) -> io::Result<()> {
    after_adjusts(rt, "DELTA -1 at CLOCK 0", 0, -1, 1)
}

// A Set by the most and by the least that it takes passes midnight 24 times, and 25 times back.
pub(crate) fn far_sets(rt: &impl Print) -> io::Result<()> {
    let start = clock_of(Units(0), Units(0));
    show::clock(rt, "a Set by 2^31 - 1", set(start, 2_147_483_647, NO_COUNT))?;
    show::clock(rt, "a Set by -2^31", set(start, -2_147_483_648, NO_COUNT))
}

// CLOCK-4, CLOCK-15: -128 to +127 ms slew, other sets step; an adjust moves CLOCK by a millisecond at most.
pub(crate) fn slew_limits(rt: &impl Print) -> io::Result<()> {
    let start = clock_of(Units::of_millis(Millis(1_000)), Units(0));
    show::clock(rt, "a Set by 127", set(start, 127, NO_COUNT))?;
    show::clock(rt, "a Set by 128", set(start, 128, NO_COUNT))?;
    show::clock(rt, "a Set by -128", set(start, -128, NO_COUNT))?;
    show::clock(
        rt,
        "a Set by -128 and 1 adjust",
        adjusts(set(start, -128, NO_COUNT), 1),
    )?;
    show::clock(rt, "a Set by -129", set(start, -129, NO_COUNT))?;
    show::clock(rt, "a Set by -500", set(start, -500, NO_COUNT))
}

// A line with a clock's reading and the clock after it. A clock or a tick out of range is not read.
fn reading(rt: &impl Print, name: &str, c: Clock, clock_tick: Units, k: Counter) -> io::Result<()> {
    if c.in_range() && clock::tick_in_range(clock_tick) {
        let r = c.reading(clock_tick, HOLD_INTERVAL, k);
        print!(rt; "{name}: TIME {}", r.time.0)?;
        return show::clock(rt, "", r.clock);
    }
    Ok(())
}

// A count, and no mark.
fn counting(n: u16) -> Counter {
    Counter {
        count: Count(n),
        overflow: 0,
        again: Count(0),
    }
}

// A mark, and the count before and after it.
fn marked(n: u16, again: u16) -> Counter {
    Counter {
        count: Count(n),
        overflow: 1,
        again: Count(again),
    }
}

// CLOCK-9: a reading can change DATE and HOLD, and CLOCK alone can be below zero.
pub(crate) fn crystal_midnights(rt: &impl Print) -> io::Result<()> {
    let tick = Units(1);
    let late = clock_of(Units::of_millis(Millis(86_399_000)), Units(0));
    reading(rt, "86,399,000 ms and 1,000", late, tick, counting(1_000))?;
    reading(rt, "86,399,000 ms and 1,001", late, tick, counting(1_001))?;
    let first = clock_of(Units::of_millis(Millis(86_334_466)), Units(0));
    reading(
        rt,
        "86,334,466 ms and 65,535",
        first,
        tick,
        counting(65_535),
    )?;
    let below = clock_of(Units::of_millis(Millis(-65_535)), Units(0));
    reading(
        rt,
        "65,535 ms below zero and 65,535",
        below,
        tick,
        counting(65_535),
    )?;
    reading(
        rt,
        "65,535 ms below zero and 65,534",
        below,
        tick,
        counting(65_534),
    )
}

// CLOCK-8, CLOCK-13: readings with the mark, with the longest CLOCK-TICK.
pub(crate) fn crystal_overflow(rt: &impl Print) -> io::Result<()> {
    let most = Units::of_millis(Millis(65_536));
    let start = clock_of(Units(0), Units(0));
    reading(rt, "0 ms and 65,535", start, most, counting(65_535))?;
    reading(
        rt,
        "0 ms, a mark, and 3 again",
        start,
        most,
        marked(65_535, 3),
    )?;
    let late = clock_of(Units::of_millis(Millis(86_400_000)), Units(0));
    reading(
        rt,
        "86,400,000 ms, a mark, and 3 again",
        late,
        most,
        marked(65_535, 3),
    )
}

// CLOCK-14: tick, adjust and set take a count without a mark.
pub(crate) fn crystal_changes(rt: &impl Print) -> io::Result<()> {
    let tick = Units::of_millis(Millis(1));
    let late = clock_of(Units::of_millis(Millis(86_399_000)), Units(128));
    show::clock(rt, "a tick of 1 ms, 999", ticked(late, tick, 999))?;
    show::clock(rt, "a tick of 1 ms, 1,000", ticked(late, tick, 1_000))?;
    show::clock(rt, "an adjust, 999", adjusted(late, 999))?;
    show::clock(rt, "an adjust, 1,000", adjusted(late, 1_000))?;
    show::clock(rt, "a Set by 0, 1,000", set(late, 0, 1_000))?;
    show::clock(rt, "a Set by 0, 1,001", set(late, 0, 1_001))?;
    show::clock(rt, "a Set by 500, 500", set(late, 500, 500))?;
    show::clock(rt, "a Set by 500, 501", set(late, 500, 501))
}
