// The result of a run, on a line: a name, then values.
use calendar::Date;
use clock::Clock;
use std::io;

// A line of one word, in hex.
pub(crate) fn hex(rt: &impl Print, name: &str, word: u16) -> io::Result<()> {
    println!(rt; "{name}: {word:04x}")
}

// A line of one date word.
pub(crate) fn date(rt: &impl Print, name: &str, d: Date) -> io::Result<()> {
    println!(rt; "{name}: {}", d.0)
}

// A line of a day that there is not.
pub(crate) fn no_date(rt: &impl Print, name: &str) -> io::Result<()> {
    println!(rt; "{name}: no such day")
}

// A line of a clock: CLOCK and DELTA in units.
pub(crate) fn clock(rt: &impl Print, name: &str, c: Clock) -> io::Result<()> {
    println!(rt;
        "{name}: CLOCK {} DELTA {} HOLD {} DATE {}",
        c.clock.0, c.delta.0, c.hold.0, c.date.0
    )
}
