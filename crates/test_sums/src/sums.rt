// SUM-1, SUM-2: checksums and dates.
use super::show;
use calendar::Date;
use std::io;

// SUM-1: the two checksums of a HELLO without hosts.
pub(crate) fn checksums(rt: &impl Print) -> io::Result<()> {
    show::hex(
        rt,
        "checksum of 302B, 3,600,000, 1234, 1",
        checksum::complement(b"\x00\x00\x30\x2b\x00\x36\xee\x80\x12\x34\x01\x00"),
    )?;
    show::hex(
        rt,
        "the same HELLO with it, folded",
        checksum::folded(b"\xcd\xe9\x30\x2b\x00\x36\xee\x80\x12\x34\x01\x00"),
    )?;
    show::hex(
        rt,
        "checksum of 8000",
        checksum::complement(b"\x00\x00\x80\x00\x00\x00\x00\x00\x00\x00\x00\x00"),
    )
}

// SUM-2: three steps of dates, and back.
#[tactic(auto, unfolding(calendar::specs::Date::real, calendar::specs::Date::last_day))]
pub(crate) fn dates(rt: &impl Print) -> io::Result<()> {
    show::date(rt, "the day after 2956", Date(2956).next())?;
    show::date(rt, "the day after 2955", Date(2955).next())?;
    show::date(rt, "the day after 13311", Date(13311).next())?;
    show::date(rt, "the day before 2988", Date(2988).previous())?;
    show::date(rt, "the day before 3115", Date(3115).previous())?;
    show::date(rt, "the day before 1056", Date(1056).previous())
}

// A line of the word of a calendar day, if there is one.
fn made(rt: &impl Print, name: &str, year: u16, month: u16, day: u16) -> io::Result<()> {
    match Date::new(year, month, day) {
        Some(x) => show::date(rt, name, x),
        None => show::no_date(rt, name),
    }
}

// DATE-1, DATE-2: the two ends, the leap day of a leap year, and days that there are not.
pub(crate) fn made_dates(rt: &impl Print) -> io::Result<()> {
    made(rt, "1 January 1972", 1972, 1, 1)?;
    made(rt, "28 February 1984", 1984, 2, 28)?;
    made(rt, "29 February 1984", 1984, 2, 29)?;
    made(rt, "29 February 1985", 1985, 2, 29)?;
    made(rt, "31 April 1985", 1985, 4, 31)?;
    made(rt, "31 December 2003", 2003, 12, 31)?;
    made(rt, "1 January 2004", 2004, 1, 1)?;
    made(rt, "31 December 1971", 1971, 12, 31)
}
