// The calendar of the RT-11 date word.
#![tactic(auto)]

ghost use Rattle.std.specs.Prelude.{◌≡◌, true, ◌≤◌};
ghost use Rattle.calendar.specs.Date.{year, month, day, spare, flag, date_of, awaited, await, last_day, real, made, next, previous};
ghost use Rattle.calendar.specs.Months.{MonthLengths};
ghost use Rattle.calendar.specs.Steps.{Steps};

// DATE: bits 0-4 the year less 1972, 5-9 the day, 10-13 the month, 14 zero, 15 one while a master's date is awaited.
#[repr(C)]
#[derive(Clone, Copy)]
pub struct Date(pub u16);

// The years of the word's two ends.
const FIRST_YEAR: u16 = 1972;

const LAST_YEAR: u16 = 2003;

// A month's last day, in a year given as years after 1972. Except for February, 31 and 30 alternate, starting again in August.
#[tactic(auto, unfolding(crate::specs::Date::last_day))]
pub fn last_day(year: u16, month: u16) -> u16
    requires { month ≤ 12 }
    ensures { result ≡ last_day year month }
{
    match month {
        2 if year % 4 == 0 => 29,
        2 => 28,
        _ => 30 + (month + month / 8) % 2,
    }
}

impl Date {
    // 1 January 1972 and 31 December 2003, the two ends of the word.
    pub const FIRST: Date = Date(1056);

    pub const LAST: Date = Date(13311);

    // The date of a calendar year, month and day, where it is a real one within the two ends. No master's date is awaited then.
    #[tactic(auto, unfolding(crate::specs::Date::made))]
    pub fn new(year: u16, month: u16, day: u16) -> Option<Date>
        ensures { result ≡ made year month day }
    {
        if !(FIRST_YEAR..=LAST_YEAR).contains(&year) || 12 < month || 31 < day {
            return None;
        }
        let date = Date::of(0, year - FIRST_YEAR, month, day);
        if date.is_real() { Some(date) } else { None }
    }

    // The word of a year less 1972, a month and a day, with bit 15 as given: a field of the word as the others are, and a number as they are.
    fn of(flag: u16, year: u16, month: u16, day: u16) -> Date
        requires { (flag ≤ 1) × (year ≤ 31) × (month ≤ 12) × (day ≤ 31) }
        ensures { result ≡ date_of flag year month day }
    {
        Date(flag * 32768 + month * 1024 + day * 32 + year)
    }

    fn year(self) -> u16
        ensures { result ≡ year self }
    {
        self.0 % 32
    }

    fn day(self) -> u16
        ensures { result ≡ day self }
    {
        self.0 / 32 % 32
    }

    fn month(self) -> u16
        ensures { result ≡ month self }
    {
        self.0 / 1024 % 16
    }

    fn spare(self) -> u16
        ensures { result ≡ spare self }
    {
        self.0 / 16384 % 2
    }

    fn flag(self) -> u16
        ensures { result ≡ flag self }
    {
        self.0 / 32768 % 2
    }

    // The same day with bit 15 as given.
    fn flagged(self, flag: u16) -> Date
        requires { (flag ≤ 1) × (month self ≤ 12) }
        ensures { result ≡ date_of flag (year self) (month self) (day self) }
    {
        Date::of(flag, self.year(), self.month(), self.day())
    }

    // Whether this is a day of the calendar. Bit 15 is not looked at.
    #[tactic(auto, unfolding(crate::specs::Date::real))]
    pub fn is_real(self) -> bool
        ensures { result ≡ real self }
    {
        let month = self.month();
        let day = self.day();
        if self.spare() != 0 || !(1..=12).contains(&month) {
            return false;
        }
        (1..=last_day(self.year(), month)).contains(&day)
    }

    // Whether a master's date is awaited.
    pub fn awaited(self) -> bool
        ensures { result ≡ awaited self }
    {
        self.flag() == 1
    }

    // The same day, a master's date awaited.
    pub fn awaiting(self) -> Date
        ensures { result ≡ await self }
    {
        Date(self.0 % 32768 + 32768)
    }

    // The next day; after the last day of the word the first. Bit 15 stays.
    pub fn next(self) -> Date
        requires { real self ≡ true }
        ensures { result ≡ next self }
    {
        let flag = self.flag();
        let year = self.year();
        let month = self.month();
        let day = self.day();
        if day < last_day(year, month) {
            return Date::of(flag, year, month, day + 1);
        }
        if month < 12 {
            return Date::of(flag, year, month + 1, 1);
        }
        if year < Date::LAST.year() {
            return Date::of(flag, year + 1, 1, 1);
        }
        Date::FIRST.flagged(flag)
    }

    // The day before; before the first day of the word the last. Bit 15 stays.
    pub fn previous(self) -> Date
        requires { real self ≡ true }
        ensures { result ≡ previous self }
    {
        let flag = self.flag();
        let year = self.year();
        let month = self.month();
        let day = self.day();
        if 1 < day {
            return Date::of(flag, year, month, day - 1);
        }
        if 1 < month {
            return Date::of(flag, year, month - 1, last_day(year, month - 1));
        }
        if Date::FIRST.year() < year {
            return Date::of(flag, year - 1, 12, last_day(year - 1, 12));
        }
        Date::LAST.flagged(flag)
    }
}

// The rule of the months' last days gives the twelve numbers of the calendar, in every year.
#[tactic(auto, using(crate::proofs::Months::lengths_hold))]
pub fn month_lengths()
    ensures { MonthLengths }
{}

// A step back undoes a step on and the reverse, and the two ends join.
#[tactic(auto, using(crate::proofs::Stepping::steps_hold))]
pub fn steps()
    ensures { Steps }
{}
