// The DATE word, for programs in other languages.
ghost use Rattle.std.specs.Prelude.{◌≡◌};
ghost use Rattle.calendar.specs.Date.{made};
ghost use Rattle.hello.specs.Returned.{date_returned};

use calendar::Date;

// DATE-1, DATE-2: the DATE word of a calendar day, with bit 15 zero; 0 if there is no such day from 1 January 1972 to 31 December 2003.
#[unsafe(no_mangle)]
pub extern "C" fn hello_date(year: u16, month: u16, day: u16) -> u16
    ensures { result ≡ date_returned (made year month day) }
{
    match Date::new(year, month, day) {
        Some(d) => d.0,
        None => 0,
    }
}
