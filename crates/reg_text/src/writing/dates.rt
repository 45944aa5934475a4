//! Writing dates.

ghost use Rattle.std.specs.Prelude.{◌≡◌, ◌+◌, ◌<◌, pos, unsigned_abs};
ghost use Rattle.reg_text.specs.Dates.{date_text, date};

use jiff_core::civil::Date;
use reg_base::Day;

// The number of days from -9999-01-01, the first date of the calendar library, to 1970-01-01.
const DAYS_BEFORE_1970: u32 = 4_371_587;

// The digit of a number below 10.
fn digit(n: u8) -> u8
    requires { n < 10 }
    ensures { result ≡ 48 + n }
{
    b'0' + n
}

/// The spelling of the date with this year, month and day of the month.
pub(crate) fn spell_civil(year: u16, month: u8, day: u8) -> [u8; 10]
    requires year_in { year < 10_000 }
    requires month_in { month < 100 }
    requires day_in { day < 100 }
    ensures { result ≡ date_text year month day }
{
    let (century, year) = ((year / 100) as u8, (year % 100) as u8);
    [
        digit(century / 10),
        digit(century % 10),
        digit(year / 10),
        digit(year % 10),
        b'-',
        digit(month / 10),
        digit(month % 10),
        b'-',
        digit(day / 10),
        digit(day % 10),
    ]
}

/// The one spelling of a day: its date, `YYYY-MM-DD`. `read_date` is the inverse, by the law `one_spelling_of_a_day`.
pub fn spell_date(day: Day) -> [u8; 10]
    ensures { result ≡ date day }
{
    let date = date_of(day);
    spell_civil(date.year as u16, date.month, date.day)
}

// The date of a day.
fn date_of(day: Day) -> Date
    ensures year { result.year ≡ pos (unsigned_abs result.year) }
    ensures late { unsigned_abs result.year < 10_000 }
    ensures spelled { date day ≡ date_text (unsigned_abs result.year) result.month result.day }
{
    Date::from_days_since_min(DAYS_BEFORE_1970 + day.get())
}
