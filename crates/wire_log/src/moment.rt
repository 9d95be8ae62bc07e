//! Moments as a log has them.
ghost use Rattle.std.specs.Prelude.{◌<◌};

use jiff_core::civil::Date;

const SECOND: u64 = 1000;

const MINUTE: u64 = 60_000;

const HOUR: u64 = 3_600_000;

const DAY: u64 = 86_400_000;

/// The last moment of the year 9999, which stands for each later one.
const LAST: u64 = 253_402_300_799_999;

/// A moment in UTC, as in `2026-11-28T12:34:56.789Z` (RFC 3339). It is given in milliseconds since the beginning of 1970.
pub fn moment_text(moment: u64) -> [u8; 24] {
    let moment = moment.min(LAST);
    let date = logged_date_of_day(moment / DAY);
    let year = date.year.unsigned_abs() as u64;
    let month = date.month as u64;
    let day = date.day as u64;
    let time = moment % DAY;
    let minute = time / MINUTE;
    let second = time / SECOND;
    [
        digit_of_logged_moment(year / 1000),
        digit_of_logged_moment(year / 100),
        digit_of_logged_moment(year / 10),
        digit_of_logged_moment(year),
        b'-',
        digit_of_logged_moment(month / 10),
        digit_of_logged_moment(month),
        b'-',
        digit_of_logged_moment(day / 10),
        digit_of_logged_moment(day),
        b'T',
        digit_of_logged_moment(time / HOUR / 10),
        digit_of_logged_moment(time / HOUR),
        b':',
        digit_of_logged_moment(minute % 60 / 10),
        digit_of_logged_moment(minute),
        b':',
        digit_of_logged_moment(second % 60 / 10),
        digit_of_logged_moment(second),
        b'.',
        digit_of_logged_moment(time / 100),
        digit_of_logged_moment(time / 10),
        digit_of_logged_moment(time),
        b'Z',
    ]
}

/// The date of a day, counted from the first of 1970. The last of the year 9999 stands for each later one.
fn logged_date_of_day(day: u64) -> Date
    requires { day < 2932897 }
{
    match Date::from_unix_epoch_day(day as i64) {
        Ok(date) => date,
        Err(_) => Date::MAX,
    }
}

/// The last digit of a number.
fn digit_of_logged_moment(number: u64) -> u8 {
    b'0' + (number % 10) as u8
}
