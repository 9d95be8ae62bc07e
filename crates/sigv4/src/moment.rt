ghost use Rattle.std.specs.Prelude.{◌≡◌, ◌+◌, ◌*◌, ◌^◌, ◌<◌, ◌≤◌, length, pos, true, bytes_eq};
ghost use Rattle.jiff_core.specs.Calendar.{days_in_month};
ghost use Rattle.sigv4.specs.Sign.{date_of};
ghost use Rattle.sigv4.specs.Moment.{two_digits, year_of, is_year, is_month, is_day, is_time, signing_day_number, signing_time_seconds, is_skewed};

use crate::signature::{date_of, is_date_time};
use jiff_core::civil::{Date, days_in_month};

/// The seconds by which the time of a request may differ from the moment it is read at.
const SKEW: u64 = 900;

/// Whether a text is a time `YYYYMMDDTHHMMSSZ` of the years 1970 to 9999 that the calendar and the clock have.
pub fn is_time(text: &[u8]) -> bool
    ensures { result ≡ is_time text.now }
{
    is_date_time(text)
        && is_day(year_of(text), two_digits(text, 4), two_digits(text, 6))
        && two_digits(text, 9) < 24
        && two_digits(text, 11) < 60
        && two_digits(text, 13) < 60
}

/// Whether a time lies more than 900 seconds before or after a moment, in seconds since 1970.
pub fn is_skewed(time: &[u8], moment: u64) -> bool
    requires { is_time time.now ≡ true }
    ensures { result ≡ is_skewed time.now moment }
{
    let seconds = signing_time_seconds(time);
    seconds.saturating_sub(moment) > SKEW || moment.saturating_sub(seconds) > SKEW
}

/// Whether a time is of a day `YYYYMMDD`.
#[tactic(auto, using(crate::proofs::VerdictLemmas::time_has_form))]
pub fn is_of_day(time: &[u8], day: &[u8]) -> bool
    requires { is_time time.now ≡ true }
    ensures { result ≡ bytes_eq (date_of time.now) day.now }
{
    date_of(time) == day
}

/// The seconds between the beginning of 1970 and a time, no leap second counted.
pub fn signing_time_seconds(time: &[u8]) -> u64
    requires { is_time time.now ≡ true }
    ensures { result ≡ signing_time_seconds time.now }
{
    let day = day_of(time);
    let hour = two_digits(time, 9);
    let minute = two_digits(time, 11);
    seconds_at(day, hour, minute, two_digits(time, 13))
}

/// The days between the first of January 1970 and the day of a time.
#[tactic(auto, using(crate::proofs::VerdictLemmas::time_has_day))]
fn day_of(time: &[u8]) -> u32
    requires { is_time time.now ≡ true }
    ensures { result ≡ signing_day_number (year_of time.now) (two_digits time.now 4)
        (two_digits time.now 6) }
{
    let year = year_of(time);
    let month = two_digits(time, 4);
    signing_day_number(year, month, two_digits(time, 6))
}

/// The seconds between the first of January 1970 and a time of the day of that number.
fn seconds_at(day: u32, hour: u32, minute: u32, second: u32) -> u64
    ensures { result ≡ day * 86400 + hour * 3600 + minute * 60 + second }
{
    day as u64 * 86400 + hour as u64 * 3600 + minute as u64 * 60 + second as u64
}

fn is_day(year: u32, month: u32, day: u32) -> bool
    ensures { result ≡ is_day year month day }
{
    is_year(year) && is_month(month) && 1 <= day && day <= signing_month_length(year, month)
}

fn is_year(year: u32) -> bool
    ensures { result ≡ is_year year }
{
    1970 <= year && year <= 9999
}

fn is_month(month: u32) -> bool
    ensures { result ≡ is_month month }
{
    1 <= month && month <= 12
}

fn signing_month_length(year: u32, month: u32) -> u32
    requires year { is_year year ≡ true }
    requires month { is_month month ≡ true }
    ensures { result ≡ days_in_month (pos year) month }
{
    days_in_month(year as i16, month as u8) as u32
}

/// The days between the first of January 1970 and a day.
fn signing_day_number(year: u32, month: u32, day: u32) -> u32
    requires { is_day year month day ≡ true }
    ensures value { result ≡ signing_day_number year month day }
    ensures bound { result ≤ 2 ^ 31 }
{
    let date = Date {
        year: year as i16,
        month: month as u8,
        day: day as u8,
    };
    date.to_unix_epoch_day().unsigned_abs()
}

fn year_of(text: &[u8]) -> u32
    requires { 4 ≤ length text.now }
    ensures { result ≡ year_of text.now }
{
    two_digits(text, 0) * 100 + two_digits(text, 2)
}

/// The number of the two digits at an index.
fn two_digits(text: &[u8], at: usize) -> u32
    requires { at + 1 < length text.now }
    ensures value { result ≡ two_digits text.now at }
    ensures bound { result < 10000 }
{
    text[at].saturating_sub(b'0') as u32 * 10 + text[at + 1].saturating_sub(b'0') as u32
}
