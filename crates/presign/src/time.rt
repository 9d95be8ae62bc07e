//! A moment as the time of a signature.
ghost use Rattle.std.specs.Prelude.{◌≡◌, ◌+◌, ◌*◌, ◌/◌, ◌%◌, ◌<◌, ◌≤◌, ◌≤ℤ◌, pos, unsigned_abs, true};
ghost use Rattle.gate_base.specs.declared.outside.TheConstants.{MOMENT_LIMIT as moment_limit};
ghost use Rattle.jiff_core.specs.Date.{epoch_day};
ghost use Rattle.sigv4.specs.Moment.{signing_day_number, is_day, is_year};
ghost use Rattle.presign.specs.Url.{IsTimeOf};

use jiff_core::civil::Date;

/// The seconds of a day.
const DAY: u64 = 86_400;

/// The number of the first of January 1970, where the first day that the calendar has is 0.
const EPOCH: u32 = 4_371_587;

/// A moment, in seconds since the beginning of 1970, as a time `YYYYMMDDTHHMMSSZ`.
#[tactic(auto, using(crate::proofs::Times::dated_is))]
pub(crate) fn presigned_time_at(moment: u64) -> [u8; 16]
    requires { moment < moment_limit }
    ensures { IsTimeOf moment result }
{
    let date = presigned_date_at((moment / DAY) as u32);
    let year = presigned_year_of(date);
    presigned_time_text(
        year,
        date.month as u32,
        date.day as u32,
        (moment % DAY) as u32,
    )
}

/// The date of a day since the beginning of 1970.
#[tactic(auto, using(crate::proofs::Times::shifted))]
fn presigned_date_at(day: u32) -> Date
    requires { day ≤ 2932896 }
    ensures { epoch_day result ≡ pos day }
{
    Date::from_days_since_min(day + EPOCH)
}

/// The year of a date that isn't before 1970.
fn presigned_year_of(date: Date) -> u32
    requires { pos 0 ≤ℤ epoch_day date }
    ensures year { pos result ≡ date.year }
    ensures late { is_year result ≡ true }
{
    presigned_year_as_unsigned(date.year)
}

fn presigned_year_as_unsigned(year: i16) -> u32
    ensures { result ≡ unsigned_abs year }
{
    u32::from(year.unsigned_abs())
}

/// The text of a second of a day.
#[tactic(auto, using(crate::proofs::Times::text_is))]
fn presigned_time_text(year: u32, month: u32, day: u32, second: u32) -> [u8; 16]
    requires day { is_day year month day ≡ true }
    requires second { second < 86400 }
    ensures { IsTimeOf (signing_day_number year month day * 86400 + second) result }
{
    [
        presigned_time_tens(year / 100),
        presigned_time_ones(year / 100),
        presigned_time_tens(year % 100),
        presigned_time_ones(year % 100),
        presigned_time_tens(month),
        presigned_time_ones(month),
        presigned_time_tens(day),
        presigned_time_ones(day),
        b'T',
        presigned_time_tens(second / 3600),
        presigned_time_ones(second / 3600),
        presigned_time_tens(second / 60 % 60),
        presigned_time_ones(second / 60 % 60),
        presigned_time_tens(second % 60),
        presigned_time_ones(second % 60),
        b'Z',
    ]
}

fn presigned_time_tens(number: u32) -> u8
    requires { number < 100 }
    ensures { result ≡ 48 + number / 10 }
{
    b'0' + (number / 10) as u8
}

fn presigned_time_ones(number: u32) -> u8
    ensures { result ≡ 48 + number % 10 }
{
    b'0' + (number % 10) as u8
}
