//! Texts of numbers and moments.
ghost use Rattle.std.specs.Prelude.{◌≡◌, ◌<◌, IfOk};
ghost use Rattle.gate_base.specs.Told.{moment_limit};
ghost use Rattle.httpdate.specs.Date.{date_text};
ghost use Rattle.httpdate.specs.declared.date.HttpDate.{HttpDate as Date};
ghost use Rattle.s3_pages.specs.Date.{http_date, iso_text, iso_time, month_digits};
ghost use Rattle.s3_pages.specs.Texts.{id_text, quoted};

use gate_base::{Bytes, Memory};
use httpdate::HttpDate;
use std::alloc::Global;

/// A request id in 32 hexadecimal digits, in lower case (this profile).
#[tactic(auto, unfolding(crate::specs::Texts::id_text))]
pub fn id_digits(id: u128) -> [u8; 32]
    ensures { result ≡ id_text id }
{
    let mut digits = [0; 32];
    if hex::encode_to_slice(id.to_be_bytes(), &mut digits).is_err() {
        unreachable!();
    }
    digits
}

/// A moment as an IMF-fixdate (RFC 9110, section 5.6.7).
#[tactic(auto, using(crate::proofs::Dates::http_date_is))]
pub fn page_header_date(moment: u64) -> [u8; 29]
    requires { moment < moment_limit }
    ensures { result ≡ http_date moment }
{
    let Ok(date) = HttpDate::from_unix_secs(moment) else {
        unreachable!();
    };
    date.to_bytes()
}

/// A moment as the bodies of S3 have it, as in `1994-11-06T08:49:37.000Z`. The day is the one that the date of the same
/// moment has in a header, from which it is read.
pub fn iso_time(moment: u64) -> [u8; 24]
    requires { moment < moment_limit }
    ensures { result ≡ iso_time moment }
{
    let Ok(date) = HttpDate::from_unix_secs(moment) else {
        unreachable!();
    };
    iso_from(&date.to_bytes())
}

/// The time that an IMF-fixdate tells.
fn iso_from(text: &[u8; 29]) -> [u8; 24]
    ensures { (date : Date) → text.now ≡ date_text date → result ≡ iso_text date.parts }
{
    let month = month_digits(text[8], text[9], text[10]);
    [
        text[12], text[13], text[14], text[15], b'-', month[0], month[1], b'-', text[5], text[6],
        b'T', text[17], text[18], b':', text[20], text[21], b':', text[23], text[24], b'.', b'0',
        b'0', b'0', b'Z',
    ]
}

/// The number of a month in two digits, by the three letters of its name.
fn month_digits(first: u8, second: u8, third: u8) -> [u8; 2]
    ensures { result ≡ month_digits first second third }
{
    match first {
        b'J' => {
            if second == b'a' {
                [b'0', b'1']
            } else if third == b'n' {
                [b'0', b'6']
            } else {
                [b'0', b'7']
            }
        }
        b'F' => [b'0', b'2'],
        b'M' => {
            if third == b'r' {
                [b'0', b'3']
            } else {
                [b'0', b'5']
            }
        }
        b'A' => {
            if second == b'p' {
                [b'0', b'4']
            } else {
                [b'0', b'8']
            }
        }
        b'S' => [b'0', b'9'],
        b'O' => [b'1', b'0'],
        b'N' => [b'1', b'1'],
        _ => [b'1', b'2'],
    }
}

/// An ETag as a header has it (RFC 9110, section 8.8.3).
pub fn quoted(alloc: Global, etag: &[u8]) -> Result<Bytes, Memory>
    ensures { IfOk result (λ text. text ≡ quoted etag.now) }
{
    let mut text = Bytes::from_slice(alloc, b"\"")?;
    text.append(etag)?;
    text.append(b"\"")?;
    Ok(text)
}
