//! The times of the requests.
ghost use Rattle.std.specs.Prelude.{◌≡◌, ◌+◌, ◌*◌, ◌/◌, ◌%◌, ◌<◌, ◌≤◌, true};
ghost use Rattle.sigv4.specs.Sign.{is_date_time};
ghost use Rattle.trial_requests.specs.Trial.{trial_time};

/// The time of the request of an index, as it is signed: the first is the beginning of 24 May 2013, and each comes a second later.
#[tactic(auto, using(crate::proofs::Times::time_has_form))]
pub(crate) fn trial_time(index: u64) -> [u8; 16]
    requires { index ≤ 99999 }
    ensures value { result ≡ trial_time index }
    ensures form { is_date_time result ≡ true }
{
    let day = 24 + index / 86_400;
    [
        b'2',
        b'0',
        b'1',
        b'3',
        b'0',
        b'5',
        tens(day),
        ones(day),
        b'T',
        tens(index % 86_400 / 3600),
        ones(index % 86_400 / 3600),
        tens(index / 60 % 60),
        ones(index / 60 % 60),
        tens(index % 60),
        ones(index % 60),
        b'Z',
    ]
}

fn tens(number: u64) -> u8
    requires { number < 100 }
    ensures { result ≡ 48 + number / 10 }
{
    b'0' + (number / 10) as u8
}

fn ones(number: u64) -> u8
    ensures { result ≡ 48 + number % 10 }
{
    b'0' + (number % 10) as u8
}
