//! What a trial is served with: its settings and its key, the moments of its requests, and the line that has their bytes.
ghost use Rattle.std.specs.Prelude.{◌≡◌, ◌<◌, ◌≤◌, IfOk, IsTrue, length, max, nat_lt};
ghost use Rattle.std.specs.List.{list_all};
ghost use Rattle.gate_base.specs.declared.outside.TheConstants.{MOMENT_LIMIT};
ghost use Rattle.gate_base.specs.Line.{LineNext};
ghost use Rattle.gate_base.specs.MemLine.{model_of};
ghost use Rattle.trial_cmd.specs.Served.{IsTrialLine, trial_keys, trial_moments, trial_service};

use gate_base::{Bytes, Failed, Line, List, MemLine, Memory, NoCount};
use gateway::Service;
use s3_machine::Settings;
use sigv4::Keys;
use std::alloc::Global;
use trial_requests::trial_input;

/// The moment of the first request: the beginning of 24 May 2013.
const FIRST_MOMENT: u64 = 1_369_353_600;

/// At most so many bytes come by one read.
const PIECE: usize = 65_536;

pub(crate) fn trial_service(alloc: Global) -> Result<Service, Memory>
    ensures { IfOk result (λ service. service ≡ trial_service) }
{
    let keys = trial_keys(alloc)?;
    Ok(Service {
        settings: Settings::strict(Bytes::from_slice(alloc, b"us-east-1")?, 1, 16_777_216),
        keys,
    })
}

#[tactic(auto, using(crate::proofs::Keys::keys_are))]
fn trial_keys(alloc: Global) -> Result<Keys, Memory>
    ensures { IfOk result (λ keys. keys ≡ trial_keys) }
{
    match Keys::read(alloc, b"TRIAL trial\n") {
        Ok(keys) => Ok(keys),
        Err(_) => Err(Memory),
    }
}

/// The moments of the requests; the first alone where there are none.
pub(crate) fn trial_moments(alloc: Global, requests: u64) -> Result<List<u64>, Memory>
    requires { requests ≤ 100000 }
    ensures value { IfOk result (λ moments. moments ≡ trial_moments requests) }
    ensures some { IfOk result (λ moments. 0 < length moments) }
    ensures early { IfOk result
        (λ moments. IsTrue (list_all (λ m. nat_lt m MOMENT_LIMIT) moments)) }
{
    let mut moments = List::new(alloc);
    'moments: for index in 0..moment_count(requests) {
        moments.push(FIRST_MOMENT + index)?;
    }
    Ok(moments)
}

fn moment_count(requests: u64) -> u64
    ensures { result ≡ max requests 1 }
{
    if requests == 0 { 1 } else { requests }
}

/// A line whose one connection has begun, with the bytes of the requests.
pub(crate) fn trial_line(alloc: Global, number: u64, requests: u64) -> Result<MemLine, Memory>
    requires { requests ≤ 100000 }
    ensures { IfOk result (λ line. IsTrialLine number requests (model_of line)) }
{
    let mut connections = List::new(alloc);
    connections.push(trial_input(alloc, number, requests)?)?;
    let mut line = MemLine::new(alloc, connections, PIECE, List::new(alloc))?;
    match begin_trial_connection(&mut line) {
        Ok(true) => Ok(line),
        _ => Err(Memory),
    }
}

/// Begins the next connection, and says whether there is one.
fn begin_trial_connection(line: &mut MemLine) -> Result<bool, Failed>
    ensures { LineNext (model_of line.old) result (model_of line.new) }
{
    <MemLine as Line<NoCount>>::next(line)
}
