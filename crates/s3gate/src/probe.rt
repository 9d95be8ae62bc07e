//! What is asked of the store before it is used: whether it can bear the gateway, and has the account.

use environment::{ErrorLog, SetupFault, Why, clone_environment_runtime};
use gate_base::{Bytes, CALL_LIMIT, Copying, Counted, Memory};
use gateway_cli::USUAL_LARGEST_BODY;
use http_answers::{Announced, announced_by_answer_head};
use serde_json::Value;
use std::alloc::Global;
use swift_client::TcpLink;
use swift_requests::{Link, LinkFault, Place};
use wire_log::{Cause, Explains, logged_cause_of_answer};

/// How many seconds these questions may wait, at most.
const LONGEST_PROBE: u64 = 10;

/// How many segments a manifest of the gateway may have.
const SEGMENTS: u64 = 1000;

/// Refuses a store that says of itself that it can't bear the gateway, which puts objects of up to `largest` bytes and of the usual
/// ones, or that refuses the token or the account. One that doesn't say, or
/// isn't there, is a line of the log.
pub fn probe_store(
    rt: &HostRuntime,
    log: &mut ErrorLog,
    place: &Place,
    largest: u64,
    limit: u64,
) -> Result<(), SetupFault> {
    let request = info_request(rt.alloc(), place)?;
    match answer_of_store(rt, place, limit, request.as_slice())? {
        Ok(answer) => judge_info(rt, log, largest, answer.as_slice())?,
        Err(cause) => {
            log.say_store(place.host.as_slice(), b"no /info: ", cause);
            return Ok(());
        }
    }
    probe_account(rt, log, place, limit)
}

fn probe_account(
    rt: &HostRuntime,
    log: &mut ErrorLog,
    place: &Place,
    limit: u64,
) -> Result<(), SetupFault> {
    let request = account_request(rt.alloc(), place)?;
    match answer_of_store(rt, place, limit, request.as_slice())? {
        Ok(answer) => judge_account(answer.as_slice()),
        Err(cause) => {
            log.say_store(place.host.as_slice(), b"no answer for the account: ", cause);
            Ok(())
        }
    }
}

/// The answer to one request, over a connection of its own; or why there is none.
fn answer_of_store(
    rt: &HostRuntime,
    place: &Place,
    limit: u64,
    request: &[u8],
) -> Result<Result<Bytes, Cause>, SetupFault> {
    let address = place.host.copy()?;
    let own = clone_environment_runtime(rt)?;
    let mut link = TcpLink::new(own, rt.alloc(), address, limit.min(LONGEST_PROBE));
    let mut answer = Bytes::new(rt.alloc());
    let mut body = Bytes::new(rt.alloc());
    if link.calls() >= CALL_LIMIT {
        return Ok(Err(Cause::Other));
    }
    match link.exchange(request, b"", &mut answer, &mut body) {
        Ok(()) => {
            answer.append(body.as_slice())?;
            Ok(Ok(answer))
        }
        Err(LinkFault::Memory) => Err(SetupFault::Memory),
        Err(LinkFault::Failed) => Ok(Err(link.cause().unwrap_or(Cause::Other))),
    }
}

fn info_request(alloc: Global, place: &Place) -> Result<Bytes, Memory> {
    let mut text = Bytes::from_slice(alloc, b"GET /info HTTP/1.1\r\nHost: ")?;
    text.append(place.host.as_slice())?;
    text.append(b"\r\n\r\n")?;
    Ok(text)
}

fn account_request(alloc: Global, place: &Place) -> Result<Bytes, Memory> {
    let mut text = Bytes::from_slice(alloc, b"HEAD /v1/")?;
    text.append(place.account.as_slice())?;
    text.append(b" HTTP/1.1\r\nHost: ")?;
    text.append(place.host.as_slice())?;
    text.append(b"\r\nX-Auth-Token: ")?;
    text.append(place.token.as_slice())?;
    text.append(b"\r\n\r\n")?;
    Ok(text)
}

/// The account isn't there, or isn't the token's.
fn judge_account(answer: &[u8]) -> Result<(), SetupFault> {
    match logged_cause_of_answer(answer) {
        Cause::Answered(status) => {
            Err(SetupFault::Variable("S3GATE_TOKEN", Why::Answered(status as u64)))
        }
        Cause::Unread(404) => Err(SetupFault::Variable("S3GATE_ACCOUNT", Why::Answered(404))),
        _ => Ok(()),
    }
}

fn judge_info(
    rt: &HostRuntime,
    log: &mut ErrorLog,
    largest: u64,
    answer: &[u8],
) -> Result<(), SetupFault> {
    match info_of_answer(rt.alloc(), answer)? {
        Some(info) => match fault_of_info(&info, largest.max(USUAL_LARGEST_BODY)) {
            Some(why) => Err(SetupFault::Variable("S3GATE_STORE", why)),
            None => Ok(()),
        },
        None => {
            log.say(
                b"s3gate: the store has no /info that can be read, so nothing is known of its limits",
            );
            Ok(())
        }
    }
}

/// What a store says of itself, where it does.
fn info_of_answer(alloc: Global, answer: &[u8]) -> Result<Option<Value>, Memory> {
    if logged_cause_of_answer(answer) != Cause::Unread(200) {
        return Ok(None);
    }
    let body = match announced_by_answer_head(alloc, false, answer)? {
        Announced::Answer { head, .. } => &answer[head.min(answer.len())..],
        _ => return Ok(None),
    };
    match str::from_utf8(body) {
        Ok(text) => Ok(Value::from_str(alloc, text).ok()),
        Err(_) => Ok(None),
    }
}

fn fault_of_info(info: &Value, body: u64) -> Option<Why> {
    let Some(slo) = info.get("slo") else {
        return Some(Why::NoSlo);
    };
    if is_below(slo.get("max_manifest_segments"), SEGMENTS) {
        return Some(Why::FewSegments(SEGMENTS));
    }
    let largest = match info.get("swift") {
        Some(swift) => swift.get("max_file_size"),
        None => None,
    };
    if is_below(largest, body) {
        return Some(Why::SmallObjects(body));
    }
    None
}

/// Whether a number is there, and below another.
fn is_below(found: Option<&Value>, least: u64) -> bool {
    match found.and_then(Value::as_u64) {
        Some(number) => number < least,
        None => false,
    }
}
