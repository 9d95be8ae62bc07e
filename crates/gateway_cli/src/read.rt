ghost use Rattle.gate_base.specs.Told.{moment_limit};
ghost use Rattle.std.specs.Prelude.{◌≡◌, ◌<◌, IfOk, IfSome, map, option_and_then, option_map, string_bytes, ◌≤◌};
ghost use Rattle.clap.specs.Words.{found_of, kind_of, rows_of, subcommand_rows_of};
ghost use Rattle.gateway_cli.specs.Words.{FaultOf, IsProper, Parses, ReadsWords, command_in, command_of, command_with, count_of, is_flag_given, largest_body_option, least_part_option, name_of, presign_command_by_options, region_option, serve_command_by_options, moment_of, session_command_by_options, sign_command_by_options, span_of, sweep_command_by_options, trial_command_by_options, trial_number_of};

use crate::description::gate;
use crate::text::{is_key_option, is_region, number_in};
use crate::{Command, WordsFault};
use clap::error::ErrorKind;
use clap::{ArgMatches, Error};
use gate_base::{Bytes, MOMENT_LIMIT};
use std::alloc::Global;

/// The region where the words give none.
const USUAL_REGION: &str = "us-east-1";

/// How many connections are served where the words don't say.
const USUAL_CONNECTIONS: u64 = 1000;

/// The most connections that may be asked for.
const MOST_CONNECTIONS: u64 = 1_000_000_000;

/// The least size in bytes of a part that isn't the last, where the words give none: S3's 5 MiB.
const USUAL_LEAST_PART: u64 = 5_242_880;

/// The greatest least size of a part that may be asked for: the most bytes that a part may have where no larger body is asked for.
const MOST_LEAST_PART: u64 = 16_777_216;

/// The most bytes of a body, where the words don't say: 16 MiB.
pub const USUAL_LARGEST_BODY: u64 = 16_777_216;

/// The most bytes of a body that may be asked for: 1 GiB.
const MOST_LARGEST_BODY: u64 = 1_073_741_824;

/// The most seconds that a URL may hold for: a week.
const LONGEST_SPAN: u64 = 604_800;

/// The greatest number of a trial, and the most requests that it may have.
const MOST_TRIAL_NUMBER: u64 = 18_446_744_073_709_551_615;

const MOST_TRIAL_REQUESTS: u64 = 100_000;

/// The commands, by name alone.
#[derive(Clone, Copy, Debug, PartialEq, Eq)]
enum CommandName {
    Session,
    Serve,
    Sign,
    Presign,
    Recover,
    Sweep,
    Check,
    Trial,
}

/// The command that the words name. The words are those behind the program's name. They are refused where `clap`
/// refuses them or answers with a help text, where a region isn't 1 to 32 bytes of `a-z 0-9 -`, where a number of
/// connections isn't 1 to 1000000000 in at most 20 digits, where a least part isn't 1 to 16777216, a largest body 1 to 1073741824
/// or a number of seconds 1 to 604800 in as many, where a moment isn't 0 to 253402300799 in as many, where the id of a key isn't 1 to 128 letters and digits, and
/// where a number of a trial isn't 0 to 18446744073709551615, or a number of its requests 0 to 100000, in as many digits.
pub fn read_words(alloc: Global, words: &[String]) -> Result<Command, WordsFault>
    ensures reads { ReadsWords (command_of words.now) result }
    ensures proper { IfOk result IsProper }
{
    let matches = parse(alloc, words)?;
    command_met(alloc, &matches)
}

fn parse<'a>(alloc: Global, words: &'a [String]) -> Result<ArgMatches<'a>, WordsFault>
    ensures { Parses (map string_bytes words.entry.now) result }
{
    let gate = gate(alloc)?;
    match gate.try_get_matches_from(words) {
        Ok(matches) => Ok(matches),
        Err(error) => Err(fault_of_command_words(&error)),
    }
}

fn fault_of_command_words(error: &Error) -> WordsFault
    ensures { FaultOf (kind_of error.now) result }
{
    match error.kind() {
        ErrorKind::OutOfMemory => WordsFault::Memory,
        _ => WordsFault::Refused,
    }
}

fn command_met(alloc: Global, matches: &ArgMatches) -> Result<Command, WordsFault>
    ensures reads { ReadsWords
        (option_and_then (λ p. command_in p.0 p.1) (subcommand_rows_of matches.now)) result }
    ensures proper { IfOk result IsProper }
{
    match matches.subcommand() {
        Some((name, found)) => command_named(alloc, name, found),
        None => Err(WordsFault::Refused),
    }
}

fn command_named(alloc: Global, name: &str, found: &ArgMatches) -> Result<Command, WordsFault>
    ensures reads { ReadsWords (command_in name.now (rows_of (found_of found.now))) result }
    ensures proper { IfOk result IsProper }
{
    match name_of(name) {
        Some(name) => command_with(alloc, name, found),
        None => Err(WordsFault::Refused),
    }
}

fn name_of(text: &str) -> Option<CommandName>
    ensures { result ≡ name_of text.now }
{
    if text == "session" {
        Some(CommandName::Session)
    } else if text == "serve" {
        Some(CommandName::Serve)
    } else if text == "sign" {
        Some(CommandName::Sign)
    } else if text == "presign" {
        Some(CommandName::Presign)
    } else if text == "recover" {
        Some(CommandName::Recover)
    } else if text == "sweep" {
        Some(CommandName::Sweep)
    } else if text == "check" {
        Some(CommandName::Check)
    } else if text == "trial" {
        Some(CommandName::Trial)
    } else {
        None
    }
}

fn command_with(alloc: Global, name: CommandName, found: &ArgMatches) -> Result<Command, WordsFault>
    ensures reads { ReadsWords (command_with (rows_of (found_of found.now)) name) result }
    ensures proper { IfOk result IsProper }
{
    match name {
        CommandName::Session => session_command_by_options(
            alloc,
            found.get_str("region"),
            found.get_str("least-part"),
            found.get_str("largest-body"),
            found.get_str("extended"),
        ),
        CommandName::Serve => serve_command_by_options(
            alloc,
            found.get_str("region"),
            found.get_str("connections"),
            found.get_str("least-part"),
            found.get_str("largest-body"),
            found.get_str("extended"),
        ),
        CommandName::Sign => sign_command_by_options(
            alloc,
            found.get_str("key"),
            found.get_str("region"),
        ),
        CommandName::Presign => presign_command_by_options(
            alloc,
            found.get_str("key"),
            found.get_str("region"),
            found.get_str("expires"),
        ),
        CommandName::Recover => Ok(Command::Recover),
        CommandName::Sweep => sweep_command_by_options(found.get_str("forget-before")),
        CommandName::Check => Ok(Command::Check),
        CommandName::Trial => {
            trial_command_by_options(found.get_str("number"), found.get_str("requests"))
        }
    }
}

fn session_command_by_options(
    alloc: Global,
    region: Option<&str>,
    least_part: Option<&str>,
    largest_body: Option<&str>,
    extended: Option<&str>,
) -> Result<Command, WordsFault>
    ensures reads { ReadsWords (session_command_by_options (option_map (λ text. text.now) region.entry)
        (option_map (λ text. text.now) least_part.entry)
        (option_map (λ text. text.now) largest_body.entry)
        (option_map (λ text. text.now) extended.entry)) result }
    ensures proper { IfOk result IsProper }
{
    let region = region_option(region);
    if !is_region(region) {
        return Err(WordsFault::Refused);
    }
    let Some(least_part) = least_part_option(least_part) else {
        return Err(WordsFault::Refused);
    };
    let Some(largest_body) = largest_body_option(largest_body) else {
        return Err(WordsFault::Refused);
    };
    Ok(Command::Session {
        region: Bytes::from_slice(alloc, region)?,
        least_part,
        largest_body,
        extended: is_flag_given(extended),
    })
}

fn serve_command_by_options(
    alloc: Global,
    region: Option<&str>,
    connections: Option<&str>,
    least_part: Option<&str>,
    largest_body: Option<&str>,
    extended: Option<&str>,
) -> Result<Command, WordsFault>
    ensures reads { ReadsWords (serve_command_by_options (option_map (λ text. text.now) region.entry)
        (option_map (λ text. text.now) connections.entry)
        (option_map (λ text. text.now) least_part.entry)
        (option_map (λ text. text.now) largest_body.entry)
        (option_map (λ text. text.now) extended.entry)) result }
    ensures proper { IfOk result IsProper }
{
    let region = region_option(region);
    if !is_region(region) {
        return Err(WordsFault::Refused);
    }
    let Some(connections) = count_of(connections) else {
        return Err(WordsFault::Refused);
    };
    let Some(least_part) = least_part_option(least_part) else {
        return Err(WordsFault::Refused);
    };
    let Some(largest_body) = largest_body_option(largest_body) else {
        return Err(WordsFault::Refused);
    };
    Ok(Command::Serve {
        region: Bytes::from_slice(alloc, region)?,
        connections,
        least_part,
        largest_body,
        extended: is_flag_given(extended),
    })
}

fn sign_command_by_options(
    alloc: Global,
    key: Option<&str>,
    region: Option<&str>,
) -> Result<Command, WordsFault>
    ensures reads { ReadsWords (sign_command_by_options (option_map (λ text. text.now) key.entry)
        (option_map (λ text. text.now) region.entry)) result }
    ensures proper { IfOk result IsProper }
{
    let Some(key) = key else {
        return Err(WordsFault::Refused);
    };
    let key = key.as_bytes();
    let region = region_option(region);
    if !is_key_option(key) || !is_region(region) {
        return Err(WordsFault::Refused);
    }
    Ok(Command::Sign {
        key: Bytes::from_slice(alloc, key)?,
        region: Bytes::from_slice(alloc, region)?,
    })
}

fn presign_command_by_options(
    alloc: Global,
    key: Option<&str>,
    region: Option<&str>,
    expires: Option<&str>,
) -> Result<Command, WordsFault>
    ensures reads { ReadsWords (presign_command_by_options (option_map (λ text. text.now) key.entry)
        (option_map (λ text. text.now) region.entry) (option_map (λ text. text.now) expires.entry))
        result }
    ensures proper { IfOk result IsProper }
{
    let Some(key) = key else {
        return Err(WordsFault::Refused);
    };
    let key = key.as_bytes();
    let region = region_option(region);
    if !is_key_option(key) || !is_region(region) {
        return Err(WordsFault::Refused);
    }
    let Some(expires) = span_of(expires) else {
        return Err(WordsFault::Refused);
    };
    Ok(Command::Presign {
        key: Bytes::from_slice(alloc, key)?,
        region: Bytes::from_slice(alloc, region)?,
        expires,
    })
}

fn sweep_command_by_options(before: Option<&str>) -> Result<Command, WordsFault>
    ensures reads { ReadsWords (sweep_command_by_options (option_map (λ text. text.now) before.entry)) result }
    ensures proper { IfOk result IsProper }
{
    let Some(before) = moment_of(before) else {
        return Err(WordsFault::Refused);
    };
    Ok(Command::Sweep { before })
}

fn moment_of(given: Option<&str>) -> Option<u64>
    ensures reads { result ≡ moment_of (option_map (λ text. text.now) given.entry) }
    ensures dated { IfSome result (λ moment. moment < moment_limit) }
{
    match given {
        Some(text) => number_in(text, 0, MOMENT_LIMIT - 1),
        None => Some(0),
    }
}

fn trial_command_by_options(
    number: Option<&str>,
    requests: Option<&str>,
) -> Result<Command, WordsFault>
    ensures reads { ReadsWords (trial_command_by_options
        (option_map (λ text. text.now) number.entry)
        (option_map (λ text. text.now) requests.entry)) result }
    ensures proper { IfOk result IsProper }
{
    let Some(number) = trial_number_of(number, MOST_TRIAL_NUMBER) else {
        return Err(WordsFault::Refused);
    };
    let Some(requests) = trial_number_of(requests, MOST_TRIAL_REQUESTS) else {
        return Err(WordsFault::Refused);
    };
    Ok(Command::Trial { number, requests })
}

fn trial_number_of(given: Option<&str>, most: u64) -> Option<u64>
    ensures value { result ≡ trial_number_of most (option_map (λ text. text.now) given.entry) }
    ensures within { IfSome result (λ number. number ≤ most) }
{
    match given {
        Some(text) => number_in(text, 0, most),
        None => None,
    }
}

fn region_option<'a>(given: Option<&'a str>) -> &'a [u8]
    ensures { result.now ≡ region_option (option_map (λ text. text.now) given.entry) }
{
    match given {
        Some(region) => region.as_bytes(),
        None => USUAL_REGION.as_bytes(),
    }
}

fn count_of(given: Option<&str>) -> Option<u64>
    ensures { result ≡ count_of (option_map (λ text. text.now) given.entry) }
{
    match given {
        Some(text) => number_in(text, 1, MOST_CONNECTIONS),
        None => Some(USUAL_CONNECTIONS),
    }
}

fn least_part_option(given: Option<&str>) -> Option<u64>
    ensures { result ≡ least_part_option (option_map (λ text. text.now) given.entry) }
{
    match given {
        Some(text) => number_in(text, 1, MOST_LEAST_PART),
        None => Some(USUAL_LEAST_PART),
    }
}

fn largest_body_option(given: Option<&str>) -> Option<u64>
    ensures { result ≡ largest_body_option (option_map (λ text. text.now) given.entry) }
{
    match given {
        Some(text) => number_in(text, 1, MOST_LARGEST_BODY),
        None => Some(USUAL_LARGEST_BODY),
    }
}

/// Whether a flag is given, by what `clap` tells of it.
fn is_flag_given(told: Option<&str>) -> bool
    ensures { result ≡ is_flag_given (option_map (λ text. text.now) told.entry) }
{
    match told {
        Some(text) => text == "true",
        None => false,
    }
}

fn span_of(given: Option<&str>) -> Option<u64>
    ensures { result ≡ span_of (option_map (λ text. text.now) given.entry) }
{
    match given {
        Some(text) => number_in(text, 1, LONGEST_SPAN),
        None => None,
    }
}
