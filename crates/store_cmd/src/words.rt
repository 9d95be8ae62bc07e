//! The words that follow the program's name.
ghost use Rattle.std.specs.Prelude.{◌≡◌, false, codes, map, option_and_then, option_map, string_bytes, IfOk, Some};
ghost use Rattle.std.specs.List.{list_all};
ghost use Rattle.clap.specs.Words.{app_of, found_of, kind_of, rows_of, rule_of};
ghost use Rattle.clap.specs.Simple.{new_app, on_top, with_rule};
ghost use Rattle.swift_requests.specs.Place.{IsPlace};
ghost use Rattle.store_cmd.specs.Run.{place_by};
ghost use Rattle.store_cmd.specs.Words.{FaultOf, Parses, ReadsFile, ReadsWords, asked_by, asked_in, asked_of, asked_with_store_names, compacted_in, store_connection_count, is_count, is_file_path, is_name, is_name_byte, needed_rule, optional_rule, store_app, with_settings};
ghost use Rattle.store_cmd.specs.declared.words.WordsFault.TheVariants as faults;

use clap::error::ErrorKind;
use clap::{Arg, ArgAction, ArgMatches, Command, Error};
use gate_base::{Bytes, Memory};
use std::alloc::{AllocError, Global};
use text_forms::is_number;

/// The longest token or account, in bytes.
const LONGEST_NAME: usize = 64;

/// The longest number, in digits.
const LONGEST_NUMBER: usize = 20;

/// The longest path of a file, in bytes.
const LONGEST_PATH: usize = 4096;

/// The most connections that may be asked for.
const MOST_CONNECTIONS: u64 = 1_000_000_000;

/// What the words ask for: the token and the account of the store, how many connections are served, and the path of the file
/// that keeps the account, where there is one.
#[derive(Debug, Drop)]
pub(crate) struct Asked {
    pub(crate) token: Bytes,
    pub(crate) account: Bytes,
    pub(crate) connections: u64,
    pub(crate) file: Option<Bytes>,
}

/// Why there is nothing asked for. `Refused`: by the words. `Memory`: memory ran out.
#[derive(Clone, Copy, Debug, PartialEq, Eq)]
pub(crate) enum WordsFault {
    Refused,
    Memory,
}

impl From<Memory> for WordsFault {
    ghost from_gives = { λ _ fault. fault ≡ faults.Memory };

    fn from(_: Memory) -> WordsFault {
        WordsFault::Memory
    }
}

impl From<AllocError> for WordsFault {
    ghost from_gives = { λ _ fault. fault ≡ faults.Memory };

    fn from(_: AllocError) -> WordsFault {
        WordsFault::Memory
    }
}

/// The path of the file whose tables are written anew: the words are `--file`, a path of 1 to 4096 bytes and `--compact`.
pub fn compacted_file(words: &[String]) -> Option<&str>
    ensures { option_map (λ text. text.now) result ≡ compacted_in (map string_bytes words.now) }
{
    match words {
        [option, path, compact] => {
            let is_asked = option.as_str() == "--file" && compact.as_str() == "--compact";
            if is_asked && is_file_path(path.as_bytes()) {
                Some(path.as_str())
            } else {
                None
            }
        }
        _ => None,
    }
}

/// What the words behind the program's name ask for. They are refused where `clap` refuses them or answers with a help
/// text, where the token or the account isn't 1 to 64 letters, digits or `_`, where the number of connections isn't
/// 1 to 1000000000 in at most 20 digits, and where a path is given that hasn't 1 to 4096 bytes.
pub(crate) fn read_words(alloc: Global, words: &[String]) -> Result<Asked, WordsFault>
    ensures reads { ReadsWords (asked_of words.now) result }
    ensures place { IfOk result (λ asked. IsPlace (place_by asked)) }
{
    let matches = match_store_words(alloc, words)?;
    asked_in(alloc, &matches)
}

fn match_store_words<'a>(alloc: Global, words: &'a [String]) -> Result<ArgMatches<'a>, WordsFault>
    ensures { Parses (map string_bytes words.entry.now) result }
{
    let command = describe_store_command(alloc)?;
    match command.try_get_matches_from(words) {
        Ok(matches) => Ok(matches),
        Err(error) => Err(fault_of_store_words(&error)),
    }
}

/// The words as `clap` takes them.
fn describe_store_command<'a>(alloc: Global) -> Result<Command<'a>, AllocError>
    ensures { IfOk result (λ command. app_of command ≡ store_app) }
{
    let bare = store_command_without_options(alloc);
    let one = with_required_store_option(alloc, bare, "token")?;
    let two = with_required_store_option(alloc, one, "account")?;
    let three = with_required_store_option(alloc, two, "connections")?;
    with_optional_store_option(alloc, three, "file")
}

/// A command with one more option, which has to be given.
fn with_required_store_option<'a>(
    alloc: Global,
    command: Command<'a>,
    name: &'a str,
) -> Result<Command<'a>, AllocError>
    ensures { IfOk result
        (λ more. app_of more ≡ with_rule (app_of command.entry) (needed_rule name.entry.now)) }
{
    let option = required_store_option(alloc, name);
    command.arg(option)
}

/// A command with one more option, which may be given.
fn with_optional_store_option<'a>(
    alloc: Global,
    command: Command<'a>,
    name: &'a str,
) -> Result<Command<'a>, AllocError>
    ensures { IfOk result
        (λ more. app_of more ≡ with_rule (app_of command.entry) (optional_rule name.entry.now)) }
{
    let option = optional_store_option(alloc, name);
    command.arg(option)
}

/// The program, whose words begin behind its name.
fn store_command_without_options<'a>(alloc: Global) -> Command<'a>
    ensures { app_of result ≡ on_top with_settings (new_app (codes "swiftd")) }
{
    Command::new(alloc, "swiftd").no_binary_name(true)
}

/// An option that has to be given.
fn required_store_option<'a>(alloc: Global, name: &'a str) -> Arg<'a>
    ensures rule { rule_of result ≡ needed_rule name.entry.now }
    ensures local { result.global ≡ false }
{
    Arg::new(alloc, name)
        .long(name)
        .action(ArgAction::Set)
        .required(true)
}

/// An option that may be given.
fn optional_store_option<'a>(alloc: Global, name: &'a str) -> Arg<'a>
    ensures rule { rule_of result ≡ optional_rule name.entry.now }
    ensures local { result.global ≡ false }
{
    Arg::new(alloc, name).long(name).action(ArgAction::Set)
}

fn fault_of_store_words(error: &Error) -> WordsFault
    ensures { FaultOf (kind_of error.now) result }
{
    match error.kind() {
        ErrorKind::OutOfMemory => WordsFault::Memory,
        _ => WordsFault::Refused,
    }
}

fn asked_in(alloc: Global, matches: &ArgMatches) -> Result<Asked, WordsFault>
    ensures reads { ReadsWords (asked_in (rows_of (found_of matches.now))) result }
    ensures place { IfOk result (λ asked. IsPlace (place_by asked)) }
{
    asked_by(
        alloc,
        matches.get_str("token"),
        matches.get_str("account"),
        matches.get_str("connections"),
        matches.get_str("file"),
    )
}

fn asked_by(
    alloc: Global,
    token: Option<&str>,
    account: Option<&str>,
    connections: Option<&str>,
    file: Option<&str>,
) -> Result<Asked, WordsFault>
    ensures reads { ReadsWords (asked_by (option_map (λ text. text.now) token.entry)
        (option_map (λ text. text.now) account.entry)
        (option_map (λ text. text.now) connections.entry)
        (option_map (λ text. text.now) file.entry)) result }
    ensures place { IfOk result (λ asked. IsPlace (place_by asked)) }
{
    let Some(token) = token else {
        return Err(WordsFault::Refused);
    };
    let Some(account) = account else {
        return Err(WordsFault::Refused);
    };
    let Some(connections) = connections else {
        return Err(WordsFault::Refused);
    };
    let Some(connections) = store_connection_count(connections) else {
        return Err(WordsFault::Refused);
    };
    let file = file_option(alloc, file)?;
    asked_with_store_names(
        alloc,
        token.as_bytes(),
        account.as_bytes(),
        connections,
        file,
    )
}

/// The path of the file, where one is given.
fn file_option(alloc: Global, file: Option<&str>) -> Result<Option<Bytes>, WordsFault>
    ensures { ReadsFile (option_map (λ text. text.now) file.entry) result }
{
    let Some(path) = file else {
        return Ok(None);
    };
    if !is_file_path(path.as_bytes()) {
        return Err(WordsFault::Refused);
    }
    Ok(Some(Bytes::from_slice(alloc, path.as_bytes())?))
}

fn is_file_path(path: &[u8]) -> bool
    ensures { result ≡ is_file_path path.now }
{
    1 <= path.len() && path.len() <= LONGEST_PATH
}

fn asked_with_store_names(
    alloc: Global,
    token: &[u8],
    account: &[u8],
    connections: u64,
    file: Option<Bytes>,
) -> Result<Asked, WordsFault>
    ensures reads { ReadsWords
        (asked_with_store_names token.now account.now (Some connections) (Some file)) result }
    ensures place { IfOk result (λ asked. IsPlace (place_by asked)) }
{
    if !is_name(token) {
        return Err(WordsFault::Refused);
    }
    if !is_name(account) {
        return Err(WordsFault::Refused);
    }
    Ok(Asked {
        token: Bytes::from_slice(alloc, token)?,
        account: Bytes::from_slice(alloc, account)?,
        connections,
        file,
    })
}

fn is_name(text: &[u8]) -> bool
    ensures { result ≡ is_name text.now }
{
    1 <= text.len() && text.len() <= LONGEST_NAME && are_token_or_account_bytes(text)
}

fn are_token_or_account_bytes(text: &[u8]) -> bool
    ensures { result ≡ list_all is_name_byte text.now }
{
    text.iter().all(|byte| is_name_byte(*byte))
}

fn is_name_byte(byte: u8) -> bool
    ensures { result ≡ is_name_byte byte }
{
    byte.is_ascii_digit() || byte.is_ascii_uppercase() || byte.is_ascii_lowercase() || byte == b'_'
}

/// The number that the text writes, where it is one of connections.
fn store_connection_count(text: &str) -> Option<u64>
    ensures { result ≡ store_connection_count text.now }
{
    if !is_number(text.as_bytes(), LONGEST_NUMBER) {
        return None;
    }
    match text.parse::<u64>() {
        Ok(count) if is_count(count) => Some(count),
        _ => None,
    }
}

fn is_count(count: u64) -> bool
    ensures { result ≡ is_count count }
{
    1 <= count && count <= MOST_CONNECTIONS
}
