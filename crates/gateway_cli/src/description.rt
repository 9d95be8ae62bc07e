ghost use Rattle.std.specs.Prelude.{◌≡◌, false, IfOk, codes};
ghost use Rattle.clap.specs.Words.{app_of, rule_of};
ghost use Rattle.clap.specs.Simple.{new_app, on_top, with_rule, with_subcommand};
ghost use Rattle.clap.specs.declared.builder.command.Command.TheViews.{out-Command as fields_of};
ghost use Rattle.gateway_cli.specs.Description.{HasBelow, flag_rule, gate_app, option_rule, parted_app, presign_app, serve_app, serving_app, sign_app, signing_app, sweep_app, trial_app, with_keeping, with_serving, with_settings, with_signing};

use clap::{Arg, ArgAction, Command};
use std::alloc::{AllocError, Global};

/// The words as `clap` takes them: one level of commands, each with its options.
pub(crate) fn gate<'a>(alloc: Global) -> Result<Command<'a>, AllocError>
    ensures { IfOk result (λ command. app_of command ≡ gate_app) }
{
    let serving = with_serving_commands(alloc, bare_gate(alloc))?;
    let signing = with_signing_commands(alloc, serving)?;
    let keeping = with_keeping_commands(alloc, signing)?;
    with_command(keeping, trial_description(alloc))
}

/// The program, whose words begin behind its name, and name one of its commands.
fn bare_gate<'a>(alloc: Global) -> Command<'a>
    ensures { app_of result ≡ on_top with_settings (new_app (codes "s3gate")) }
{
    Command::new(alloc, "s3gate")
        .no_binary_name(true)
        .subcommand_required(true)
}

/// With those that serve connections.
fn with_serving_commands<'a>(alloc: Global, gate: Command<'a>) -> Result<Command<'a>, AllocError>
    ensures { IfOk result (λ more. app_of more ≡ with_serving (app_of gate.entry)) }
{
    let session = with_command(gate, serving_description(alloc, "session"))?;
    with_command(session, serve_description(alloc))
}

/// With those that sign.
fn with_signing_commands<'a>(alloc: Global, gate: Command<'a>) -> Result<Command<'a>, AllocError>
    ensures { IfOk result (λ more. app_of more ≡ with_signing (app_of gate.entry)) }
{
    let sign = with_command(gate, sign_description(alloc))?;
    with_command(sign, presign_description(alloc))
}

/// With those that look after an account.
fn with_keeping_commands<'a>(alloc: Global, gate: Command<'a>) -> Result<Command<'a>, AllocError>
    ensures { IfOk result (λ more. app_of more ≡ with_keeping (app_of gate.entry)) }
{
    let recover = with_command(gate, Ok(Command::new(alloc, "recover")))?;
    let sweep = with_command(recover, sweep_description(alloc))?;
    with_command(sweep, Ok(Command::new(alloc, "check")))
}

/// A command with a further one below it, if that could be made.
fn with_command<'a>(
    command: Command<'a>,
    below: Result<Command<'a>, AllocError>,
) -> Result<Command<'a>, AllocError>
    ensures { IfOk result (HasBelow command.entry below.entry) }
{
    let made = below?;
    command.subcommand(made)
}

/// A command of that name that serves, with the options of what its service is set to.
fn serving_description<'a>(alloc: Global, name: &'a str) -> Result<Command<'a>, AllocError>
    ensures app { IfOk result (λ command. app_of command ≡ serving_app name.entry.now) }
    ensures local { IfOk result (λ command. (fields_of command).has_globals ≡ false) }
{
    let parted = parted_description(alloc, name)?;
    let sized = with_option(alloc, parted, "largest-body", false)?;
    with_flag(alloc, sized, "extended")
}

/// One of that name with a region and a least part alone.
fn parted_description<'a>(alloc: Global, name: &'a str) -> Result<Command<'a>, AllocError>
    ensures app { IfOk result (λ command. app_of command ≡ parted_app name.entry.now) }
    ensures local { IfOk result (λ command. (fields_of command).has_globals ≡ false) }
{
    let placed = with_option(alloc, Command::new(alloc, name), "region", false)?;
    with_option(alloc, placed, "least-part", false)
}

fn serve_description<'a>(alloc: Global) -> Result<Command<'a>, AllocError>
    ensures app { IfOk result (λ command. app_of command ≡ serve_app) }
    ensures local { IfOk result (λ command. (fields_of command).has_globals ≡ false) }
{
    let serving = serving_description(alloc, "serve")?;
    with_option(alloc, serving, "connections", false)
}

fn sign_description<'a>(alloc: Global) -> Result<Command<'a>, AllocError>
    ensures app { IfOk result (λ command. app_of command ≡ sign_app) }
    ensures local { IfOk result (λ command. (fields_of command).has_globals ≡ false) }
{
    signing_description(alloc, "sign")
}

/// A command of that name that signs by a key, for a region.
fn signing_description<'a>(alloc: Global, name: &'a str) -> Result<Command<'a>, AllocError>
    ensures app { IfOk result (λ command. app_of command ≡ signing_app name.entry.now) }
    ensures local { IfOk result (λ command. (fields_of command).has_globals ≡ false) }
{
    let keyed = with_option(alloc, Command::new(alloc, name), "key", true)?;
    with_option(alloc, keyed, "region", false)
}

fn presign_description<'a>(alloc: Global) -> Result<Command<'a>, AllocError>
    ensures app { IfOk result (λ command. app_of command ≡ presign_app) }
    ensures local { IfOk result (λ command. (fields_of command).has_globals ≡ false) }
{
    let signer = signing_description(alloc, "presign")?;
    with_option(alloc, signer, "expires", true)
}

fn sweep_description<'a>(alloc: Global) -> Result<Command<'a>, AllocError>
    ensures app { IfOk result (λ command. app_of command ≡ sweep_app) }
    ensures local { IfOk result (λ command. (fields_of command).has_globals ≡ false) }
{
    with_option(alloc, Command::new(alloc, "sweep"), "forget-before", false)
}

fn trial_description<'a>(alloc: Global) -> Result<Command<'a>, AllocError>
    ensures app { IfOk result (λ command. app_of command ≡ trial_app) }
    ensures local { IfOk result (λ command. (fields_of command).has_globals ≡ false) }
{
    let numbered = with_option(alloc, Command::new(alloc, "trial"), "number", true)?;
    with_option(alloc, numbered, "requests", true)
}

/// A command with one more option, which has to be given or not.
fn with_option<'a>(
    alloc: Global,
    command: Command<'a>,
    name: &'a str,
    required: bool,
) -> Result<Command<'a>, AllocError>
    ensures app { IfOk result
        (λ more. app_of more ≡ with_rule (app_of command.entry) (option_rule name.entry.now required)) }
    ensures local { IfOk result
        (λ more. (fields_of more).has_globals ≡ (fields_of command.entry).has_globals) }
{
    let made = option(alloc, name, required);
    command.arg(made)
}

/// A command with one more flag.
fn with_flag<'a>(
    alloc: Global,
    command: Command<'a>,
    name: &'a str,
) -> Result<Command<'a>, AllocError>
    ensures app { IfOk result
        (λ more. app_of more ≡ with_rule (app_of command.entry) (flag_rule name.entry.now)) }
    ensures local { IfOk result
        (λ more. (fields_of more).has_globals ≡ (fields_of command.entry).has_globals) }
{
    let made = flag(alloc, name);
    command.arg(made)
}

/// An option that takes a value.
fn option<'a>(alloc: Global, name: &'a str, required: bool) -> Arg<'a>
    ensures rule { rule_of result ≡ option_rule name.entry.now required }
    ensures local { result.global ≡ false }
{
    Arg::new(alloc, name)
        .long(name)
        .action(ArgAction::Set)
        .required(required)
}

fn flag<'a>(alloc: Global, name: &'a str) -> Arg<'a>
    ensures rule { rule_of result ≡ flag_rule name.entry.now }
    ensures local { result.global ≡ false }
{
    Arg::new(alloc, name).long(name).action(ArgAction::SetTrue)
}
