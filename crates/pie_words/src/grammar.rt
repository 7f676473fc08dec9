//! The commands as `clap` knows them, and what it takes from words that are a command.
ghost use Rattle.std.specs.Prelude.{◌≡◌, true, false, Some, Ok, IfOk, IfErr};
ghost use Rattle.clap.specs.Words.{app_of, kind_of, found_of, rows_of, subcommand_of, subcommand_rows_of};
ghost use Rattle.pie_words.specs.Commands.{words_of, texts_of, is_allowed};
ghost use Rattle.pie_words.specs.inner.Commands.{IsPlain, is_plain};
ghost use Rattle.clap.specs.declared.builder.command.Command.TheViews.{out-Command as fields_of};
ghost use Rattle.pie_words.specs.inner.Grammar as spec;
ghost use Rattle.pie_words.specs.declared.command.Command.{Command};

use crate::{Command, WordsFault};
use clap::error::ErrorKind;
use clap::{Arg, ArgAction, ArgMatches};
use std::alloc::{AllocError, Global};

/// The command without numbers that these words are.
pub(crate) fn take_apart(alloc: Global, words: &[String]) -> Result<Command, WordsFault>
    requires { IsPlain (texts_of words.now) }
    ensures accepted { IfOk result (λ command. texts_of words.now ≡ words_of command) }
    ensures allowed { IfOk result (λ command. is_allowed command ≡ true) }
    ensures memory { IfErr result (λ fault. fault ≡ WordsFault.OutOfMemory) }
{
    let found = matches(alloc, words)?;
    command(&found)
}

// What `clap` finds in the words of a command.
fn matches<'a>(alloc: Global, words: &'a [String]) -> Result<ArgMatches<'a>, clap::Error>
    requires { IsPlain (texts_of words.now) }
    ensures found { IfOk result (λ found. subcommand_rows_of found ≡ subcommand_of spec.commands (texts_of words.now)) }
    ensures memory { IfErr result (λ error. kind_of error ≡ ErrorKind.OutOfMemory) }
{
    commands(alloc)?.try_get_matches_from(words)
}

// The command of what was found.
fn command(found: &ArgMatches<'_>) -> Result<Command, WordsFault>
    ensures { (command : Command) → is_plain command ≡ true → subcommand_rows_of found.now ≡ subcommand_of spec.commands (words_of command) → result ≡ Ok command }
{
    match found.subcommand() {
        Some((name, flags)) => named(name, flags),
        None => Err(WordsFault::Usage),
    }
}

// The command of this name with these flags.
fn named(name: &str, flags: &ArgMatches<'_>) -> Result<Command, WordsFault>
    ensures { (command : Command) → is_plain command ≡ true → Some (name.now, rows_of (found_of flags.now)) ≡ subcommand_of spec.commands (words_of command)
        → result ≡ Ok command }
{
    match name {
        "check" => Ok(Command::Check),
        "fresh" => Ok(Command::Fresh(flags.get_flag("json"))),
        "build" => Ok(Command::Build(flags.get_flag("json"))),
        "replay" => Ok(Command::Replay(flags.get_flag("json"))),
        "topdown" => Ok(Command::Topdown(flags.get_flag("json"))),
        "scan" => Ok(Command::Scan),
        "auto" => Ok(Command::Auto),
        "cached" => Ok(Command::Cached),
        _ => Err(WordsFault::Usage),
    }
}

// Each command is a subcommand of the program.
fn commands<'a>(alloc: Global) -> Result<clap::Command<'a>, AllocError>
    ensures { IfOk result (λ commands. app_of commands ≡ spec.commands) }
{
    let commands = clap::Command::new(alloc, "pie").no_binary_name(true);
    let checks = commands.subcommand(clap::Command::new(alloc, "check"))?;
    let builds = checks.subcommand(with_json(alloc, "fresh")?)?;
    let replays = builds.subcommand(with_json(alloc, "build")?)?;
    let topdowns = replays.subcommand(with_json(alloc, "replay")?)?;
    let scans = topdowns.subcommand(with_json(alloc, "topdown")?)?;
    let autos = scans.subcommand(clap::Command::new(alloc, "scan"))?;
    let cacheds = autos.subcommand(clap::Command::new(alloc, "auto"))?;
    cacheds.subcommand(clap::Command::new(alloc, "cached"))
}

// A command with the flag `--json`.
fn with_json<'a>(alloc: Global, name: &'a str) -> Result<clap::Command<'a>, AllocError>
    ensures app { IfOk result (λ command. app_of command ≡ spec.with_json name.now) }
    ensures local { IfOk result (λ command. (fields_of command).has_globals ≡ false) }
{
    let json = Arg::new(alloc, "json")
        .long("json")
        .action(ArgAction::SetTrue);
    clap::Command::new(alloc, name).arg(json)
}
