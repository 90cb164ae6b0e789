//! The command-line arguments, read by `clap`.

ghost use Rattle.std.specs.Prelude.{◌≡◌, [], map, true, false, IfOk, IfErr, MatchResult, option_map};
ghost use Rattle.clap.specs.Faults.{fault_of};
ghost use Rattle.clap.specs.Simple.{app_of};
ghost use Rattle.clap.specs.Takes.{takes};
ghost use Rattle.clap.specs.Kinds.{Kinds, HasKind};
ghost use Rattle.clap.specs.Values.{kind_of};
ghost use Rattle.clap.specs.declared.error.kind.ErrorKind.TheVariants as kinds;
ghost use Rattle.clap.specs.Walk.{rule_of};
ghost use Rattle.olr_run.specs.Options.{described_app, unlogged_app, value_rule, flag_rule, keep_app, options, options_of};
ghost use Rattle.olr_run.specs.Options.{is_set, IsOptionsFault};

use crate::arguments::{Options, OptionsFault};
use clap::error::ErrorKind;
use clap::{Arg, ArgAction, Command, Error};
use std::alloc::{AllocError, Global};
use std::convert::AsStr;

const ABOUT: &str = "Keeps published OpenLR strings correct while the road map is edited.";

/// The version, and the logic with which it was proved, as the end of what `rt version` prints.
const VERSION: &str = "2.0.0, proved with logic dac8208d650f15bf";

const AFTER_HELP: &str =
    "Records: node, move, drop-node, line, set-line, drop-line, path, repath, drop-path, margin,
show, show-node, show-line, show-margin, depends, report, dump, compact, ambiguous, explain,
begin, preview, commit, abort.
docs/LIMITS.md: fields, limits, faults.
Replies: `ok,N` and N lines, `held,N` in a batch, `fault,NUMBER,WORD`.
Example: olr-keep < examples/morning.csv
Status: 0 all accepted, 1 some rejected, 2 invalid arguments, 3 I/O failed, 4 out of memory;
5 a record of LOG is rejected, 6 the input ended in a batch, 7 LOG is in use.
docs/MAPS.md: maps from a database. docs/SERVICE.md: a log for restarts, a service.";

const FILE_HELP: &str = "Reads the records of FILE before those of standard input";

const STOP_HELP: &str = "Stops at the first rejected record";

const LINES_HELP: &str = "Takes each line as one record, also one with an open quote";

const LOG_HELP: &str = "Starts from the records of LOG, and keeps each accepted change there";

const NEW_HELP: &str = "Makes LOG, which must not exist";

const SIZE_HELP: &str = "Replaces LOG by a dump when it has SIZE bytes, as 500M";

/// An argument with a value, which help calls `value`.
fn valued<'a>(alloc: Global, id: &'a str, value: &'a str, help: &'a str) -> Arg<'a>
    ensures rule { rule_of result ≡ value_rule id.entry.now }
    ensures local { result.global ≡ false }
{
    Arg::new(alloc, id)
        .value_name(value)
        .action(ArgAction::Set)
        .help(help)
}

/// An argument without a value.
fn flag<'a>(alloc: Global, id: &'a str, help: &'a str) -> Arg<'a>
    ensures rule { rule_of result ≡ flag_rule id.entry.now }
    ensures local { result.global ≡ false }
{
    Arg::new(alloc, id).action(ArgAction::SetTrue).help(help)
}

/// The program's texts, without arguments.
fn described<'a>(alloc: Global) -> Command<'a>
    ensures { app_of result ≡ described_app }
{
    Command::new(alloc, "olr-keep")
        .version(VERSION)
        .about(ABOUT)
        .after_help(AFTER_HELP)
}

/// The program's arguments but those for a log.
fn unlogged<'a>(alloc: Global) -> Result<Command<'a>, AllocError>
    ensures { IfOk result (λ c. app_of c ≡ unlogged_app) }
{
    described(alloc)
        .arg(valued(alloc, "file", "FILE", FILE_HELP).short('m'))?
        .arg(flag(alloc, "stop", STOP_HELP).short('s'))?
        .arg(flag(alloc, "lines", LINES_HELP).long("lines"))
}

/// The program's arguments.
fn command<'a>(alloc: Global) -> Result<Command<'a>, AllocError>
    ensures { IfOk result (λ c. app_of c ≡ keep_app) }
{
    unlogged(alloc)?
        .arg(valued(alloc, "log", "LOG", LOG_HELP).short('l'))?
        .arg(flag(alloc, "new", NEW_HELP).long("new"))?
        .arg(valued(alloc, "compact-at", "SIZE", SIZE_HELP).long("compact-at"))
}

/// Whether the text of a flag, if it has one, says that the flag is set.
fn is_given(flag: Option<&str>) -> bool
    ensures { result ≡ is_set (option_map (λ text. text.now) flag.entry) }
{
    flag.is_some_and(|text| text == "true")
}

/// Why arguments that `clap` rejected give no options.
fn rejected(error: Error) -> OptionsFault<Error>
    ensures memory { kind_of error ≡ kinds.OutOfMemory → result ≡ OptionsFault.Memory }
    ensures kinds { (kinds : Kinds) → HasKind kinds error → IsOptionsFault kinds result }
{
    if error.kind() == ErrorKind::OutOfMemory {
        return OptionsFault::Memory;
    }
    if error.use_stderr() {
        return OptionsFault::Wrong(error);
    }
    OptionsFault::Help(error)
}

/// Reads the command-line arguments, the first of which is the program's own name. Arguments that the definition
/// accepts are rejected only if an allocation fails.
pub fn options<'a, S: AsStr>(
    alloc: Global,
    arguments: &'a [S],
) -> Result<Options<'a>, OptionsFault<Error>>
    ensures ok { IfOk result (λ o. options_of o ≡ options (map S.text arguments.entry.now)) }
    ensures taken { takes keep_app (map S.text arguments.entry.now) ≡ true →
        IfErr result (λ e. e ≡ OptionsFault.Memory) }
    ensures kinds { MatchResult result (λ _. fault_of keep_app (map S.text arguments.entry.now) ≡ [])
        (IsOptionsFault (fault_of keep_app (map S.text arguments.entry.now))) }
{
    let Ok(command) = command(alloc) else {
        return Err(OptionsFault::Memory);
    };
    match command.try_get_matches_from(arguments) {
        Ok(matches) => {
            let options = Options {
                file: matches.get_str("file"),
                stop: is_given(matches.get_str("stop")),
                lines: is_given(matches.get_str("lines")),
                log: matches.get_str("log"),
                new: is_given(matches.get_str("new")),
                compact_at: matches.get_str("compact-at"),
            };
            drop(matches);
            Ok(options)
        }
        Err(error) => Err(rejected(error)),
    }
}
