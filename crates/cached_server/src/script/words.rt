//! The program's words.
ghost use Rattle.std.specs.Prelude.{codes, ◌≡◌, ◌≢◌, None, Some, map, option_map, IfOk, IfErr};
ghost use Rattle.clap.specs.Words.{app_of, first_value, found_of};
ghost use Rattle.cached_server.specs.Script.Called.{arguments, call_of, chosen, path_of};

use clap::{Arg, ArgAction, ArgMatches, Command};
use std::alloc::{AllocError, Global};
use std::convert::AsStr;
use std::io::ErrorKind;

/// What the words ask for.
#[derive(Clone, Copy, Debug, PartialEq, Eq, Drop)]
pub enum Chosen<'a> {
    /// Serve standard input to standard output.
    Script,
    /// Serve what the configuration file at this path says.
    Config(&'a str),
}

/// Takes the arguments: exactly one of `--script` and `--config FILE`. The first is the program's name. Returns `OutOfMemory` if there is
/// not enough memory, and `InvalidInput` for other arguments.
pub fn take_words<'a, S: AsStr>(alloc: Global, words: &'a [S]) -> Result<Chosen<'a>, ErrorKind>
    ensures taken { IfOk result
        (λ asked. call_of (map S.text words.entry.now) ≡ Some (path_of asked)) }
    ensures refused { IfErr result (λ e. e ≢ ErrorKind.OutOfMemory
        → call_of (map S.text words.entry.now) ≡ None) }
{
    let Ok(command) = command(alloc) else {
        return Err(ErrorKind::OutOfMemory);
    };
    match command.try_get_matches_from(words) {
        Ok(matches) => chosen_in(&matches).ok_or(ErrorKind::InvalidInput),
        Err(error) => match error.kind() {
            clap::error::ErrorKind::OutOfMemory => Err(ErrorKind::OutOfMemory),
            _ => Err(ErrorKind::InvalidInput),
        },
    }
}

/// What was asked for; `None` if that is not one of the two.
fn chosen_in<'a>(matches: &ArgMatches<'a>) -> Option<Chosen<'a>>
    ensures { option_map path_of result ≡ chosen (first_value (found_of matches.now)
        (codes "script")) (first_value (found_of matches.now) (codes "config")) }
{
    match (matches.get_str("script"), matches.get_str("config")) {
        (Some("true"), None) => Some(Chosen::Script),
        (Some("false"), Some(path)) => Some(Chosen::Config(path)),
        _ => None,
    }
}

/// The arguments that there are.
fn command<'a>(alloc: Global) -> Result<Command<'a>, AllocError>
    ensures { IfOk result (λ command. app_of command ≡ arguments) }
{
    let script = Arg::new(alloc, "script")
        .long("script")
        .action(ArgAction::SetTrue);
    let config = Arg::new(alloc, "config")
        .long("config")
        .action(ArgAction::Set);
    let command = Command::new(alloc, "cached").disable_help_flag(true);
    command.arg(script)?.arg(config)
}
