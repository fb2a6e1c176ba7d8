//! The program's words.
use clap::{Arg, ArgAction, ArgMatches, Command, Error};
use std::alloc::{AllocError, Global};
use std::convert::AsStr;
use std::io::ErrorKind;

/// What the arguments ask for.
#[derive(Clone, Copy, Drop)]
pub enum Asked<'a> {
    /// Serve what the configuration file at this path says.
    Config(&'a str),
    /// Say what is wrong with the configuration file at this path.
    Check(&'a str),
    /// Say the version of the program.
    Version,
    /// Say how the program is used.
    Help,
}

impl<'a> Asked<'a> {
    /// Returns the path of the file that is asked for, or an empty text if none is.
    pub fn path(self) -> &'a str {
        match self {
            Asked::Config(path) | Asked::Check(path) => path,
            Asked::Version | Asked::Help => "",
        }
    }
}

/// Takes the arguments: exactly one of `--config FILE`, `--check FILE`, `--version` and `--help`. The first is the program's name. Returns
/// `OutOfMemory` if there is not enough memory, and `InvalidInput` for other arguments.
pub fn take_words<'a, S: AsStr>(alloc: Global, words: &'a [S]) -> Result<Asked<'a>, ErrorKind> {
    match match_words(alloc, words) {
        Ok(matches) => asked_by(&matches).ok_or(ErrorKind::InvalidInput),
        Err(error) => Err(kind_of(error.kind())),
    }
}

/// Which kind of error it is that words do not match.
fn kind_of(kind: clap::error::ErrorKind) -> ErrorKind {
    match kind {
        clap::error::ErrorKind::OutOfMemory => ErrorKind::OutOfMemory,
        _ => ErrorKind::InvalidInput,
    }
}

/// What matched words ask for, if it is one thing.
fn asked_by<'a>(matches: &ArgMatches<'a>) -> Option<Asked<'a>> {
    let flags = (matches.get_flag("version"), matches.get_flag("help"));
    match (matches.get_str("config"), matches.get_str("check"), flags) {
        (Some(path), None, (false, false)) => Some(Asked::Config(path)),
        (None, Some(path), (false, false)) => Some(Asked::Check(path)),
        (None, None, (true, false)) => Some(Asked::Version),
        (None, None, (false, true)) => Some(Asked::Help),
        _ => None,
    }
}

/// A command that takes one more argument, `--NAME`.
fn with<'a>(
    alloc: Global,
    command: Command<'a>,
    name: &'a str,
    action: ArgAction,
) -> Result<Command<'a>, AllocError> {
    command.arg(Arg::new(alloc, name).long(name).action(action))
}

/// The arguments that there are.
fn command<'a>(alloc: Global) -> Result<Command<'a>, AllocError> {
    let command = Command::new(alloc, "bivrangd")
        .disable_help_flag(true)
        .disable_version_flag(true);
    let command = with(alloc, command, "config", ArgAction::Set)?;
    let command = with(alloc, command, "check", ArgAction::Set)?;
    let command = with(alloc, command, "version", ArgAction::SetTrue)?;
    with(alloc, command, "help", ArgAction::SetTrue)
}

/// The words, matched with these arguments.
fn match_words<'a, S: AsStr>(alloc: Global, words: &'a [S]) -> Result<ArgMatches<'a>, Error> {
    command(alloc)?.try_get_matches_from(words)
}
