//! Reads the command line.
ghost use Rattle.std.specs.Prelude.{◌≡◌, IfOk, IfSome, IsOk, [], map};
ghost use Rattle.clap.specs.Faults.{fault_of};
ghost use Rattle.clap.specs.Simple.{subcommand_of};
ghost use Rattle.arguments.specs.CommandLine.{the_command, Names, name_of};

use crate::command::command;
use crate::given::Given;
use clap::Error;
use clap::error::ErrorKind;
use failures::WordsError;
use std::alloc::{AllocError, Global};

/// A command of the program.
#[derive(Clone, Copy, Debug, PartialEq, Eq)]
pub enum CommandName {
    /// Serve associations.
    Serve,
    /// Replay a recorded association.
    Replay,
    /// List the elements of files.
    Show,
    /// Check files and their values.
    Check,
    /// Write the directory of a folder.
    Index,
    /// Check a directory and list its records.
    CheckDir,
    /// List the studies of folders.
    List,
    /// Link the files of folders into a tree.
    Arrange,
    /// Send the files of a folder to an archive.
    Send,
    /// Test whether an archive answers.
    Echo,
}

impl CommandName {
    /// Returns the command of this name, or `None` if there is none.
    fn of(name: &str) -> Option<CommandName>
        ensures { IfSome result (λ c. name_of c ≡ name.now) }
    {
        Some(match name {
            "serve" => CommandName::Serve,
            "replay" => CommandName::Replay,
            "show" => CommandName::Show,
            "check" => CommandName::Check,
            "index" => CommandName::Index,
            "checkdir" => CommandName::CheckDir,
            "list" => CommandName::List,
            "arrange" => CommandName::Arrange,
            "send" => CommandName::Send,
            "echo" => CommandName::Echo,
            _ => return None,
        })
    }
}

/// What the command line requests: a command, and its arguments.
#[derive(Debug, Drop)]
pub struct Job<'a> {
    pub command: CommandName,
    pub given: Given<'a>,
}

/// The most uses of `--caller` and of `--storage-class`.
pub(crate) const MOST_VALUES: usize = 64;

/// The most uses of `--ae`.
pub(crate) const MOST_TITLES: usize = 16;

/// The most uses of `--listen`.
pub(crate) const MOST_ADDRESSES: usize = 4;

/// The most uses of `--transfer-syntax`.
pub(crate) const MOST_SYNTAXES: usize = 16;

/// How often options may be given that clap accepts any number of times.
static MOST: [(&str, usize); 5] = [
    ("caller", MOST_VALUES),
    ("storage-class", MOST_VALUES),
    ("listen", MOST_ADDRESSES),
    ("ae", MOST_TITLES),
    ("transfer-syntax", MOST_SYNTAXES),
];

/// Returns this program's error for clap's: help and the version are shown, other errors are
/// refusals.
fn refusal(alloc: Global, error: Error) -> WordsError {
    let text = match format!(in alloc; "{error}") {
        Ok(text) => text,
        Err(error) => return WordsError::Memory(error),
    };
    match error.kind() {
        ErrorKind::DisplayHelp | ErrorKind::DisplayVersion => WordsError::Shown(text),
        ErrorKind::OutOfMemory => WordsError::Memory(AllocError),
        _ => WordsError::Refused(text),
    }
}

/// Returns the error for a command line without a command, which clap refuses before.
fn no_command(alloc: Global) -> WordsError {
    WordsError::refused(alloc, "no command is given")
}

/// Reads the arguments of the command line; the first is the program's name. Fails if clap refuses
/// them, or if an option is given too often.
///
/// `accepted`: if the arguments are accepted, they have none of the faults of clap's definition of a
/// simple command, such as a repeated option.
///
/// `named`: the subcommand, the values and the flags are those of clap's definition of a simple
/// command for these arguments.
pub fn read_words<'a>(alloc: Global, words: &'a [&'a str]) -> Result<Job<'a>, WordsError>
    ensures accepted { IsOk result → fault_of the_command (map (λ w. w.now) words.entry.now) ≡ [] }
    ensures named { IfOk result (λ job. Names job (subcommand_of the_command (map (λ w. w.now) words.entry.now))) }
{
    let command = command(alloc)?;
    let mut matches = match command.try_get_matches_from(words) {
        Ok(matches) => matches,
        Err(error) => return Err(refusal(alloc, error)),
    };
    let Some((name, found)) = matches.remove_subcommand() else {
        return Err(no_command(alloc));
    };
    let Some(command) = CommandName::of(name) else {
        return Err(no_command(alloc));
    };
    let given = Given::new(found);
    for (option, most) in &MOST {
        given.few(alloc, *option, *most)?;
    }
    Ok(Job { command, given })
}
