//! The program: reads its arguments, runs the command, and reports errors.
use crate::marked::{owned_words, refused_word};
use crate::perform::perform;
use crate::standard::open_standard;
use arguments::{CommandName, Job, read_words};
use failures::{Failure, ProgramError, WordsError};
use inspection::Outcome;
use std::alloc::{AllocError, Global};
use std::fmt;
use std::process::ExitCode;

/// The exit status if a fault was found in a file.
const FAULTY: u8 = 1;

/// The exit status for invalid arguments.
const REFUSED: u8 = 2;

/// The exit status if the system failed or memory ran out.
const FAILED: u8 = 3;

/// A text from the user, shown with a question mark for each control character, which might change
/// the terminal.
#[derive(Clone, Copy)]
struct Masked<'a> {
    text: &'a str,
    /// Whether line feeds are kept.
    has_lines: bool,
}

impl fmt::Display for Masked<'_> {
    fn fmt<W: fmt::Write>(&self, f: &mut fmt::Formatter<W>) -> fmt::Result {
        for character in self.text.chars() {
            let is_kept = !character.is_control() || self.has_lines && character == '\n';
            f.write_char(if is_kept { character } else { '?' })?;
        }
        Ok(())
    }
}

/// Returns the argument that names the subject of an error: a file, a folder, an address or a port,
/// or `None` if the error has no subject.
fn subject_argument(command: CommandName, failure: Option<Failure>) -> Option<&'static str> {
    Some(match (command, failure) {
        (CommandName::Serve, Some(Failure::Listen | Failure::KeptPort)) => "port",
        (CommandName::Serve, Some(Failure::Address)) => "bind",
        (CommandName::Serve, Some(Failure::FurtherAddress)) => "listen",
        (CommandName::Serve, Some(Failure::BusyMetrics)) => "metrics",
        (CommandName::Serve, Some(Failure::Numbers | Failure::BusyNumbers)) => "numbers",
        (CommandName::Serve, Some(Failure::Callers)) => "callers",
        (CommandName::Serve | CommandName::Replay, Some(failure)) if failure.is_of_folder() =>
            "out",
        (CommandName::Arrange, Some(failure)) if failure.is_of_tree() => "to",
        (CommandName::Send | CommandName::Echo, Some(Failure::Archive)) => "HOST:PORT",
        (CommandName::Send, Some(Failure::Refused)) => "refused",
        (CommandName::List | CommandName::Arrange | CommandName::Send, Some(failure))
            if failure.is_of_folder() => "DIR",
        (CommandName::Index, _) => "DIR",
        (CommandName::Replay | CommandName::Show | CommandName::Check | CommandName::CheckDir, _) =>
            { "FILE" }
        _ => return None,
    })
}

/// Returns the subject of an error for its message, or an empty text if there is none, or if
/// several are given.
fn subject<'a>(job: &Job<'a>, error: &ProgramError) -> &'a str {
    match subject_argument(job.command, error.failure()) {
        Some(argument) => match job.given.all(argument) {
            [subject] => *subject,
            _ => "",
        },
        None => "",
    }
}

/// Prints an error on standard error, unless the error is that the output is closed. Returns exit
/// status 3.
fn fail(rt: &HostRuntime, subject: &str, error: &ProgramError) -> ExitCode {
    if !error.is_of_closed_output() {
        let _ = if subject.is_empty() {
            eprintln!(rt; "dcmbox: {error}")
        } else {
            let subject = Masked {
                text: subject,
                has_lines: false,
            };
            eprintln!(rt; "dcmbox: {subject}: {error}")
        };
    }
    ExitCode::from(FAILED)
}

/// Prints help or the version. Returns exit status 0, or 3 if it cannot be printed.
fn show(rt: &HostRuntime, text: &str) -> ExitCode {
    match print!(rt; "{text}") {
        Ok(()) => ExitCode::SUCCESS,
        Err(error) => fail(rt, "", &ProgramError::of_output(error)),
    }
}

/// Prints the text of an error, and returns the exit status.
fn report(rt: &HostRuntime, subject: &str, error: &ProgramError) -> ExitCode {
    match error {
        ProgramError::Words(WordsError::Shown(text)) => show(rt, text.as_str()),
        ProgramError::Words(WordsError::Refused(text)) => {
            let text = Masked {
                text: text.as_str(),
                has_lines: true,
            };
            let _ = eprint!(rt; "{text}");
            ExitCode::from(REFUSED)
        }
        _ => fail(rt, subject, error),
    }
}

/// Returns the arguments as borrowed texts.
fn words_of<'a>(alloc: Global, owned: &'a [String]) -> Result<Vec<&'a str, Global>, AllocError> {
    let mut words = Vec::new(alloc);
    for word in owned {
        words.push(word.as_str())?;
    }
    Ok(words)
}

/// Runs the command, prints its error, if any, and returns the exit status.
fn status_of(rt: &HostRuntime, job: &Job) -> ExitCode {
    match perform(rt, job) {
        Ok(Outcome::Good) => ExitCode::SUCCESS,
        Ok(Outcome::Faulty) => ExitCode::from(FAULTY),
        Err(error) => report(rt, subject(job, &error), &error),
    }
}

/// Reads the arguments, runs their command, and returns the exit status. Fails if the arguments are
/// invalid or ask for help, or if one is neither UTF-8 nor a file of `show` or `check`.
fn run_words(rt: &HostRuntime, owned: &[String]) -> Result<ExitCode, ProgramError> {
    let words = words_of(rt.alloc(), owned)?;
    let job = read_words(rt.alloc(), words.as_slice())?;
    if let Some((number, word)) = refused_word(owned, &job) {
        let text = format!(in rt.alloc(); "error: argument {number} is not UTF-8: {word}\n")?;
        return Err(ProgramError::Words(WordsError::Refused(text)));
    }
    Ok(status_of(rt, &job))
}

/// Runs the program: opens the standard descriptors that are closed, reads the arguments, runs the
/// command, and prints an error on standard error. Returns the exit status: 0; 1 if a fault was
/// found in a file; 2 for invalid arguments; 3 if the system failed or memory ran out.
pub fn run_program(rt: &HostRuntime) -> ExitCode {
    open_standard(rt);
    let ran = match owned_words(rt) {
        Ok(owned) => run_words(rt, owned.as_slice()),
        Err(error) => Err(ProgramError::System(Failure::Arguments, error)),
    };
    match ran {
        Ok(status) => status,
        Err(error) => report(rt, "", &error),
    }
}
