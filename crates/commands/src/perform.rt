//! Runs the commands of the program.
use crate::options::{
    arrange_options, check_options, columns_of, conditions_of, files_of, form_of, list_options,
    pattern_of, show_options, tags_of,
};
use arguments::{
    CommandName, Given, Job, archive_of, index_settings, replay_settings, send_settings,
    serve_settings,
};
use arrange_command::{BY_UIDS, Part, arrange};
use element::{Uid, Vr, check_value};
use failures::ProgramError;
use file_commands::{Inspection, inspect, inspect_files};
use index_command::index;
use inspection::Outcome;
use list_command::list;
use replay_command::replay;
use send_command::{echo, send};
use serve_command::{callers_text, serve_into};
use std::env::{self, VarError};
use std::io::IsTerminal;

/// A valid text of the file of calling titles.
const ONE_TITLE: &str = "A";

fn perform_serve(rt: &HostRuntime, given: &Given) -> Result<Outcome, ProgramError> {
    // All arguments are validated before the file of calling titles is opened.
    let _judged = serve_settings(rt.alloc(), given, ONE_TITLE)?;
    let listed = callers_text(rt, given.get("callers"))?;
    let settings = serve_settings(rt.alloc(), given, listed.as_str())?;
    serve_into(rt, &settings, (given, listed))?;
    Ok(Outcome::Good)
}

fn perform_replay(rt: &HostRuntime, given: &Given) -> Result<Outcome, ProgramError> {
    let settings = replay_settings(rt.alloc(), given)?;
    replay(rt, &settings)?;
    Ok(Outcome::Good)
}

/// Warns on standard error if the UID that is given breaks the rules of its components (PS3.5
/// section 9.1). The UID is used nevertheless.
fn warn_of(rt: &HostRuntime, uid: &Uid) {
    if check_value(Vr::UI, uid.as_bytes()).is_err() {
        let _ = eprintln!(rt;
            "dcmbox: --uid is taken as it is, but a component of it is empty or begins with 0"
        );
    }
}

fn perform_index(rt: &HostRuntime, given: &Given) -> Result<Outcome, ProgramError> {
    let settings = index_settings(rt.alloc(), given)?;
    if let Some(uid) = &settings.uid {
        warn_of(rt, uid);
    }
    index(rt, &settings)
}

/// The variables of the environment that name the locale of characters, by precedence.
const LOCALES: [&str; 3] = ["LC_ALL", "LC_CTYPE", "LANG"];

/// Returns whether the characters of a locale are UTF-8.
fn is_utf8(locale: &str) -> bool {
    locale.contains("UTF-8") || locale.contains("utf8")
}

/// Returns whether standard output is a terminal and the locale says UTF-8: the first of `LOCALES`
/// that is not empty.
fn is_unicode(rt: &HostRuntime) -> bool {
    if !rt.stdout().is_terminal() {
        return false;
    }
    for name in LOCALES {
        match env::var(rt, name) {
            Ok(locale) if locale.is_empty() => {}
            Ok(locale) => return is_utf8(locale.as_str()),
            Err(VarError::NotPresent) => {}
            Err(_) => return false,
        }
    }
    false
}

fn perform_show(rt: &HostRuntime, given: &Given) -> Result<Outcome, ProgramError> {
    let tags = tags_of(rt.alloc(), given)?;
    let options = show_options(given, tags.as_slice(), is_unicode(rt));
    inspect_files(rt, files_of(given), Inspection::Show(options))
}

fn perform_list(rt: &HostRuntime, given: &Given) -> Result<Outcome, ProgramError> {
    let conditions = conditions_of(rt.alloc(), given)?;
    let columns = columns_of(rt.alloc(), given)?;
    let options = list_options(
        given,
        conditions.as_slice(),
        columns.as_slice(),
        is_unicode(rt),
    );
    list(rt, given.all("DIR"), options)
}

/// Links or copies the files of these arguments into the paths of a pattern.
fn arrange_by<'g: 'a, 'a>(
    rt: &HostRuntime,
    given: &Given<'g>,
    pattern: &'a [Part<'a>],
) -> Result<Outcome, ProgramError> {
    let options = arrange_options(rt.alloc(), given, pattern, is_unicode(rt))?;
    arrange(rt, given.all("DIR"), options)
}

fn perform_arrange(rt: &HostRuntime, given: &Given) -> Result<Outcome, ProgramError> {
    match pattern_of(rt.alloc(), given)? {
        Some(pattern) => arrange_by(rt, given, pattern.as_slice()),
        None => arrange_by(rt, given, BY_UIDS),
    }
}

fn perform_send(rt: &HostRuntime, given: &Given) -> Result<Outcome, ProgramError> {
    let settings = send_settings(rt.alloc(), given)?;
    send(rt, &settings)
}

/// Runs the command that the arguments name.
pub fn perform(rt: &HostRuntime, job: &Job) -> Result<Outcome, ProgramError> {
    let given = &job.given;
    match job.command {
        CommandName::Serve => perform_serve(rt, given),
        CommandName::Replay => perform_replay(rt, given),
        CommandName::Show => perform_show(rt, given),
        CommandName::Check => {
            inspect_files(rt, files_of(given), Inspection::Check(check_options(given)))
        }
        CommandName::Index => perform_index(rt, given),
        CommandName::List => perform_list(rt, given),
        CommandName::Arrange => perform_arrange(rt, given),
        CommandName::Send => perform_send(rt, given),
        CommandName::Echo => echo(rt, &archive_of(rt.alloc(), given)?),
        CommandName::CheckDir => {
            let file = given.text(rt.alloc(), "FILE")?;
            inspect(rt, file, Inspection::Directory(form_of(given)))
        }
    }
}
