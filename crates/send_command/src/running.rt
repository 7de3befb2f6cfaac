//! Runs `dcmbox send`.
use crate::listing::list_files;
use crate::refused::check_refused;
use crate::report::SendReport;
use crate::sender::Sender;
use arguments::Send;
use failures::{ProgramError, flushed};
use inspection::{Outcome, OutputForm};
use std::io::{self, BufWriter, Write};
use std::net::Net;
use std::rt::Files;
use std::time::Clock;

/// Sends the files of a folder to an archive in the order of their names, removes those that it has
/// filed if that is asked for, moves those that it refuses for good to the folder of refused files
/// if there is one, and writes the numbers of files on `out`: a line, or a JSON object. On `err` a
/// line reports each file that is not filed, with the reason.
///
/// The outcome is `Good` if each file was filed and none stays that was to be removed.
///
/// Fails if the folder can't be listed, or that of refused files can't be used; after the numbers
/// were written, if the archive can't be reached; also if the numbers can't be written, or memory
/// runs out.
pub fn send_folder<R: Files + Net + Alloc + Clock, O: Write, E: Write + Drop>(
    rt: &R,
    settings: &Send<'_>,
    out: &mut O,
    err: E,
) -> Result<Outcome, ProgramError>
where
    R::A: Copy,
{
    let mut report = SendReport::new(err, settings.verbose);
    let listing = list_files(rt, settings.dir, settings.any_name, &mut report)?;
    if let Some(refused) = settings.refused {
        check_refused(rt, settings, refused)?;
    }
    let mut sender = Sender::new(rt, settings, &listing, report);
    let ran = sender.run();
    let counts = sender.report.counts;
    let form = if settings.json {
        OutputForm::Json
    } else {
        OutputForm::Lines
    };
    counts.write(form, out).map_err(ProgramError::of_output)?;
    ran?;
    Ok(counts.outcome())
}

/// Sends the files of a folder as [`send_folder`] does, and prints the numbers of files.
pub fn send(rt: &HostRuntime, settings: &Send<'_>) -> Result<Outcome, ProgramError> {
    let mut out = BufWriter::new(rt.alloc(), io::writer(rt)).map_err(ProgramError::of_output)?;
    let sent = send_folder(rt, settings, &mut out, rt.stderr());
    flushed(sent, &mut out)
}
