//! `dcmbox echo`: tests whether an archive answers.
use crate::sender::{connect, titles_of};
use crate::texts::EndingText;
use arguments::Archive;
use dimse::status;
use failures::{Failure, ProgramError};
use inspection::{Outcome, Printable};
use sending::{Association, Ending, StorageContext};
use std::io::{Read, Write};
use std::time::Clock;

/// What an archive answered to a C-ECHO.
#[derive(Clone, Copy)]
struct Echoed {
    status: u16,
    /// The greatest length of a P-DATA-TF PDU that it receives; 0 for no limit.
    maximum: u32,
}

/// Sends a C-ECHO in an association of its own over this stream. Returns `None` if the archive does
/// not accept its presentation context.
fn exchange<R: Alloc, S: Read + Write + Drop>(
    rt: &R,
    archive: &Archive<'_>,
    stream: S,
) -> Result<Option<Echoed>, Ending>
where
    R::A: Copy,
{
    let contexts = [StorageContext::of_verification()];
    let [context] = &contexts;
    let mut association = Association::open(rt.alloc(), stream, titles_of(archive), &contexts)?;
    let echoed = if association.accepts(context) {
        let (status, maximum) = (association.echo(context)?, association.maximum);
        Some(Echoed { status, maximum })
    } else {
        None
    };
    let _ = association.release();
    Ok(echoed)
}

/// Opens an association with the archive and sends a C-ECHO. Prints a line with its status, how long
/// that took from the connection on, and the longest PDU that the archive takes. If there is no
/// response, standard error has the reason.
///
/// The outcome is `Good` after a response with the status success.
///
/// Fails with `Archive` if no connection can be opened, and if the line can't be printed.
pub fn echo(rt: &HostRuntime, archive: &Archive<'_>) -> Result<Outcome, ProgramError> {
    let began = rt.monotonic().unwrap_or_default();
    let stream = match connect(rt, archive) {
        Ok(stream) => stream,
        Err(error) => return Err(ProgramError::of(Failure::Archive, error)),
    };
    let address = Printable(archive.address.as_bytes());
    let Echoed { status, maximum } = match exchange(rt, archive, stream) {
        Ok(Some(echoed)) => echoed,
        Ok(None) => {
            let _ = eprintln!(rt; "dcmbox: {address}: the archive does not accept Verification");
            return Ok(Outcome::Faulty);
        }
        Err(ending) => {
            let ending = EndingText(&ending, archive.timeout);
            let _ = eprintln!(rt; "dcmbox: {address}: {ending}");
            return Ok(Outcome::Faulty);
        }
    };
    let taken = rt.monotonic().unwrap_or_default().saturating_sub(began);
    let milliseconds = taken.as_millis();
    println!(rt; "status {status:04X} milliseconds {milliseconds} longest PDU {maximum}").map_err(
        ProgramError::of_output,
    )?;
    Ok(if status == status::SUCCESS {
        Outcome::Good
    } else {
        Outcome::Faulty
    })
}
