//! Writes the result of `dcmbox index`.
use crate::contents::{Reason, Skipped};
use crate::indexed::Indexed;
use arguments::Index;
use checkdir_command::{PathText, report_fault};
use dicomdir::DirFault;
use dicomdir_writing::Built;
use failures::ProgramError;
use inspection::OutputForm;
use std::alloc::Allocator;
use std::io::{self, Write};

/// Returns the form of the output: JSON, or lines.
pub(crate) fn form_of(settings: &Index) -> OutputForm {
    if settings.json {
        OutputForm::Json
    } else {
        OutputForm::Lines
    }
}

/// Returns the comma before the element of a JSON array with this index.
fn comma_before(index: usize) -> &'static str {
    if index > 0 { "," } else { "" }
}

/// Writes the files without a row, with the reasons: a line each, or the first member of an object
/// and the opening bracket of the array of duplicates.
fn write_skipped<O: Write>(form: OutputForm, skipped: &[Skipped], out: &mut O) -> io::Result<()> {
    if form == OutputForm::Json {
        write!(out, "{{\"skipped\":[")?;
    }
    for (index, Skipped { id, reason }) in skipped.iter().enumerate() {
        let (path, comma, name) = (PathText(*id), comma_before(index), reason.name());
        match (form, reason) {
            (OutputForm::Lines, _) => writeln!(out, "skipped {path} {name} {reason}")?,
            (OutputForm::Json, Reason::Fault(_) | Reason::Compressed) => {
                write!(out, "{comma}{{\"file\":\"{path}\",\"{name}\":{reason}}}")?;
            }
            (OutputForm::Json, _) => {
                write!(
                    out,
                    "{comma}{{\"file\":\"{path}\",\"{name}\":\"{reason}\"}}"
                )?;
            }
        }
    }
    if form == OutputForm::Json {
        write!(out, "],\"doubles\":[")?;
    }
    Ok(())
}

/// Writes the duplicates: the rows left out because an earlier row has the same SOP Instance UID.
fn write_duplicates<A: Allocator, O: Write>(
    form: OutputForm,
    built: &Built<'_, A>,
    out: &mut O,
) -> io::Result<()> {
    for (index, row) in built.duplicates().iter().enumerate() {
        if let Some(row) = built.rows().get(*row) {
            let (path, comma) = (PathText(row.file_id()), comma_before(index));
            match form {
                OutputForm::Lines => writeln!(out, "double {path}")?,
                OutputForm::Json => write!(out, "{comma}\"{path}\"")?,
            }
        }
    }
    Ok(())
}

/// Writes the files that a directory leaves out and, if it is put into the folder, its number of
/// records: as lines, or as one JSON object.
fn write_built<A: Allocator, O: Write>(
    form: OutputForm,
    (built, is_put): (&Built<'_, A>, bool),
    skipped: &[Skipped],
    out: &mut O,
) -> io::Result<()> {
    write_skipped(form, skipped, out)?;
    write_duplicates(form, built, out)?;
    let records = built.records();
    match (form, is_put) {
        (OutputForm::Lines, false) => {}
        (OutputForm::Lines, true) => writeln!(out, "records {records}")?,
        (OutputForm::Json, false) => writeln!(out, "],\"result\":\"kept\"}}")?,
        (OutputForm::Json, true) => {
            writeln!(out, "],\"result\":\"good\",\"record_count\":{records}}}")?;
        }
    }
    out.flush()
}

/// Writes the files that a directory leaves out, and its number of records if it is put into the
/// folder.
pub(crate) fn report_built<A: Allocator, O: Write>(
    form: OutputForm,
    built: (&Built<'_, A>, bool),
    skipped: &[Skipped],
    out: &mut O,
) -> Result<(), ProgramError> {
    write_built(form, built, skipped, out).map_err(ProgramError::of_output)
}

/// Writes which files have no row, before a directory's fault.
fn write_unlisted<O: Write>(form: OutputForm, skipped: &[Skipped], out: &mut O) -> io::Result<()> {
    write_skipped(form, skipped, out)?;
    match form {
        OutputForm::Lines => Ok(()),
        OutputForm::Json => write!(out, "],"),
    }
}

/// Writes which files have no row, and the fault that keeps the directory from being written.
pub(crate) fn refuse<O: Write>(
    form: OutputForm,
    skipped: &[Skipped],
    fault: DirFault,
    out: &mut O,
) -> Result<Indexed, ProgramError> {
    write_unlisted(form, skipped, out).map_err(ProgramError::of_output)?;
    report_fault(fault, form, out)?;
    Ok(Indexed::Faulty)
}
