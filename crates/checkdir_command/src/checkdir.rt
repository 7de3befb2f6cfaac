//! `dcmbox checkdir`: lists the records of a DICOMDIR, or its first fault.
use crate::faults::write_dir_fault;
use crate::texts::PathText;
use dicomdir::{DirFault, Tree, TreeRecord, check};
use element::{Tag, unpadded};
use failures::{Failure, ProgramError, read_whole};
use inspection::{Indent, JsonText, Outcome, OutputForm, Printable, value_from};
use std::alloc::{AllocError, Allocator};
use std::io;
use std::io::{Read, Write};

/// Writes the line of a record: its offset in the file, its type, indented by level, and the path
/// of its file, if any.
fn write_record<O: Write>(record: &TreeRecord<'_>, out: &mut O) -> io::Result<()> {
    let (offset, kind) = (record.offset(), Printable(record.kind()));
    let indent = Indent(usize::from(record.level().saturating_sub(1)));
    match record.file_id() {
        Some(file_id) => {
            let path = PathText(file_id);
            writeln!(out, "{offset:010} {indent}{kind} {path}")
        }
        None => writeln!(out, "{offset:010} {indent}{kind}"),
    }
}

/// Writes a line for each record and a last line with the number of records.
fn write_lines<A: Allocator + Copy, O: Write>(tree: &Tree<'_, A>, out: &mut O) -> io::Result<()> {
    for record in tree.records() {
        write_record(record, out)?;
    }
    let count = tree.records().len();
    writeln!(out, "records {count}")
}

/// Writes a record as an object; its level counts from 0.
fn write_object<O: Write>(record: &TreeRecord<'_>, out: &mut O) -> io::Result<()> {
    let (offset, kind) = (record.offset(), JsonText::ascii(record.kind()));
    let level = record.level().saturating_sub(1);
    write!(
        out,
        "{{\"place\":{offset},\"level\":{level},\"type\":{kind},\"file\":"
    )?;
    match record.file_id() {
        Some(file_id) => {
            let path = PathText(file_id);
            write!(out, "\"{path}\"}}")
        }
        None => write!(out, "null}}"),
    }
}

/// Writes the last members of an object: the array of records and their number.
fn write_members<A: Allocator + Copy, O: Write>(tree: &Tree<'_, A>, out: &mut O) -> io::Result<()> {
    let mut before = "\"records\":[";
    for record in tree.records() {
        write!(out, "{before}")?;
        write_object(record, out)?;
        before = ",";
    }
    let count = tree.records().len();
    writeln!(out, "],\"result\":\"good\",\"record_count\":{count}}}")
}

/// Writes a fault as [`write_dir_fault`] does, and returns `Outcome::Faulty`. Fails if the fault is
/// 67, that memory ran out, or if the output cannot be written.
pub fn report_fault<O: Write>(
    fault: DirFault,
    form: OutputForm,
    out: &mut O,
) -> Result<Outcome, ProgramError> {
    if fault.number == DirFault::OUT_OF_MEMORY {
        return Err(ProgramError::Memory(AllocError));
    }
    match write_dir_fault(fault, form, out) {
        Ok(()) => Ok(Outcome::Faulty),
        Err(error) => Err(ProgramError::of_output(error)),
    }
}

/// The tag of Directory Record Type.
const RECORD_TYPE: Tag = Tag(0x0004, 0x1430);

/// The size of an item's header in bytes.
const ITEM_HEADER: usize = 8;

/// The types of records that the standard allows beside PATIENT in the root (PS3.3 section F.4).
const ROOT_TYPES: [&[u8]; 6] = [
    b"HANGING PROTOCOL",
    b"IMPLANT",
    b"IMPLANT ASSY",
    b"IMPLANT GROUP",
    b"PALETTE",
    b"PRIVATE",
];

/// Returns the type of the record at an offset of a directory, or `None` if there is no record.
fn type_at(bytes: &[u8], offset: u64) -> Option<&[u8]> {
    let first = usize::try_from(offset).ok()?.checked_add(ITEM_HEADER)?;
    Some(unpadded(value_from(bytes, first, RECORD_TYPE)?))
}

/// Reports that a record at a wrong level has a type that the standard allows in the root and
/// `checkdir` does not.
fn report_root_type<E: Write>(bytes: &[u8], fault: DirFault, file: &str, err: &mut E) {
    if fault.number != DirFault::WRONG_LEVEL {
        return;
    }
    if let Some(kind) = type_at(bytes, fault.offset) {
        if ROOT_TYPES.iter().any(|other| *other == kind) {
            let (file, kind) = (Printable(file.as_bytes()), Printable(kind));
            let offset = fault.offset;
            let _ = writeln!(
                err,
                "dcmbox: {file}: the record at {offset} is of type {kind}, which PS3.3 section F.4 has beside PATIENT, and checkdir does not take"
            );
        }
    }
}

/// Checks a directory and writes its records or its first fault; may report more about the fault on
/// `err`.
fn list_records<A: Allocator + Copy, O: Write, E: Write>(
    alloc: A,
    (file, bytes): (&str, &[u8]),
    form: OutputForm,
    (out, err): (&mut O, &mut E),
) -> Result<Outcome, ProgramError> {
    let written = match check(alloc, bytes) {
        Ok(tree) => match form {
            OutputForm::Lines => write_lines(&tree, out),
            OutputForm::Json => write_members(&tree, out),
        },
        Err(fault) => {
            report_root_type(bytes, fault, file, err);
            return report_fault(fault, form, out);
        }
    };
    match written {
        Ok(()) => Ok(Outcome::Good),
        Err(error) => Err(ProgramError::of_output(error)),
    }
}

/// Writes in JSON that a directory can't be read, and returns the error.
fn unread<O: Write>(form: OutputForm, error: ProgramError, out: &mut O) -> ProgramError {
    if form == OutputForm::Json {
        if let Err(error) = writeln!(out, "\"result\":\"unread\"}}") {
            return ProgramError::of_output(error);
        }
    }
    error
}

/// Checks the directory in the input. Writes a line for each record, depth first, with its offset
/// in the file, its type and the path of its file, and a last line with the number of records; or
/// the line of the first fault. In JSON these are the last members of an object, ended by a line
/// feed.
///
/// If a record of a type that the standard allows in the root is not accepted there, a line on
/// `err` says so with the file's name.
///
/// Fails if the input cannot be read, the output cannot be written, or memory runs out.
pub fn checkdir_named<A: Allocator + Copy, R: Read, O: Write, E: Write>(
    alloc: A,
    (file, input): (&str, &mut R),
    form: OutputForm,
    (out, err): (&mut O, &mut E),
) -> Result<Outcome, ProgramError> {
    match read_whole(alloc, input, Failure::Read) {
        Ok(bytes) => list_records(alloc, (file, bytes.as_slice()), form, (out, err)),
        Err(error) => Err(unread(form, error, out)),
    }
}

/// Checks the directory in the input as `checkdir_named` does, writing lines, and reports nothing
/// on standard error.
pub fn checkdir_over<A: Allocator + Copy, R: Read, O: Write>(
    alloc: A,
    input: &mut R,
    out: &mut O,
) -> Result<Outcome, ProgramError> {
    checkdir_named(
        alloc,
        ("", input),
        OutputForm::Lines,
        (out, &mut io::sink()),
    )
}
