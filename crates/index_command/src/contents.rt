//! Reads the rows of a folder's files for `dcmbox index`, and why a file has none.
ghost use Rattle.std.specs.Prelude.{◌≡◌, ◌∷◌, IfOk, OnOk, IsPermutation};
ghost use Rattle.index_command.specs.LeftOut.{left_out};
ghost use Rattle.index_command.specs.Sharing.{files_of};

use crate::instances::report_other_instance;
use crate::kept::{IndexedFiles, path_of};
use arguments::Index;
use dicomdir::FileId;
use dicomdir_writing::{Row, Skip, described_row_of, rows_of};
use dictionary::{Transfer, storage_class};
use element::{Tag, Uid};
use failures::ProgramError;
use inspection::{FileFront, Printable, TagText};
use keyed_files::open_file;
use part10::{MetaFault, read_any_meta};
use std::alloc::{AllocError, Allocator};
use std::fmt;
use std::io::Write;
use std::rt::Files;

/// Why a file gets no row. It prints as the number of the fault, the tag or the UID.
#[derive(PartialEq, Eq, Drop)]
pub(crate) enum Reason {
    /// The file has the fault with this number.
    Fault(u8),
    /// The file has a compressed transfer syntax, fault 53, which `--all-syntaxes` accepts.
    Compressed,
    /// The file has no value of this element.
    Missing(Tag),
    /// A directory has no IMAGE records for instances of the file's SOP Class.
    Class(Uid),
}

impl Reason {
    /// Returns the word for the reason in the output.
    pub(crate) fn name(&self) -> &'static str {
        match self {
            Reason::Fault(_) | Reason::Compressed => "fault",
            Reason::Missing(_) => "missing",
            Reason::Class(_) => "class",
        }
    }
}

impl fmt::Display for Reason {
    fn fmt<W: fmt::Write>(&self, f: &mut fmt::Formatter<W>) -> fmt::Result {
        match self {
            Reason::Fault(number) => write!(f, "{number}"),
            Reason::Compressed => write!(f, "{}", MetaFault::OtherSyntax.number()),
            Reason::Missing(tag) => {
                let tag = TagText(*tag);
                write!(f, "{tag}")
            }
            Reason::Class(class) => {
                let class = Printable(class.as_bytes());
                write!(f, "{class}")
            }
        }
    }
}

/// Returns whether a directory has IMAGE records for instances of this class; `true` for a class
/// outside the standard's table, which has fewer than 256 rows.
fn is_image_class(uid: &[u8]) -> bool {
    for index in 0..256 {
        match storage_class(index) {
            Some(class) if class.uid == uid => return class.is_image,
            Some(_) => {}
            None => break,
        }
    }
    true
}

/// Opens a file, or reports why it can't be opened.
fn opened<R: Files, E: Write>(rt: &R, path: &str, err: &mut E) -> Result<R::File, Skip> {
    match open_file(rt, path) {
        Ok(file) => Ok(file),
        Err(error) => {
            let path = Printable(path.as_bytes());
            let _ = writeln!(err, "dcmbox: {path}: {error}");
            Err(Skip::Fault(MetaFault::ReadFailed.number()))
        }
    }
}

/// Returns the SOP Class in a file's header if a directory has no IMAGE records for it.
fn other_class<R: Files>(rt: &R, path: &str) -> Option<Uid> {
    let mut file = open_file(rt, path).ok()?;
    let class = read_any_meta(&mut file).ok()?.class;
    if is_image_class(class.as_bytes()) {
        return None;
    }
    Some(class)
}

/// Returns the reason for a file with this fault.
fn fault_of<R: Files>(rt: &R, path: &str, number: u8) -> Reason {
    if number == MetaFault::OtherSyntax.number() {
        if let Ok(mut file) = open_file(rt, path) {
            if read_any_meta(&mut file).is_ok() {
                return Reason::Compressed;
            }
        }
    }
    Reason::Fault(number)
}

/// The options for reading rows.
#[derive(Clone, Copy)]
struct RowOptions<'a> {
    dir: &'a str,
    /// Whether rows have Series Description.
    descriptions: bool,
    /// The transfer syntaxes accepted besides the two native ones.
    additional: &'a [Transfer],
}

/// Reads the row of a file of any class, if its transfer syntax is accepted, with Series Description
/// if the options ask for it. Reports a data set with another SOP Instance UID than the file's
/// header.
fn read_row<R: Files + Alloc, E: Write>(
    rt: &R,
    path: &str,
    id: &FileId,
    reading: RowOptions<'_>,
    err: &mut E,
) -> Result<Row<R::A>, Skip>
where
    R::A: Copy,
    ensures own { IfOk result (λ row. row.file_id ≡ id.now) }
{
    let mut file = opened(rt, path, err)?;
    if reading.descriptions {
        let mut again = opened(rt, path, err)?;
        let row = described_row_of(rt.alloc(), &mut file, &mut again, id, reading.additional)?;
        if let Ok(mut front) = open_file(rt, path) {
            report_other_instance(path, &mut front, row.instance(), err);
        }
        return Ok(row);
    }
    let mut front = FileFront::new(&mut file);
    let row = rows_of(rt.alloc(), &mut front, id, reading.additional)?;
    let mut beginning = front.kept();
    report_other_instance(path, &mut beginning, row.instance(), err);
    Ok(row)
}

/// Reads the row of the file with this file ID. A file of a class without IMAGE records need not
/// have the keys of a row. Fails if memory runs out.
fn row_of<R: Files + Alloc, E: Write>(
    rt: &R,
    id: &FileId,
    reading: RowOptions<'_>,
    err: &mut E,
) -> Result<Result<Row<R::A>, Reason>, AllocError>
where
    R::A: Copy,
    ensures own { IfOk result (λ row. IfOk row (λ row. row.file_id ≡ id.now)) }
{
    let path = path_of(rt.alloc(), reading.dir, id)?;
    let reason = match read_row(rt, path.as_str(), id, reading, err) {
        Ok(row) if is_image_class(row.class()) => return Ok(Ok(row)),
        Ok(_) => Reason::Fault(MetaFault::ReadFailed.number()),
        Err(Skip::Missing(tag)) => Reason::Missing(tag),
        Err(Skip::Fault(number)) => return Ok(Err(fault_of(rt, path.as_str(), number))),
        Err(Skip::OutOfMemory) => return Err(AllocError),
    };
    match other_class(rt, path.as_str()) {
        Some(class) => Ok(Err(Reason::Class(class))),
        None => Ok(Err(reason)),
    }
}

/// A file without a row, and the reason.
#[derive(Drop)]
pub(crate) struct Skipped {
    pub id: FileId,
    pub reason: Reason,
}

/// The result of reading the files of a folder.
#[derive(Drop)]
pub(crate) struct Contents<A: Allocator> {
    pub rows: Vec<Row<A>, A>,
    pub skipped: Vec<Skipped, A>,
    /// How many files the present directory names and the new one leaves out.
    pub omitted: usize,
    /// How many DICOM files have names that are not listed.
    pub others: usize,
}

impl<A: Allocator> Contents<A> {
    /// Returns how many files are left out, with this number of duplicates.
    pub(crate) fn count(&self, duplicates: usize) -> usize
        ensures { result ≡ left_out self.now duplicates }
    {
        let unlisted = self.skipped.len().saturating_add(self.omitted);
        unlisted
            .saturating_add(self.others)
            .saturating_add(duplicates)
    }

    /// Adds the row of a file, or why it has none. Fails if memory runs out.
    fn push(&mut self, id: &FileId, row: Result<Row<A>, Reason>) -> Result<(), AllocError>
        requires own { IfOk row (λ row. row.file_id ≡ id.now) }
        ensures one { OnOk result (IsPermutation (id.now ∷ files_of self.old.rows.items self.old.skipped.items) (files_of self.new.rows.items self.new.skipped.items)) }
    {
        match row {
            Ok(row) => self.rows.push(row)?,
            Err(reason) => self.skipped.push(Skipped { id: *id, reason })?,
        }
        Ok(())
    }
}

/// Reads the rows of files in the native transfer syntaxes and in these, and why a file has no row.
/// Fails if memory runs out.
///
/// `all`: each file has exactly one row, or one reason why it has none.
pub(crate) fn read_rows<R: Files + Alloc, E: Write>(
    rt: &R,
    settings: &Index,
    files: IndexedFiles<R::A>,
    additional: &[Transfer],
    err: &mut E,
) -> Result<Contents<R::A>, ProgramError>
where
    R::A: Copy,
    ensures all { IfOk result (λ contents. IsPermutation files.ids.items (files_of contents.rows.items contents.skipped.items)) }
{
    let reading = RowOptions {
        dir: settings.dir,
        descriptions: settings.descriptions,
        additional,
    };
    let mut contents = Contents {
        rows: Vec::new(rt.alloc()),
        skipped: Vec::new(rt.alloc()),
        omitted: files.omitted,
        others: files.others,
    };
    for id in &files.ids {
        contents.push(id, row_of(rt, id, reading, err)?)?;
    }
    Ok(contents)
}
