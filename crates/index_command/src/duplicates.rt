//! Reports duplicates: files of a directory with the SOP Instance UID of an earlier file.
use crate::kept::path_of;
use checkdir_command::PathText;
use dicomdir::FileId;
use dicomdir_writing::{Built, Row};
use failures::ProgramError;
use indexmap::IndexMap;
use inspection::Printable;
use keyed_files::have_the_same;
use std::alloc::{AllocError, Allocator};
use std::hash::{BuildHasherDefault, FoldHasher};
use std::io::Write;
use std::rt::Files;

/// Files by SOP Instance UID.
type FilesByUid<A> = IndexMap<Vec<u8, A>, FileId, BuildHasherDefault<FoldHasher>, A>;

/// Returns the file of the first row of each instance.
fn first_files<A: Allocator + Copy>(
    alloc: A,
    rows: &[Row<A>],
) -> Result<FilesByUid<A>, AllocError> {
    let mut files = IndexMap::new(alloc);
    for row in rows {
        if files.get_index_of(row.instance()).is_none() {
            files.insert(Vec::from_slice(alloc, row.instance())?, row.file_id())?;
        }
    }
    Ok(files)
}

/// Reports whether a duplicate has the same bytes as the first file with its SOP Instance UID.
fn report_duplicate<R: Files + Alloc, E: Write>(
    rt: &R,
    dir: &str,
    (double, first): (FileId, FileId),
    err: &mut E,
) -> Result<(), ProgramError>
where
    R::A: Copy,
{
    let path = path_of(rt.alloc(), dir, &double)?;
    let other = path_of(rt.alloc(), dir, &first)?;
    let bytes = match have_the_same(rt, path.as_str(), other.as_str()) {
        Ok(true) => "with the same bytes",
        Ok(false) => "with other bytes",
        Err(_) => "which can't be compared",
    };
    let (path, first) = (Printable(path.as_bytes()), PathText(first));
    let _ = writeln!(err, "dcmbox: {path}: a double of {first}, {bytes}");
    Ok(())
}

/// Reports for each duplicate whether it has the same bytes as the first file with its SOP Instance
/// UID.
///
/// Fails if memory runs out.
pub(crate) fn report_duplicates<R: Files + Alloc, E: Write>(
    rt: &R,
    dir: &str,
    built: &Built<'_, R::A>,
    err: &mut E,
) -> Result<(), ProgramError>
where
    R::A: Copy,
{
    if built.duplicates().is_empty() {
        return Ok(());
    }
    let first = first_files(rt.alloc(), built.rows())?;
    for index in built.duplicates() {
        if let Some(row) = built.rows().get(*index) {
            if let Some(file) = first.get(row.instance()) {
                report_duplicate(rt, dir, (row.file_id(), *file), err)?;
            }
        }
    }
    Ok(())
}
