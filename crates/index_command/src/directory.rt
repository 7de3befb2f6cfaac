//! `dcmbox index`: writes the DICOMDIR of a folder of received files.
ghost use Rattle.std.specs.Prelude.{◌≡◌, ◌&&◌, length, nat_lt};
ghost use Rattle.dicomdir_writing.specs.Positions.{duplicates_of};
ghost use Rattle.index_command.specs.LeftOut.{left_out};

use crate::contents::{Contents, read_rows};
use crate::duplicates::report_duplicates;
use crate::files::{ListedNames, files_below};
use crate::indexed::{IndexCounts, Indexed};
use crate::kept::{DIRECTORY, IndexedFiles, kept_files, of_directory};
use crate::new_uid::new_uid;
use crate::omitted::report_reasons;
use crate::output::{form_of, refuse, report_built};
use arguments::Index;
use dicomdir::DirFault;
use dicomdir_writing::{Built, build_within, write_dir};
use dictionary::{IMPLEMENTATION_CLASS_UID, Transfer};
use element::Uid;
use failures::{Failure, ProgramError, flushed};
use inspection::{Outcome, Printable, implementation_of};
use std::alloc::Allocator;
use std::fs::{File, OpenFile};
use std::io::{BufWriter, ErrorKind, Read, Write};
use std::rt::Files;
use std::{fs, io};

/// How many bytes of a directory are searched for the implementation that wrote it.
const HEADER_ROOM: u64 = 4096;

/// The name of a directory that is not complete yet.
const DRAFT: &str = "DIRDRAFT";

/// Reports how many DICOM files of a folder are not listed for their names, and what helps.
fn report_others<E: Write>(dir: &str, count: usize, names: ListedNames, err: &mut E) {
    if count == 0 {
        return;
    }
    let dir = Printable(dir.as_bytes());
    let text = match (names, count) {
        (ListedNames::Received, 1) =>
            "file is left out: it has another name than I0000001, or S0000001/I0000001; name it so, or take it with --any-name if its path is a file ID",
        (ListedNames::Received, _) =>
            "files are left out: they have other names than I0000001, or S0000001/I0000001; name them so, or take those whose paths are file IDs with --any-name",
        (ListedNames::Any, 1) =>
            "file is left out: it has a path that is no file ID: up to eight names of at most eight capital letters, digits and underscores; name it so",
        (ListedNames::Any, _) =>
            "files are left out: they have paths that are no file IDs: up to eight names of at most eight capital letters, digits and underscores; name them so",
    };
    let _ = writeln!(err, "dcmbox: {dir}: {count} DICOM {text}");
}

/// Returns the files of a folder that are to be listed, and reports how many are not.
fn found_files<R: Files + Alloc + Clone + Drop, E: Write>(
    rt: &R,
    settings: &Index,
    err: &mut E,
) -> Result<IndexedFiles<R::A>, ProgramError>
where
    R::A: Copy,
{
    let names = if settings.any_name {
        ListedNames::Any
    } else {
        ListedNames::Received
    };
    let others = (settings.ignore_others, settings.follow);
    let found = files_below(rt, settings.dir, names, others)?;
    found.tally.report_passed_by(err);
    report_others(settings.dir, found.others, names, err);
    Ok(IndexedFiles {
        ids: found.ids,
        omitted: 0,
        others: found.others,
    })
}

/// Returns the files that the directory is to list, or the fault of the present directory.
fn files_of<R: Files + Alloc + Clone + Drop, E: Write>(
    rt: &R,
    settings: &Index,
    err: &mut E,
) -> Result<Result<IndexedFiles<R::A>, DirFault>, ProgramError>
where
    R::A: Copy,
{
    if settings.keep {
        return kept_files(rt, settings.dir, err);
    }
    Ok(Ok(found_files(rt, settings, err)?))
}

/// Returns the first bytes of a file, enough for a file header.
fn beginning_of<A: Allocator, R: Read + Drop>(alloc: A, file: R) -> io::Result<Vec<u8, A>> {
    let mut bytes = Vec::new(alloc);
    file.take(HEADER_ROOM).read_to_end(&mut bytes)?;
    Ok(bytes)
}

/// Returns whether a file was written by this implementation.
fn is_own(file: &[u8]) -> bool {
    match implementation_of(file) {
        Some(uid) => uid.as_bytes() == IMPLEMENTATION_CLASS_UID,
        None => false,
    }
}

/// Fails if the folder has a directory that another implementation wrote or that can't be read.
fn spare_others<R: Files + Alloc>(rt: &R, dir: &str) -> Result<(), ProgramError> {
    let path = format!(in rt.alloc(); "{dir}/{DIRECTORY}")?;
    let beginning = match fs::open(rt, path.as_str()) {
        Ok(file) => beginning_of(rt.alloc(), file),
        Err(error) if error.kind() == ErrorKind::NotFound => return Ok(()),
        Err(error) => Err(error),
    };
    match beginning {
        Ok(bytes) if is_own(bytes.as_slice()) => Ok(()),
        Ok(_) => Err(ProgramError::OtherDirectory),
        Err(error) => Err(of_directory(Failure::UnreadDirectory, error)),
    }
}

/// Writes the directory to a file.
fn write_built<A: Allocator + Copy, W: Write>(
    alloc: A,
    file: &mut W,
    built: &Built<'_, A>,
) -> io::Result<()> {
    let mut writer = BufWriter::new(alloc, file)?;
    write_dir(built, &mut writer)?;
    writer.flush()
}

/// Writes the directory to a new file and syncs it to the disk. An existing file is removed, not
/// overwritten, since it may be a link.
fn write_draft<R: Files + Alloc>(rt: &R, path: &str, built: &Built<'_, R::A>) -> io::Result<()>
where
    R::A: Copy,
{
    let _ = fs::remove_file(rt, path);
    let mut file = File::create_new(rt, path)?;
    write_built(rt.alloc(), &mut file, built)?;
    file.sync_all()
}

/// Syncs the names in the folder to the disk.
fn sync<R: Files>(rt: &R, dir: &str) -> io::Result<()> {
    let folder = fs::open(rt, dir)?;
    folder.sync_all()
}

/// Puts the directory into the folder: writes it to the draft, and renames the draft once it is
/// complete. Removes the draft if either fails.
fn put_directory<R: Files + Alloc>(
    rt: &R,
    dir: &str,
    built: &Built<'_, R::A>,
) -> Result<(), ProgramError>
where
    R::A: Copy,
{
    let draft = format!(in rt.alloc(); "{dir}/{DRAFT}")?;
    let path = format!(in rt.alloc(); "{dir}/{DIRECTORY}")?;
    let written = match write_draft(rt, draft.as_str(), built) {
        Ok(()) => fs::rename(rt, draft.as_str(), path.as_str()),
        Err(error) => Err(error),
    };
    if let Err(error) = written {
        let _ = fs::remove_file(rt, draft.as_str());
        return Err(ProgramError::of(Failure::Directory, error));
    }
    sync(rt, dir).map_err(|error| ProgramError::System(Failure::Directory, error))
}

/// Reports what a new directory would lose of the present one, which stays unchanged.
fn keep_old<A: Allocator, O: Write, E: Write>(
    settings: &Index,
    built: &Built<'_, A>,
    contents: &Contents<A>,
    (out, err): (&mut O, &mut E),
) -> Result<Indexed, ProgramError> {
    report_built(
        form_of(settings),
        (built, false),
        contents.skipped.as_slice(),
        out,
    )?;
    let duplicates = built.duplicates().len();
    let (dir, count) = (
        Printable(settings.dir.as_bytes()),
        contents.count(duplicates),
    );
    let _ = writeln!(
        err,
        "dcmbox: {dir}: the DICOMDIR stays as it is: {count} of its records would be lost; without --strict they are left out"
    );
    report_reasons(contents, duplicates, err);
    Ok(Indexed::Kept)
}

/// Reports duplicates, puts the directory into the folder, reports the files left out, and returns
/// the counts.
fn put_and_report<R: Files + Alloc, O: Write, E: Write>(
    rt: &R,
    settings: &Index,
    built: &Built<'_, R::A>,
    contents: &Contents<R::A>,
    (out, err): (&mut O, &mut E),
) -> Result<Indexed, ProgramError>
where
    R::A: Copy,
{
    report_duplicates(rt, settings.dir, built, err)?;
    put_directory(rt, settings.dir, built)?;
    report_built(
        form_of(settings),
        (built, true),
        contents.skipped.as_slice(),
        out,
    )?;
    let counts = IndexCounts::of(built, contents);
    let _ = writeln!(err, "{counts}");
    report_reasons(contents, built.duplicates().len(), err);
    Ok(Indexed::Written(counts))
}

/// Returns the SOP Instance UID of the directory: the given one, or a new one.
fn uid_of<R: Files + Alloc>(rt: &R, settings: &Index) -> Result<Uid, ProgramError> {
    match &settings.uid {
        Some(uid) => Ok(uid.copied()),
        None => new_uid(rt),
    }
}

/// Returns whether the present directory stays as it is, as a new one would lose records of it.
fn stays<A: Allocator>(settings: &Index, built: &Built<'_, A>, contents: &Contents<A>) -> bool
    ensures { result ≡ (settings.now.keep && settings.now.strict && nat_lt 0 (left_out contents.now (length (duplicates_of built.now.rows)))) }
{
    settings.keep && settings.strict && contents.count(built.duplicates().len()) > 0
}

/// Writes the directory of these files, of at most `most` bytes, and reports the files left out or
/// the fault.
fn index_files<R: Files + Alloc, O: Write, E: Write>(
    rt: &R,
    settings: &Index,
    contents: &Contents<R::A>,
    most: u32,
    (out, err): (&mut O, &mut E),
) -> Result<Indexed, ProgramError>
where
    R::A: Copy,
{
    let uid = uid_of(rt, settings)?;
    match build_within(rt.alloc(), contents.rows.as_slice(), uid, most) {
        Ok(built) => {
            if stays(settings, &built, contents) {
                keep_old(settings, &built, contents, (out, err))
            } else {
                put_and_report(rt, settings, &built, contents, (out, err))
            }
        }
        Err(fault) => refuse(form_of(settings), contents.skipped.as_slice(), fault, out),
    }
}

/// Returns the transfer syntaxes that are listed besides the two native ones.
fn additional_syntaxes(all: bool) -> &'static [Transfer] {
    if all { Transfer::encapsulated() } else { &[] }
}

/// Writes the file `DICOMDIR` of a folder: the directory of its received files or, with `keep`, of
/// the images that its present directory keeps. Then it writes a line for each file without a row,
/// with the reason, a line for each duplicate, and the number of records; in JSON, one object.
/// Returns how many images are listed and how many files left out. If no directory can be built
/// (for example one of more than `most` bytes), an old directory stays unchanged and the fault is
/// written. With `keep` and `strict`, an old directory also stays unchanged if the new one would lose
/// a record of it.
///
/// On `err` a line reports each record of the present directory that names a file and is no IMAGE
/// record, each file whose data set has another SOP Instance UID than its header, the numbers of
/// files that are ignored and of DICOM files with names that are not listed, and for each duplicate whether it has the same bytes
/// as the file before it; then the numbers of images listed and files left out, and the reasons.
///
/// Memory for the rows is from `rt`'s allocator.
///
/// Fails if the folder or its directory can't be read; if another implementation wrote the
/// directory and neither `keep` nor `replace` is set; if the system yields no random bytes for a
/// new UID; if the directory or the output can't be written; or if memory runs out. An old
/// directory is then unchanged, except that the new directory is in place if only writing the
/// output or syncing the folder failed.
pub fn index_folder<R: Files + Alloc + Clone + Drop, O: Write, E: Write>(
    rt: &R,
    settings: &Index,
    most: u32,
    out: &mut O,
    err: &mut E,
) -> Result<Indexed, ProgramError>
where
    R::A: Copy,
{
    if !settings.keep && !settings.replace {
        spare_others(rt, settings.dir)?;
    }
    match files_of(rt, settings, err)? {
        Ok(files) => {
            let additional = additional_syntaxes(settings.all_syntaxes);
            let contents = read_rows(rt, settings, files, additional, err)?;
            index_files(rt, settings, &contents, most, (out, err))
        }
        Err(fault) => refuse(form_of(settings), &[], fault, out),
    }
}

/// Writes the directory of a folder as `index_folder` does, of fewer than 2^32 bytes. Returns
/// whether there was a fault. Discards what `index_folder` reports on `err`.
pub fn index_dir<R: Files + Alloc + Clone + Drop, O: Write>(
    rt: &R,
    settings: &Index,
    out: &mut O,
) -> Result<Outcome, ProgramError>
where
    R::A: Copy,
{
    let indexed = index_folder(rt, settings, u32::MAX, out, &mut io::sink())?;
    Ok(indexed.outcome())
}

/// Writes the directory of a folder and prints the files left out; `index_folder` reports on
/// standard error. With `strict`, a file left out is a fault, and with `keep` the old directory then
/// stays unchanged. Output written before an error is printed as well.
pub fn index(rt: &HostRuntime, settings: &Index) -> Result<Outcome, ProgramError> {
    let mut out = BufWriter::new(rt.alloc(), io::writer(rt)).map_err(ProgramError::of_output)?;
    let indexed = index_folder(rt, settings, u32::MAX, &mut out, &mut rt.stderr());
    match flushed(indexed, &mut out)? {
        Indexed::Written(counts) if settings.strict && counts.omitted > 0 => Ok(Outcome::Faulty),
        indexed => Ok(indexed.outcome()),
    }
}
