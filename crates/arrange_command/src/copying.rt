//! Copies files: to a draft, which is renamed once it is complete.
ghost use Rattle.std.specs.Prelude.{IfOk, OnOk};
ghost use Rattle.arrange_command.specs.Copying.{GetsAll};
ghost use Rattle.arrange_command.specs.Placing.{HasGiven, TakesNone};

use crate::tree_calls::TreeCalls;
use element::interrupted::read_retrying;
use failures::{Failure, ProgramError};
use folder_filing::StoredFile;
use std::fs::{self, File, OpenFile};
use std::io::{self, Error, ErrorKind, Read, Write};
use std::rt::Files;

/// How many bytes are copied at a time.
const PIECE: usize = 16384;

/// The system error `EPERM`, with which Linux rejects hard links on vfat and exFAT.
const NOT_PERMITTED: i32 = 1;

/// Returns the error for a tree that cannot be written.
pub(crate) fn of_tree(error: Error) -> ProgramError {
    ProgramError::of(Failure::Tree, error)
}

/// Opens and locks the folder of the tree, so that no other program uses its draft. The lock lasts
/// until the returned folder is closed. Fails if another program has locked it.
pub(crate) fn locked<R: Files>(rt: &R, tree: &str) -> Result<R::File, ProgramError>
where
    R::File: StoredFile,
{
    let folder = fs::open(rt, tree).map_err(of_tree)?;
    let Err(error) = folder.try_lock() else {
        return Ok(folder);
    };
    let error = Error::from(error);
    let failure = match error.kind() {
        ErrorKind::WouldBlock => Failure::BusyFolder,
        _ => Failure::Tree,
    };
    Err(ProgramError::of(failure, error))
}

/// Copies all bytes of the reader to the writer. Fails if a read or a write does.
#[tactic(auto, using(crate::proofs::CopiesAreWhole::at_end))]
fn copy<R: Read, W: Write>(from: &mut R, to: &mut W) -> Result<(), ProgramError>
    ensures whole { OnOk result (GetsAll (R.remaining from.old) (W.contents to.old) (W.contents to.new)) }
{
    let mut room = [0; PIECE];
    for _ in 0..u64::MAX {
        let count = match read_retrying(from, &mut room) {
            Ok(0) => return Ok(()),
            Ok(count) => count,
            Err(error) => return Err(ProgramError::of(Failure::Read, error)),
        };
        to.write_all(&room[..count]).map_err(of_tree)?;
    }
    Err(of_tree(Error::from(ErrorKind::FileTooLarge)))
}

/// Copies a file to the draft and syncs the draft to the disk. An existing draft is removed, not
/// overwritten, since it may be a hard link to a file of the tree.
fn write_draft<R: Files>(rt: &R, file: &str, draft: &str) -> Result<(), ProgramError> {
    let mut from = fs::open(rt, file).map_err(|error| ProgramError::of(Failure::Open, error))?;
    let _ = fs::remove_file(rt, draft);
    let mut to = File::create_new(rt, draft).map_err(of_tree)?;
    copy(&mut from, &mut to)?;
    to.sync_all().map_err(of_tree)
}

/// Returns whether an error of `hard_link` means that the file system has no hard links.
fn is_without_links(error: &Error) -> bool {
    error.kind() == ErrorKind::Unsupported || error.raw_os_error() == Some(NOT_PERMITTED)
}

/// Gives the draft this path: by a hard link or, on a file system without hard links, by a rename
/// after a check that the path is free.
///
/// Fails with `AlreadyExists` if something exists at the path.
fn name_draft<R: Files>(rt: &R, draft: &str, path: &str, calls: &mut TreeCalls) -> io::Result<()>
    ensures given { OnOk result (HasGiven calls.new) }
    ensures none { TakesNone calls.old → TakesNone calls.new }
{
    match calls.link(rt, draft, path) {
        Err(error) if is_without_links(&error) => {
            calls.check_free(rt, path)?;
            calls.rename(rt, draft, path)
        }
        named => named,
    }
}

/// Copies a file to the draft and gives the draft this path. The inner result is that of giving the
/// path.
///
/// Fails if the file cannot be read or the draft cannot be written.
pub(crate) fn put_copy<R: Files>(
    rt: &R,
    file: &str,
    draft: &str,
    path: &str,
    calls: &mut TreeCalls,
) -> Result<io::Result<()>, ProgramError>
    ensures given { IfOk result (λ named. OnOk named (HasGiven calls.new)) }
    ensures none { TakesNone calls.old → TakesNone calls.new }
{
    let named = match write_draft(rt, file, draft) {
        Ok(()) => Ok(name_draft(rt, draft, path, calls)),
        Err(error) => Err(error),
    };
    let _ = fs::remove_file(rt, draft);
    named
}
