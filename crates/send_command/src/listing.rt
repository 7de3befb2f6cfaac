//! Lists the files of a folder that are to be sent, and the presentation contexts that they need.
use crate::report::SendReport;
use failures::{Failure, ProgramError};
use inspection::{DIRECTORY_CLASS, Judgement};
use keyed_files::{
    FolderWalk, WalkEntry, WalkOrder, has_vanished, is_draft, is_received_file, is_received_folder,
    last_name,
};
use part10::{Meta, MetaFault, read_any_meta};
use sending::{MOST_CONTEXTS, StorageContext};
use std::alloc::{AllocError, Allocator};
use std::fs;
use std::io::{self, BufReader, ErrorKind, Write};
use std::rt::Files;

/// The size in bytes of the buffer through which headers are read.
const READ: usize = 1024;

/// A file that is to be sent.
#[derive(Drop)]
pub(crate) struct ListedFile<A: Allocator> {
    pub path: String<A>,
    /// Which of the presentation contexts it is sent in.
    pub context: usize,
}

/// The files that are to be sent, in their order, and the presentation contexts that they need.
#[derive(Drop)]
pub(crate) struct Listing<A: Allocator> {
    /// Whether each DICOM file is listed, not only files named like received files.
    any_name: bool,
    pub files: Vec<ListedFile<A>, A>,
    pub contexts: Vec<StorageContext, A>,
}

/// Reads the File Meta Information of a file.
fn meta_of<R: Files + Alloc>(rt: &R, path: &str) -> io::Result<Result<Meta, MetaFault>> {
    let file = fs::open(rt, path)?;
    let mut reader = BufReader::with_capacity(rt.alloc(), READ, file)?;
    Ok(read_any_meta(&mut reader))
}

/// Returns whether a file is unfinished or is what a quarantine keeps, by its name: one that ends
/// in `.part`, or six digits and `.dcm` with a text beside it.
fn is_set_aside<R: Files + Alloc>(rt: &R, path: &str) -> Result<bool, AllocError> {
    let Some(stem) = path.strip_suffix(".dcm") else {
        return Ok(path.ends_with(".part"));
    };
    let digits = last_name(stem).as_bytes();
    if digits.len() != 6 || !digits.iter().all(|byte| byte.is_ascii_digit()) {
        return Ok(false);
    }
    let text = format!(in rt.alloc(); "{stem}.txt")?;
    Ok(fs::symlink_metadata(rt, text.as_str()).is_ok())
}

/// Returns whether a file at this path below the folder is sent, for its name.
pub(crate) fn is_taken(below: &str, any_name: bool) -> bool {
    if any_name {
        return !below.starts_with('.') && !below.contains("/.") && !is_draft(last_name(below));
    }
    is_received_file(below)
}

impl<A: Allocator + Copy> Listing<A> {
    /// Returns the index of the presentation context for the instance of this header, or `None` if
    /// there are 128 others.
    fn context_of(&mut self, meta: Meta) -> Result<Option<usize>, AllocError> {
        for (index, context) in self.contexts.iter().enumerate() {
            if context.class == meta.class && context.syntax == meta.syntax {
                return Ok(Some(index));
            }
        }
        let index = self.contexts.len();
        if index >= MOST_CONTEXTS {
            return Ok(None);
        }
        let context = StorageContext::new(index as u8, meta.class, meta.syntax);
        self.contexts.push(context)?;
        Ok(Some(index))
    }

    /// Adds a file, or reports why it is left out. A DICOMDIR and a file that has vanished are
    /// passed over, and with any name also files that are no DICOM files.
    fn add<R: Files + Alloc<A = A>, E: Write + Drop>(
        &mut self,
        rt: &R,
        path: String<A>,
        report: &mut SendReport<E>,
    ) -> Result<(), ProgramError> {
        match meta_of(rt, path.as_str()) {
            Ok(Ok(meta)) if meta.class.as_bytes() == DIRECTORY_CLASS => {}
            Ok(Ok(meta)) => match self.context_of(meta)? {
                Some(context) => self.files.push(ListedFile { path, context })?,
                None => report.leave_out(
                    path.as_str(),
                    &"its SOP class and transfer syntax follow after 128 others",
                ),
            },
            Ok(Err(MetaFault::NotPart10)) if self.any_name => {}
            Ok(Err(fault)) => report.leave_out(path.as_str(), &Judgement::BadHeader(fault)),
            Err(error) if error.kind() == ErrorKind::NotFound => {}
            Err(error) => report.leave_out(path.as_str(), &ProgramError::of(Failure::Open, error)),
        }
        Ok(())
    }

    /// Adds what is at a path, which below the folder begins at offset `above`.
    fn visit<R: Files + Alloc<A = A>, E: Write + Drop>(
        &mut self,
        rt: &R,
        entry: WalkEntry<A>,
        above: usize,
        report: &mut SendReport<E>,
    ) -> Result<(), ProgramError> {
        let WalkEntry { path, found } = entry;
        let below = path.as_str().get(above..).unwrap_or("");
        let is_named = is_taken(below, self.any_name);
        match found {
            Ok(found) if !found.is_file() || !is_named => {}
            Ok(_) => {
                if !self.any_name || !is_set_aside(rt, path.as_str())? {
                    self.add(rt, path, report)?;
                }
            }
            Err(error) => {
                if error.failure().is_none() {
                    return Err(error);
                }
                let is_due = is_named || is_received_folder(below);
                if is_due && !has_vanished(rt, path.as_str(), &error) {
                    report.leave_out(path.as_str(), &error);
                }
            }
        }
        Ok(())
    }
}

/// Lists the files of a folder in the order of their names, and reports those that are left out.
///
/// Fails if the folder can't be listed, or memory runs out.
pub(crate) fn list_files<R: Files + Alloc, E: Write + Drop>(
    rt: &R,
    dir: &str,
    any_name: bool,
    report: &mut SendReport<E>,
) -> Result<Listing<R::A>, ProgramError>
where
    R::A: Copy,
{
    let mut listing = Listing {
        any_name,
        files: Vec::new(rt.alloc()),
        contexts: Vec::new(rt.alloc()),
    };
    let dir = dir.trim_end_matches('/');
    let mut walk = FolderWalk::below(rt, dir, WalkOrder::Names)?;
    for _ in 0..u64::MAX {
        match walk.next()? {
            Some(entry) => listing.visit(rt, entry, dir.len().saturating_add(1), report)?,
            None => break,
        }
    }
    Ok(listing)
}
