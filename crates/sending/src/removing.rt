//! Removes files. Only this module removes a file.
ghost use Rattle.std.specs.Prelude.{◌≡◌, ◌≢◌, [], ◌∷◌, ◌++◌, OnOk, OnErr};
ghost use Rattle.sending.specs.Names.{MovesName};
ghost use Rattle.sending.specs.declared.removing.NameCall.TheVariants.{Named, Removed};

use crate::refused_folder::RefusedFolder;
use crate::sent_file::SentFile;
use element::history::History;
use std::fs::{self, OpenFile};
use std::io::{self, Error, ErrorKind};
use std::rt::Files;

/// What was done with the name of a file, as contracts see it.
#[derive(Drop)]
pub enum NameCall {
    /// The file that was opened at the first path was found at the second one, too, in another
    /// folder.
    Named(History<u8>, History<u8>),
    /// The name at this path was removed, or that was tried.
    Removed(History<u8>),
}

/// Which files are removed and, for contracts, what was done with names so far.
#[derive(Drop)]
pub struct Removals<'a> {
    are_wanted: bool,
    refused: Option<RefusedFolder<'a>>,
    calls: History<NameCall>,
}

/// Returns a path, as contracts see it.
fn history_of(path: &str) -> History<u8>
    ensures { result ≡ path.now }
{
    let mut history = History::new();
    history.append(path.as_bytes());
    history
}

/// Removes a text that was just created and cannot be written.
pub(crate) fn remove_text<R: Files>(rt: &R, path: &str) {
    let _ = fs::remove_file(rt, path);
}

impl<'a> Removals<'a> {
    /// Creates the state before any file was removed: whether files that are filed are removed, and
    /// where those go that are refused for good, if anywhere.
    pub fn new(are_wanted: bool, refused: Option<RefusedFolder<'a>>) -> Removals<'a>
        ensures { result.calls ≡ [] }
    {
        Removals {
            are_wanted,
            refused,
            calls: History::new(),
        }
    }

    /// Returns whether files that are filed are removed.
    pub(crate) fn are_wanted(&self) -> bool {
        self.are_wanted
    }

    /// Returns where files go that are refused for good, if anywhere.
    pub(crate) fn refused(&self) -> Option<RefusedFolder<'a>> {
        self.refused
    }

    /// Removes a file. A call that fails is recorded as well, since it may have removed it.
    pub(crate) fn remove<R: Files>(
        &mut self,
        rt: &R,
        file: &SentFile<'_, R::File>,
    ) -> io::Result<()>
        ensures { self.new.calls ≡ self.old.calls ++ Removed file.now.path.now ∷ [] }
    {
        self.calls.push(&NameCall::Removed(history_of(file.path())));
        fs::remove_file(rt, file.path())
    }

    /// Fails unless a file is still at its path, and at another one in another folder, too.
    fn find<R: Files>(
        &mut self,
        rt: &R,
        file: &SentFile<'_, R::File>,
        other: &str,
    ) -> io::Result<()>
        ensures found { OnOk result (self.new.calls ≡ self.old.calls ++ Named file.now.path.now other.now ∷ []) }
        ensures other { OnOk result (other.now ≢ file.now.path.now) }
        ensures none { OnErr result (self.new.calls ≡ self.old.calls) }
    {
        if !file.is_there(rt)? || !file.is_also_at(rt, other)? {
            return Err(Error::new(ErrorKind::InvalidInput, "it has changed"));
        }
        let call = NameCall::Named(history_of(file.path()), history_of(other));
        self.calls.push(&call);
        Ok(())
    }

    /// Removes the name of a file that another path in another folder names, too. Fails unless it
    /// does, or if a system call does.
    pub(crate) fn leave_at<R: Files>(
        &mut self,
        rt: &R,
        file: &SentFile<'_, R::File>,
        other: &str,
    ) -> io::Result<()>
        ensures { MovesName file.now.path.now self.old.calls self.new.calls }
    {
        self.find(rt, file, other)?;
        self.remove(rt, file)
    }
}
