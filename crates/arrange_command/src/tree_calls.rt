//! The system calls on a path of the tree, recorded for contracts.
//!
//! Only this module gives files their paths in the tree. Each method makes its system call and
//! records a success, so that contracts can require that a file is passed over only if its bytes
//! are there, and that no file is overwritten.
ghost use Rattle.std.specs.Prelude.{◌≡◌, List, [], ◌∷◌, IfOk, OnOk, OnErr, reverse};
ghost use Rattle.arrange_command.specs.declared.tree_calls.TreeCall.{TreeCall as SeenCall};
ghost use Rattle.arrange_command.specs.declared.tree_calls.TreeCall.TheVariants as seen;
ghost use Rattle.arrange_command.specs.declared.comparing.Present.TheVariants.{Nothing};

use crate::comparing::{Present, present_at};
use element::history::History;
use failures::ProgramError;
use keyed_files::FoundFile;
use std::fs;
use std::io::{self, Error, ErrorKind};
use std::marker::Model;
use std::rt::Files;

/// A system call on a path of the tree, as recorded for contracts.
#[derive(Clone, Copy)]
pub enum TreeCall {
    /// What was found at the path; in a dry run, also in the file that is to get the path.
    Found(Present),
    /// A file got the path by a hard link, which fails if the path is in use.
    Linked,
    /// The draft was renamed to the path, which replaces anything there.
    Renamed,
}

/// The calls on a path so far, newest first. A ghost value: contracts can use it, the program
/// cannot read it.
#[derive(Drop)]
pub struct TreeCalls {
    /// The calls, oldest first.
    history: History<TreeCall>,
}

impl Model for TreeCalls {
    ghost Value = { List SeenCall };

    ghost view = { λ c. reverse c.history };
}

impl TreeCalls {
    /// Creates an empty list of calls.
    pub(crate) fn new() -> TreeCalls
        ensures { result ≡ [] }
    {
        TreeCalls {
            history: History::new(),
        }
    }

    /// Adds the newest call.
    fn push(&mut self, call: &TreeCall)
        ensures { self.new ≡ call.now ∷ self.old }
    {
        self.history.push(call);
    }

    /// Records a call if it succeeded, and returns its result.
    fn made(&mut self, call: TreeCall, given: io::Result<()>) -> io::Result<()>
        ensures same { result ≡ given }
        ensures made { OnOk result (self.new ≡ call ∷ self.old) }
        ensures refused { OnErr result (self.new ≡ self.old) }
    {
        if given.is_ok() {
            self.push(&call);
        }
        given
    }

    /// Returns what is at a path, as [`present_at`] does.
    pub(crate) fn look<R: Files>(
        &mut self,
        rt: &R,
        file: FoundFile<'_>,
        path: &str,
    ) -> Result<Present, ProgramError>
        ensures found { IfOk result (λ present. self.new ≡ seen.Found present ∷ self.old) }
        ensures refused { OnErr result (self.new ≡ self.old) }
    {
        let present = present_at(rt, file, path)?;
        self.push(&TreeCall::Found(present));
        Ok(present)
    }

    /// Fails with `AlreadyExists` if something exists at this path, and with the system's error if
    /// that cannot be checked.
    pub(crate) fn check_free<R: Files>(&mut self, rt: &R, path: &str) -> io::Result<()>
        ensures free { OnOk result (self.new ≡ seen.Found Nothing ∷ self.old) }
        ensures refused { OnErr result (self.new ≡ self.old) }
    {
        let found = match fs::symlink_metadata(rt, path) {
            Ok(_) => Err(Error::from(ErrorKind::AlreadyExists)),
            Err(error) if error.kind() == ErrorKind::NotFound => Ok(()),
            Err(error) => Err(error),
        };
        self.made(TreeCall::Found(Present::Nothing), found)
    }

    /// Links a file to a path. Fails with `AlreadyExists` if something exists there.
    pub(crate) fn link<R: Files>(&mut self, rt: &R, file: &str, path: &str) -> io::Result<()>
        ensures linked { OnOk result (self.new ≡ seen.Linked ∷ self.old) }
        ensures refused { OnErr result (self.new ≡ self.old) }
    {
        self.made(TreeCall::Linked, fs::hard_link(rt, file, path))
    }

    /// Renames the draft to a path, and replaces what is there.
    pub(crate) fn rename<R: Files>(&mut self, rt: &R, draft: &str, path: &str) -> io::Result<()>
        ensures renamed { OnOk result (self.new ≡ seen.Renamed ∷ self.old) }
        ensures refused { OnErr result (self.new ≡ self.old) }
    {
        self.made(TreeCall::Renamed, fs::rename(rt, draft, path))
    }
}
