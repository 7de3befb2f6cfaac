//! Visits the files in a folder and its subfolders.
ghost use Rattle.std.specs.Prelude.{◌≡◌, ℕ, List, Result, true, IfErr, IfOk, OnErr, OnOk, is_ok};
ghost use Rattle.keyed_files.specs.Counting.{after_fault, after_read, is_over, with_omitted};
ghost use Rattle.keyed_files.specs.Visiting.{after_link, state_of_visit, unvisited, with_read, CountsUnread, FailsUncounted, IsDone, Stops, Visited};

use crate::counter::Counter;
use crate::drafts::is_draft;
use crate::folder_walk::{FolderWalk, WalkEntry, WalkOrder, last_name};
use crate::keys::FileKeys;
use crate::kinds::{NO_FILE, has_vanished, open_file};
use crate::node_id::NodeId;
use crate::reading::{NoKeys, read_keys};
use crate::tally::Tally;
use element::Tag;
use element::history::History;
use failures::{Failure, ProgramError};
use inspection::{Judgement, Printable};
use part10::MetaFault;
use std::fmt::Display;
use std::fs::Metadata;
use std::io::{BufReader, Write};
use std::rt::Files;

/// The size in bytes of the buffer through which files are read.
const READ: usize = 8192;

/// A DICOM file that was found, with its requested values.
#[derive(Clone, Copy)]
pub struct FoundFile<'a> {
    pub path: &'a str,
    pub metadata: &'a Metadata,
    pub keys: &'a FileKeys,
}

/// The action for each file that is found.
pub trait Consumer {
    ghost use Rattle.keyed_files.specs.declared.keys.FileKeys.{FileKeys};

    /// For contracts: relates the states before and after this file was handled.
    ghost consumed: { Self → List ℕ → FileKeys → Self → Type 0 };

    /// Handles a file. An error because the file cannot be read is reported, and the visit
    /// continues; any other error ends it.
    fn take(&mut self, file: FoundFile<'_>) -> Result<(), ProgramError>
        ensures consumed { OnOk result (consumed self.old file.entry.path.now file.entry.keys.now self.new) };
}

/// Visits the DICOM files in a folder and its subfolders, in the order in which the system lists
/// them, and reports those that are left out. It allocates for folders still to be visited, not for
/// files.
///
/// Drafts and DICOMDIR files are skipped. Symbolic links are counted unless they are followed. Pipes,
/// sockets and devices are reported, but not counted. Vanished files and folders have a count of
/// their own.
#[derive(Drop)]
pub struct Visitor<'a, R, E: Write + Drop> {
    rt: &'a R,
    /// The tags of the values that are read of each file.
    tags: &'a [Tag],
    /// The folder to skip, if any.
    spared: Option<NodeId>,
    /// Whether symbolic links are followed.
    follows: bool,
    /// Whether files that are no DICOM files are ignored.
    ignores_others: bool,
    err: E,
    counter: Counter,
    tally: Tally,
    /// For contracts: what was read of each file.
    reads: History<Result<FileKeys, NoKeys>>,
}

impl<'a, R: Files + Alloc + Clone + Drop, E: Write + Drop> Visitor<'a, R, E>
where
    R::A: Copy,
{
    /// Creates a visitor that reads the values with these tags, at most 27, and reports files that
    /// are left out on `reporting.0`. With `ignores_others`, files that are no DICOM files, and not
    /// empty, are counted, but not left out.
    pub fn new(
        rt: &'a R,
        tags: &'a [Tag],
        ignores_others: bool,
        reporting: (E, Counter),
    ) -> Visitor<'a, R, E>
        ensures { state_of_visit result ≡ unvisited ignores_others }
    {
        let (err, counter) = reporting;
        Visitor {
            rt,
            tags,
            spared: None,
            follows: false,
            ignores_others,
            err,
            counter,
            tally: Tally::new(),
            reads: History::new(),
        }
    }

    /// Skips this folder, by whatever path it is found.
    pub fn spare(&mut self, folder: NodeId)
        ensures { state_of_visit self.new ≡ state_of_visit self.old }
    {
        self.spared = Some(folder);
    }

    /// Follows symbolic links, or not.
    pub fn follow(&mut self, follows: bool)
        ensures { state_of_visit self.new ≡ state_of_visit self.old }
    {
        self.follows = follows;
    }

    /// Reports `what` about this path on standard error.
    fn report<D: Display>(&mut self, path: &str, what: &D)
        ensures same { state_of_visit self.new ≡ state_of_visit self.old }
    {
        let path = Printable(path.as_bytes());
        self.counter.clear(&mut self.err);
        let _ = writeln!(self.err, "dcmbox: {path}: {what}");
    }

    /// Counts and reports a file or folder that cannot be read. Returns any other error.
    fn report_failure(&mut self, path: &str, error: ProgramError) -> Result<(), ProgramError>
        ensures counted { OnOk result (CountsUnread (state_of_visit self.old) (state_of_visit self.new)) }
        ensures same { OnErr result (state_of_visit self.new ≡ state_of_visit self.old) }
    {
        if !error.failure().is_some_and(Failure::is_of_input) {
            return Err(error);
        }
        self.tally.add_unread();
        self.report(path, &error);
        Ok(())
    }

    /// Counts a path that was found in a folder and cannot be read, and reports it unless it has
    /// vanished. Returns any other error.
    fn report_unread(&mut self, path: &str, error: ProgramError) -> Result<(), ProgramError>
        ensures counted { OnOk result (CountsUnread (state_of_visit self.old) (state_of_visit self.new)) }
        ensures same { OnErr result (state_of_visit self.new ≡ state_of_visit self.old) }
    {
        if error.failure().is_some_and(Failure::is_of_input)
            && has_vanished(self.rt, path, &error)
        {
            self.tally.add_vanished();
            return Ok(());
        }
        self.report_failure(path, error)
    }

    /// Counts and reports a file that is left out for this fault.
    fn leave_out(&mut self, path: &str, fault: &Judgement)
        ensures counted { state_of_visit self.new ≡ record (state_of_visit self.old) { tally = with_omitted self.old.tally } }
    {
        let path = Printable(path.as_bytes());
        self.tally.add_omitted();
        self.counter.clear(&mut self.err);
        let _ = writeln!(self.err, "dcmbox: {path}: left out: {fault}");
    }

    /// Counts a file with a fault, and reports it unless it is ignored.
    fn report_fault(&mut self, path: &str, fault: &Judgement)
        ensures counted { state_of_visit self.new ≡ record (state_of_visit self.old) { tally = after_fault self.old.ignores_others fault.now self.old.tally } }
    {
        if let (true, Judgement::BadHeader(MetaFault::NotPart10)) = (self.ignores_others, fault) {
            self.tally.add_ignored();
            return;
        }
        self.leave_out(path, fault);
    }

    /// Reads the requested values of a file. The outer error is that the file cannot be opened or
    /// memory runs out, the inner error why the file has no values.
    fn keys_of(&mut self, path: &str) -> Result<Result<FileKeys, NoKeys>, ProgramError>
        ensures read { IfOk result (λ read. state_of_visit self.new ≡ with_read read (state_of_visit self.old)) }
        ensures none { OnErr result (state_of_visit self.new ≡ state_of_visit self.old) }
    {
        let file = match open_file(self.rt, path) {
            Ok(file) => file,
            Err(error) => return Err(ProgramError::of(Failure::Open, error)),
        };
        match BufReader::with_capacity(self.rt.alloc(), READ, file) {
            Ok(mut reader) => {
                let read = read_keys(&mut reader, self.tags);
                self.reads.push(&read);
                Ok(read)
            }
            Err(error) => Err(ProgramError::of(Failure::Read, error)),
        }
    }

    /// Handles a file by the result of reading it: an empty file and one with a fault are counted, a
    /// DICOMDIR is skipped.
    fn handle<T: Consumer>(
        &mut self,
        path: &str,
        metadata: &Metadata,
        read: Result<FileKeys, NoKeys>,
        consumer: &mut T,
    ) -> Result<(), ProgramError>
        ensures consumed { IfOk read (λ keys. OnOk result (T.consumed consumer.old path.now keys consumer.new)) }
        ensures same { OnErr read (consumer.new ≡ consumer.old) }
        ensures counted { state_of_visit self.new ≡ record (state_of_visit self.old) { tally = after_read self.old.ignores_others read self.old.tally } }
        ensures over { IfErr read (λ why. is_ok result ≡ is_over why) }
    {
        match read {
            Ok(keys) => consumer.take(FoundFile {
                path,
                metadata,
                keys: &keys,
            }),
            Err(NoKeys::Directory) => Ok(()),
            Err(NoKeys::Empty) => {
                self.leave_out(path, &Judgement::BadHeader(MetaFault::NotPart10));
                Ok(())
            }
            Err(NoKeys::Faulty(fault)) => {
                self.report_fault(path, &fault);
                Ok(())
            }
            Err(NoKeys::Unread(error)) => Err(ProgramError::of(Failure::Read, error)),
        }
    }

    /// Reads and handles a file.
    fn take<T: Consumer>(
        &mut self,
        path: &str,
        metadata: &Metadata,
        consumer: &mut T,
    ) -> Result<(), ProgramError>
        ensures done { OnOk result ((read : Result FileKeys NoKeys) × IsDone T.consumed path.now read consumer.old consumer.new (state_of_visit self.old) (state_of_visit self.new)) }
        ensures fails { OnErr result (FailsUncounted T.consumed consumer.old consumer.new (state_of_visit self.old) (state_of_visit self.new)) }
    {
        self.counter.show(&mut self.err);
        let read = self.keys_of(path)?;
        self.handle(path, metadata, read, consumer)
    }

    /// Counts a symbolic link.
    fn pass_link(&mut self)
        ensures counted { state_of_visit self.new ≡ after_link (state_of_visit self.old) }
    {
        self.tally.add_link();
    }

    /// Visits what is at a path in a folder: handles a file unless it is a draft, and counts a link.
    fn visit_found<T: Consumer>(
        &mut self,
        path: &str,
        found: &Metadata,
        consumer: &mut T,
    ) -> Result<(), ProgramError>
        ensures visited { OnOk result (Visited T.consumed consumer.old consumer.new (state_of_visit self.old) (state_of_visit self.new)) }
        ensures fails { OnErr result (FailsUncounted T.consumed consumer.old consumer.new (state_of_visit self.old) (state_of_visit self.new)) }
    {
        if found.is_dir() || is_draft(last_name(path)) {
            return Ok(());
        }
        if found.is_symlink() {
            self.pass_link();
            return Ok(());
        }
        if !found.is_file() {
            self.report(path, &NO_FILE);
            return Ok(());
        }
        match self.take(path, found, consumer) {
            Ok(()) => Ok(()),
            Err(error) => self.report_unread(path, error),
        }
    }

    /// Visits an entry of a walk.
    fn visit<T: Consumer>(
        &mut self,
        entry: WalkEntry<R::A>,
        consumer: &mut T,
    ) -> Result<(), ProgramError>
        ensures visited { OnOk result (Visited T.consumed consumer.old consumer.new (state_of_visit self.old) (state_of_visit self.new)) }
        ensures fails { OnErr result (FailsUncounted T.consumed consumer.old consumer.new (state_of_visit self.old) (state_of_visit self.new)) }
    {
        let WalkEntry { path, found } = entry;
        match found {
            Ok(found) => self.visit_found(path.as_str(), &found, consumer),
            Err(error) => self.report_unread(path.as_str(), error),
        }
    }

    /// Visits a folder and its subfolders. Fails if the folder itself can't be opened.
    fn visit_folders<T: Consumer>(
        &mut self,
        dir: &str,
        consumer: &mut T,
    ) -> Result<(), ProgramError>
        ensures visited { OnOk result (Visited T.consumed consumer.old consumer.new (state_of_visit self.old) (state_of_visit self.new)) }
        ensures stops { OnErr result (Stops T.consumed consumer.old consumer.new (state_of_visit self.old) (state_of_visit self.new)) }
    {
        let mut walk = FolderWalk::below(self.rt, dir, WalkOrder::System)?;
        walk.spare(self.spared);
        walk.follow(self.follows);
        for _ in 0..u64::MAX {
            match walk.next()? {
                Some(entry) => self.visit(entry, consumer)?,
                None => break,
            }
        }
        Ok(())
    }

    /// Visits folders and their subfolders. With several folders, a folder that cannot be listed is
    /// counted and reported.
    fn visit_each<T: Consumer>(
        &mut self,
        dirs: &[&str],
        consumer: &mut T,
    ) -> Result<(), ProgramError>
        ensures visited { OnOk result (Visited T.consumed consumer.old consumer.new (state_of_visit self.old) (state_of_visit self.new)) }
    {
        for dir in dirs {
            match self.visit_folders(*dir, consumer) {
                Ok(()) => {}
                Err(error) if dirs.len() > 1 => self.report_failure(*dir, error)?,
                Err(error) => return Err(error),
            }
        }
        Ok(())
    }

    /// Visits the files in folders and their subfolders. Returns the counts of files that were left
    /// out, which are also reported. With several folders, a folder that cannot be listed is
    /// reported, and the others are visited.
    ///
    /// Fails if the only folder cannot be listed, if memory runs out, or with any error of
    /// [`Consumer::take`] other than that the file cannot be read.
    pub fn visit_all<T: Consumer>(
        &mut self,
        dirs: &[&str],
        consumer: &mut T,
    ) -> Result<Tally, ProgramError>
        ensures visited { OnOk result (Visited T.consumed consumer.old consumer.new (state_of_visit self.old) (state_of_visit self.new)) }
        ensures tally { IfOk result (λ tally. tally ≡ (state_of_visit self.new).tally) }
    {
        let visited = self.visit_each(dirs, consumer);
        self.counter.clear(&mut self.err);
        self.tally.report_passed_by(&mut self.err);
        visited?;
        Ok(self.tally)
    }
}
