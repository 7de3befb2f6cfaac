//! Gives files their paths in the tree.
ghost use Rattle.std.specs.Prelude.{◌≡◌, IfOk, OnOk, true, false, nat_eq, if◌then◌else◌};
ghost use Rattle.arrange_command.specs.Arranged.{CountsFile};
ghost use Rattle.arrange_command.specs.Placing.{HasFound, HasGiven, IsPlaced, TakesNone};
ghost use Rattle.arrange_command.specs.declared.comparing.Present.TheVariants.{Nothing};
ghost use Rattle.arrange_command.specs.declared.placing.Placed.TheVariants.{Put, Renamed};

use crate::arranging::ArrangeOptions;
use crate::comparing::Present;
use crate::copying::{of_tree, put_copy};
use crate::counts::Counts;
use crate::paths::{folder_of, numbered, path_of};
use crate::planned::PlannedPaths;
use crate::tree_calls::TreeCalls;
use failures::{Failure, ProgramError};
use inspection::{JsonPath, OutputForm, PathText, Printable};
use keyed_files::{Consumer, FoundFile, TREE_DRAFT};
use std::alloc::Allocator;
use std::fs;
use std::io::{self, Error, ErrorKind, Write};
use std::rt::Files;

/// What was done with a file.
#[derive(Clone, Copy, PartialEq, Eq)]
pub(crate) enum Placed {
    /// The file got the path of its values.
    Put,
    /// The path already had the same file or the same bytes.
    PassedOver,
    /// The file got a path with a number, since the path without has something else.
    Renamed,
}

/// A file and the path that it is to get.
#[derive(Clone, Copy)]
struct TreeFile<'a> {
    file: FoundFile<'a>,
    /// The folder of the path.
    folder: &'a str,
    path: &'a str,
    /// The number in the name; 1 for none.
    number: u64,
}

/// Returns what was done with a file that got the name with this number.
fn placed_as(number: u64) -> Placed
    ensures { result ≡ (if nat_eq number 1 then Put else Renamed) }
{
    if number == 1 {
        Placed::Put
    } else {
        Placed::Renamed
    }
}

/// Returns the first part of a path, up to a slash, that is no folder, or else the whole path.
fn file_within<'p, R: Files>(rt: &R, path: &'p str) -> &'p str {
    for (index, byte) in path.as_bytes().iter().enumerate() {
        if *byte == b'/' {
            let front = path.get(..index).unwrap_or("");
            if fs::metadata(rt, front).is_ok_and(|found| !found.is_dir()) {
                return front;
            }
        }
    }
    path
}

/// Gives each file its path in the tree and counts the results.
#[derive(Drop)]
pub(crate) struct Placer<'a, R: Alloc, O: Write> {
    rt: &'a R,
    options: ArrangeOptions<'a>,
    /// The path of the draft that files are copied to.
    draft: String<R::A>,
    /// The paths given in a dry run.
    planned: PlannedPaths<R::A>,
    pub counts: Counts,
    /// How many files have no path, since a file has the name of a folder of it.
    pub blocked: u64,
    /// The text before the next action, in JSON.
    before: &'static str,
    out: &'a mut O,
}

/// The text before the first action, in JSON.
const FIRST: &str = "{\"actions\":[";

impl<'a, R: Files + Alloc, O: Write> Placer<'a, R, O>
where
    R::A: Copy,
{
    /// Creates a placer that has placed no file.
    pub fn new(
        rt: &'a R,
        options: ArrangeOptions<'a>,
        out: &'a mut O,
    ) -> Result<Placer<'a, R, O>, ProgramError> {
        let tree = options.tree;
        Ok(Placer {
            rt,
            options,
            draft: format!(in rt.alloc(); "{tree}/{TREE_DRAFT}")?,
            planned: PlannedPaths::new(rt.alloc()),
            counts: Counts::new(),
            blocked: 0,
            before: FIRST,
            out,
        })
    }

    /// Links or copies a file to a path. The inner result is that of giving the path.
    fn put_once(
        &self,
        target: TreeFile<'_>,
        calls: &mut TreeCalls,
    ) -> Result<io::Result<()>, ProgramError>
        ensures given { IfOk result (λ given. OnOk given (HasGiven calls.new)) }
        ensures none { TakesNone calls.old → TakesNone calls.new }
    {
        let (file, path) = (target.file.path, target.path);
        if self.options.copy {
            return put_copy(self.rt, file, self.draft.as_str(), path, calls);
        }
        if !self.options.follow {
            return Ok(calls.link(self.rt, file, path));
        }
        // A hard link to a symbolic link would be a further one.
        match fs::canonicalize(self.rt, file) {
            Ok(file) => Ok(calls.link(self.rt, file.as_str(), path)),
            Err(error) => Err(ProgramError::of(Failure::Open, error)),
        }
    }

    /// Links or copies a file to a path in a folder, which is created if it does not exist. Returns
    /// `false` if something exists at the path.
    fn put(&self, target: TreeFile<'_>, calls: &mut TreeCalls) -> Result<bool, ProgramError>
        ensures given { IfOk result (λ is_put. is_put ≡ true → HasGiven calls.new) }
        ensures none { TakesNone calls.old → TakesNone calls.new }
    {
        let mut put = self.put_once(target, calls)?;
        if put
            .as_ref()
            .is_err_and(|error| error.kind() == ErrorKind::NotFound)
        {
            match fs::create_dir_all(self.rt, target.folder) {
                Ok(()) => put = self.put_once(target, calls)?,
                Err(error) => return Err(ProgramError::of(Failure::Tree, error)),
            }
        }
        match put {
            Ok(()) => Ok(true),
            Err(error) => match error.kind() {
                ErrorKind::AlreadyExists => Ok(false),
                // The file was removed after the visit found it.
                ErrorKind::NotFound => Err(ProgramError::of(Failure::Open, error)),
                _ => Err(ProgramError::of(Failure::Link, error)),
            },
        }
    }

    /// Gives a file its path, at which nothing was found. Returns `None` if something else was put
    /// there meanwhile.
    fn place_new(
        &self,
        target: TreeFile<'_>,
        calls: &mut TreeCalls,
    ) -> Result<Option<Placed>, ProgramError>
        ensures placed { IfOk result (λ placed. IsPlaced false target.entry.number placed calls.new) }
        ensures none { TakesNone calls.old → TakesNone calls.new }
    {
        if self.put(target, calls)? {
            return Ok(Some(placed_as(target.number)));
        }
        // Another program put something at the path meanwhile.
        match calls.look(self.rt, target.file, target.path)? {
            Present::Same => Ok(Some(Placed::PassedOver)),
            Present::Other | Present::Nothing => Ok(None),
        }
    }

    /// Returns what a real run would do at a path at which nothing was found: compare with the file
    /// to which this dry run gave the path, or else put this file there.
    fn plan(
        &mut self,
        target: TreeFile<'_>,
        calls: &mut TreeCalls,
    ) -> Result<Option<Placed>, ProgramError>
        ensures placed { HasFound Nothing calls.old → IfOk result (λ placed. IsPlaced true target.entry.number placed calls.new) }
        ensures none { TakesNone calls.old → TakesNone calls.new }
        ensures same_counts { self.new.counts ≡ self.old.counts }
    {
        if let Some(other) = self.planned.file_at(target.path) {
            return match calls.look(self.rt, target.file, other)? {
                Present::Same => Ok(Some(Placed::PassedOver)),
                Present::Other | Present::Nothing => Ok(None),
            };
        }
        self.planned
            .give(self.rt.alloc(), target.path, target.file.path)?;
        Ok(Some(placed_as(target.number)))
    }

    /// Gives a file its path if that is free; a dry run only plans it. Returns `None` if something
    /// else has the path.
    fn place_at(
        &mut self,
        target: TreeFile<'_>,
        calls: &mut TreeCalls,
    ) -> Result<Option<Placed>, ProgramError>
        ensures placed { IfOk result (λ placed. IsPlaced self.old.options.dry_run target.entry.number placed calls.new) }
        ensures none { TakesNone calls.old → TakesNone calls.new }
        ensures same_counts { self.new.counts ≡ self.old.counts }
    {
        match calls.look(self.rt, target.file, target.path)? {
            Present::Same => Ok(Some(Placed::PassedOver)),
            Present::Other => Ok(None),
            Present::Nothing if self.options.dry_run => self.plan(target, calls),
            Present::Nothing => self.place_new(target, calls),
        }
    }

    /// Prints the action for a file in a dry run.
    fn report(&mut self, placed: Placed, file: &str, path: &str) -> Result<(), ProgramError>
        ensures same_counts { self.new.counts ≡ self.old.counts }
    {
        if !self.options.dry_run {
            return Ok(());
        }
        let done = match placed {
            Placed::Put if self.options.copy => "copy",
            Placed::Put => "link",
            Placed::PassedOver => "pass over",
            Placed::Renamed => "rename",
        };
        let reported = match self.options.form {
            OutputForm::Lines => {
                let unicode = self.options.unicode;
                let file = PathText {
                    path: file,
                    unicode,
                };
                let path = PathText { path, unicode };
                writeln!(self.out, "{done}\t{file}\t{path}")
            }
            OutputForm::Json => {
                let (before, file, path) = (self.before, JsonPath(file), JsonPath(path));
                self.before = ",";
                write!(
                    self.out,
                    "{before}{{\"action\":\"{done}\",\"file\":{file},\"path\":{path}}}"
                )
            }
        };
        reported.map_err(ProgramError::of_output)
    }

    /// Counts a file without a path and returns the error with the name of the file that has the
    /// name of a folder of the path; returns any other error as it is.
    fn blocked_by(&mut self, path: &str, error: ProgramError) -> ProgramError {
        let is_blocked = match &error {
            ProgramError::System(Failure::Tree, cause) => cause.kind() == ErrorKind::NotADirectory,
            _ => false,
        };
        if !is_blocked {
            return error;
        }
        self.blocked = self.blocked.saturating_add(1);
        let name = Printable(file_within(self.rt, path).as_bytes());
        match format!(in self.rt.alloc(); "{name}") {
            Ok(name) => {
                let error = Error::new(ErrorKind::NotADirectory, name.as_str());
                ProgramError::System(Failure::InTheWay, error)
            }
            Err(error) => ProgramError::Memory(error),
        }
    }

    /// Gives a file its path, or else the first path with a number that is free or already has the
    /// same bytes, and counts it.
    fn place(&mut self, file: FoundFile<'_>) -> Result<(), ProgramError>
        ensures counted { OnOk result (CountsFile self.old.counts self.new.counts) }
    {
        let alloc = self.rt.alloc();
        let named = path_of(alloc, self.options.tree, self.options.pattern, file.keys)?;
        for number in 1..u64::MAX {
            let path = numbered(alloc, named.as_str(), number)?;
            let target = TreeFile {
                file,
                folder: folder_of(named.as_str()),
                path: path.as_str(),
                number,
            };
            match self.place_at(target, &mut TreeCalls::new()) {
                Ok(Some(placed)) => {
                    self.counts.add(placed);
                    return self.report(placed, file.path, path.as_str());
                }
                Ok(None) => {}
                Err(error) => return Err(self.blocked_by(path.as_str(), error)),
            }
        }
        Err(of_tree(Error::from(ErrorKind::AlreadyExists)))
    }

    /// Writes the counts of files; in JSON, after closing the actions of a dry run.
    pub fn finish(&mut self, omitted: keyed_files::Tally) -> Result<(), ProgramError> {
        let (counts, options) = (self.counts, self.options);
        let front = match (options.form, options.dry_run) {
            (OutputForm::Lines, _) => "",
            (OutputForm::Json, false) => "{",
            (OutputForm::Json, true) if self.before == FIRST => "{\"actions\":[],",
            (OutputForm::Json, true) => "],",
        };
        write!(self.out, "{front}").map_err(ProgramError::of_output)?;
        counts
            .write(options, omitted, self.out)
            .map_err(ProgramError::of_output)
    }
}

impl<R: Files + Alloc, O: Write> Consumer for Placer<'_, R, O>
where
    R::A: Copy,
{
    ghost use Rattle.arrange_command.specs.Arranged.{CountsFile};

    ghost consumed = { λ old path keys new. CountsFile old.counts new.counts };

    fn take(&mut self, file: FoundFile<'_>) -> Result<(), ProgramError> {
        self.place(file)
    }
}
