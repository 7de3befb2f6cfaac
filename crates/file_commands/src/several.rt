//! Inspects several files and folders, one after the other.
use crate::single::{Inspection, inspect, inspect_opened, open_input, report_unjudged, unopened};
use crate::tally::Tally;
use failures::{Failure, ProgramError, flushed};
use inspection::{FileFront, Outcome, OutputForm, Printable, Syntaxes, bare_form, kind_of};
use keyed_files::{
    Counter, FolderWalk, NO_FILE, WalkEntry, WalkOrder, has_vanished, is_draft, last_name,
    open_file,
};
use std::alloc::Global;
use std::fs;
use std::io::{self, BufWriter, Write};

/// The files to inspect, and how they are found.
#[derive(Clone, Copy)]
pub struct Files<'a> {
    /// The paths of files and folders; `-` is standard input.
    pub paths: &'a [&'a str],
    /// Whether the files in folders are inspected.
    pub recursive: bool,
    /// Whether files that are no DICOM files are ignored if several files are inspected.
    pub ignore_others: bool,
    /// Whether symbolic links in folders are followed.
    pub follow: bool,
}

/// Returns whether a path is that of a file that can be opened and is no DICOM file, not empty, and
/// no data set without header if such files are accepted.
fn is_other(rt: &HostRuntime, path: &str, syntaxes: Syntaxes) -> bool {
    if path == "-" {
        return false;
    }
    let Ok(mut file) = open_file(rt, path) else {
        return false;
    };
    let mut front = FileFront::new(&mut file);
    let beginning = front.look_ahead();
    kind_of(beginning).is_other() && !(syntaxes == Syntaxes::Any && bare_form(beginning).is_some())
}

/// Inspects files and counts them.
#[derive(Drop)]
struct Inspector<'a, O: Write + Drop> {
    rt: &'a HostRuntime,
    inspection: Inspection<'a>,
    ignores_others: bool,
    follows: bool,
    counter: Counter,
    tally: Tally,
    out: O,
}

impl<O: Write + Drop> Inspector<'_, O> {
    /// Counts a file or folder that can't be read, and reports it on standard error. Returns any
    /// other error.
    fn report_unread(&mut self, path: &str, error: ProgramError) -> Result<(), ProgramError> {
        if !error.failure().is_some_and(Failure::is_of_input) {
            return Err(error);
        }
        self.tally.unseen.add_unread();
        let path = Printable(path.as_bytes());
        let _ = eprintln!(self.rt; "dcmbox: {path}: {error}");
        Ok(())
    }

    /// Writes the line with the name of a file. In JSON the file's object has the name.
    fn report_name(&mut self, file: &str) -> Result<(), ProgramError> {
        if self.inspection.form() == OutputForm::Json {
            return Ok(());
        }
        let name = Printable(file.as_bytes());
        writeln!(self.out, "file {name}").map_err(ProgramError::of_output)
    }

    /// Writes the name of a file and its findings. A file that was found in a folder and has
    /// vanished is only counted.
    fn inspect(&mut self, file: &str, is_found: bool) -> Result<(), ProgramError> {
        self.counter.show(&mut self.rt.stderr());
        if self.ignores_others && is_other(self.rt, file, self.inspection.syntaxes()) {
            self.tally.unseen.add_ignored();
            return Ok(());
        }
        let opened = open_input(self.rt, file);
        if let Err(error) = &opened {
            if is_found && has_vanished(self.rt, file, error) {
                self.tally.unseen.add_vanished();
                return Ok(());
            }
        }
        self.report_name(file)?;
        match inspect_opened(self.rt, self.inspection, (file, opened), &mut self.out) {
            Ok(inspected) => {
                self.tally.add(&inspected);
                Ok(())
            }
            Err(error) => self.report_unread(file, error),
        }
    }

    /// Counts a path that was found in a folder and can't be read, and reports it, in JSON also by an
    /// object, unless it has vanished.
    fn report_lost(&mut self, path: &str, error: ProgramError) -> Result<(), ProgramError> {
        if has_vanished(self.rt, path, &error) {
            self.tally.unseen.add_vanished();
            return Ok(());
        }
        let error = unopened(self.inspection, (path, error), &mut self.out);
        self.report_unread(path, error)
    }

    /// Visits an entry of a folder. Drafts are skipped, symbolic links are counted unless they
    /// are followed.
    fn visit(&mut self, entry: WalkEntry<Global>) -> Result<(), ProgramError> {
        let WalkEntry { path, found } = entry;
        match found {
            Ok(_) if is_draft(last_name(path.as_str())) => Ok(()),
            Ok(found) if found.is_file() => self.inspect(path.as_str(), true),
            Ok(found) if found.is_dir() => Ok(()),
            Ok(found) if found.is_symlink() => {
                self.tally.unseen.add_link();
                Ok(())
            }
            Ok(_) => {
                let path = Printable(path.as_bytes());
                let _ = eprintln!(self.rt; "dcmbox: {path}: {NO_FILE}");
                Ok(())
            }
            Err(error) => self.report_lost(path.as_str(), error),
        }
    }

    /// Inspects the files below a folder in the order of their names.
    fn inspect_folder(&mut self, dir: &str) -> Result<(), ProgramError> {
        let mut walk = match FolderWalk::below(
            self.rt,
            dir.trim_end_matches('/'),
            WalkOrder::Names,
        ) {
            Ok(walk) => walk,
            Err(error) => return self.report_lost(dir, error),
        };
        walk.follow(self.follows);
        for _ in 0..u64::MAX {
            match walk.next()? {
                Some(entry) => self.visit(entry)?,
                None => break,
            }
        }
        Ok(())
    }

    /// Inspects each file, and the files below each folder if the options ask for it.
    fn inspect_all(&mut self, files: Files<'_>) -> Result<(), ProgramError> {
        for path in files.paths {
            let is_folder = files.recursive
                && fs::metadata(self.rt, *path).is_ok_and(|found| found.is_dir());
            if is_folder {
                self.inspect_folder(*path)?;
            } else {
                self.inspect(*path, false)?;
            }
        }
        Ok(())
    }

    /// Inspects the files, and writes the counts if values are checked.
    fn run(&mut self, files: Files<'_>) -> Result<(), ProgramError> {
        let ran = self.inspect_all(files);
        self.counter.clear(&mut self.rt.stderr());
        report_unjudged(self.rt, self.tally.unjudged());
        self.tally.unseen.report_passed_by(&mut self.rt.stderr());
        ran?;
        if !self.inspection.is_counted() {
            return Ok(());
        }
        let tally = self.tally;
        writeln!(self.out, "{tally}").map_err(ProgramError::of_output)
    }
}

/// Prints the findings of each file, after a line with its name.
fn inspect_several<'a>(
    rt: &'a HostRuntime,
    files: Files<'_>,
    inspection: Inspection<'a>,
) -> Result<Tally, ProgramError> {
    let out = BufWriter::new(rt.alloc(), io::writer(rt)).map_err(ProgramError::of_output)?;
    let mut inspector = Inspector {
        rt,
        inspection,
        ignores_others: files.ignore_others,
        follows: files.follow,
        counter: Counter::new(rt),
        tally: Tally::new(),
        out,
    };
    let ran = inspector.run(files);
    let tally = inspector.tally;
    match flushed(ran, &mut inspector.out) {
        Ok(()) => Ok(tally),
        Err(error) => Err(error),
    }
}

/// Prints the findings of these files. With several files, a line with its name precedes those of
/// each.
///
/// With several files, a file that can't be read is reported on standard error, and the others are
/// inspected.
pub fn inspect_files(
    rt: &HostRuntime,
    files: Files<'_>,
    inspection: Inspection<'_>,
) -> Result<Outcome, ProgramError> {
    if let ([file], false) = (files.paths, files.recursive) {
        return inspect(rt, *file, inspection);
    }
    let tally = inspect_several(rt, files, inspection)?;
    if tally.unseen.unread > 0 {
        return Err(ProgramError::Unread);
    }
    Ok(tally.outcome(inspection.is_strict()))
}
