//! The file of numbers: the greatest numbers that the files and subfolders of a folder were given,
//! so that no number is given again after its file was moved away.
ghost use Rattle.std.specs.Prelude.{◌≡◌, IfOk, OnOk, OnErr, true};

use crate::kept_numbers::{KeptNumbers, NumbersCalls};
use crate::location::{GREATEST, Layout, Location};
use crate::names::EntryKind;
use std::alloc::{AllocError, Allocator};
use std::fs::{File, OpenFile};
use std::io::{Error, ErrorKind, Read, Write};
use std::rt::Files;
use std::{fmt, fs, io};

/// How many numbers of files each write of the file of numbers reserves.
const AHEAD: u32 = 100;

/// The size in bytes of the line in the file: two names, a space between them, and a line feed.
const LINE: usize = 18;

/// The greatest numbers that may have been given: to a file of a folder without subfolders, and to
/// a subfolder.
#[derive(Clone, Copy, Debug, PartialEq, Eq)]
pub(crate) struct Numbers {
    file: u32,
    folder: u32,
}

/// Prints the line of the file of numbers, as `I0000100 S0000007`.
impl fmt::Display for Numbers {
    fn fmt<W: fmt::Write>(&self, f: &mut fmt::Formatter<W>) -> fmt::Result {
        let file = EntryKind::File.name(self.file);
        let folder = EntryKind::Folder.name(self.folder);
        writeln!(f, "{file} {folder}")
    }
}

impl Numbers {
    ghost use Rattle.folder_filing.specs.Numbers.{Continues, Keeps, is_covered, numbers_of};

    /// The numbers before any is given.
    pub(crate) const NONE: Numbers = Numbers { file: 0, folder: 0 };

    /// Reads the line of the file of numbers. Returns `None` if the line has another form.
    fn of_line(line: &[u8]) -> Option<Numbers>
        ensures { result ≡ numbers_of line.now }
    {
        if line.len() != LINE || !line[8..].starts_with(b" ") || !line[17..].starts_with(b"\n") {
            return None;
        }
        let file = EntryKind::File.number_in_bytes(&line[..8])?;
        let folder = EntryKind::Folder.number_in_bytes(&line[9..17])?;
        Some(Numbers { file, folder })
    }

    /// Returns whether these numbers cover this location: the number of its file or, with
    /// subfolders, that of its subfolder. Only covered numbers are given.
    fn covers(self, layout: Layout, location: Location) -> bool
        ensures { result ≡ is_covered layout self location }
    {
        match layout {
            Layout::Flat => location.file <= self.file,
            Layout::Levels { .. } => location.folder <= self.folder,
        }
    }

    /// Returns the numbers to write before the number of this location is given: these, if they
    /// cover it. Else, without subfolders, they reserve 100 numbers, starting with it.
    fn with(self, layout: Layout, location: Location) -> Numbers
        ensures covers { is_covered layout result location ≡ true }
        ensures keeps { Keeps self result }
    {
        if self.covers(layout, location) {
            return self;
        }
        match layout {
            Layout::Flat => Numbers {
                file: location
                    .file
                    .max(GREATEST.min(location.file.saturating_add(AHEAD - 1))),
                folder: self.folder,
            },
            Layout::Levels { .. } => Numbers {
                file: self.file,
                folder: location.folder,
            },
        }
    }

    /// Returns the greater file number and the greater folder number of two pairs.
    pub(crate) fn max(self, other: Numbers) -> Numbers
        ensures keeps { Keeps self result }
        ensures other { Keeps other result }
    {
        Numbers {
            file: self.file.max(other.file),
            folder: self.folder.max(other.folder),
        }
    }

    /// Returns the location after which the next file is numbered, given the location of the last
    /// file that was found: not before any number that may have been given. With subfolders, it is
    /// the last of a subfolder, so that a new subfolder is used.
    pub(crate) fn last(self, layout: Layout, found: Location) -> Location
        ensures { Continues layout self found result }
    {
        match layout {
            Layout::Flat => Location {
                folder: found.folder,
                file: found.file.max(self.file),
            },
            Layout::Levels { per } => Location {
                folder: found.folder.max(self.folder),
                file: per,
            },
        }
    }
}

/// The file of numbers: its path and its contents.
#[derive(Drop)]
pub(crate) struct NumbersFile<A: Allocator> {
    path: String<A>,
    kept: KeptNumbers,
}

/// Returns the folder part of a path, or `.` if it has none.
fn folder_of(path: &str) -> &str {
    match path.rsplit_once('/') {
        Some(("", _)) => "/",
        Some((folder, _)) => folder,
        None => ".",
    }
}

/// Replaces the file by one with these numbers, and syncs it and its folder. The new file is
/// written next to it, with `.new` appended to its name, and renamed. Whatever has that name is
/// removed first and not written to, since it may be a link.
fn replace<R: Files + Alloc>(rt: &R, path: &str, numbers: Numbers) -> io::Result<KeptNumbers>
    ensures { IfOk result (λ kept. kept ≡ record { numbers = numbers; is_on_disk = true }) }
{
    let mut calls = NumbersCalls::new();
    let draft = format!(in rt.alloc(); "{path}.new")?;
    let line = format!(in rt.alloc(); "{numbers}")?;
    let _ = fs::remove_file(rt, draft.as_str());
    let mut file = File::create_new(rt, draft.as_str())?;
    file.write_all(line.as_bytes())?;
    calls.sync_file(&file)?;
    calls.rename(rt, draft.as_str(), path)?;
    calls.sync_folder(rt, folder_of(path))?;
    Ok(KeptNumbers::on_disk(numbers, &calls))
}

/// Reads the file, or returns `None` if it does not exist.
///
/// Fails with `InvalidData` if the file has anything other than one line of two numbers.
fn read<R: Files + Alloc>(rt: &R, path: &str) -> io::Result<Option<Numbers>> {
    let file = match fs::open(rt, path) {
        Ok(file) => file,
        Err(error) if error.kind() == ErrorKind::NotFound => return Ok(None),
        Err(error) => return Err(error),
    };
    let mut line = Vec::new(rt.alloc());
    file.take(LINE as u64 + 1).read_to_end(&mut line)?;
    match Numbers::of_line(line.as_slice()) {
        Some(numbers) => Ok(Some(numbers)),
        None => Err(Error::new(ErrorKind::InvalidData, "it has no line of two numbers")),
    }
}

impl<A: Allocator> NumbersFile<A> {
    ghost use Rattle.folder_filing.specs.Numbers.{Keeps, is_covered};

    /// Reads the file of numbers, or creates it if it does not exist.
    ///
    /// Fails with `InvalidData` if the file has anything other than one line of two numbers, and if
    /// it cannot be read or created.
    pub(crate) fn open<R: Files + Alloc<A = A>>(rt: &R, path: &str) -> io::Result<NumbersFile<A>> {
        let kept = match read(rt, path)? {
            Some(numbers) => KeptNumbers::found(numbers),
            None => replace(rt, path, Numbers::NONE)?,
        };
        let path = String::from_str(rt.alloc(), path)?;
        Ok(NumbersFile { path, kept })
    }

    /// Returns a copy for another filing of the folder. Fails if memory runs out.
    pub(crate) fn duplicate(&self, alloc: A) -> Result<NumbersFile<A>, AllocError>
        ensures same { IfOk result (λ file. file.kept ≡ self.now.kept) }
    {
        let path = String::from_str(alloc, self.path.as_str())?;
        Ok(NumbersFile {
            path,
            kept: self.kept,
        })
    }

    /// Records the numbers that another filing of the folder has written to the file.
    pub(crate) fn take_over(&mut self, kept: KeptNumbers)
        ensures keeps { Keeps self.old.kept.numbers self.new.kept.numbers }
        ensures covers { Keeps kept.numbers self.new.kept.numbers }
    {
        self.kept = self.kept.later(kept);
    }

    /// Returns the greatest numbers that may have been given.
    pub(crate) fn kept(&self) -> KeptNumbers
        ensures { result ≡ self.now.kept }
    {
        self.kept
    }

    /// Makes sure that the file covers the number of this location and, with `has_sync`, has its
    /// numbers on the disk: else writes and syncs it. Numbers that were found in the file may not
    /// be there after a loss of power: a killed program may have renamed the file, but not synced
    /// its folder.
    ///
    /// Fails if the file cannot be written; then the numbers are unchanged.
    pub(crate) fn keep<R: Files + Alloc<A = A>>(
        &mut self,
        rt: &R,
        layout: Layout,
        location: Location,
        has_sync: bool,
    ) -> io::Result<()>
        ensures kept { OnOk result (is_covered layout self.new.kept.numbers location ≡ true) }
        ensures on_disk { has_sync ≡ true → OnOk result (self.new.kept.is_on_disk ≡ true) }
        ensures keeps { Keeps self.old.kept.numbers self.new.kept.numbers }
        ensures failed { OnErr result (self.new.kept ≡ self.old.kept) }
    {
        let numbers = self.kept.numbers();
        if numbers.covers(layout, location) && (self.kept.is_on_disk() || !has_sync) {
            return Ok(());
        }
        self.kept = replace(rt, self.path.as_str(), numbers.with(layout, location))?;
        Ok(())
    }
}
