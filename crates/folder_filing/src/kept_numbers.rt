//! The numbers in the file of numbers, and the system calls that bring them to the disk.
ghost use Rattle.std.specs.Prelude.{◌≡◌, [], ◌∷◌, ◌⊎◌, OnOk, true, false};
ghost use Rattle.folder_filing.specs.declared.kept_numbers.NumbersCall.TheVariants as seen;

use crate::numbers::Numbers;
use element::history::History;
use std::fs::OpenFile;
use std::marker::Model;
use std::rt::Files;
use std::{fs, io};

/// A recorded system call that replaces the file of numbers.
#[derive(Clone, Copy)]
pub enum NumbersCall {
    /// The new file was synced, with its line.
    Written,
    /// The new file was renamed to the path of the file of numbers.
    Renamed,
    /// The folder of the file was synced.
    Synced,
}

/// The list of system calls that replace the file of numbers, the newest first. It is a ghost
/// value: contracts can name it, the program cannot read it.
#[derive(Drop)]
pub(crate) struct NumbersCalls {
    /// The calls, the oldest first.
    history: History<NumbersCall>,
}

impl Model for NumbersCalls {
    ghost use Rattle.std.specs.Prelude.{List, reverse};
    ghost use Rattle.folder_filing.specs.declared.kept_numbers.NumbersCall.{NumbersCall as SeenCall};

    ghost Value = { List SeenCall };

    ghost view = { λ c. reverse c.history };
}

impl NumbersCalls {
    /// Creates an empty list of calls.
    pub(crate) fn new() -> NumbersCalls
        ensures { result ≡ [] }
    {
        NumbersCalls {
            history: History::new(),
        }
    }

    fn push(&mut self, call: &NumbersCall)
        ensures { self.new ≡ call.now ∷ self.old }
    {
        self.history.push(call);
    }

    /// Syncs the new file to the disk.
    pub(crate) fn sync_file<F: OpenFile>(&mut self, file: &F) -> io::Result<()>
        ensures { OnOk result (self.new ≡ seen.Written ∷ self.old) }
    {
        file.sync_all()?;
        self.push(&NumbersCall::Written);
        Ok(())
    }

    /// Renames the new file to the path of the file of numbers.
    pub(crate) fn rename<R: Files>(&mut self, rt: &R, from: &str, to: &str) -> io::Result<()>
        ensures { OnOk result (self.new ≡ seen.Renamed ∷ self.old) }
    {
        fs::rename(rt, from, to)?;
        self.push(&NumbersCall::Renamed);
        Ok(())
    }

    /// Syncs the folder of the file to the disk.
    pub(crate) fn sync_folder<R: Files>(&mut self, rt: &R, path: &str) -> io::Result<()>
        ensures { OnOk result (self.new ≡ seen.Synced ∷ self.old) }
    {
        fs::open(rt, path)?.sync_all()?;
        self.push(&NumbersCall::Synced);
        Ok(())
    }
}

/// The numbers in the file of numbers, and whether they are known to be on the disk: only
/// [`KeptNumbers::on_disk`] makes such ones.
#[derive(Clone, Copy)]
pub(crate) struct KeptNumbers {
    numbers: Numbers,
    is_on_disk: bool,
}

impl KeptNumbers {
    ghost use Rattle.folder_filing.specs.Numbers.{Keeps};

    /// Returns numbers that the file has, but which a loss of power may take from it.
    pub(crate) fn found(numbers: Numbers) -> KeptNumbers
        ensures { result ≡ record { numbers = numbers; is_on_disk = false } }
    {
        KeptNumbers {
            numbers,
            is_on_disk: false,
        }
    }

    /// Returns the numbers of a file that was synced with them, renamed to its path, and synced with
    /// its folder, by these system calls.
    pub(crate) fn on_disk(numbers: Numbers, _calls: &NumbersCalls) -> KeptNumbers
        requires { _calls.now ≡ seen.Synced ∷ seen.Renamed ∷ seen.Written ∷ [] }
        ensures { result ≡ record { numbers = numbers; is_on_disk = true } }
    {
        KeptNumbers {
            numbers,
            is_on_disk: true,
        }
    }

    pub(crate) fn numbers(self) -> Numbers
        ensures { result ≡ self.numbers }
    {
        self.numbers
    }

    pub(crate) fn is_on_disk(self) -> bool
        ensures { result ≡ self.is_on_disk }
    {
        self.is_on_disk
    }

    /// Returns the numbers of the file after another filing of the folder may have written it.
    pub(crate) fn later(self, other: KeptNumbers) -> KeptNumbers
        ensures keeps { Keeps self.numbers result.numbers }
        ensures other { Keeps other.numbers result.numbers }
        ensures on_disk { result.is_on_disk ≡ true → (result ≡ self) ⊎ (result ≡ other) }
    {
        let numbers = self.numbers.max(other.numbers);
        if numbers == other.numbers {
            return other;
        }
        if numbers == self.numbers {
            return self;
        }
        KeptNumbers::found(numbers)
    }
}
