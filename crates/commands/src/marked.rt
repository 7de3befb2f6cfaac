//! The arguments, which need not be UTF-8: file names are bytes.
use arguments::{CommandName, Job};
use std::alloc::Global;
use std::env::{self, Env, FillError};
use std::{io, str};

/// A byte that no argument and no file name has. It replaces each non-ASCII byte of an argument
/// that is not UTF-8, so that a command takes it as the name of a file that cannot be opened.
const MARK: u8 = 0;

/// The arguments of the program, with `MARK` in those that are not UTF-8.
#[derive(Clone, Copy)]
struct MarkedArguments<'a>(&'a HostRuntime);

impl Env for MarkedArguments<'_> {
    fn arg(&self, index: usize, room: &mut [u8]) -> Result<usize, FillError> {
        let count = self.0.arg(index, room)?;
        let bytes = &mut room[..count];
        if str::from_utf8(bytes).is_err() {
            for byte in bytes {
                if !byte.is_ascii() {
                    *byte = MARK;
                }
            }
        }
        Ok(count)
    }

    fn var(&self, name: &str, room: &mut [u8]) -> Result<usize, FillError> {
        self.0.var(name, room)
    }

    fn var_at(&self, index: usize, room: &mut [u8]) -> Result<usize, FillError> {
        self.0.var_at(index, room)
    }
}

/// Returns the arguments of the program, with `MARK` in those that are not UTF-8. Fails if memory
/// runs out.
pub(crate) fn owned_words(rt: &HostRuntime) -> io::Result<Vec<String, Global>> {
    let mut owned = Vec::new(rt.alloc());
    for word in env::args(&(MarkedArguments(rt), rt.alloc()))? {
        owned.push(word)?;
    }
    Ok(owned)
}

/// Returns whether an argument is one of the files that `show` or `check` reads. If such a file
/// cannot be opened, the others are still read.
fn is_file(job: &Job<'_>, word: &str) -> bool {
    matches!(job.command, CommandName::Show | CommandName::Check)
        && job.given.all("FILE").iter().any(|file| *file == word)
}

/// Returns the index and the text of the first argument that is not UTF-8 and not a file of `show`
/// or `check`.
pub(crate) fn refused_word<'a>(owned: &'a [String], job: &Job<'_>) -> Option<(usize, &'a str)> {
    for (index, word) in owned.iter().enumerate().skip(1) {
        let word = word.as_str();
        if word.as_bytes().contains(&MARK) && !is_file(job, word) {
            return Some((index, word));
        }
    }
    None
}
