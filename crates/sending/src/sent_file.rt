//! A file while it is sent.
ghost use Rattle.std.specs.Prelude.{◌≡◌, ◌≢◌, [], IfOk, IsTrue};

use element::traced_stream::TracedStream;
use std::fs::{self, Metadata, OpenFile};
use std::io::{self, ErrorKind};
use std::os::unix::fs::MetadataExt;
use std::rt::Files;

/// What distinguishes a file from others, and from itself with other contents.
#[derive(Clone, Copy, PartialEq, Eq)]
struct Identity {
    device: u64,
    inode: u64,
    size: u64,
    modified: i64,
    nanoseconds: i64,
}

impl Identity {
    fn of(found: &Metadata) -> Identity {
        Identity {
            device: found.dev(),
            inode: found.ino(),
            size: found.len(),
            modified: found.mtime(),
            nanoseconds: found.mtime_nsec(),
        }
    }
}

/// Returns the folder of a path.
fn folder_of(path: &str) -> &str {
    match path.rsplit_once('/') {
        Some(("", _)) => "/",
        Some((folder, _)) => folder,
        None => ".",
    }
}

/// Returns the device and inode numbers of the folder at a path.
fn node_at<R: Files>(rt: &R, path: &str) -> io::Result<(u64, u64)> {
    let found = fs::metadata(rt, path)?;
    Ok((found.dev(), found.ino()))
}

/// A file that was opened at a path, with a trace of the bytes that were read of it. Only `open`
/// makes one.
#[derive(Drop)]
pub struct SentFile<'a, F> {
    path: &'a str,
    identity: Identity,
    pub(crate) file: TracedStream<F>,
}

impl<'a, F: OpenFile + Drop> SentFile<'a, F> {
    /// Opens the file at a path. Fails if a system call does.
    pub fn open<R: Files<File = F>>(rt: &R, path: &'a str) -> io::Result<SentFile<'a, F>>
        ensures path { IfOk result (λ f. f.path.now ≡ path.now) }
        ensures unread { IfOk result (λ f. f.file.read.bytes ≡ []) }
    {
        let file = fs::open(rt, path)?;
        let identity = Identity::of(&file.metadata()?);
        Ok(SentFile {
            path,
            identity,
            file: TracedStream::new(file),
        })
    }

    /// Returns the path.
    pub(crate) fn path(&self) -> &'a str
        ensures { result.now ≡ self.now.path.now }
    {
        self.path
    }

    /// Returns the last name of the path.
    pub(crate) fn name(&self) -> &'a str {
        match self.path.rsplit_once('/') {
            Some((_, name)) => name,
            None => self.path,
        }
    }

    /// Returns whether an odd number of bytes follows the first `front` bytes of the file.
    pub(crate) fn has_odd_rest(&self, front: usize) -> bool {
        self.identity.size % 2 != front as u64 % 2
    }

    /// Returns whether the path still names this file, with the same size and time.
    pub(crate) fn is_there<R: Files>(&self, rt: &R) -> io::Result<bool> {
        Ok(Identity::of(&fs::symlink_metadata(rt, self.path)?) == self.identity)
    }

    /// Returns whether the path is one in this folder.
    pub(crate) fn is_in<R: Files>(&self, rt: &R, dir: &str) -> io::Result<bool> {
        Ok(node_at(rt, folder_of(self.path))? == node_at(rt, dir)?)
    }

    /// Returns whether a path in another folder than that of the path names this file, too, with the
    /// same size and time.
    pub(crate) fn is_also_at<R: Files>(&self, rt: &R, other: &str) -> io::Result<bool>
        ensures { IfOk result (λ is_at. IsTrue is_at → other.now ≢ self.now.path.now) }
    {
        if other == self.path {
            return Ok(false);
        }
        match fs::symlink_metadata(rt, other) {
            Ok(found) => {
                Ok(Identity::of(&found) == self.identity && !self.is_in(rt, folder_of(other))?)
            }
            Err(error) if error.kind() == ErrorKind::NotFound => Ok(false),
            Err(error) => Err(error),
        }
    }
}
