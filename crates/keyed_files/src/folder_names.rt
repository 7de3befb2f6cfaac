//! Reads the names in a folder as bytes; std's listing drops names that are not UTF-8.
use element::interrupted::read_retrying;
use failures::{Failure, ProgramError};
use std::alloc::{AllocError, Allocator};
use std::io::{self, Read};
use std::rt::Files;
use std::str;

/// The most bytes of names per read. A name has at most 255.
const PIECE: usize = 8192;

/// Returns this path with a slash at its end, so that a link to a folder can be opened and names
/// can follow; an empty path stays empty.
fn with_slash<A: Allocator>(alloc: A, dir: &str) -> Result<String<A>, AllocError> {
    if dir.is_empty() || dir.ends_with('/') {
        String::from_str(alloc, dir)
    } else {
        format!(in alloc; "{dir}/")
    }
}

/// A path in a folder, after whether its name is UTF-8. If it is not, the path has `?` for each byte
/// of the name that is not ASCII.
pub(crate) type NamedPath<A> = (bool, String<A>);

/// Returns the path of a name in a folder, whose path ends with a slash.
fn path_in<A: Allocator>(alloc: A, dir: &str, name: &[u8]) -> Result<NamedPath<A>, AllocError> {
    if let Ok(text) = str::from_utf8(name) {
        return Ok((true, format!(in alloc; "{dir}{text}")?));
    }
    let mut path = String::from_str(alloc, dir)?;
    for byte in name {
        path.push(if byte.is_ascii() {
            char::from(*byte)
        } else {
            '?'
        })?;
    }
    Ok((false, path))
}

/// Reads the names in a folder in chunks, in the order in which the system lists them.
#[derive(Drop)]
pub(crate) struct NameListing<D: Read + Drop, A: Allocator> {
    alloc: A,
    /// The path of the folder, with a slash at its end.
    path: String<A>,
    dir: D,
    room: [u8; PIECE],
    /// The offsets in `room` of the zero-terminated names that are still to be returned.
    start: usize,
    end: usize,
}

impl<D: Read + Drop, A: Allocator + Copy> NameListing<D, A> {
    /// Opens a folder.
    pub(crate) fn open<R: Files<Dir = D> + Alloc<A = A>>(
        rt: &R,
        dir: &str,
    ) -> io::Result<NameListing<D, A>> {
        let path = with_slash(rt.alloc(), dir)?;
        Ok(NameListing {
            alloc: rt.alloc(),
            dir: rt.open_dir(path.as_str())?,
            path,
            room: [0; PIECE],
            start: 0,
            end: 0,
        })
    }

    /// Returns the path of the next name other than `.` and `..`, or `None` after the last.
    ///
    /// Fails if the folder can't be read or memory runs out.
    pub(crate) fn next(&mut self) -> Result<Option<NamedPath<A>>, ProgramError> {
        for _ in 0..u64::MAX {
            if self.start >= self.end {
                self.start = 0;
                self.end = match read_retrying(&mut self.dir, &mut self.room) {
                    Ok(0) => return Ok(None),
                    Ok(count) => count,
                    Err(error) => return Err(ProgramError::of(Failure::ReadFolder, error)),
                };
            }
            let rest = self.room.get(self.start..self.end).unwrap_or(&[]);
            let length = rest
                .iter()
                .position(|byte| *byte == 0)
                .unwrap_or(rest.len());
            let name = rest.get(..length).unwrap_or(&[]);
            self.start = self.start.saturating_add(length).saturating_add(1);
            if !name.is_empty() && name != b".".as_slice() && name != b"..".as_slice() {
                return Ok(Some(path_in(self.alloc, self.path.as_str(), name)?));
            }
        }
        Ok(None)
    }
}
