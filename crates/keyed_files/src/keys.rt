//! The requested values of a file.
ghost use Rattle.std.specs.Prelude.{◌≡◌, option_map};
ghost use Rattle.keyed_files.specs.Keys.{file_text, file_value};

use arrayvec::ArrayVec;
use element::{Tag, unpadded};

/// The greatest number of values.
const MOST_KEYS: usize = 27;

/// The greatest number of bytes kept of a value.
pub const LONGEST_KEPT: usize = 256;

/// The greatest number of bytes of all values together.
const ROOM: usize = 6912;

/// The tag of a value and the index of its first byte in the buffer.
#[derive(Clone, Copy)]
struct Start {
    tag: Tag,
    offset: usize,
}

impl Default for Start {
    fn default() -> Start {
        Start {
            tag: Tag(0, 0),
            offset: 0,
        }
    }
}

/// The requested values of a file: at most 27, and the first 256 bytes of each.
#[derive(Drop)]
pub struct FileKeys {
    starts: ArrayVec<Start, MOST_KEYS>,
    bytes: ArrayVec<u8, ROOM>,
    /// Whether the next bytes belong to the last value.
    is_open: bool,
}

impl FileKeys {
    /// Creates an empty list of values.
    pub(crate) fn new() -> FileKeys {
        FileKeys {
            starts: ArrayVec::new(),
            bytes: ArrayVec::new(),
            is_open: false,
        }
    }

    /// Starts the value with this tag.
    pub(crate) fn begin(&mut self, tag: Tag) {
        let offset = self.bytes.len();
        self.is_open = self.starts.try_push(Start { tag, offset }).is_ok();
    }

    /// Ends the current value, if any.
    pub(crate) fn end(&mut self) {
        self.is_open = false;
    }

    /// Returns the number of bytes of the last value.
    fn last_length(&self) -> usize {
        match self.starts.as_slice().last() {
            Some(start) => self.bytes.len().saturating_sub(start.offset),
            None => 0,
        }
    }

    /// Appends bytes to the current value, up to 256, or drops them without a current value.
    pub(crate) fn take(&mut self, bytes: &[u8]) {
        if !self.is_open {
            return;
        }
        let room = LONGEST_KEPT.saturating_sub(self.last_length());
        let count = bytes.len().min(room);
        let _ = self.bytes.try_extend_from_slice(&bytes[..count]);
    }

    /// Returns the value with this tag, including padding, or `None` if the file has none. Of a
    /// longer value it returns the first 256 bytes.
    pub fn value(&self, tag: Tag) -> Option<&[u8]>
        ensures { option_map (λ v. v.now) result ≡ file_value self.now tag }
    {
        let starts = self.starts.as_slice();
        for number in 0..starts.len() {
            if starts[number].tag == tag {
                let end = match starts.get(number + 1) {
                    Some(next) => next.offset,
                    None => self.bytes.len(),
                };
                return self.bytes.as_slice().get(starts[number].offset..end);
            }
        }
        None
    }

    /// Returns the value with this tag without its padding, or an empty slice if the file has none.
    pub fn text(&self, tag: Tag) -> &[u8]
        ensures { result.now ≡ file_text self.now tag }
    {
        unpadded(self.value(tag).unwrap_or(&[]))
    }
}
