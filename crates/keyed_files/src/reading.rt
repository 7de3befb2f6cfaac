//! Reads requested values of a file.
use crate::keys::FileKeys;
use element::Tag;
use inspection::{DIRECTORY_CLASS, FileFront, InspectionError, Judgement, Steps, walk_data_set};
use part10::{MetaFault, read_any_meta};
use sequence::Step;
use std::io::{self, Read};

/// The most bytes of one read.
const PIECE: usize = 4096;

/// Why no values were read from a file.
#[derive(Drop)]
pub enum NoKeys {
    /// The file is a DICOMDIR.
    Directory,
    /// The file has no bytes.
    Empty,
    /// The file has this fault before the end of the requested values.
    Faulty(Judgement),
    /// A read failed.
    Unread(io::Error),
}

/// Returns the reason for a file that can't be read.
fn unread(error: InspectionError) -> NoKeys {
    match error {
        InspectionError::Read(error) | InspectionError::Write(error) => NoKeys::Unread(error),
    }
}

/// Keeps the values with these tags, up to the first element with a tag above all of them.
#[derive(Drop)]
struct KeySteps<'a> {
    tags: &'a [Tag],
    keys: FileKeys,
}

impl KeySteps<'_> {
    /// Starts the value of an element at the top level if its tag is requested. Returns whether the
    /// tag is above all requested tags.
    fn take_tag(&mut self, tag: Tag) -> bool {
        if self.tags.iter().any(|asked| *asked == tag) {
            self.keys.begin(tag);
        } else {
            self.keys.end();
        }
        self.tags.iter().all(|asked| asked.number() < tag.number())
    }
}

impl Steps for KeySteps<'_> {
    fn take(&mut self, step: &Step<'_>, levels: usize, _end: u64) -> io::Result<bool> {
        match step {
            Step::Element(header) if levels == 0 => return Ok(self.take_tag(header.tag)),
            Step::Element(_) | Step::Opened(_) | Step::Closed(_) => self.keys.end(),
            Step::Run(bytes) => self.keys.take(*bytes),
            Step::More | Step::Refused(_) => {}
        }
        Ok(false)
    }
}

/// Reads the values with these tags, at most 27, from a file in any transfer syntax of the
/// dictionary. The reader must be at the start of the file. Reading stops at the first element with
/// a tag above all of them; faults after that are not found.
///
/// Fails if the file is a DICOMDIR or empty, has a fault before that element, or a read fails.
pub fn read_keys<R: Read>(input: &mut R, tags: &[Tag]) -> Result<FileKeys, NoKeys> {
    let mut input = FileFront::new(input);
    let meta = match read_any_meta(&mut input) {
        Ok(meta) => meta,
        Err(MetaFault::ReadFailed) => return Err(unread(input.take_error())),
        Err(_) if input.count() == 0 => return Err(NoKeys::Empty),
        Err(fault) => return Err(NoKeys::Faulty(Judgement::BadHeader(fault))),
    };
    if meta.class.as_bytes() == DIRECTORY_CLASS {
        return Err(NoKeys::Directory);
    }
    let start = input.count();
    let mut room = [0; PIECE];
    let mut steps = KeySteps {
        tags,
        keys: FileKeys::new(),
    };
    match walk_data_set(&mut input, meta.syntax, &mut room, &mut steps) {
        Ok(Ok(())) => Ok(steps.keys),
        Ok(Err(fault)) => Err(NoKeys::Faulty(Judgement::BadData(start, fault))),
        Err(error) => Err(unread(error)),
    }
}
