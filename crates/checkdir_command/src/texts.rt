//! The printed form of file IDs.
use dicomdir::FileId;
use std::fmt;

/// Prints a file ID as a path, with `/` between its components.
#[derive(Clone, Copy)]
pub struct PathText(pub FileId);

impl fmt::Display for PathText {
    fn fmt<W: fmt::Write>(&self, f: &mut fmt::Formatter<W>) -> fmt::Result {
        for byte in self.0.text() {
            let byte = if *byte == b'\\' { b'/' } else { *byte };
            f.write_char(char::from(byte))?;
        }
        Ok(())
    }
}
