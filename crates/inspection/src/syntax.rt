//! Reads a file's header in the allowed transfer syntaxes.
use crate::bare::bare_form;
use crate::front::FileFront;
use crate::options::Syntaxes;
use element::Syntax;
use part10::{Meta, MetaFault, read_any_meta, read_meta};
use std::io::Read;

impl Syntaxes {
    /// Reads the header of a file. Fails if its transfer syntax is not one of these.
    pub(crate) fn read_meta<R: Read>(self, input: &mut R) -> Result<Meta, MetaFault> {
        match self {
            Syntaxes::Native => read_meta(input),
            Syntaxes::All | Syntaxes::Any => read_any_meta(input),
        }
    }

    /// Returns the form of a file without preamble and File Meta Information, or `None` for a file
    /// that is read from its header on. Reads no byte of `front` unless such files are accepted.
    pub(crate) fn bare_form<R: Read>(self, front: &mut FileFront<'_, R>) -> Option<Syntax> {
        match self {
            Syntaxes::Any => bare_form(front.look_ahead()),
            _ => None,
        }
    }
}
