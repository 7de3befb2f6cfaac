//! The further columns of a listing.
ghost use Rattle.std.specs.Prelude.{◌≡◌, IfOk};
ghost use Rattle.list_command.specs.Tree.{texts_of};
ghost use Rattle.list_command.specs.Values.{columns_of as values_for};

use element::Tag;
use keyed_files::{FileKeys, is_text_element};
use keywords::element_vrs;
use std::alloc::{AllocError, Allocator};
use values::Repertoire;

/// The greatest number of columns.
pub const MOST_COLUMNS: usize = 8;

/// The VRs whose characters Specific Character Set (0008,0005) determines (PS3.5 section 6.1.2.2).
const OF_CHARACTER_SET: &str = "LO LT PN SH ST UC UT";

/// An element whose value is a column of the listing.
#[derive(Clone, Copy)]
pub struct Column<'a> {
    pub tag: Tag,
    /// The name of the column.
    pub keyword: &'a str,
}

impl<'a> Column<'a> {
    /// Creates the column of an element, with its keyword as name. Returns `None` for an element of
    /// the File Meta Information or one whose value is not text.
    pub fn new(tag: Tag, keyword: &'a str) -> Option<Column<'a>> {
        if is_text_element(tag) {
            Some(Column { tag, keyword })
        } else {
            None
        }
    }

    /// Returns the character repertoire of the column in a file whose texts have this repertoire.
    pub(crate) fn repertoire_in(self, of_texts: Repertoire) -> Repertoire {
        match element_vrs(self.tag.0, self.tag.1) {
            Some(vrs) if !OF_CHARACTER_SET.contains(vrs) => Repertoire::Ascii,
            _ => of_texts,
        }
    }
}

/// Returns the values of a file for these columns, in their order, without padding; a missing value
/// is empty. Fails if memory runs out.
pub(crate) fn columns_of<A: Allocator + Copy>(
    alloc: A,
    keys: &FileKeys,
    columns: &[Column<'_>],
) -> Result<Vec<Vec<u8, A>, A>, AllocError>
    ensures { IfOk result (λ values. texts_of values.items ≡ values_for keys.now columns.now) }
{
    let mut values = Vec::new(alloc);
    for column in columns {
        values.push(Vec::from_slice(alloc, keys.text(column.tag))?)?;
    }
    Ok(values)
}
