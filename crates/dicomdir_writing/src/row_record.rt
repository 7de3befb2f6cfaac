//! The values of the elements of a directory record.
ghost use Rattle.std.specs.Prelude.{◌≡◌, option_map};
ghost use Rattle.element.specs.Header.{number};
ghost use Rattle.sequence.specs.Wanted.{value_of};
ghost use Rattle.dicomdir_writing.specs.machine.RowRecords.{own_values_of, says_of};

use crate::Row;
use dicomdir::Level;
use element::{Tag, unpadded};
use std::alloc::Allocator;

/// The record of a row at a level, with its offsets to the next record and to the lower level as
/// the bytes of their values.
#[derive(Drop)]
pub(crate) struct RowRecord<'r, A: Allocator> {
    pub(crate) level: Level,
    pub(crate) row: &'r Row<A>,
    pub(crate) next: [u8; 4],
    pub(crate) lower: [u8; 4],
}

impl<'r, A: Allocator> RowRecord<'r, A> {
    /// Returns the value of an element of group 0004 (PS3.3 table F.3-3), by the number of its tag,
    /// or `None` if the record has no such element. Record In-use Flag is FFFFH, in use.
    fn own_value(&self, number: u32) -> Option<&[u8]>
        ensures { option_map (λ v. v.now) result ≡ value_of (own_values_of self.now) number }
    {
        match number {
            0x0004_1400 => Some(&self.next),
            0x0004_1410 => Some(&[0xff, 0xff]),
            0x0004_1420 => Some(&self.lower),
            0x0004_1430 => Some(self.level.kind()),
            0x0004_1500 => Some(self.row.file_id_text()),
            0x0004_1510 => Some(self.row.class()),
            0x0004_1511 => Some(self.row.instance()),
            0x0004_1512 => Some(self.row.syntax().uid()),
            _ => None,
        }
    }

    /// Returns the value of the element with this tag: in group 0004 that of the record itself or
    /// of its file, in any other group the key of the row, without padding.
    pub(crate) fn value(&self, tag: Tag) -> Option<&[u8]>
        ensures { option_map (λ v. v.now) result ≡ says_of self.now (number tag) }
    {
        let number = tag.number();
        if number < 0x0005_0000 {
            return self.own_value(number);
        }
        match self.row.value(tag) {
            Some(value) => Some(unpadded(value)),
            None => None,
        }
    }
}
