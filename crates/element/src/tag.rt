//! Tags of data elements.
ghost use Rattle.std.specs.Prelude.{◌≡◌};
ghost use Rattle.element.specs.Header as spelling;

/// A data element's tag: its group and its element number (PS3.5 section 7.1). Tags are ordered by
/// group, then by element number.
#[derive(Clone, Copy, Debug, PartialEq, Eq, PartialOrd, Ord)]
pub struct Tag(pub u16, pub u16);

impl Tag {
    /// Item (PS3.5 section 7.5).
    pub const ITEM: Tag = Tag(0xfffe, 0xe000);

    /// Item Delimitation.
    pub const ITEM_DELIMITATION: Tag = Tag(0xfffe, 0xe00d);

    /// Sequence Delimitation.
    pub const SEQUENCE_DELIMITATION: Tag = Tag(0xfffe, 0xe0dd);

    /// Returns the tag as a number with the group in its upper 16 bits. Numbers are ordered as tags
    /// are.
    pub fn number(self) -> u32
        ensures { result ≡ spelling.number self }
    {
        u32::from(self.0) * 65536 + u32::from(self.1)
    }

    /// Returns whether the tag is in group FFFE (items and delimitations), whose headers never have
    /// a VR.
    pub fn is_marker(self) -> bool
        ensures { result ≡ spelling.is_marker self }
    {
        self.0 == 0xfffe
    }
}
