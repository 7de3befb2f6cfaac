//! The table of the elements of directory records.
ghost use Rattle.std.specs.Prelude.{◌≡◌};
ghost use Rattle.dicomdir_writing.specs.RecordTable as table;

use dicomdir::Level;
use element::Tag;

/// The type of an element of a record: when the record has the element, and whether it must have a
/// value (PS3.5 section 7.4).
#[derive(Clone, Copy)]
pub(crate) enum ElementType {
    /// Type 1, and the unique key of its level: two records of that level differ in it.
    Unique,
    /// Type 1: always present, with a value.
    Type1,
    /// Type 1C: present if there is a value.
    Type1C,
    /// Type 2: always present; the value may be empty.
    Type2,
    /// Type 3: present if it is requested and there is a value.
    Type3,
}

/// Which keys the records of a directory have.
#[derive(Clone, Copy)]
pub(crate) enum RecordKeys {
    /// All keys except those of type 3.
    Needed,
    /// All keys, with Series Description, of type 3.
    Described,
}

/// The levels of the records that have an element.
#[derive(Clone, Copy)]
pub(crate) enum Levels {
    /// All four levels.
    Each,
    /// Only this level.
    Only(Level),
}

impl Levels {
    /// Returns whether records of this level have the element.
    pub(crate) fn has(self, level: Level) -> bool
        ensures { result ≡ table.has_level self level }
    {
        match (self, level) {
            (Levels::Each, _)
            | (Levels::Only(Level::Patient), Level::Patient)
            | (Levels::Only(Level::Study), Level::Study)
            | (Levels::Only(Level::Series), Level::Series)
            | (Levels::Only(Level::Image), Level::Image) => true,
            _ => false,
        }
    }
}

/// A row of the table: the tag and the VR of an element, the greatest size of its value in bytes
/// (`room`), its type, and the levels of the records that have it.
#[derive(Clone, Copy)]
pub(crate) struct RecordRule {
    pub(crate) tag: Tag,
    pub(crate) vr: [u8; 2],
    pub(crate) room: u32,
    pub(crate) kind: ElementType,
    pub(crate) levels: Levels,
}

impl RecordKeys {
    /// Returns whether the value of this key is read from data sets.
    pub(crate) fn has(self, rule: &RecordRule) -> bool
        ensures { result ≡ table.is_read self rule.now }
    {
        match (self, rule.kind) {
            (RecordKeys::Needed, ElementType::Type3) => false,
            _ => true,
        }
    }
}

impl RecordRule {
    /// Returns whether this is the unique key of a level, by which rows are grouped.
    pub(crate) fn groups(&self, level: Level) -> bool
        ensures { result ≡ table.groups level self.now }
    {
        matches!(self.kind, ElementType::Unique) && self.levels.has(level)
    }
}

macro_rules! levels {
    (Each) => {
        Levels::Each
    };
    ($level:ident) => {
        Levels::Only(Level::$level)
    };
}

/// Makes a row of the table: group and element number, VR, greatest size of the value in bytes,
/// type, and level (or `Each`).
macro_rules! rule {
    ($group:literal, $element:literal, $vr:literal, $room:literal, $kind:ident, $levels:ident) => {
        RecordRule {
            tag: Tag($group, $element),
            vr: *$vr,
            room: $room,
            kind: ElementType::$kind,
            levels: levels!($levels),
        }
    };
}

/// The elements of all records, in the order of their tags: those of the record itself and of its
/// file (PS3.3 table F.3-3), then the keys from the data set (PS3.3 section F.5).
const RECORD_TABLE: &[RecordRule] = &[
    rule!(0x0004, 0x1400, b"UL", 4, Type1C, Each),
    rule!(0x0004, 0x1410, b"US", 2, Type1C, Each),
    rule!(0x0004, 0x1420, b"UL", 4, Type1C, Each),
    rule!(0x0004, 0x1430, b"CS", 7, Type1C, Each),
    rule!(0x0004, 0x1500, b"CS", 71, Type1C, Image),
    rule!(0x0004, 0x1510, b"UI", 64, Type1C, Image),
    rule!(0x0004, 0x1511, b"UI", 64, Type1C, Image),
    rule!(0x0004, 0x1512, b"UI", 64, Type1C, Image),
    rule!(0x0008, 0x0005, b"CS", 64, Type1C, Each),
    rule!(0x0008, 0x0020, b"DA", 32, Type1, Study),
    rule!(0x0008, 0x0030, b"TM", 32, Type1, Study),
    rule!(0x0008, 0x0050, b"SH", 64, Type2, Study),
    rule!(0x0008, 0x0060, b"CS", 64, Type1, Series),
    rule!(0x0008, 0x1030, b"LO", 256, Type2, Study),
    rule!(0x0008, 0x103e, b"LO", 256, Type3, Series),
    rule!(0x0010, 0x0010, b"PN", 512, Type2, Patient),
    rule!(0x0010, 0x0020, b"LO", 256, Unique, Patient),
    rule!(0x0020, 0x000d, b"UI", 64, Unique, Study),
    rule!(0x0020, 0x000e, b"UI", 64, Unique, Series),
    rule!(0x0020, 0x0010, b"SH", 64, Type1, Study),
    rule!(0x0020, 0x0011, b"IS", 32, Type1, Series),
    rule!(0x0020, 0x0013, b"IS", 32, Type1, Image),
];

/// The index in the table of the first key from the data set.
const FIRST_KEY: usize = 8;

/// Returns the elements of all records, in the order of their tags.
pub(crate) fn record_table() -> &'static [RecordRule]
    ensures { result.now ≡ table.record_table }
{
    RECORD_TABLE
}

/// Returns the part of the table with the keys from the data set.
pub(crate) fn key_table() -> &'static [RecordRule]
    ensures { result.now ≡ table.key_table }
{
    &record_table()[FIRST_KEY..]
}
