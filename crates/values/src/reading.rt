//! Reads a text byte by byte and replaces each character by one byte, so that characters can be
//! counted and checked without decoding them.
ghost use Rattle.std.specs.Prelude.{◌≡◌, ◌+◌, ◌≤◌, ◌++◌, [], length};
ghost use Rattle.values.specs.Characters as characters;

use crate::character_set::CharacterSet;
use arrayvec::ArrayVec;

/// Replaces a character of several bytes in GB 18030 and with code extensions.
const WIDE: u8 = 128;

/// Which byte of a character of GB 18030 the next byte is.
#[derive(Clone, Copy, Debug)]
pub enum GbPosition {
    First,
    Second,
    Third,
    Fourth,
}

/// What the next byte is part of with code extensions (ISO 2022): a character or an escape
/// sequence.
#[derive(Clone, Copy, Debug)]
pub enum ExtendedPosition {
    First,
    /// The second byte of a character of two bytes.
    Last,
    /// The byte after ESC.
    Escape,
    /// The byte after ESC and `$`, which announce a set with two bytes for each character.
    WideEscape,
    /// An escape sequence that selects the set of the bytes below 80H (G0); `true` if that set has
    /// two bytes for each character.
    Low(bool),
    /// An escape sequence that selects the set of the bytes from 80H on (G1); `true` if that set
    /// has two bytes for each character.
    High(bool),
}

/// Which of the two selected sets of code extensions have two bytes for each character.
#[derive(Clone, Copy, Debug)]
pub struct WideSets {
    /// The set of the bytes below 80H (G0).
    pub low: bool,
    /// The set of the bytes from 80H on (G1).
    pub high: bool,
}

/// The state of reading a text byte by byte in its character set.
#[derive(Clone, Copy, Debug)]
pub enum Reading {
    SingleByte,
    Utf8,
    Gb18030(GbPosition),
    CodeExtensions(WideSets, ExtendedPosition),
}

fn gb_position(position: GbPosition, byte: u8) -> GbPosition
    ensures { result ≡ characters.gb_position position byte }
{
    match position {
        GbPosition::First => {
            if byte >= 129 {
                GbPosition::Second
            } else {
                GbPosition::First
            }
        }
        GbPosition::Second => {
            if byte.is_ascii_digit() {
                GbPosition::Third
            } else {
                GbPosition::First
            }
        }
        GbPosition::Third => GbPosition::Fourth,
        GbPosition::Fourth => GbPosition::First,
    }
}

fn gb_character(position: GbPosition, byte: u8) -> Option<u8>
    ensures { result ≡ characters.gb_character position byte }
{
    match position {
        GbPosition::First => Some(if byte >= 129 { WIDE } else { byte }),
        _ => None,
    }
}

/// Returns whether a byte is the first of a character of two bytes, with these sets selected.
fn begins_pair(sets: WideSets, byte: u8) -> bool
    ensures { result ≡ characters.begins_pair sets byte }
{
    sets.low && 33 <= byte && byte <= 126 || sets.high && byte >= 161
}

/// Returns whether a byte is an intermediate byte of an escape sequence, 20H to 2FH: not its last.
fn is_intermediate(byte: u8) -> bool
    ensures { result ≡ characters.is_intermediate byte }
{
    32 <= byte && byte <= 47
}

/// Returns whether this byte of an escape sequence, `)` or `-`, selects the set of the bytes from
/// 80H on (G1).
fn names_high(byte: u8) -> bool
    ensures { result ≡ characters.names_high byte }
{
    byte == b')' || byte == b'-'
}

/// Returns the state after this byte, which follows ESC, or ESC and `$` if `is_wide`.
fn after_escape(is_wide: bool, byte: u8) -> ExtendedPosition
    ensures { result ≡ characters.after_escape is_wide byte }
{
    if names_high(byte) {
        ExtendedPosition::High(is_wide)
    } else if is_intermediate(byte) {
        ExtendedPosition::Low(is_wide)
    } else {
        ExtendedPosition::First
    }
}

fn first_position(sets: WideSets, byte: u8) -> ExtendedPosition
    ensures { result ≡ characters.first_position sets byte }
{
    if byte == 27 {
        ExtendedPosition::Escape
    } else if begins_pair(sets, byte) {
        ExtendedPosition::Last
    } else {
        ExtendedPosition::First
    }
}

fn extended_position(sets: WideSets, position: ExtendedPosition, byte: u8) -> ExtendedPosition
    ensures { result ≡ characters.extended_position sets position byte }
{
    match position {
        ExtendedPosition::First => first_position(sets, byte),
        ExtendedPosition::Last => ExtendedPosition::First,
        ExtendedPosition::Escape => {
            if byte == b'$' {
                ExtendedPosition::WideEscape
            } else {
                after_escape(false, byte)
            }
        }
        ExtendedPosition::WideEscape => after_escape(true, byte),
        ExtendedPosition::Low(_) | ExtendedPosition::High(_) => {
            if is_intermediate(byte) {
                position
            } else {
                ExtendedPosition::First
            }
        }
    }
}

/// Returns the selected sets after a byte. Only the last byte of an escape sequence changes them.
fn extended_sets(sets: WideSets, position: ExtendedPosition, byte: u8) -> WideSets
    ensures { result ≡ characters.extended_sets sets position byte }
{
    let WideSets { low, high } = sets;
    if is_intermediate(byte) {
        return sets;
    }
    match position {
        ExtendedPosition::Low(is_wide) => WideSets { low: is_wide, high },
        ExtendedPosition::High(is_wide) => WideSets { low, high: is_wide },
        ExtendedPosition::WideEscape => WideSets { low: true, high },
        _ => sets,
    }
}

fn extended_character(sets: WideSets, position: ExtendedPosition, byte: u8) -> Option<u8>
    ensures { result ≡ characters.extended_character sets position byte }
{
    match position {
        ExtendedPosition::First => {
            if byte == 27 {
                None
            } else if begins_pair(sets, byte) {
                Some(WIDE)
            } else {
                Some(byte)
            }
        }
        _ => None,
    }
}

/// Appends `character` to a text, if it is there and the text has capacity.
fn push<const N: usize>(text: &mut ArrayVec<u8, N>, character: Option<u8>)
    ensures text { length text.old.items + 1 ≤ N → text.new.items ≡ text.old.items ++ characters.with_character character [] }
    ensures bound { length text.new.items ≤ length text.old.items + 1 }
{
    if let Some(character) = character {
        let _ = text.try_push(character);
    }
}

impl Reading {
    /// Creates the state at the start of a text in this character set.
    pub fn new(set: CharacterSet) -> Reading
        ensures { result ≡ characters.reading_of set }
    {
        match set {
            CharacterSet::SingleByte => Reading::SingleByte,
            CharacterSet::Utf8 => Reading::Utf8,
            CharacterSet::Gb18030 => Reading::Gb18030(GbPosition::First),
            CharacterSet::CodeExtensions => {
                let (low, high) = (false, false);
                Reading::CodeExtensions(WideSets { low, high }, ExtendedPosition::First)
            }
        }
    }

    /// Returns the state after one more byte.
    fn after(self, byte: u8) -> Reading
        ensures { result ≡ characters.after self byte }
    {
        match self {
            Reading::SingleByte | Reading::Utf8 => self,
            Reading::Gb18030(position) => Reading::Gb18030(gb_position(position, byte)),
            Reading::CodeExtensions(sets, position) => Reading::CodeExtensions(
                extended_sets(sets, position, byte),
                extended_position(sets, position, byte),
            ),
        }
    }

    /// Returns the byte that replaces the character that starts with this byte, or `None` inside a
    /// character or an escape sequence.
    fn character(self, byte: u8) -> Option<u8>
        ensures { result ≡ characters.character self byte }
    {
        match self {
            Reading::SingleByte => Some(byte),
            Reading::Utf8 => {
                if 128 <= byte && byte <= 191 {
                    None
                } else {
                    Some(byte)
                }
            }
            Reading::Gb18030(position) => gb_character(position, byte),
            Reading::CodeExtensions(sets, position) => extended_character(sets, position, byte),
        }
    }

    /// Reads the next bytes of a text, and appends one byte to `text` for each character that
    /// starts in them, up to the capacity of `text`.
    pub fn read<const N: usize>(&mut self, bytes: &[u8], text: &mut ArrayVec<u8, N>)
        ensures reading { self.new ≡ characters.after_all self.old bytes.now }
        ensures text { length text.old.items + length bytes.now ≤ N → text.new.items ≡ text.old.items ++ characters.shown self.old bytes.now }
    {
        for byte in bytes {
            push(text, self.character(*byte));
            *self = self.after(*byte);
        }
    }
}
