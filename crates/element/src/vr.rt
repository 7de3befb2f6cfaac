//! Value representations.
ghost use Rattle.std.specs.Prelude.{◌≡◌, ◌∷◌, [], ◌&&◌, true, IfSome, IfNone};
ghost use Rattle.element.specs.Vr as spelling;

use std::marker::Model;

/// A value representation: two capital letters (PS3.5 section 6.2).
#[derive(Clone, Copy, Debug, PartialEq, Eq)]
pub struct Vr([u8; 2]);

impl Model for Vr {
    ghost use Rattle.std.specs.Prelude.{List, ℕ};
    ghost use Rattle.element.specs.Vr.{IsVr};

    ghost Value = { List ℕ };

    ghost view = { λ v. v.0 };

    ghost invariant = { λ v. IsVr v.0 };

    ghost inverse = { λ letters. record { 0 = letters } };
}

fn is_capital(letter: u8) -> bool
    ensures { result ≡ spelling.is_capital letter }
{
    b'A' <= letter && letter <= b'Z'
}

#[tactic(auto, unfolding(crate::specs::Vr::is_short))]
pub(crate) fn is_short(a: u8, b: u8) -> bool
    ensures { result ≡ spelling.is_short a b }
{
    match a {
        b'A' => b == b'E' || b == b'S' || b == b'T',
        b'C' => b == b'S',
        b'D' => b == b'A' || b == b'S' || b == b'T',
        b'F' => b == b'L' || b == b'D',
        b'I' => b == b'S',
        b'L' => b == b'O' || b == b'T',
        b'P' => b == b'N',
        b'S' => b == b'H' || b == b'L' || b == b'S' || b == b'T',
        b'T' => b == b'M',
        b'U' => b == b'I' || b == b'L' || b == b'S',
        _ => false,
    }
}

impl Vr {
    /// Application Entity.
    pub const AE: Vr = Vr(*b"AE");

    /// Age String.
    pub const AS: Vr = Vr(*b"AS");

    /// Attribute Tag.
    pub const AT: Vr = Vr(*b"AT");

    /// Code String.
    pub const CS: Vr = Vr(*b"CS");

    /// Date.
    pub const DA: Vr = Vr(*b"DA");

    /// Decimal String.
    pub const DS: Vr = Vr(*b"DS");

    /// Floating Point Double.
    pub const FD: Vr = Vr(*b"FD");

    /// Floating Point Single.
    pub const FL: Vr = Vr(*b"FL");

    /// Integer String.
    pub const IS: Vr = Vr(*b"IS");

    /// Long String.
    pub const LO: Vr = Vr(*b"LO");

    /// Other Byte.
    pub const OB: Vr = Vr(*b"OB");

    /// Other Double.
    pub const OD: Vr = Vr(*b"OD");

    /// Other Float.
    pub const OF: Vr = Vr(*b"OF");

    /// Other Long.
    pub const OL: Vr = Vr(*b"OL");

    /// Other 64-bit Very Long.
    pub const OV: Vr = Vr(*b"OV");

    /// Other Word.
    pub const OW: Vr = Vr(*b"OW");

    /// Person Name.
    pub const PN: Vr = Vr(*b"PN");

    /// Short String.
    pub const SH: Vr = Vr(*b"SH");

    /// Signed Long.
    pub const SL: Vr = Vr(*b"SL");

    /// Sequence of Items.
    pub const SQ: Vr = Vr(*b"SQ");

    /// Signed Short.
    pub const SS: Vr = Vr(*b"SS");

    /// Signed 64-bit Very Long.
    pub const SV: Vr = Vr(*b"SV");

    /// Time.
    pub const TM: Vr = Vr(*b"TM");

    /// Unique Identifier.
    pub const UI: Vr = Vr(*b"UI");

    /// Unsigned Long.
    pub const UL: Vr = Vr(*b"UL");

    /// Unsigned Short.
    pub const US: Vr = Vr(*b"US");

    /// Unsigned 64-bit Very Long.
    pub const UV: Vr = Vr(*b"UV");

    /// Returns the VR that two bytes spell, or `None` if they are not two capital letters.
    pub fn read(letters: [u8; 2]) -> Option<Vr>
        ensures { result ≡ spelling.vr_of letters }
    {
        if is_capital(letters[0]) && is_capital(letters[1]) {
            Some(Vr(letters))
        } else {
            None
        }
    }

    /// Returns the two letters of this VR.
    pub fn letters(self) -> [u8; 2]
        ensures same { result ≡ self }
        ensures capital { spelling.IsVr self }
    {
        let Vr(letters) = self;
        letters
    }

    /// Returns whether headers with this VR in Explicit VR Little Endian have two reserved bytes
    /// and a length field of four bytes (PS3.5 section 7.1.2).
    pub fn is_long(self) -> bool
        ensures { result ≡ spelling.is_long self }
    {
        !is_short(self.0[0], self.0[1])
    }
}
