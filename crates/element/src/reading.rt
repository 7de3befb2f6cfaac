//! Reads the headers of data elements and items.
ghost use Rattle.std.specs.Prelude.{◌≡◌, ℕ, ◌+◌, ◌<◌, ◌≤◌, List, ◌++◌, length, take, IsTrue, None};
ghost use Rattle.element.specs.declared.header.Header.{Header};
ghost use Rattle.element.specs.declared.size.Need.TheVariants.{Size};
ghost use Rattle.element.specs.Header as spelling;

use crate::size::Need;
use crate::vr::is_short;
use crate::{Header, Syntax, Tag, Vr};
use byteorder::{ByteOrder, LittleEndian};

pub(crate) fn is_plain(syntax: Syntax, tag: Tag) -> bool
    ensures { result ≡ spelling.is_plain syntax tag }
{
    match syntax {
        Syntax::Implicit => true,
        Syntax::Explicit => tag.is_marker(),
    }
}

/// Reads the tag from the first four bytes.
pub fn read_tag(bytes: &[u8]) -> Tag
    requires { 4 ≤ length bytes.now }
    ensures { result ≡ spelling.tag_at bytes.now }
{
    Tag(
        LittleEndian::read_u16(bytes),
        LittleEndian::read_u16(&bytes[2..]),
    )
}

/// Returns the size of the header at the front of `bytes`; `Need::More` if they are too few to
/// determine it, `Need::BadVr` if the VR is invalid.
#[tactic(auto, unfolding(crate::specs::Header::need))]
pub fn need(syntax: Syntax, bytes: &[u8]) -> Need
    ensures { result ≡ spelling.need syntax bytes.now }
{
    if bytes.len() < 4 {
        Need::More
    } else if is_plain(syntax, read_tag(bytes)) {
        Need::Size(8)
    } else if bytes.len() < 6 {
        Need::More
    } else {
        match Vr::read([bytes[4], bytes[5]]) {
            None => Need::BadVr,
            Some(vr) => {
                if vr.is_long() {
                    Need::Size(12)
                } else {
                    Need::Size(8)
                }
            }
        }
    }
}

/// Reads a header without a VR: its length is bytes 4 to 7.
fn plain_header(tag: Tag, bytes: &[u8]) -> Header
    requires { 8 ≤ length bytes.now }
    ensures { result ≡ record { tag = tag; vr = None; length = spelling.long_number_at bytes.now 4 } }
{
    Header {
        tag,
        vr: None,
        length: LittleEndian::read_u32(&bytes[4..]),
    }
}

/// Reads a length of two bytes, bytes 6 and 7, which follow the VR.
fn short_length(bytes: &[u8]) -> u32
    requires { 8 ≤ length bytes.now }
    ensures { result ≡ spelling.number_at bytes.now 6 }
{
    u32::from(LittleEndian::read_u16(&bytes[6..]))
}

/// Reads a length of four bytes, bytes 8 to 11, which follow the VR and two reserved bytes.
fn long_length(bytes: &[u8]) -> u32
    requires { 12 ≤ length bytes.now }
    ensures { result ≡ spelling.long_number_at bytes.now 8 }
{
    LittleEndian::read_u32(&bytes[8..])
}

#[tactic(auto, using(crate::proofs::Headers::whole_eight, crate::proofs::Headers::whole_twelve, crate::proofs::Headers::whole_capital), unfolding(crate::specs::Header::header_at))]
fn front_header(syntax: Syntax, bytes: &[u8]) -> Header
    requires { IsTrue (spelling.is_whole syntax bytes.now) }
    ensures { result ≡ spelling.header_at syntax bytes.now }
{
    let tag = read_tag(bytes);
    if is_plain(syntax, tag) {
        return plain_header(tag, bytes);
    }
    let (first, second) = (bytes[4], bytes[5]);
    let vr = Vr::read([first, second]);
    let length = if is_short(first, second) {
        short_length(bytes)
    } else {
        long_length(bytes)
    };
    Header { tag, vr, length }
}

/// Reads the header at the front of `bytes` (PS3.5 sections 7.1.2, 7.1.3 and 7.5). Requires that
/// `need` returns a size and that `bytes` has at least that many bytes. Reserved bytes are not
/// checked.
#[tactic(auto, using(crate::proofs::Headers::front_spells, crate::proofs::Headers::spelled_need, crate::proofs::Headers::spelled_header))]
pub fn read_header(syntax: Syntax, bytes: &[u8]) -> Header
    requires { IsTrue (spelling.is_whole syntax bytes.now) }
    ensures value { result ≡ spelling.header_at syntax bytes.now }
    ensures spelled { (n : ℕ) → spelling.need syntax bytes.now ≡ Size n → spelling.SpellsHeader syntax result (take n bytes.now) }
    ensures only { (h : Header) (front rest : List ℕ) → spelling.SpellsHeader syntax h front → bytes.now ≡ front ++ rest
        → (h ≡ result) × (spelling.need syntax bytes.now ≡ Size (length front)) }
{
    front_header(syntax, bytes)
}
