//! Writes the headers of data elements and items.
ghost use Rattle.std.specs.Prelude.{◌≡◌, List, ◌∷◌, ℕ, ◌+◌, ◌^◌, ◌<◌, ◌≤◌, ◌++◌, length, drop, take, Bool, true, IsTrue};
ghost use Rattle.element.specs.Numbers.{le};
ghost use Rattle.element.specs.Vr.{IsVr, IsVrOrNone};
ghost use Rattle.element.specs.Header as spelling;
ghost use Rattle.element.specs.declared.size.Need.TheVariants.{Size};

use crate::reading::is_plain;
use crate::{Header, Syntax, Tag, Vr};
use byteorder::{ByteOrder, LittleEndian};

/// Returns whether a header can be written in this syntax. It must have a VR in Explicit VR Little
/// Endian outside group FFFE, and must not have a VR otherwise; its length is at most 65535 if its
/// VR has a length field of two bytes.
pub fn header_fits(syntax: Syntax, header: &Header) -> bool
    ensures { result ≡ spelling.header_fits syntax header.now }
{
    match header.vr {
        None => is_plain(syntax, header.tag),
        Some(vr) => !is_plain(syntax, header.tag) && (vr.is_long() || header.length < 65536),
    }
}

fn write_tag(tag: Tag, room: &mut [u8; 12])
    ensures written { room.new ≡ spelling.tag_bytes tag ++ drop 4 room.old }
    ensures within { spelling.IsTag tag }
{
    LittleEndian::write_u16(room, tag.0);
    LittleEndian::write_u16(&mut room[2..], tag.1);
}

fn write_letters(vr: Vr, room: &mut [u8])
    requires { 2 ≤ length room.old }
    ensures written { room.new ≡ vr ++ drop 2 room.old }
    ensures capital { IsVr vr }
    ensures two { length vr ≡ 2 }
{
    room[..2].copy_from_slice(&vr.letters());
}

fn write_short(vr: Vr, size: u16, room: &mut [u8])
    requires { 4 ≤ length room.old }
    ensures written { room.new ≡ (vr ++ le size 2) ++ drop 4 room.old }
    ensures capital { IsVr vr }
    ensures two { length vr ≡ 2 }
{
    write_letters(vr, room);
    LittleEndian::write_u16(&mut room[2..], size);
}

fn write_long(vr: Vr, size: u32, room: &mut [u8])
    requires { 8 ≤ length room.old }
    ensures written { room.new ≡ (vr ++ (0 ∷ 0 ∷ le size 4)) ++ drop 8 room.old }
    ensures capital { IsVr vr }
    ensures two { length vr ≡ 2 }
{
    write_letters(vr, room);
    LittleEndian::write_u16(&mut room[2..], 0);
    LittleEndian::write_u32(&mut room[4..], size);
}

fn write_rest(header: &Header, room: &mut [u8]) -> usize
    requires room { 8 ≤ length room.old }
    requires fits { (is_plain : Bool) × (spelling.fits_vr is_plain header.now.vr header.now.length ≡ true) }
    ensures size { result ≡ length (spelling.vr_bytes header.now.vr header.now.length) }
    ensures written { room.new ≡ spelling.vr_bytes header.now.vr header.now.length ++ drop result room.old }
    ensures named { IsVrOrNone header.now.vr }
    ensures within { header.now.length < 2 ^ 32 }
{
    match header.vr {
        None => {
            LittleEndian::write_u32(room, header.length);
            4
        }
        Some(vr) => {
            if vr.is_long() {
                write_long(vr, header.length, room);
                8
            } else {
                write_short(vr, header.length as u16, room);
                4
            }
        }
    }
}

/// Writes a header to the front of the buffer `room` and returns its size, 8 or 12 bytes (PS3.5
/// sections 7.1.2, 7.1.3 and 7.5). Reserved bytes are zero. The rest of the buffer is unchanged.
pub fn write_header(syntax: Syntax, header: &Header, room: &mut [u8; 12]) -> usize
    requires { IsTrue (spelling.header_fits syntax header.now) }
    ensures size { result ≡ length (spelling.header_bytes header.now) }
    ensures bytes { room.new ≡ spelling.header_bytes header.now ++ drop result room.old }
    ensures spelled { spelling.SpellsHeader syntax header.now (take result room.new) }
    ensures reads_back { (rest : List ℕ) → spelling.header_at syntax (take result room.new ++ rest) ≡ header.now }
    ensures needed { (rest : List ℕ) → spelling.need syntax (take result room.new ++ rest) ≡ Size result }
{
    write_tag(header.tag, room);
    4 + write_rest(header, &mut room[4..])
}
