//! Writes File Meta Information.
ghost use Rattle.std.specs.Prelude.{◌≡◌, ◌+◌, ◌^◌, ◌<◌, ◌≤◌, ◌∷◌, ◌++◌, [], ℕ, true, Some, length};
ghost use Rattle.arrayvec.specs.ArrayVec.{array_vec_len};
ghost use Rattle.element.specs.Header.{header_bytes};
ghost use Rattle.element.specs.Title.{title_text};
ghost use Rattle.element.specs.Uid.{is_uid};
ghost use Rattle.element.specs.Vr.{is_short_vr};
ghost use Rattle.part10.specs.File as file;
ghost use Rattle.part10.specs.MetaText.{SpellsMeta, meta_values_of};
ghost use Rattle.element.specs.Padding.{padded};

use crate::Meta;
use arrayvec::ArrayVec;
use byteorder::{ByteOrder, LittleEndian};
use dictionary::{IMPLEMENTATION_CLASS_UID, IMPLEMENTATION_VERSION_NAME};
use element::{AeTitle, Header, Syntax, Tag, Vr, write_header};

type Head = ArrayVec<u8, 512>;

fn put(head: &mut Head, bytes: &[u8])
    requires { array_vec_len head.old + length bytes.now ≤ 512 }
    ensures { head.new.items ≡ head.old.items ++ bytes.now }
{
    head.try_extend_from_slice(bytes).unwrap();
}

/// Appends the header of an element of group 0002, in Explicit VR.
fn put_header(head: &mut Head, number: u16, vr: Vr, size: u32)
    requires room { array_vec_len head.old + 12 ≤ 512 }
    requires short { size < 2 ^ 16 }
    ensures items { head.new.items ≡ head.old.items ++ header_bytes (record { tag = record { 0 = 2; 1 = number }; vr = Some vr; length = size }) }
    ensures letters { length vr ≡ 2 }
{
    // `letters` ensures that the VR has two letters.
    vr.letters();
    let header = Header {
        tag: Tag(0x0002, number),
        vr: Some(vr),
        length: size,
    };
    let mut room = [0; 12];
    let len = write_header(Syntax::Explicit, &header, &mut room);
    put(head, &room[..len]);
}

/// Appends an element of group 0002 whose VR has a length field of two bytes. Pads the value to an
/// even length with `padding`.
fn put_element(head: &mut Head, number: u16, vr: Vr, value: &[u8], padding: u8)
    requires room { array_vec_len head.old + length value.now + 12 ≤ 512 }
    requires short { is_short_vr vr ≡ true }
    ensures items { head.new.items ≡ head.old.items ++ file.meta_element number vr (padded padding value.now) }
    ensures bound { array_vec_len head.new ≤ array_vec_len head.old + length value.now + 9 }
{
    let odd = value.len() % 2;
    put_header(head, number, vr, (value.len() + odd) as u32);
    put(head, value);
    if odd == 1 {
        head.push(padding);
    }
}

#[tactic(auto, unfolding(element::specs::Vr::is_short))]
fn put_uid(head: &mut Head, number: u16, text: &[u8])
    requires fits { length text.now ≤ 64 }
    requires room { array_vec_len head.old + 76 ≤ 512 }
    ensures items { head.new.items ≡ head.old.items ++ file.uid_element number text.now }
    ensures bound { array_vec_len head.new ≤ array_vec_len head.old + 73 }
{
    put_element(head, number, Vr::UI, text, 0);
}

/// Returns the elements File Meta Information Version, Media Storage SOP Class UID, Media Storage
/// SOP Instance UID and Transfer Syntax UID, at most 240 bytes.
#[tactic(auto, using(crate::proofs::Bounds::transfer_uid_short), unfolding(element::specs::Vr::is_short, crate::specs::File::identity_elements))]
fn identity_elements(meta: &Meta) -> Head
    ensures items { result.items ≡ file.identity_elements meta.now }
    ensures class { is_uid meta.now.class ≡ true }
    ensures instance { is_uid meta.now.instance ≡ true }
    ensures bound { array_vec_len result ≤ 240 }
{
    let mut group = Head::new();
    put_header(&mut group, 0x0001, Vr::OB, 2);
    put(&mut group, &[0, 1]);
    // `len` ensures that a UID has at most 64 bytes.
    meta.class.len();
    put_uid(&mut group, 0x0002, meta.class.as_bytes());
    meta.instance.len();
    put_uid(&mut group, 0x0003, meta.instance.as_bytes());
    put_uid(&mut group, 0x0010, meta.syntax.uid());
    group
}

/// Appends Implementation Class UID and Implementation Version Name.
#[tactic(auto, unfolding(element::specs::Vr::is_short, crate::specs::File::implementation_elements))]
fn put_implementation(group: &mut Head)
    requires room { array_vec_len group.old ≤ 240 }
    ensures items { group.new.items ≡ group.old.items ++ file.implementation_elements }
    ensures bound { array_vec_len group.new ≤ 330 }
{
    put_uid(group, 0x0012, IMPLEMENTATION_CLASS_UID);
    put_element(group, 0x0013, Vr::SH, IMPLEMENTATION_VERSION_NAME, b' ');
}

/// Appends Source Application Entity Title, unless `calling` is all spaces.
#[tactic(auto, using(crate::proofs::Bounds::title_text_short), unfolding(element::specs::Vr::is_short, crate::specs::File::title_element))]
fn put_title(group: &mut Head, calling: AeTitle)
    requires room { array_vec_len group.old ≤ 330 }
    ensures items { group.new.items ≡ group.old.items ++ file.title_element (title_text calling.0) }
    ensures title { length calling.0 ≡ 16 }
    ensures bound { array_vec_len group.new ≤ 360 }
{
    let title = calling.trimmed();
    if !title.is_empty() {
        put_element(group, 0x0016, Vr::AE, title, b' ');
    }
}

fn meta_group(meta: &Meta) -> Head
    ensures items { result.items ≡ file.meta_group meta.now }
    ensures class { is_uid meta.now.class ≡ true }
    ensures instance { is_uid meta.now.instance ≡ true }
    ensures title { length meta.now.calling.0 ≡ 16 }
    ensures bound { array_vec_len result ≤ 360 }
{
    let mut group = identity_elements(meta);
    put_implementation(&mut group);
    put_title(&mut group, meta.calling);
    group
}

#[tactic(auto, unfolding(element::specs::Vr::is_short))]
fn file_header(meta: &Meta) -> Head
    ensures bytes { result.items ≡ file.head meta.now }
    ensures class { is_uid meta.now.class ≡ true }
    ensures instance { is_uid meta.now.instance ≡ true }
    ensures title { length meta.now.calling.0 ≡ 16 }
    ensures bound { length (file.meta_group meta.now) ≤ 360 }
{
    let group = meta_group(meta);
    let mut length = [0; 4];
    LittleEndian::write_u32(&mut length, group.len() as u32);
    let mut head = Head::new();
    put(&mut head, &[0; 128]);
    put(&mut head, b"DICM");
    put_element(&mut head, 0x0000, Vr::UL, &length, 0);
    put(&mut head, group.as_slice());
    head
}

/// Returns the bytes of a file before its data set (PS3.10 section 7.1), at most 512: a preamble of
/// 128 zero bytes, the prefix `DICM`, and the File Meta Information in Explicit VR Little Endian.
pub fn meta_bytes(meta: &Meta) -> ArrayVec<u8, 512>
    ensures bytes { result.items ≡ file.head meta.now }
    ensures reads_back { SpellsMeta (meta_values_of meta.now) result.items }
{
    file_header(meta)
}
