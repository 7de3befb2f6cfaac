//! Reads File Meta Information.
ghost use Rattle.std.specs.Prelude.{◌≡◌, ◌^◌, ◌<◌, ◌≤◌, ℕ, List, ◌++◌, length, take, replicate, OnOk, IfOk, IfErr};
ghost use Rattle.std.specs.Io.KnownBytes.{Consumes, IsAtEnd};
ghost use Rattle.std.specs.Str.{bytes_eq};
ghost use Rattle.element.specs.Padding as padding;
ghost use Rattle.element.specs.Numbers.{le};
ghost use Rattle.dictionary.specs.Transfers.{native, syntax_in};
ghost use Rattle.part10.specs.MetaText.{meta_values_of, ConsumesMeta, NamesOther, NamesUnknown, FailsToRead, FailsToReadAny};
ghost use Rattle.part10.specs.File.{length_element};
ghost use Rattle.part10.specs.declared.meta_fault.MetaFault.TheVariants.{ReadFailed, OtherSyntax};
ghost use Rattle.part10.specs.machine.Reading as part;

use crate::meta::Meta;
use crate::meta_fault::MetaFault;
use arrayvec::ArrayVec;
use byteorder::{ByteOrder, LittleEndian};
use dictionary::Transfer;
use element::interrupted::read_retrying;
use element::{AeTitle, Header, Need, Syntax, Tag, Uid, need, read_header, unpadded};
use std::io::Read;

/// Fills the buffer from the reader. Returns the number of bytes read, less than its size only at
/// the end of the input. Fails with `ReadFailed`.
fn fill<R: Read>(input: &mut R, room: &mut [u8]) -> Result<usize, MetaFault>
    ensures size { length room.new ≡ length room.old }
    ensures within { IfOk result (λ n. n ≤ length room.new) }
    ensures consumes { IfOk result (λ n. Consumes (R.remaining input.old) (R.remaining input.new) (take n room.new)) }
    ensures end { IfOk result (λ n. n < length room.new → IsAtEnd (R.remaining input.new)) }
    ensures failed { IfErr result (λ fault. fault ≡ ReadFailed) }
{
    let mut at = 0;
    while at < room.len() {
        let Ok(n) = read_retrying(input, &mut room[at..]) else {
            return Err(MetaFault::ReadFailed);
        };
        if n == 0 {
            return Ok(at);
        }
        at += n;
    }
    Ok(at)
}

/// Fills the buffer from the reader. Fails with `BadMeta` if the input ends before, or with
/// `ReadFailed`.
fn read_whole<R: Read>(input: &mut R, room: &mut [u8]) -> Result<(), MetaFault>
    ensures size { length room.new ≡ length room.old }
    ensures consumes { OnOk result (Consumes (R.remaining input.old) (R.remaining input.new) room.new) }
    ensures short { IfErr result (λ fault. part.Breaks fault (R.remaining input.old) (λ rest. length rest < length room.new)) }
{
    if fill(input, room)? < room.len() {
        return Err(MetaFault::BadMeta);
    }
    Ok(())
}

/// Returns whether `bytes` equals `text`.
fn is_text(bytes: &[u8], text: &[u8]) -> bool
    ensures { result ≡ bytes_eq bytes.now text.now }
{
    bytes == text
}

/// Reads the preamble of 128 bytes and the prefix `DICM`. Fails with `NotPart10` if they are
/// missing, or with `ReadFailed`.
fn read_letters<R: Read>(input: &mut R) -> Result<(), MetaFault>
    ensures read { OnOk result (part.Reads (R.remaining input.old) (R.remaining input.new) part.IsPrefix) }
    ensures none { IfErr result (λ fault. part.NoLetters fault (R.remaining input.old)) }
{
    let mut room = [0; 132];
    let count = fill(input, &mut room)?;
    if count < 132 {
        return Err(MetaFault::NotPart10);
    }
    if !is_text(&room[128..], b"DICM") {
        return Err(MetaFault::NotPart10);
    }
    Ok(())
}

/// Returns the little endian number of four bytes.
fn read_number(bytes: &[u8]) -> u32
    requires { length bytes.now ≡ 4 }
    ensures { le result 4 ≡ bytes.now }
{
    LittleEndian::read_u32(bytes)
}

/// Reads File Meta Information Group Length (0002,0000) and returns its value: the number of bytes
/// of the group after this element. Fails with `BadMeta` if the input does not begin with it, or
/// with `ReadFailed`.
fn read_group_size<R: Read>(input: &mut R) -> Result<u32, MetaFault>
    ensures read { IfOk result (λ n. Consumes (R.remaining input.old) (R.remaining input.new) (length_element n)) }
    ensures range { IfOk result (λ n. n < 2 ^ 32) }
    ensures none { IfErr result (λ fault. part.Breaks fault (R.remaining input.old) part.NoSize) }
{
    let mut room = [0; 12];
    read_whole(input, &mut room)?;
    if !is_text(&room[..8], &[2, 0, 0, 0, b'U', b'L', 4, 0]) {
        return Err(MetaFault::BadMeta);
    }
    Ok(read_number(&room[8..]))
}

fn joined(front: &[u8; 8], back: &[u8]) -> ArrayVec<u8, 12>
    requires { length back.now ≤ 4 }
    ensures { result.items ≡ front.now ++ back.now }
{
    let mut whole = ArrayVec::new();
    whole.try_extend_from_slice(front).unwrap();
    whole.try_extend_from_slice(back).unwrap();
    whole
}

/// Reads the header of an element in Explicit VR. Returns it with its size in bytes. Fails with
/// `BadMeta` if it is invalid or longer than `remaining` bytes, or with `ReadFailed`.
#[tactic(auto, using(crate::proofs::EightBytesGiveSize::need_bounds, crate::proofs::EightBytesGiveSize::whole_at))]
fn read_short_header<R: Read>(input: &mut R, remaining: u32) -> Result<(Header, u32), MetaFault>
    ensures read { IfOk result (λ r. part.HeaderRead remaining r.0 r.1 (R.remaining input.old) (R.remaining input.new)) }
    ensures none { IfErr result (λ fault. part.Breaks fault (R.remaining input.old) (part.NoHeader remaining)) }
{
    let mut front = [0; 8];
    read_whole(input, &mut front)?;
    let Need::Size(size) = need(Syntax::Explicit, &front) else {
        return Err(MetaFault::BadMeta);
    };
    if size > remaining as usize {
        return Err(MetaFault::BadMeta);
    }
    let mut back = [0; 4];
    let back = &mut back[..size - 8];
    read_whole(input, back)?;
    let whole = joined(&front, back);
    Ok((read_header(Syntax::Explicit, whole.as_slice()), size as u32))
}

/// Returns whether all bytes are padding: zero bytes or spaces.
fn are_padding(bytes: &[u8]) -> bool
    ensures { result ≡ padding.is_empty (padding.without_trailing padding.is_padding bytes.now) }
{
    unpadded(bytes).is_empty()
}

/// Reads `size` bytes and returns whether all are padding. Fails with `BadMeta` if the input ends
/// before, or with `ReadFailed`.
fn read_padding<R: Read>(input: &mut R, size: u32) -> Result<bool, MetaFault>
    ensures read { IfOk result (λ is_padding. part.Reads (R.remaining input.old) (R.remaining input.new) (part.IsPart size is_padding)) }
    ensures short { IfErr result (λ fault. part.Breaks fault (R.remaining input.old) (λ rest. length rest < size)) }
{
    let mut room = [0; 64];
    let mut remaining = size;
    let mut is_padding = true;
    while remaining > 0 {
        let part = remaining.min(64);
        let bytes = &mut room[..part as usize];
        read_whole(input, bytes)?;
        is_padding &= are_padding(bytes);
        remaining -= part;
    }
    Ok(is_padding)
}

/// Reads a value of `size` bytes. Returns the UID in it, or `None` if it is not valid. Fails with
/// `BadMeta` if the input ends before, or with `ReadFailed`.
fn read_value<R: Read>(input: &mut R, size: u32) -> Result<Option<Uid>, MetaFault>
    ensures read { IfOk result (λ uid. part.Reads (R.remaining input.old) (R.remaining input.new) (part.IsValue size uid)) }
    ensures short { IfErr result (λ fault. part.Breaks fault (R.remaining input.old) (λ rest. length rest < size)) }
{
    let mut room = [0; 64];
    let first = size.min(64);
    let bytes = &mut room[..first as usize];
    read_whole(input, bytes)?;
    let is_padding = read_padding(input, size - first)?;
    if !is_padding {
        return Ok(None);
    }
    Ok(Uid::read(bytes))
}

/// An element of group 0002.
#[derive(Drop)]
struct Element {
    number: u16,
    /// The size of its header and value together, in bytes.
    size: u32,
    /// The UID in its value, or `None` if it is not valid.
    uid: Option<Uid>,
}

/// Returns whether the header is that of an element of group 0002 with an element number above
/// `last` and an even, hence defined, length.
fn is_next(header: Header, last: u16) -> bool
    ensures { result ≡ part.is_next header last }
{
    let Tag(group, number) = header.tag;
    group == 2 && last < number && header.length % 2 == 0
}

/// Reads an element of group 0002 with an element number above `last`, of at most `remaining` bytes with
/// its header. Fails with `BadMeta` if there is none, or with `ReadFailed`.
fn read_element<R: Read>(input: &mut R, last: u16, remaining: u32) -> Result<Element, MetaFault>
    ensures read { IfOk result (λ e. part.ElementRead last remaining e (R.remaining input.old) (R.remaining input.new)) }
    ensures none { IfErr result (λ fault. part.Breaks fault (R.remaining input.old) (part.NoElement last remaining)) }
{
    let (header, size) = read_short_header(input, remaining)?;
    let number = header.tag.1;
    let length = header.length;
    if !is_next(header, last) {
        return Err(MetaFault::BadMeta);
    }
    if length > remaining - size {
        return Err(MetaFault::BadMeta);
    }
    let uid = read_value(input, length)?;
    Ok(Element {
        number,
        size: size + length,
        uid,
    })
}

/// The required UIDs of File Meta Information that were read so far: SOP class, SOP instance and
/// transfer syntax.
#[derive(Drop)]
struct Found {
    class: Option<Uid>,
    instance: Option<Uid>,
    syntax: Option<Uid>,
}

impl Found {
    fn none() -> Found
        ensures { result ≡ record { class = None; instance = None; syntax = None } }
    {
        Found {
            class: None,
            instance: None,
            syntax: None,
        }
    }

    /// Stores the UID of an element that is one of the three.
    fn note(&mut self, element: Element)
        ensures { self.new ≡ part.noted element.number element.uid self.old }
    {
        match element.number {
            0x0002 => self.class = element.uid,
            0x0003 => self.instance = element.uid,
            0x0010 => self.syntax = element.uid,
            _ => {}
        }
    }

    /// Returns the contents of the File Meta Information. Fails with `BadMeta` if a required UID is
    /// missing or invalid, or with `OtherSyntax` if the transfer syntax is not in the dictionary.
    fn meta(self) -> Result<Meta, MetaFault>
        ensures { part.IsMeta self result }
    {
        let class = self.class.ok_or(MetaFault::BadMeta)?;
        let instance = self.instance.ok_or(MetaFault::BadMeta)?;
        let syntax = self.syntax.ok_or(MetaFault::BadMeta)?;
        let syntax = Transfer::of(syntax.as_bytes()).ok_or(MetaFault::OtherSyntax)?;
        Ok(Meta {
            class,
            instance,
            syntax,
            calling: AeTitle::default(),
        })
    }
}

/// Reads the `size` bytes of group 0002 after its length element. Fails with `BadMeta` if they are
/// invalid, or with `ReadFailed`.
fn read_group<R: Read>(input: &mut R, size: u32) -> Result<Found, MetaFault>
    ensures read { IfOk result (λ found. part.GroupRead size found (R.remaining input.old) (R.remaining input.new)) }
    ensures none { IfErr result (λ fault. part.Breaks fault (R.remaining input.old) (part.NoGroup size)) }
{
    let mut found = Found::none();
    let mut last = 0;
    let mut remaining = size;
    while remaining > 0 {
        let element = read_element(input, last, remaining)?;
        last = element.number;
        remaining -= element.size;
        found.note(element);
    }
    Ok(found)
}

/// Reads the preamble, the prefix and the File Meta Information at the start of the input (PS3.10
/// section 7.1), and no byte after them.
///
/// Any preamble is accepted. Group 0002 must begin with its length, end where that says, have
/// strictly ascending tags and even, defined lengths, and contain the SOP class, the SOP instance
/// and a transfer syntax of the dictionary. Other elements are skipped. Source Application Entity
/// Title is not read: `calling` is all spaces. The memory used is fixed, whatever the lengths in
/// the file.
///
/// Fails with a [`MetaFault`]. After `OtherSyntax` exactly the File Meta Information was read;
/// after any other error the position of the reader is unspecified.
pub fn read_any_meta<R: Read>(input: &mut R) -> Result<Meta, MetaFault>
    ensures header { IfOk result (λ meta. ConsumesMeta (meta_values_of meta) (R.remaining input.old) (R.remaining input.new)) }
    ensures calling { IfOk result (λ meta. meta.calling.0 ≡ replicate 16 32) }
    ensures fault { IfErr result (λ fault. FailsToReadAny fault (R.remaining input.old)) }
    ensures other_syntax { IfErr result (λ fault. fault ≡ OtherSyntax → NamesUnknown (R.remaining input.old) (R.remaining input.new)) }
{
    read_letters(input)?;
    let size = read_group_size(input)?;
    read_group(input, size)?.meta()
}

/// Reads the File Meta Information at the start of the input as [`read_any_meta`] does, but accepts
/// only the two native transfer syntaxes, Implicit and Explicit VR Little Endian. Any other fails
/// with `OtherSyntax`, after exactly the File Meta Information was read.
pub fn read_meta<R: Read>(input: &mut R) -> Result<Meta, MetaFault>
    ensures header { IfOk result (λ meta. ConsumesMeta (meta_values_of meta) (R.remaining input.old) (R.remaining input.new)) }
    ensures native { IfOk result (λ meta. meta.syntax ≡ native (syntax_in meta.syntax)) }
    ensures calling { IfOk result (λ meta. meta.calling.0 ≡ replicate 16 32) }
    ensures fault { IfErr result (λ fault. FailsToRead fault (R.remaining input.old)) }
    ensures other_syntax { IfErr result (λ fault. fault ≡ OtherSyntax → NamesOther (R.remaining input.old) (R.remaining input.new)) }
{
    match read_any_meta(input) {
        Ok(meta) => {
            if meta.syntax.is_encapsulated() {
                return Err(MetaFault::OtherSyntax);
            }
            Ok(meta)
        }
        Err(fault) => Err(fault),
    }
}
