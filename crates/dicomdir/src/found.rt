//! Finds elements and items in the bytes of a data set that was checked before.
ghost use Rattle.std.specs.Prelude.{◌≡◌, ◌≤◌, ◌<◌, ◌+◌, ◌^◌, ℕ, List, ◌++◌, length, drop, IfSome, Some, option_map};
ghost use Rattle.element.specs.Header.{number, IsTag, item_end_tag, sequence_end_tag};
ghost use Rattle.sequence.specs.Tree.{Elements, Items, delimitation};
ghost use Rattle.dicomdir.specs.Directory.{Found, header_size, found, number_in};
ghost use Rattle.dicomdir.specs.machine.Texts.{head_at, EndsBefore, ElementsThen, ItemsThen, HasElements, IsContent, IsItemContent, content_at, Finds};
ghost use Rattle.dicomdir.specs.machine.Texts as texts;

use byteorder::{ByteOrder, LittleEndian};
use element::{Header, Need, Tag, need, read_header};
use sequence::{Coding, Shape, shape_of};

const UNDEFINED: u32 = 0xffff_ffff;

/// A header, and its size in bytes.
#[derive(Clone, Copy)]
pub(crate) struct Head {
    pub header: Header,
    pub size: usize,
}

/// Returns the bytes after the first `count`, or no bytes if there are fewer.
pub(crate) fn after(text: &[u8], count: usize) -> &[u8]
    ensures { result.now ≡ drop count text.now }
{
    if count <= text.len() {
        &text[count..]
    } else {
        &[]
    }
}

/// Reads the header at the start of the bytes. Returns `None` if it is incomplete or has no valid
/// VR.
#[tactic(auto, using(crate::proofs::FrontIsFirstElement::head_whole, crate::proofs::FrontIsFirstElement::head_some))]
pub(crate) fn head_of(syntax: Coding, text: &[u8]) -> Option<Head>
    ensures value { result ≡ head_at syntax text.now }
    ensures some { IfSome result (λ r. 8 ≤ r.size) }
    ensures within { IfSome result (λ r. r.size ≤ length text.now) }
{
    match need(syntax.layout(), text) {
        Need::More | Need::BadVr => None,
        Need::Size(size) => {
            if size <= text.len() {
                Some(Head {
                    header: read_header(syntax.layout(), text),
                    size,
                })
            } else {
                None
            }
        }
    }
}

/// Returns the bytes after the value or the items of an element. `text` starts after the element's
/// header.
#[cycle(levels)]
pub(crate) fn after_content(syntax: Coding, header: Header, text: &[u8]) -> &[u8]
    ensures within { length result.now ≤ length text.now }
    ensures after { (offset : ℕ) (f : Found) (content rest : List ℕ) → IsContent syntax header offset f content → text.now ≡ content ++ rest → result.now ≡ rest }
{
    if header.length != UNDEFINED {
        return after(text, header.length as usize);
    }
    match shape_of(syntax, &header) {
        Shape::Sequence(inner) => after_items(inner, text),
        Shape::Value | Shape::NotAllowed => &[],
    }
}

/// Returns the bytes after the items of a sequence and its delimitation. `text` starts with the
/// first item.
#[cycle(levels)]
fn after_items(syntax: Coding, text: &[u8]) -> &[u8]
    ensures within { length result.now ≤ length text.now }
    ensures after { (items : Items) (rest : List ℕ) → ItemsThen syntax items (delimitation sequence_end_tag ++ rest) text.now → result.now ≡ rest }
{
    let mut rest = text;
    while let Some(head) = head_of(syntax, rest) {
        let next = after(rest, head.size);
        if head.header.tag != Tag::ITEM {
            return next;
        }
        rest = after_item(syntax, head.header, next);
    }
    &[]
}

/// Returns the bytes after the elements of an item. `text` starts after the item's header.
#[cycle(levels)]
pub(crate) fn after_item(syntax: Coding, header: Header, text: &[u8]) -> &[u8]
    ensures within { length result.now ≤ length text.now }
    ensures after { (es : Elements) (content rest : List ℕ) → IsItemContent syntax header es content → text.now ≡ content ++ rest → result.now ≡ rest }
{
    if header.length != UNDEFINED {
        return after(text, header.length as usize);
    }
    after_elements(syntax, text)
}

/// Returns the bytes after the elements of an item and its delimitation. `text` starts with the
/// first element.
#[cycle(levels)]
fn after_elements(syntax: Coding, text: &[u8]) -> &[u8]
    ensures within { length result.now ≤ length text.now }
    ensures after { (es : Elements) (rest : List ℕ) → ElementsThen syntax 0 es (delimitation item_end_tag ++ rest) text.now → result.now ≡ rest }
{
    let mut rest = text;
    while let Some(head) = head_of(syntax, rest) {
        let next = after(rest, head.size);
        if head.header.tag.is_marker() {
            return next;
        }
        rest = after_content(syntax, head.header, next);
    }
    &[]
}

/// Returns the value or the items of an element, or the elements of an item: as many bytes as the
/// header states, or all bytes if its length is undefined. `text` starts after the header.
pub(crate) fn content_of(header: Header, text: &[u8]) -> &[u8]
    ensures within { length result.now ≤ length text.now }
    ensures value { result.now ≡ content_at header text.now }
{
    let length = header.length as usize;
    if header.length != UNDEFINED && length <= text.len() {
        &text[..length]
    } else {
        text
    }
}

/// The element with a tag: its position in the file (`offset`), and its value; or the encoding and
/// the bytes of its items, and the position of the first (`first`).
#[derive(Clone, Copy)]
pub(crate) enum Element<'a> {
    Missing,
    Value {
        offset: u64,
        value: &'a [u8],
    },
    Items {
        offset: u64,
        first: u64,
        syntax: Coding,
        text: &'a [u8],
    },
}

fn element_at<'a>(syntax: Coding, head: Head, offset: u64, text: &'a [u8]) -> Element<'a>
    requires { offset + head.size < 2 ^ 64 }
    ensures end { EndsBefore (offset + head.size + length text.now) result }
    ensures found { (f : Found) (content more : List ℕ) → head.size ≡ header_size head.header → IsContent syntax head.header offset f content
        → text.now ≡ content ++ more → Finds result f }
{
    let text = content_of(head.header, text);
    match shape_of(syntax, &head.header) {
        Shape::Sequence(inner) => Element::Items {
            offset,
            first: offset + head.size as u64,
            syntax: inner,
            text,
        },
        Shape::Value | Shape::NotAllowed => Element::Value {
            offset,
            value: text,
        },
    }
}

/// Finds the element with this tag among the elements in `text`. `offset` is the position of the
/// first element in the file.
pub(crate) fn find<'a>(syntax: Coding, tag: Tag, offset: u64, text: &'a [u8]) -> Element<'a>
    requires room { offset + length text.now < 2 ^ 64 }
    requires is_tag { IsTag tag }
    ensures end { EndsBefore (offset + length text.now) result }
    ensures found { (es : Elements) → HasElements syntax es text.now → Finds result (found (number tag) offset es) }
{
    let mut rest = text;
    while let Some(head) = head_of(syntax, rest) {
        let next = after(rest, head.size);
        if head.header.tag.is_marker() {
            return Element::Missing;
        }
        if head.header.tag == tag {
            let offset = offset + (text.len() - rest.len()) as u64;
            return element_at(syntax, head, offset, next);
        }
        rest = after_content(syntax, head.header, next);
    }
    Element::Missing
}

impl<'a> Element<'a> {
    /// Returns the number in a value of four bytes, or `None` for any other element.
    pub fn long(&self) -> Option<u32>
        ensures { result ≡ number_in 4 (texts.shown self.now) }
    {
        match self {
            Element::Value { value, .. } if value.len() == 4 => Some(LittleEndian::read_u32(value)),
            _ => None,
        }
    }

    /// Returns the number in a value of two bytes, or `None` for any other element.
    pub fn short(&self) -> Option<u16>
        ensures { result ≡ number_in 2 (texts.shown self.now) }
    {
        match self {
            Element::Value { value, .. } if value.len() == 2 => Some(LittleEndian::read_u16(value)),
            _ => None,
        }
    }

    /// Returns the value, or `None` if the element is missing or has items.
    pub fn value(&self) -> Option<&'a [u8]>
        ensures { option_map (λ v. v.now) result ≡ texts.got_value self.now }
    {
        match self {
            Element::Value { value, .. } => Some(value),
            _ => None,
        }
    }

    /// Returns whether there is no element with the tag.
    pub fn is_missing(&self) -> bool
        ensures { result ≡ texts.got_none self.now }
    {
        matches!(self, Element::Missing)
    }
}
