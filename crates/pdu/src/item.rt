//! Items of an association request.
ghost use Rattle.std.specs.Prelude.{◌≡◌, ◌≤◌, length, MatchOption};
ghost use Rattle.std.specs.Iterator.{YieldsFirstBy, item_count};
ghost use Rattle.pdu.specs.Items as spelling;
ghost use Rattle.element.specs.Padding.{is_empty};
ghost use Rattle.pdu.specs.Items.{item, items_of, remainder, Begins, BeginsNone};

use crate::item_type;
use byteorder::{BigEndian, ByteOrder};

/// Returns the length of an item's content in bytes, from its head of four bytes.
fn content_length(head: &[u8]) -> u16
    requires { 4 ≤ length head.now }
    ensures { result ≡ item.body head.now }
{
    BigEndian::read_u16(&head[2..])
}

/// A whole item or sub-item of an association request: one byte type, one reserved, two bytes
/// length, then the content (PS3.8 section 9.3.2).
#[derive(Clone, Copy)]
pub struct Item<'a> {
    bytes: &'a [u8],
    ghost headed: { 4 ≤ length bytes.now },
}

impl<'a> Item<'a> {
    /// Returns the type of the item, its first byte.
    pub fn kind(self) -> u8
        ensures { result ≡ spelling.kind self.entry.bytes.now }
    {
        self.bytes[0]
    }

    /// Returns all bytes of the item, including its head of four bytes.
    pub fn bytes(self) -> &'a [u8]
        ensures { result.now ≡ self.entry.bytes.now }
    {
        self.bytes
    }

    /// Returns whether the item is a proposed presentation context with its ID and three reserved
    /// bytes.
    pub fn is_context(self) -> bool
        ensures { result ≡ spelling.is_context self.entry.bytes.now }
    {
        self.kind() == item_type::PROPOSED_CONTEXT && self.bytes.len() >= 8
    }

    /// Returns the content of the item: the bytes after its head.
    pub fn content(self) -> &'a [u8]
        ensures { result.now ≡ spelling.item_content self.entry.bytes.now }
    {
        &self.bytes[4..]
    }
}

/// An iterator over the whole items at the front of some bytes, in order.
#[derive(Clone, Copy)]
pub struct Items<'a> {
    rest: &'a [u8],
}

impl<'a> Items<'a> {
    /// Returns an iterator over the items of these bytes.
    pub fn of(text: &'a [u8]) -> Items<'a>
        ensures { items_of result.rest.now ≡ items_of text.now }
    {
        Items { rest: text }
    }
}

/// Returns the first item and the bytes after it, or `None` if the bytes do not begin with a whole
/// item.
#[tactic(auto, using(crate::proofs::FirstItemIsUnique::begins_short, crate::proofs::FirstItemIsUnique::begins_started, crate::proofs::FirstItemIsUnique::begins_cut))]
pub fn first_item<'a>(text: &'a [u8]) -> Option<(Item<'a>, &'a [u8])>
    ensures { MatchOption result (BeginsNone text.now) (λ p. Begins text.now p.0.bytes.now p.1.now) }
{
    if text.len() < 4 {
        return None;
    }
    let size = 4 + usize::from(content_length(text));
    if text.len() < size {
        return None;
    }
    let (bytes, rest) = text.split_at(size);
    Some((Item { bytes }, rest))
}

impl<'a> Iterator for Items<'a> {
    type Item = Item<'a>;

    ghost next_gives = { YieldsFirstBy (λ i. i.bytes.now) (λ s. items_of s.rest.now) };

    ghost remaining = { item_count (λ s. items_of s.rest.now) };

    fn next(&mut self) -> Option<Item<'a>> {
        match first_item(self.rest) {
            None => None,
            Some((item, rest)) => {
                self.rest = rest;
                Some(item)
            }
        }
    }
}

/// Returns the content of the first item of type `kind`, or an empty slice if there is none.
pub fn content_in<'a>(kind: u8, text: &'a [u8]) -> &'a [u8]
    ensures { result.now ≡ spelling.content_in kind (items_of text.now) }
{
    for item in Items::of(text) {
        if item.kind() == kind {
            return item.content();
        }
    }
    &[]
}

/// Returns the number of items of type `kind`.
pub fn count_of(kind: u8, text: &[u8]) -> usize
    ensures { result ≡ length (spelling.of_kind kind (items_of text.now)) }
{
    let mut count = 0;
    for item in Items::of(text) {
        if item.kind() == kind {
            count += 1;
        }
    }
    count
}

/// Returns whether the bytes are whole items and nothing else.
pub fn is_whole(text: &[u8]) -> bool
    ensures { result ≡ is_empty (remainder text.now) }
{
    let mut rest = text;
    while let Some((_, more)) = first_item(rest) {
        rest = more;
    }
    rest.is_empty()
}
