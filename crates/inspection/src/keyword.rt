//! The keywords of elements.
use dictionary::name_of;
use element::Tag;
use keywords::element_keyword;

/// The value of a length field that means undefined length.
pub(crate) const UNDEFINED: u32 = 0xffff_ffff;

/// Returns the dictionary's keyword of a tag; `Item` or `End` for items and delimitations.
pub(crate) fn keyword(tag: Tag) -> Option<&'static str> {
    if tag == Tag::ITEM {
        return Some("Item");
    }
    if tag == Tag::ITEM_DELIMITATION || tag == Tag::SEQUENCE_DELIMITATION {
        return Some("End");
    }
    name_of(tag)
}

/// Returns the keyword of a tag by `keyword`, or else by the standard (PS3.6).
pub fn known_keyword(tag: Tag) -> Option<&'static str> {
    match keyword(tag) {
        Some(keyword) => Some(keyword),
        None => element_keyword(tag.0, tag.1),
    }
}
