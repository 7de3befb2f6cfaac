//! Finds the fragments of encapsulated Pixel Data (PS3.5 section A.4).
use crate::keyword::UNDEFINED;
use element::{Header, Tag, Vr};

/// The tag of Pixel Data.
const PIXEL_DATA: Tag = Tag(0x7fe0, 0x0010);

/// The size of an item's header, in bytes.
const ITEM_HEADER: u64 = 8;

/// Returns whether a header opens encapsulated Pixel Data.
pub(crate) fn opens_fragments(header: &Header) -> bool {
    let Header { tag, length, vr } = *header;
    let is_opaque = vr == Some(Vr::OB) || vr == Some(Vr::OW);
    tag == PIXEL_DATA && is_opaque && length == UNDEFINED
}

/// What a header means for the fragments of Pixel Data.
#[derive(Clone, Copy)]
pub(crate) enum FragmentEvent {
    /// The header is outside Pixel Data.
    Outside,
    /// The header opens encapsulated Pixel Data.
    Opens,
    /// The first item: the Basic Offset Table.
    Table,
    /// A fragment, at this offset from the first fragment.
    Fragment(u64),
    /// The header follows the last item.
    Ends,
}

/// Which header is expected next.
#[derive(Clone, Copy)]
enum Next {
    /// A header outside Pixel Data.
    Element,
    /// The first item of Pixel Data.
    Table,
    /// A fragment; the first fragment is at this offset in the file.
    Fragment(u64),
}

/// Follows the headers of a data set and finds the fragments of its Pixel Data.
#[derive(Clone, Copy)]
pub(crate) struct Fragments {
    next: Next,
}

impl Fragments {
    pub(crate) fn new() -> Fragments {
        Fragments {
            next: Next::Element,
        }
    }

    /// Applies a header at an offset of the file.
    pub(crate) fn on_header(&mut self, offset: u64, header: &Header) -> FragmentEvent {
        let is_item = header.tag == Tag::ITEM;
        match self.next {
            Next::Table if is_item => {
                let length = u64::from(header.length);
                self.next = Next::Fragment(
                    offset.saturating_add(ITEM_HEADER).saturating_add(length),
                );
                FragmentEvent::Table
            }
            Next::Fragment(first) if is_item => FragmentEvent::Fragment(offset.saturating_sub(
                first,
            )),
            Next::Element if opens_fragments(header) => {
                self.next = Next::Table;
                FragmentEvent::Opens
            }
            Next::Element => FragmentEvent::Outside,
            _ => {
                self.next = Next::Element;
                FragmentEvent::Ends
            }
        }
    }
}
