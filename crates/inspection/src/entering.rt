//! The sequences of defined length that the walker reads as opaque values, in Implicit VR: their
//! tags are not in the dictionary, but are sequences in PS3.6.
use crate::element_vrs::ElementVrs;
use crate::items::{ItemReader, ItemStep};
use crate::keyword::UNDEFINED;
use crate::options::Vocabulary;
use dictionary::vr_of;
use element::{Header, Tag, Vr};

/// What the bytes of the walker's current value are.
#[derive(Clone, Copy)]
pub(crate) enum BytesOf {
    /// Bytes of a value.
    Value,
    /// Items of a sequence.
    Items,
}

/// Follows the walker's headers and bytes, determines the VRs of elements without one, and reads
/// the items of sequences that the walker reads as values.
#[derive(Drop)]
pub(crate) struct Entering {
    vocabulary: Vocabulary,
    vrs: ElementVrs,
    items: ItemReader,
    bytes: BytesOf,
    /// The offset and the tag of the current sequence's header; `None` once a fault was found in
    /// it.
    sequence: Option<(u64, Tag)>,
}

/// Returns whether the walker reads the sequence of this header as a value, where `vr` is the VR
/// found for the header.
fn is_value(header: &Header, vr: Option<Vr>) -> bool {
    let Header { tag, length, .. } = *header;
    let is_unknown = header.vr.is_none() && vr_of(tag).is_none();
    is_unknown && vr == Some(Vr::SQ) && 0 < length && length != UNDEFINED
}

/// Returns a copy of the header with this VR.
fn with_vr(header: &Header, vr: Option<Vr>) -> Header {
    Header {
        tag: header.tag,
        length: header.length,
        vr,
    }
}

impl Entering {
    pub(crate) fn new(vocabulary: Vocabulary) -> Entering {
        Entering {
            vocabulary,
            vrs: ElementVrs::new(),
            items: ItemReader::new(),
            bytes: BytesOf::Value,
            sequence: None,
        }
    }

    /// Starts reading the items of a sequence, whose header spans the offsets from `offset` to
    /// `end`.
    fn enter(&mut self, (offset, end): (u64, u64), levels: usize, header: &Header) {
        self.items.begin(end, levels, header.length);
        self.bytes = BytesOf::Items;
        self.sequence = Some((offset, header.tag));
    }

    /// Returns the header with its VR, if the VR is known.
    fn named(&self, levels: usize, header: &Header) -> Header {
        match header.vr {
            Some(_) => *header,
            None => with_vr(header, self.vrs.vr_of(levels, header.tag)),
        }
    }

    /// Applies a header that the walker found at these offsets (start and end). Returns the header
    /// with its VR, if the VR is known.
    pub(crate) fn on_header(&mut self, span: (u64, u64), levels: usize, header: &Header) -> Header {
        self.bytes = BytesOf::Value;
        if self.vocabulary == Vocabulary::Dictionary {
            return *header;
        }
        self.vrs.on_header(levels, header);
        if is_value(header, self.vrs.vr_of(levels, header.tag)) {
            self.enter(span, levels, header);
        }
        self.named(levels, header)
    }

    /// Applies bytes of a value. Returns what they are.
    pub(crate) fn on_bytes(&mut self, bytes: &[u8]) -> BytesOf {
        if let BytesOf::Value = self.bytes {
            self.vrs.on_bytes(bytes);
        }
        self.bytes
    }

    /// Applies the header of an item or of an element inside a sequence.
    pub(crate) fn on_inner_header(&mut self, levels: usize, header: &Header) {
        self.vrs.on_header(levels, header);
    }

    /// Applies bytes of a value inside a sequence.
    pub(crate) fn on_inner_bytes(&mut self, bytes: &[u8]) {
        self.vrs.on_bytes(bytes);
    }

    /// Reads bytes of a sequence up to the end of a header or of a value. Returns how many bytes
    /// were read and what they are.
    pub(crate) fn step<'p>(&mut self, bytes: &'p [u8]) -> (usize, ItemStep<'p>) {
        self.items.step(bytes, &self.vrs)
    }

    /// Returns the offset and the tag of the current sequence once, when its first fault is found.
    pub(crate) fn take_fault(&mut self) -> Option<(u64, Tag)> {
        if !self.items.is_faulty() {
            return None;
        }
        let sequence = self.sequence;
        self.sequence = None;
        sequence
    }
}
