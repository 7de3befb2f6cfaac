//! Reads the items of a sequence of defined length (PS3.5 section 7.5) in Implicit VR.
ghost use Rattle.std.specs.Prelude.{◌≡◌};
ghost use Rattle.inspection.specs.ElementVrs as spelling;

use crate::element_vrs::ElementVrs;
use crate::keyword::UNDEFINED;
use crate::limits::DEPTH;
use arrayvec::ArrayVec;
use element::{Header, Tag, Vr};

/// The size of a header, in bytes.
const HEADER: usize = 8;

/// An open sequence or item.
#[derive(Clone, Copy)]
struct OpenLevel {
    is_sequence: bool,
    /// Whether its length is undefined.
    is_endless: bool,
    /// The offset in the file where the level ends; with undefined length, where the enclosing
    /// level ends.
    end: u64,
    /// The tag number of the level's last element.
    last: u32,
}

impl Default for OpenLevel {
    fn default() -> OpenLevel {
        OpenLevel {
            is_sequence: false,
            is_endless: false,
            end: 0,
            last: 0,
        }
    }
}

/// Returns whether an element of this length at an offset extends past the end of its level.
fn passes(offset: u64, length: u32, end: u64) -> bool
    ensures { result ≡ spelling.passes offset length end }
{
    length != UNDEFINED && end.saturating_sub(offset) < u64::from(length)
}

/// What a step read.
#[derive(Clone, Copy)]
pub(crate) enum ItemStep<'p> {
    /// Nothing to report: a header is unfinished or invalid.
    More,
    /// A complete header, with its offset in the file and the number of levels open before it.
    Header(u64, usize, Header),
    /// Bytes of the value of the last header.
    Run(&'p [u8]),
}

/// Reads the items of a sequence in chunks of any size, in fixed memory.
#[derive(Drop)]
pub(crate) struct ItemReader {
    /// How many levels are open around the sequence.
    around: usize,
    levels: ArrayVec<OpenLevel, DEPTH>,
    header: ArrayVec<u8, HEADER>,
    /// How many bytes of the current value remain.
    remaining: u32,
    /// The offset of the next byte in the file.
    offset: u64,
    /// Whether the rest can't be read: the bytes are not items that end where the value ends.
    is_broken: bool,
    /// Whether a tag does not rise or a length is odd.
    is_irregular: bool,
}

impl ItemReader {
    /// Returns a reader that has no sequence yet.
    pub(crate) fn new() -> ItemReader {
        ItemReader {
            around: 0,
            levels: ArrayVec::new(),
            header: ArrayVec::new(),
            remaining: 0,
            offset: 0,
            is_broken: false,
            is_irregular: false,
        }
    }

    /// Starts a sequence of this length, whose header ends at offset `offset` inside `levels` open
    /// levels.
    pub(crate) fn begin(&mut self, offset: u64, levels: usize, length: u32) {
        self.around = levels;
        self.levels.clear();
        self.header.clear();
        self.remaining = 0;
        self.offset = offset;
        self.is_broken = false;
        self.is_irregular = false;
        self.open(true, length, offset);
    }

    /// Returns whether the rest of the sequence can't be read.
    pub(crate) fn is_broken(&self) -> bool {
        self.is_broken
    }

    /// Returns whether the items break a rule so far.
    pub(crate) fn is_faulty(&self) -> bool {
        self.is_broken || self.is_irregular
    }

    /// Returns how many levels are open.
    fn depth(&self) -> usize {
        self.around.saturating_add(self.levels.len())
    }

    /// Returns the innermost open level, or `None` if none is open.
    fn top(&self) -> Option<OpenLevel> {
        match self.levels.as_slice().last() {
            Some(level) => Some(*level),
            None => None,
        }
    }

    /// Closes the levels that end at the current offset. The reader is broken if no header fits
    /// before the next end.
    fn arrive(&mut self) {
        for _ in 0..DEPTH {
            match self.top() {
                Some(top) if !top.is_endless && top.end == self.offset => {
                    self.levels.pop();
                }
                _ => break,
            }
        }
        if let Some(top) = self.top() {
            if top.end.saturating_sub(self.offset) < HEADER as u64 {
                self.is_broken = true;
            }
        }
    }

    /// Opens a sequence or an item of this length inside a level that ends at `end`.
    fn open(&mut self, is_sequence: bool, length: u32, end: u64) {
        if length > 0 {
            let is_endless = length == UNDEFINED;
            let level = OpenLevel {
                is_sequence,
                is_endless,
                end: if is_endless {
                    end
                } else {
                    self.offset.saturating_add(u64::from(length))
                },
                last: 0,
            };
            if self.depth() >= DEPTH || self.levels.try_push(level).is_err() {
                self.is_broken = true;
                return;
            }
        }
        self.arrive();
    }

    /// Closes the innermost level, which has undefined length.
    fn close(&mut self) {
        self.levels.pop();
        self.arrive();
    }

    /// Checks that an element's tag rises above the tag before it.
    fn rise(&mut self, tag: Tag, top: OpenLevel) {
        let number = tag.number();
        if number <= top.last || tag.0 == 0 || tag.0 == 2 {
            self.is_irregular = true;
        }
        if let [.., level] = self.levels.as_mut_slice() {
            level.last = number;
        }
    }

    /// Applies the header of an element in an item.
    fn on_element(&mut self, header: &Header, top: OpenLevel) {
        let Header { tag, length, vr } = *header;
        let is_sequence = vr == Some(Vr::SQ) || vr.is_none() && length == UNDEFINED;
        self.rise(tag, top);
        if is_sequence {
            self.open(true, length, top.end);
        } else if length == UNDEFINED {
            self.is_broken = true;
        } else {
            self.remaining = length;
            if length == 0 {
                self.arrive();
            }
        }
    }

    /// Applies a header in this level.
    fn on_header(&mut self, header: &Header, top: OpenLevel) {
        let Header { tag, length, .. } = *header;
        if passes(self.offset, length, top.end) {
            self.is_broken = true;
            return;
        }
        if length != UNDEFINED && length % 2 == 1 {
            self.is_irregular = true;
        }
        let delimitation = if top.is_sequence {
            Tag::SEQUENCE_DELIMITATION
        } else {
            Tag::ITEM_DELIMITATION
        };
        if tag == delimitation && top.is_endless && length == 0 {
            self.close();
        } else if tag == Tag::ITEM && top.is_sequence {
            self.open(false, length, top.end);
        } else if tag.is_marker() || top.is_sequence {
            self.is_broken = true;
        } else {
            self.on_element(header, top);
        }
    }

    /// Reads bytes of the current value.
    fn take_value<'p>(&mut self, bytes: &'p [u8]) -> (usize, ItemStep<'p>) {
        let count = bytes.len().min(self.remaining as usize);
        self.remaining = self.remaining.saturating_sub(count as u32);
        self.offset = self.offset.saturating_add(count as u64);
        if self.remaining == 0 {
            self.arrive();
        }
        (count, ItemStep::Run(bytes.get(..count).unwrap_or(bytes)))
    }

    /// Applies the header if all of its bytes were read.
    fn take_whole<'p>(&mut self, vrs: &ElementVrs) -> ItemStep<'p> {
        let level = self.depth();
        let [a, b, c, d, e, f, g, h] = self.header.as_slice() else {
            return ItemStep::More;
        };
        let Some(top) = self.top() else {
            self.is_broken = true;
            return ItemStep::More;
        };
        let tag = Tag(u16::from_le_bytes([*a, *b]), u16::from_le_bytes([*c, *d]));
        let header = Header {
            tag,
            vr: vrs.vr_of(level, tag),
            length: u32::from_le_bytes([*e, *f, *g, *h]),
        };
        self.header.clear();
        self.on_header(&header, top);
        if self.is_broken {
            return ItemStep::More;
        }
        ItemStep::Header(self.offset.saturating_sub(HEADER as u64), level, header)
    }

    /// Reads bytes up to the end of a header or of a value. Returns how many bytes were read and
    /// what they are. A broken reader skips all bytes.
    pub(crate) fn step<'p>(&mut self, bytes: &'p [u8], vrs: &ElementVrs) -> (usize, ItemStep<'p>) {
        if self.is_broken {
            return (bytes.len(), ItemStep::More);
        }
        if self.remaining > 0 {
            return self.take_value(bytes);
        }
        let count = bytes.len().min(HEADER.saturating_sub(self.header.len()));
        for byte in bytes.get(..count).unwrap_or(&[]) {
            let _ = self.header.try_push(*byte);
        }
        self.offset = self.offset.saturating_add(count as u64);
        (count, self.take_whole(vrs))
    }
}
