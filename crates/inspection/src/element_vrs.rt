//! The VRs of elements whose headers have none (PS3.6).
ghost use Rattle.std.specs.Prelude.{◌≡◌};
ghost use Rattle.inspection.specs.ElementVrs as spelling;

use crate::limits::DEPTH;
use arrayvec::ArrayVec;
use dictionary::vr_of;
use element::{Header, Tag, Vr};
use keywords::element_vrs;

/// The tag of Pixel Representation.
const PIXEL_REPRESENTATION: Tag = Tag(0x0028, 0x0103);

/// The tag of LUT Descriptor.
const LUT_DESCRIPTOR: Tag = Tag(0x0028, 0x3002);

/// The values in a level on which the VRs of other elements depend.
#[derive(Clone, Copy)]
struct LevelVrs {
    /// Whether pixels are signed, by Pixel Representation.
    is_signed: bool,
    /// Whether a lookup table has a single entry, by LUT Descriptor.
    is_single: bool,
}

/// The values of a level without Pixel Representation and LUT Descriptor.
const UNSIGNED: LevelVrs = LevelVrs {
    is_signed: false,
    is_single: false,
};

/// An unfinished value on which VRs depend.
#[derive(Clone, Copy)]
struct DueNumber {
    level: usize,
    tag: Tag,
}

/// Follows the headers and values of a data set and determines the VRs of its elements. VRs depend
/// on earlier elements of the same level or of the levels around it.
#[derive(Drop)]
pub(crate) struct ElementVrs {
    levels: [LevelVrs; DEPTH + 2],
    due: Option<DueNumber>,
    number: ArrayVec<u8, 2>,
}

/// Returns the VR of a 16-bit number: SS if signed, else US.
fn number_vr(is_signed: bool) -> Vr
    ensures { result ≡ spelling.number_vr is_signed }
{
    if is_signed { Vr::SS } else { Vr::US }
}

/// Returns the VR of a private creator (PS3.5 section 7.8.1) or a group length (PS3.5 section 7.2),
/// or `None` for another tag.
fn vr_by_rule(tag: Tag) -> Option<Vr>
    ensures { result ≡ spelling.vr_by_rule tag }
{
    let Tag(group, element) = tag;
    let is_creator = group % 2 == 1 && 0x0010 <= element && element <= 0x00ff;
    if element == 0 {
        Some(Vr::UL)
    } else if is_creator {
        Some(Vr::LO)
    } else {
        None
    }
}

impl ElementVrs {
    pub(crate) fn new() -> ElementVrs {
        ElementVrs {
            levels: [UNSIGNED; DEPTH + 2],
            due: None,
            number: ArrayVec::new(),
        }
    }

    /// Returns the values of a level on which VRs depend.
    fn level(&self, level: usize) -> LevelVrs {
        match self.levels.get(level) {
            Some(found) => *found,
            None => UNSIGNED,
        }
    }

    /// Sets the values of a level on which VRs depend.
    fn put(&mut self, level: usize, vrs: LevelVrs) {
        if let Some(offset) = self.levels.get_mut(level) {
            *offset = vrs;
        }
    }

    /// Returns the one of these VRs that an element of a level has in Implicit VR. Without Pixel
    /// Representation numbers are unsigned. Where OW is possible, the VR is OW (PS3.5 section A.1),
    /// except for a lookup table with a single entry.
    fn one_of(&self, level: usize, vrs: &str) -> Option<Vr> {
        let LevelVrs {
            is_signed,
            is_single,
        } = self.level(level);
        if vrs == "US/SS" {
            return Some(number_vr(is_signed));
        }
        if vrs == "US/OW" && is_single {
            return Some(Vr::US);
        }
        match vrs.as_bytes() {
            [first, second] => Vr::read([*first, *second]),
            _ => Some(Vr::OW),
        }
    }

    /// Returns the VR of an element of a level in Implicit VR, by the dictionary or else by PS3.6,
    /// or `None` if neither has a VR for this tag.
    pub(crate) fn vr_of(&self, level: usize, tag: Tag) -> Option<Vr> {
        if tag.is_marker() {
            return None;
        }
        match vr_of(tag) {
            Some(vr) => Some(vr),
            None => match element_vrs(tag.0, tag.1) {
                Some(vrs) => self.one_of(level, vrs),
                None => vr_by_rule(tag),
            },
        }
    }

    /// Applies a header in a level.
    pub(crate) fn on_header(&mut self, level: usize, header: &Header) {
        self.put(level.saturating_add(1), self.level(level));
        self.due = None;
        let Header { tag, length, .. } = *header;
        let is_number = tag == PIXEL_REPRESENTATION || tag == LUT_DESCRIPTOR;
        if is_number && length >= 2 {
            self.due = Some(DueNumber { level, tag });
            self.number.clear();
        }
    }

    /// Applies bytes of the last header's value.
    pub(crate) fn on_bytes(&mut self, bytes: &[u8]) {
        let Some(DueNumber { level, tag }) = self.due else {
            return;
        };
        for byte in bytes {
            let _ = self.number.try_push(*byte);
        }
        if let [low, high] = self.number.as_slice() {
            let number = u16::from_le_bytes([*low, *high]);
            let mut vrs = self.level(level);
            if tag == PIXEL_REPRESENTATION {
                vrs.is_signed = number != 0;
            } else {
                vrs.is_single = number == 1;
            }
            self.due = None;
            self.put(level, vrs);
        }
    }
}
