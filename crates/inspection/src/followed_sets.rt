//! The character sets of a data set that is read header by header.
use crate::sets::Sets;
use arrayvec::ArrayVec;
use element::{Header, Tag, Vr};
use values::Repertoire;

/// The tag of Specific Character Set.
pub(crate) const SPECIFIC_CHARACTER_SET: Tag = Tag(0x0008, 0x0005);

/// How many bytes of Specific Character Set are kept: enough for one term, or to see that a value
/// has several.
const KEPT: usize = 64;

/// An unfinished value of Specific Character Set.
#[derive(Clone, Copy)]
struct DueTerms {
    level: usize,
    /// How many bytes of the value are to be kept.
    kept: usize,
}

/// Follows the headers and values of a data set and determines the character set of each level.
#[derive(Drop)]
pub(crate) struct FollowedSets {
    sets: Sets,
    due: Option<DueTerms>,
    value: ArrayVec<u8, KEPT>,
}

impl FollowedSets {
    pub(crate) fn new() -> FollowedSets {
        FollowedSets {
            sets: Sets::new(),
            due: None,
            value: ArrayVec::new(),
        }
    }

    /// Applies a header in a level.
    pub(crate) fn on_header(&mut self, level: usize, header: &Header) {
        self.sets.hand_down(level);
        self.due = None;
        if header.tag == SPECIFIC_CHARACTER_SET {
            let kept = KEPT.min(header.length as usize);
            self.due = Some(DueTerms { level, kept });
            self.value.clear();
        }
    }

    /// Applies bytes of the last header's value.
    pub(crate) fn on_bytes(&mut self, bytes: &[u8]) {
        let Some(due) = self.due else {
            return;
        };
        let room = due.kept.saturating_sub(self.value.len());
        let count = bytes.len().min(room);
        let _ = self.value.try_extend_from_slice(&bytes[..count]);
        if self.value.len() >= due.kept {
            self.due = None;
            self.sets.name(due.level, self.value.as_slice());
        }
    }

    /// Returns the repertoire of characters for values of a VR in a level.
    pub(crate) fn repertoire_of(&self, level: usize, vr: Option<Vr>) -> Repertoire {
        match vr {
            Some(vr) => self.sets.repertoire_of(level, vr),
            None => Repertoire::Ascii,
        }
    }
}
