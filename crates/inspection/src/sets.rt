//! The character sets of the levels of a data set (PS3.3 section C.12.1.1.2).
use crate::limits::DEPTH;
use element::Vr;
use values::{CharacterSet, Repertoire};

/// The VRs whose text is in the set that Specific Character Set names (PS3.5 section 6.1.2.2).
const TEXTS: [[u8; 2]; 7] = [*b"SH", *b"LO", *b"ST", *b"LT", *b"PN", *b"UC", *b"UT"];

/// The character set of a level: how bytes form characters, and which characters.
#[derive(Clone, Copy)]
struct LevelSet {
    characters: CharacterSet,
    repertoire: Repertoire,
}

/// ASCII.
const ASCII: LevelSet = LevelSet {
    characters: CharacterSet::SingleByte,
    repertoire: Repertoire::Ascii,
};

/// The character sets of the open levels. A level inherits the set of the level around it until it
/// names its own.
#[derive(Clone, Copy)]
pub(crate) struct Sets {
    sets: [LevelSet; DEPTH + 2],
}

impl Sets {
    /// Returns the sets of a data set that names none: ASCII.
    pub(crate) fn new() -> Sets {
        Sets {
            sets: [ASCII; DEPTH + 2],
        }
    }

    /// Returns how bytes form characters in values of a VR in a level.
    pub(crate) fn of(&self, level: usize, vr: Vr) -> CharacterSet {
        self.of_texts(level, vr).characters
    }

    /// Returns the repertoire of characters for values of a VR in a level.
    pub(crate) fn repertoire_of(&self, level: usize, vr: Vr) -> Repertoire {
        self.of_texts(level, vr).repertoire
    }

    /// Returns the set for values of a VR in a level.
    fn of_texts(&self, level: usize, vr: Vr) -> LevelSet {
        let letters = vr.letters();
        if TEXTS.iter().any(|text| *text == letters) {
            self.level(level)
        } else {
            ASCII
        }
    }

    /// Returns the set of a level.
    fn level(&self, level: usize) -> LevelSet {
        match self.sets.get(level) {
            Some(set) => *set,
            None => ASCII,
        }
    }

    /// Sets the character set of a level.
    fn put(&mut self, level: usize, set: LevelSet) {
        if let Some(offset) = self.sets.get_mut(level) {
            *offset = set;
        }
    }

    /// Sets the character set of a level from a value of Specific Character Set.
    pub(crate) fn name(&mut self, level: usize, value: &[u8]) {
        let set = LevelSet {
            characters: CharacterSet::of_value(value),
            repertoire: Repertoire::of_value(value),
        };
        self.put(level, set);
    }

    /// Copies the set of a level to the level inside it.
    pub(crate) fn hand_down(&mut self, level: usize) {
        let set = self.level(level);
        self.put(level.saturating_add(1), set);
    }
}
