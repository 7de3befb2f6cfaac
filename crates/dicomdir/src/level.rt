//! The levels of directory records.
ghost use Rattle.std.specs.Prelude.{◌≡◌};
ghost use Rattle.dicomdir.specs.Level.{lower_level, kind_of};
ghost use Rattle.dicomdir.specs.Level as levels;

/// The level of a directory record (PS3.3 section F.4).
#[derive(Clone, Copy)]
pub enum Level {
    Patient,
    Study,
    Series,
    Image,
}

impl Level {
    /// Returns whether this is the level of images, the lowest.
    pub fn is_image(self) -> bool
        ensures { result ≡ levels.is_image self }
    {
        matches!(self, Level::Image)
    }

    /// Returns the next lower level, or the same for images, the lowest.
    pub fn below(self) -> Level
        ensures { result ≡ lower_level self }
    {
        match self {
            Level::Patient => Level::Study,
            Level::Study => Level::Series,
            Level::Series | Level::Image => Level::Image,
        }
    }

    /// Returns the Directory Record Type of records at this level (PS3.3 section F.5).
    pub fn kind(self) -> &'static [u8]
        ensures { result.now ≡ kind_of self }
    {
        match self {
            Level::Patient => b"PATIENT",
            Level::Study => b"STUDY",
            Level::Series => b"SERIES",
            Level::Image => b"IMAGE",
        }
    }
}
