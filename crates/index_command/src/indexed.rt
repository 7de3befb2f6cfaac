//! The result of indexing a folder.
use crate::contents::Contents;
use dicomdir_writing::Built;
use inspection::Outcome;
use std::alloc::Allocator;
use std::fmt;
use std::fmt::{Display, Formatter};

/// How many images a directory lists and how many files it leaves out.
#[derive(Clone, Copy, Debug, PartialEq, Eq)]
pub struct IndexCounts {
    /// The images with a record.
    pub images: usize,
    /// The files without a row, the duplicates, the files whose records are not kept, and the files
    /// with other names.
    pub omitted: usize,
}

impl IndexCounts {
    /// Returns the counts of a directory and of the files left out.
    pub(crate) fn of<A: Allocator>(built: &Built<'_, A>, contents: &Contents<A>) -> IndexCounts {
        let duplicates = built.duplicates().len();
        IndexCounts {
            images: built.rows().len().saturating_sub(duplicates),
            omitted: contents.count(duplicates),
        }
    }
}

/// The counts in a line, as `images 3 left out 2`.
impl Display for IndexCounts {
    fn fmt<W: fmt::Write>(&self, f: &mut Formatter<W>) -> fmt::Result {
        write!(f, "images {} left out {}", self.images, self.omitted)
    }
}

/// The result of indexing a folder.
#[derive(Clone, Copy, Debug, PartialEq, Eq)]
pub enum Indexed {
    /// The directory was written.
    Written(IndexCounts),
    /// The directory is unchanged: a new one would lose records of it, which were reported.
    Kept,
    /// The present directory or the new one has a fault, which was reported.
    Faulty,
}

impl Indexed {
    /// Returns whether there was no fault.
    pub fn outcome(self) -> Outcome {
        match self {
            Indexed::Written(_) => Outcome::Good,
            Indexed::Kept | Indexed::Faulty => Outcome::Faulty,
        }
    }
}
