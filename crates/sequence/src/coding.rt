//! The encodings of data sets.
ghost use Rattle.std.specs.Prelude.{◌≡◌};
ghost use Rattle.sequence.specs.Coding as codings;

use element::Syntax;

/// The encoding of a data set, or of a sequence inside one (PS3.5 sections A.1, A.2 and A.4). All
/// are little endian.
#[derive(Clone, Copy, Debug, PartialEq, Eq)]
pub enum Coding {
    /// Implicit VR Little Endian.
    Implicit,
    /// Explicit VR Little Endian.
    Explicit,
    /// Explicit VR Little Endian, in which Pixel Data of undefined length is encapsulated.
    Encapsulated,
    /// The value of encapsulated Pixel Data: a sequence of fragments, which are items that contain
    /// bytes and no elements (PS3.5 section A.4).
    Fragments,
}

impl Coding {
    /// Returns the encoding of a data set in this syntax with native Pixel Data.
    pub fn of(syntax: Syntax) -> Coding
        ensures { result ≡ codings.coding_of syntax }
    {
        match syntax {
            Syntax::Implicit => Coding::Implicit,
            Syntax::Explicit => Coding::Explicit,
        }
    }

    /// Returns the layout of headers in this encoding: without a VR in `Implicit`, with a VR in all
    /// others.
    pub fn layout(self) -> Syntax
        ensures { result ≡ codings.layout self }
    {
        // One arm for each line of the definition: the proof goes through them one by one.
        match self {
            Coding::Implicit => Syntax::Implicit,
            Coding::Explicit => Syntax::Explicit,
            Coding::Encapsulated => Syntax::Explicit,
            Coding::Fragments => Syntax::Explicit,
        }
    }

    /// Returns whether items contain bytes instead of elements: true for `Fragments` alone.
    pub fn has_fragments(self) -> bool
        ensures { result ≡ codings.has_fragments self }
    {
        // One arm for each line of the definition: the proof goes through them one by one.
        match self {
            Coding::Implicit => false,
            Coding::Explicit => false,
            Coding::Encapsulated => false,
            Coding::Fragments => true,
        }
    }
}
