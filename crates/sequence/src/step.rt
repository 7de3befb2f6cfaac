//! The result of one step of a walker.
use crate::fault::Fault;
use element::Header;

/// What one [step](crate::Walker::step) of a walker read.
#[derive(Clone, Copy, Debug)]
pub enum Step<'p> {
    /// Bytes of an unfinished header; none if the chunk is empty.
    More,
    /// The end of the header of an element, which its value or the items of a sequence follow.
    Element(Header),
    /// Bytes of a value or a fragment, a slice of the chunk.
    Run(&'p [u8]),
    /// The end of the header of an item or a fragment.
    Opened(Header),
    /// The end of an Item Delimitation or a Sequence Delimitation.
    Closed(Header),
    /// Bytes that break a rule; none if a rule was broken before.
    Refused(Fault),
}
