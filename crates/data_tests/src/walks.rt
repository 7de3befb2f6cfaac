//! Walks of a text in chunks of any size, and their ends.

use element::Syntax;
use sequence::{Fault, Walker, Wanted};

/// Walks a chunk, step by step. Returns the number of steps.
pub(crate) fn take<const D: usize>(walker: &mut Walker<140, D>, piece: &[u8]) -> u32 {
    let mut rest = piece;
    let mut steps = 0u32;
    for _ in 0..piece.len() {
        if rest.is_empty() {
            break;
        }
        let (consumed, _step) = walker.step(rest);
        rest = &rest[consumed..];
        steps = steps.saturating_add(1);
    }
    steps
}

/// Walks the text in two chunks, the first of `cut` bytes; byte by byte if the text has fewer.
pub(crate) fn take_cut<const D: usize>(walker: &mut Walker<140, D>, text: &[u8], cut: usize) {
    match text.split_at_checked(cut) {
        Some((front, back)) => {
            take(walker, front);
            take(walker, back);
        }
        None => {
            take_each(walker, text);
        }
    }
}

/// Walks a text byte by byte. Returns the number of steps.
pub(crate) fn take_each<const D: usize>(walker: &mut Walker<140, D>, text: &[u8]) -> u32 {
    let mut steps = 0u32;
    for byte in text {
        steps = steps.saturating_add(take(walker, &[*byte]));
    }
    steps
}

/// The end of a walk: the open levels, the offset, the bytes buffered, and the fault.
pub(crate) type End = (usize, u64, usize, Option<Fault>);

pub(crate) fn end<const D: usize>(walker: &Walker<140, D>) -> End {
    let fault = walker.finish().err();
    (walker.levels(), walker.offset(), walker.held(), fault)
}

/// Returns whether the walk has this end.
pub(crate) fn is_at<const D: usize>(walker: &Walker<140, D>, wanted: End) -> bool {
    end(walker) == wanted
}

pub(crate) fn new_walker(syntax: Syntax) -> Walker<140, 64> {
    Walker::new(syntax, Wanted::none(), 1 << 40)
}

/// Returns a walker with a limit of two levels.
pub(crate) fn new_shallow_walker(syntax: Syntax) -> Walker<140, 2> {
    Walker::new(syntax, Wanted::none(), 1 << 40)
}

/// Returns whether the walk of a text ends like this in one chunk, at each cut in two, and byte by
/// byte.
pub(crate) fn ends_at(syntax: Syntax, text: &[u8], wanted: End) -> bool {
    for cut in 0..text.len() + 2 {
        let mut walker = new_walker(syntax);
        take_cut(&mut walker, text, cut);
        if !is_at(&walker, wanted) {
            return false;
        }
    }
    true
}
