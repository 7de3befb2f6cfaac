//! Lists the fields of a [`Deframer`] with their types, to show that it holds no received bytes but
//! those of an unfinished head. A field added to it does not compile until it is listed here.

use super::Deframer;
use crate::position::Position;
use arrayvec::ArrayVec;

fn fields(deframer: &Deframer) {
    let Deframer { position } = deframer;
    match position {
        Position::Head(bytes) => {
            let _: &ArrayVec<u8, 6> = bytes;
        }
        Position::Body { kind, remaining } => {
            let _: &u8 = kind;
            let _: &u32 = remaining;
        }
        Position::PdvHead { remaining, bytes } => {
            let _: &u32 = remaining;
            let _: &ArrayVec<u8, 6> = bytes;
        }
        Position::Fragment { remaining, more } => {
            let _: &u32 = remaining;
            let _: &u32 = more;
        }
        Position::Leftover { remaining } => {
            let _: &u32 = remaining;
        }
        Position::Skipped { kind, remaining } => {
            let _: &u8 = kind;
            let _: &u32 = remaining;
        }
    }
}
