//! Lists the fields of [`Wanted`] and [`Want`] with their types, to show that none contains
//! received bytes. A field added to them does not compile until it is listed here.

use super::{Want, Wanted};
use arrayvec::ArrayVec;
use element::Tag;

fn fields(wanted: &Wanted) {
    let Wanted { list } = wanted;
    let _: &ArrayVec<Want, 16> = list;
}

fn want_fields(want: &Want) {
    let Want {
        tag: Tag(group, element),
        room,
    } = want;
    let _: &u16 = group;
    let _: &u16 = element;
    let _: &u32 = room;
}
