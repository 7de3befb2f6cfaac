//! Lists the fields of [`Keep`] with their types, to show that only `bytes` contains received
//! bytes. A field added to `Keep` does not compile until it is listed here.

use super::Keep;
use crate::wanted::Wanted;
use arrayvec::ArrayVec;

fn fields<const V: usize>(keep: &Keep<V>) {
    let Keep {
        wanted,
        lengths,
        bytes,
        slot,
        last,
    } = keep;
    let _: &Wanted = wanted;
    let _: &[u32; 16] = lengths;
    let _: &ArrayVec<u8, V> = bytes;
    let _: &usize = slot;
    let _: &u32 = last;
}
