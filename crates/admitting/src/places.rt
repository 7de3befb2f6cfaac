//! The places of connections: a slot is free if its place has no connection.
ghost use Rattle.std.specs.Prelude.{◌≡◌, Bool, map};
ghost use Rattle.admitting.specs.Occupants.{after_freeing};

use crate::slots::Slots;
use std::alloc::Allocator;

/// A place for one connection.
pub trait Occupiable {
    /// For contracts: whether there is a connection.
    ghost is_occupied: { Self → Bool };

    /// Returns whether there is a connection.
    fn is_occupied(&self) -> bool
        ensures { result ≡ is_occupied self.now };
}

/// Frees each slot whose place has no connection.
pub(crate) fn free_vacant<A: Allocator, P: Occupiable>(slots: &mut Slots<A>, places: &[P])
    ensures { slots.new ≡ after_freeing (map P.is_occupied places.now) slots.old }
{
    for (slot, place) in places.iter().enumerate() {
        if slot < slots.len() && !place.is_occupied() {
            slots.leave(slot);
        }
    }
}
