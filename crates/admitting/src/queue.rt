//! The queue of connections that wait for a slot.
ghost use Rattle.std.specs.Prelude.{◌≡◌, ◌≤◌, ◌<◌, ◌==◌, ◌↔◌, [], ◌∷◌, ◌++◌, IfOk, IsTrue, length, map, true, false};
ghost use Rattle.std.specs.Vec.{vec_capacity};
ghost use Rattle.admitting.specs.Occupants.{after_freeing};

use crate::places::{Occupiable, free_vacant};
use crate::slots::{Admission, Slots};
use std::alloc::{AllocError, Allocator};

/// A connection that waits for a slot.
#[derive(Drop)]
pub struct Waiter<T> {
    /// The number of its peer's address.
    pub peer: u128,
    /// The number of the connection, by which it can be removed from the queue.
    pub number: usize,
    /// The waiting connection.
    pub waiting: T,
}

/// The connections that wait for a slot, in the order of their arrival, at most `most`.
#[derive(Drop)]
pub struct Queue<T, A: Allocator> {
    waiters: Vec<Waiter<T>, A>,
    most: usize,
    /// The vector has capacity for all that may wait, so that a push allocates nothing.
    ghost room: { most ≤ vec_capacity waiters },
}

impl<T: Drop, A: Allocator> Queue<T, A> {
    ghost use Rattle.admitting.specs.Queues.{AdmitsFirst, AllHaveOthers, FindsFirst, FindsNumber, HasRemaining, most_in, waiting_in};

    /// Creates an empty queue of at most `most` connections.
    ///
    /// Fails if memory runs out.
    pub fn new(alloc: A, most: usize) -> Result<Queue<T, A>, AllocError>
        ensures empty { IfOk result (λ q. waiting_in q ≡ []) }
        ensures most { IfOk result (λ q. most_in q ≡ most) }
    {
        Ok(Queue {
            waiters: Vec::with_capacity(alloc, most)?,
            most,
        })
    }

    /// Appends a connection. If the queue is full, drops the connection and returns `false`.
    pub fn push(&mut self, waiter: Waiter<T>) -> bool
        ensures room { IsTrue result ↔ (length (waiting_in self.old) < most_in self.old) }
        ensures last { result ≡ true → waiting_in self.new ≡ waiting_in self.old ++ waiter ∷ [] }
        ensures same { result ≡ false → waiting_in self.new ≡ waiting_in self.old }
        ensures same_most { most_in self.new ≡ most_in self.old }
    {
        self.waiters.len() < self.most && self.waiters.push(waiter).is_ok()
    }

    /// Gives the first free slot to the first connection whose peer may have it. Returns the
    /// indices of the connection and of the slot, or `None` if no connection gets a slot.
    fn find(&self, slots: &mut Slots<A>) -> Option<(usize, usize)>
        ensures finds { FindsFirst (waiting_in self.now) slots.old slots.new result }
    {
        for at in 0..self.waiters.len() {
            match slots.give(self.waiters[at].peer) {
                Admission::Slot(slot) => return Some((at, slot)),
                Admission::Full => return None,
                Admission::PeerFull => {}
            }
        }
        None
    }

    /// Gives the first free slot to the first connection whose peer may have it. Before that, frees
    /// each slot whose place has no connection. Removes and returns the connection, with the index of
    /// the slot, or returns `None` if none gets a slot.
    pub fn admit<P: Occupiable>(
        &mut self,
        slots: &mut Slots<A>,
        places: &[P],
    ) -> Option<(Waiter<T>, usize)>
        ensures admits { AdmitsFirst (waiting_in self.old) (waiting_in self.new) (after_freeing (map P.is_occupied places.now) slots.old) slots.new result }
        ensures same_most { most_in self.new ≡ most_in self.old }
    {
        free_vacant(slots, places);
        let (at, slot) = self.find(slots)?;
        Some((self.waiters.remove(at), slot))
    }

    /// Returns the index of the first connection with this number, or `None`.
    fn index_of(&self, number: usize) -> Option<usize>
        ensures finds { FindsNumber number (waiting_in self.now) result }
    {
        for at in 0..self.waiters.len() {
            if self.waiters[at].number == number {
                return Some(at);
            }
        }
        None
    }

    /// Drops the first connection with this number. Returns `false` if there is none.
    pub fn leave(&mut self, number: usize) -> bool
        ensures remaining { result ≡ true → HasRemaining number (waiting_in self.old) (waiting_in self.new) }
        ensures same { result ≡ false → (waiting_in self.new ≡ waiting_in self.old) × AllHaveOthers number (waiting_in self.old) }
        ensures same_most { most_in self.new ≡ most_in self.old }
    {
        let Some(at) = self.index_of(number) else {
            return false;
        };
        let _gone = self.waiters.remove(at);
        true
    }

    /// Drops all connections that wait.
    pub fn clear(&mut self)
        ensures empty { waiting_in self.new ≡ [] }
        ensures same_most { most_in self.new ≡ most_in self.old }
    {
        self.waiters.clear();
    }

    /// Returns whether no connection waits.
    pub fn is_empty(&self) -> bool
        ensures { result ≡ (length (waiting_in self.now) == 0) }
    {
        self.waiters.is_empty()
    }
}
