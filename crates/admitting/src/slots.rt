//! Limits how many connections are served at a time, in all and of one peer.
ghost use Rattle.std.specs.Prelude.{◌≡◌, ◌<◌, ◌≤◌, ℕ, IfOk, IfSome, None, get_or, length, map, replicate, set};
ghost use Rattle.admitting.specs.Occupants.{Admits, after_freeing, first_vacancy, slots_of};

use crate::places::{Occupiable, free_vacant};
use std::alloc::{AllocError, Allocator};
use std::marker::Model;

/// Whether a new connection is served.
#[derive(Clone, Copy, Debug, PartialEq, Eq)]
pub enum Admission {
    /// The connection is served, in the free slot with this index.
    Slot(usize),
    /// The connection is not served: all slots are in use.
    Full,
    /// The connection is not served: its peer has as many slots as allowed.
    PeerFull,
}

/// The slots of a server, one for each connection that can be served at a time. Each slot is free
/// or belongs to a peer, and a peer may have only `per_peer` of them.
///
/// A peer is identified by the number of its address (see [`peer_number`](crate::peer_number)), so
/// that the connections of one machine count together.
#[derive(Drop)]
pub struct Slots<A: Allocator> {
    peers: Vec<Option<u128>, A>,
    per_peer: usize,
}

impl<A: Allocator> Model for Slots<A> {
    ghost use Rattle.std.specs.Prelude.{◌≤◌, ℕ};
    ghost use Rattle.admitting.specs.Occupants.{Occupants, slots_of};

    ghost Value = { Occupants };

    ghost view = { λ p. record { peers = p.peers.items; per_peer = p.per_peer } };

    /// No peer has more slots than the limit.
    ghost invariant = { λ p. (peer : ℕ) → slots_of peer p.peers.items ≤ p.per_peer };
}

impl<A: Allocator> Slots<A> {
    /// Creates `count` free slots, of which one peer may have at most `per_peer`.
    ///
    /// Fails if memory runs out.
    pub fn new(alloc: A, count: usize, per_peer: usize) -> Result<Slots<A>, AllocError>
        ensures free { IfOk result (λ p. p.peers ≡ replicate count None) }
        ensures per_peer { IfOk result (λ p. p.per_peer ≡ per_peer) }
    {
        Ok(Slots {
            peers: Vec::from_elem(alloc, None, count)?,
            per_peer,
        })
    }

    /// Returns how many slots this peer has.
    fn slots_of(&self, peer: u128) -> usize
        ensures { result ≡ slots_of peer self.now.peers }
    {
        let mut count = 0;
        for other in &self.peers {
            if *other == Some(peer) {
                count += 1;
            }
        }
        count
    }

    /// Returns the index of the first free slot, if any.
    fn first_vacancy(&self) -> Option<usize>
        ensures first { result ≡ first_vacancy 0 self.now.peers }
        ensures within { IfSome result (λ slot. slot < length self.now.peers) }
    {
        for (slot, peer) in self.peers.iter().enumerate() {
            if peer.is_none() {
                return Some(slot);
            }
        }
        None
    }

    /// Gives the first free slot to a peer, unless the peer has as many as it may have. Before that,
    /// frees each slot whose place has no connection.
    pub fn admit<P: Occupiable>(&mut self, peer: u128, places: &[P]) -> Admission
        ensures admits { Admits peer (after_freeing (map P.is_occupied places.now) self.old) self.new result }
        ensures same_limit { self.new.per_peer ≡ self.old.per_peer }
    {
        free_vacant(self, places);
        self.give(peer)
    }

    /// Gives the first free slot to a peer, unless the peer has as many as it may have.
    pub(crate) fn give(&mut self, peer: u128) -> Admission
        ensures admits { Admits peer self.old self.new result }
        ensures same_limit { self.new.per_peer ≡ self.old.per_peer }
    {
        if self.per_peer <= self.slots_of(peer) {
            return Admission::PeerFull;
        }
        match self.first_vacancy() {
            Some(slot) => {
                self.peers[slot] = Some(peer);
                Admission::Slot(slot)
            }
            None => Admission::Full,
        }
    }

    /// Frees the slot with this index.
    pub(crate) fn leave(&mut self, slot: usize)
        requires slot { slot < length self.old.peers }
        ensures remaining { self.new.peers ≡ set self.old.peers slot None }
        ensures same_limit { self.new.per_peer ≡ self.old.per_peer }
    {
        self.peers[slot] = None;
    }

    /// Returns the peer of the slot with this index, or `None` if it is free or there is no such slot.
    pub fn peer(&self, slot: usize) -> Option<u128>
        ensures { result ≡ get_or self.now.peers slot None }
    {
        match self.peers.get(slot) {
            Some(peer) => *peer,
            None => None,
        }
    }

    /// Returns the number of slots, free or not.
    pub(crate) fn len(&self) -> usize
        ensures { result ≡ length self.now.peers }
    {
        self.peers.len()
    }

    /// Does nothing. Its contract states what the type guarantees: no peer has more slots than the
    /// limit.
    pub fn never_more(&self)
        ensures { (peer : ℕ) → slots_of peer self.now.peers ≤ self.now.per_peer }
    {
        // The prover knows what the type guarantees where one of its fields is named.
        let _peers = &self.peers;
    }
}
