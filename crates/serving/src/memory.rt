//! The memory of a connection, which is allocated once and reused by the next connection.
ghost use Rattle.std.specs.Prelude.{◌≡◌, [], false};
ghost use Rattle.negotiate.specs.Settings.{settings_of};
ghost use Rattle.part10.specs.Store.{Store};
ghost use Rattle.engine.specs.Fields.{drafting_of, fields_of, settings_in};
ghost use Rattle.engine.specs.Stands.{Stands};
ghost use Rattle.serving.specs.Rooms.{served_rooms};
ghost use Rattle.serving.specs.Wires.{unconsumed_in};

use crate::inbox::{INBOX, Inbox};
use engine::Association;
use negotiate::Config;
use service::{COMMAND, DEPTH, REQUEST, VALUES};
use std::alloc::{AllocError, Global};

/// An association with the limits of the program.
pub(crate) type ServedAssociation<'c> = Association<'c, REQUEST, COMMAND, VALUES, DEPTH>;

/// Memory for one connection at a time: its inbox and its association. Both are boxed, so that
/// moving a connection does not move them.
#[derive(Drop)]
pub struct ConnectionMemory<'c> {
    inbox: Box<[u8; INBOX]>,
    association: Box<ServedAssociation<'c>>,
}

/// The memory of an association that is closed.
#[derive(Drop)]
pub struct AssociationMemory<'c>(Box<ServedAssociation<'c>>);

impl<'c> AssociationMemory<'c> {
    /// Returns the memory of this association.
    pub(crate) fn of(association: Box<ServedAssociation<'c>>) -> AssociationMemory<'c> {
        AssociationMemory(association)
    }

    /// Returns the memory of a connection: that of its association, and that of `unconsumed`.
    pub(crate) fn with(self, unconsumed: Inbox) -> ConnectionMemory<'c> {
        ConnectionMemory {
            inbox: unconsumed.into_memory(),
            association: self.0,
        }
    }
}

/// Opens an association in place of the previous one.
// Not inlined: its stack frame holds an association, and is released before the connection is
// built.
#[inline(never)]
fn open_anew<'c>(association: &mut ServedAssociation<'c>, config: &'c Config)
    ensures no_draft { drafting_of association.new ≡ false }
    ensures settings { settings_in association.new ≡ settings_of config.now }
    ensures stands { (store : Store) → Stands served_rooms (settings_of config.now) [] [] false (fields_of association.new) store }
{
    *association = Association::open(config);
}

/// Allocates the memory of an inbox.
#[inline(never)]
fn inbox_memory(alloc: Global) -> Result<Box<[u8; INBOX]>, AllocError> {
    Ok(Box::new(alloc, [0; INBOX])?)
}

/// Allocates the memory of an association.
#[inline(never)]
fn association_memory<'c>(
    alloc: Global,
    config: &'c Config,
) -> Result<Box<ServedAssociation<'c>>, AllocError> {
    Ok(Box::new(alloc, Association::open(config))?)
}

impl<'c> ConnectionMemory<'c> {
    /// Allocates the memory of connections with this configuration, which use it one at a time.
    ///
    /// Fails if memory runs out.
    pub fn new(alloc: Global, config: &'c Config) -> Result<ConnectionMemory<'c>, AllocError> {
        Ok(ConnectionMemory {
            inbox: inbox_memory(alloc)?,
            association: association_memory(alloc, config)?,
        })
    }

    /// Opens an association in this memory. Returns an empty inbox and the association.
    pub(crate) fn open(self, config: &'c Config) -> (Inbox, Box<ServedAssociation<'c>>)
        ensures nothing { unconsumed_in result.0 ≡ [] }
        ensures no_draft { drafting_of result.1.value ≡ false }
        ensures settings { settings_in result.1.value ≡ settings_of config.now }
        ensures stands { (store : Store) → Stands served_rooms (settings_of config.now) [] [] false (fields_of result.1.value) store }
    {
        let mut association = self.association;
        open_anew(&mut association, config);
        (Inbox::new(self.inbox), association)
    }
}
