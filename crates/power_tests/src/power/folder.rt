//! A folder of the disk: its entries, and which of them are durable.

use crate::power::name::Name;
use crate::power::survivors::Choices;
use std::alloc::{AllocError, Global};

/// What a name stands for, by its index in the disk.
#[derive(Clone, Copy, PartialEq, Eq)]
pub(crate) enum Node {
    File(usize),
    Folder(usize),
}

#[derive(Clone, Copy)]
pub(crate) struct Entry {
    pub(crate) name: Name,
    pub(crate) node: Node,
}

/// A change of a folder that may be lost.
#[derive(Clone, Copy)]
enum Change {
    Added(Entry),
    Removed(Name),
}

/// The entries of a folder.
#[derive(Drop)]
pub(crate) struct Folder {
    entries: Vec<Entry>,
    /// The entries at the last sync.
    durable: Vec<Entry>,
    /// The changes since then, in order.
    changes: Vec<Change>,
}

/// Returns the entries without the one with this name.
fn without(alloc: Global, entries: &[Entry], name: Name) -> Result<Vec<Entry>, AllocError> {
    let mut kept = Vec::new(alloc);
    for entry in entries {
        if entry.name != name {
            kept.push(*entry)?;
        }
    }
    Ok(kept)
}

/// Returns the entries after a change.
fn changed(alloc: Global, entries: &[Entry], change: Change) -> Result<Vec<Entry>, AllocError> {
    match change {
        Change::Added(entry) => {
            let mut entries = without(alloc, entries, entry.name)?;
            entries.push(entry)?;
            Ok(entries)
        }
        Change::Removed(name) => without(alloc, entries, name),
    }
}

impl Folder {
    /// Returns a folder with these entries, all of them durable.
    fn of(alloc: Global, entries: &[Entry]) -> Result<Folder, AllocError> {
        Ok(Folder {
            entries: Vec::from_slice(alloc, entries)?,
            durable: Vec::from_slice(alloc, entries)?,
            changes: Vec::new(alloc),
        })
    }

    pub(crate) fn new(alloc: Global) -> Result<Folder, AllocError> {
        Folder::of(alloc, &[])
    }

    pub(crate) fn entries(&self) -> &[Entry] {
        self.entries.as_slice()
    }

    /// Returns what a name stands for, if it exists.
    pub(crate) fn node(&self, name: Name) -> Option<Node> {
        for entry in self.entries() {
            if entry.name == name {
                return Some(entry.node);
            }
        }
        None
    }

    fn change(&mut self, alloc: Global, change: Change) -> Result<(), AllocError> {
        self.entries = changed(alloc, self.entries.as_slice(), change)?;
        self.changes.push(change)?;
        Ok(())
    }

    /// Gives a name to a node, replacing any other.
    pub(crate) fn add(&mut self, alloc: Global, name: Name, node: Node) -> Result<(), AllocError> {
        self.change(alloc, Change::Added(Entry { name, node }))
    }

    pub(crate) fn remove(&mut self, alloc: Global, name: Name) -> Result<(), AllocError> {
        self.change(alloc, Change::Removed(name))
    }

    /// Makes all changes durable.
    pub(crate) fn sync(&mut self, alloc: Global) -> Result<(), AllocError> {
        self.durable = Vec::from_slice(alloc, self.entries.as_slice())?;
        self.changes.clear();
        Ok(())
    }

    /// Returns how many changes may be lost.
    pub(crate) fn pending(&self) -> usize {
        self.changes.len()
    }

    /// Returns whether this file has a name here, or may have one after a loss of power.
    pub(crate) fn may_name(&self, file: usize) -> bool {
        for entry in &self.durable {
            if entry.node == Node::File(file) {
                return true;
            }
        }
        for change in &self.changes {
            if let Change::Added(entry) = change {
                if entry.node == Node::File(file) {
                    return true;
                }
            }
        }
        false
    }

    /// Returns the folder that remains if each change survives by these choices.
    pub(crate) fn survivor(
        &self,
        alloc: Global,
        choices: &mut Choices,
    ) -> Result<Folder, AllocError> {
        let mut entries = Vec::from_slice(alloc, self.durable.as_slice())?;
        for change in &self.changes {
            if choices.survives() {
                entries = changed(alloc, entries.as_slice(), *change)?;
            }
        }
        Folder::of(alloc, entries.as_slice())
    }
}
