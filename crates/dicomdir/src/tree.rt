//! The tree of records of a directory that was checked.
ghost use Rattle.std.specs.Prelude.{◌≡◌, map};
ghost use Rattle.dicomdir.specs.NodesInUse.{node_of, tree_nodes};

use crate::file_id::FileId;
use std::alloc::Allocator;

/// A record of a directory that is in use and has no inactive record above it.
#[derive(Clone, Copy, Debug)]
pub struct TreeRecord<'a> {
    offset: u64,
    level: u8,
    kind: &'a [u8],
    file_id: Option<FileId>,
}

impl<'a> TreeRecord<'a> {
    pub(crate) fn new(
        offset: u64,
        level: u8,
        kind: &'a [u8],
        file_id: Option<FileId>,
    ) -> TreeRecord<'a>
        ensures offset { result.offset ≡ offset }
        ensures level { result.level ≡ level }
        ensures kind { result.kind.now ≡ kind.now }
        ensures file_id { result.file_id ≡ file_id }
    {
        TreeRecord {
            offset,
            level,
            kind,
            file_id,
        }
    }

    /// Returns the position of the record's item, in bytes from the start of the file.
    pub fn offset(&self) -> u64
        ensures { result ≡ (node_of self.now).offset }
    {
        self.offset
    }

    /// Returns the level of the record: 1 for a patient, 2 for a study, 3 for a series, 4 for an
    /// image.
    pub fn level(&self) -> u8
        ensures { result ≡ (node_of self.now).level }
    {
        self.level
    }

    /// Returns the Directory Record Type, without padding.
    pub fn kind(&self) -> &'a [u8]
        ensures { result.now ≡ (node_of self.now).carries.kind }
    {
        self.kind
    }

    /// Returns the Referenced File ID, if the record has one.
    pub fn file_id(&self) -> Option<FileId>
        ensures { result ≡ (node_of self.now).carries.file_id }
    {
        self.file_id
    }
}

/// The records of a directory that are in use and have no inactive record above them, depth first.
#[derive(Drop)]
pub struct Tree<'a, A: Allocator + Copy> {
    records: Vec<TreeRecord<'a>, A>,
}

impl<'a, A: Allocator + Copy> Tree<'a, A> {
    pub(crate) fn new(records: Vec<TreeRecord<'a>, A>) -> Tree<'a, A>
        ensures { tree_nodes result ≡ map node_of records.entry.items }
    {
        Tree { records }
    }

    /// Returns the records, depth first.
    pub fn records(&self) -> &[TreeRecord<'a>]
        ensures { map node_of result.now ≡ tree_nodes self.now }
    {
        self.records.as_slice()
    }
}
