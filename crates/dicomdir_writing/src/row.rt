//! The rows from which a directory is built.
ghost use Rattle.std.specs.Prelude.{◌≡◌, ◌≤◌, ℕ, true, Some, option_map};
ghost use Rattle.std.specs.List.{list_all, find};
ghost use Rattle.element.specs.Header.{number};
ghost use Rattle.element.specs.Uid.{is_uid};
ghost use Rattle.sequence.specs.Wanted.{value_of, room_of};
ghost use Rattle.dicomdir_writing.specs.Keys.{IsRow, checked_row, optional_size, key_values, keys_row};
ghost use Rattle.dicomdir_writing.specs.Keys as spelling;
ghost use Rattle.dicomdir_writing.specs.Row.{key_in};
ghost use Rattle.dicomdir_writing.specs.RowOf.{row_wants};
ghost use Rattle.dicomdir_writing.specs.RecordTable.{key_table};

use crate::record_table::{ElementType, RecordRule, key_table};
use crate::{Keys, Skip};
use dicomdir::FileId;
use dictionary::Transfer;
use element::{Tag, Uid, unpadded};
use std::alloc::Allocator;
use std::marker::Model;

/// A row of a directory: the file ID of a file, and what the directory records of it. No key is
/// longer than its VR allows (UI, SH and CS 64 bytes, DA, TM and IS 32, LO 256, PN 512), and no key
/// of type 1 is empty.
#[derive(Drop)]
pub struct Row<A: Allocator> {
    file_id: FileId,
    class: Uid,
    instance: Uid,
    syntax: Transfer,
    keys: Keys<A>,
}

impl<A: Allocator> Model for Row<A> {
    ghost use Rattle.dicomdir_writing.specs.Keys.{RowValue, keys_row, IsRow};

    ghost Value = { RowValue };

    ghost view = { λ r. keys_row r.file_id r.class r.instance r.syntax r.keys };

    ghost invariant = { λ r. IsRow (keys_row r.file_id r.class r.instance r.syntax r.keys) };
}

fn is_empty_key(value: &[u8]) -> bool
    ensures { result ≡ spelling.is_empty_key value.now }
{
    unpadded(value).is_empty()
}

/// Returns whether the value of a key is at most as long as the table allows.
fn fits_room<A: Allocator>(rule: &RecordRule, keys: &Keys<A>) -> bool
    ensures { result ≡ spelling.fits_room (key_values keys.now) rule.now }
{
    match keys.value(rule.tag) {
        None => true,
        Some(value) => value.len() <= rule.room as usize,
    }
}

fn fit_rooms<A: Allocator>(rules: &[RecordRule], keys: &Keys<A>) -> bool
    ensures { result ≡ list_all (spelling.fits_room (key_values keys.now)) rules.now }
{
    rules.iter().all(|rule| fits_room(rule, keys))
}

/// Returns whether this is a key of type 1 without a value.
fn is_missing<A: Allocator>(rule: &RecordRule, keys: &Keys<A>) -> bool
    ensures { result ≡ spelling.is_missing (key_values keys.now) rule.now }
{
    match (rule.kind, keys.value(rule.tag)) {
        (ElementType::Unique | ElementType::Type1, None) => true,
        (ElementType::Unique | ElementType::Type1, Some(value)) => is_empty_key(value),
        (ElementType::Type1C | ElementType::Type2 | ElementType::Type3, _) => false,
    }
}

/// Returns the first of these keys that is of type 1 and has no value.
fn first_empty<A: Allocator>(rules: &[RecordRule], keys: &Keys<A>) -> Option<RecordRule>
    ensures { result ≡ find (spelling.is_missing (key_values keys.now)) rules.now }
{
    rules.iter().copied().find(|rule| is_missing(rule, keys))
}

impl<A: Allocator> Row<A> {
    /// Creates a row with these values. Fails with `Fault(21)` if a key is longer than the table
    /// allows, else with `Missing` and the tag of the first key of type 1 that is absent or empty
    /// apart from padding.
    #[tactic(auto, using(crate::proofs::RowLaws::too_long, crate::proofs::RowLaws::one_empty, crate::proofs::RowLaws::none_empty))]
    pub fn new(
        file_id: FileId,
        class: Uid,
        instance: Uid,
        syntax: Transfer,
        keys: Keys<A>,
    ) -> Result<Row<A>, Skip>
        ensures { result ≡ checked_row (keys_row file_id class instance syntax keys) }
    {
        if !fit_rooms(key_table(), &keys) {
            return Err(Skip::Fault(21));
        }
        if let Some(rule) = first_empty(key_table(), &keys) {
            return Err(Skip::Missing(rule.tag));
        }
        file_id.text();
        class.len();
        instance.len();
        Ok(Row {
            file_id,
            class,
            instance,
            syntax,
            keys,
        })
    }

    /// Does nothing. Its contract states what the type guarantees: no key is longer than the table
    /// allows, and no key of type 1 is empty.
    pub fn keeps(&self)
        ensures { IsRow self.now }
    {
        // The prover knows what the type guarantees where one of its fields is named.
        let _ = &self.file_id;
    }

    /// Returns the SOP Class UID of the file.
    pub fn class(&self) -> &[u8]
        ensures value { result.now ≡ self.now.class }
        ensures known { is_uid self.now.class ≡ true }
    {
        self.class.len();
        self.class.as_bytes()
    }

    /// Returns the SOP Instance UID of the file.
    pub fn instance(&self) -> &[u8]
        ensures value { result.now ≡ self.now.instance }
        ensures known { is_uid self.now.instance ≡ true }
    {
        self.instance.len();
        self.instance.as_bytes()
    }

    /// Returns the transfer syntax of the file.
    pub fn syntax(&self) -> Transfer
        ensures { result ≡ self.now.syntax }
    {
        self.syntax
    }

    /// Returns the file ID of the file.
    pub fn file_id(&self) -> FileId
        ensures { result ≡ self.now.file_id }
    {
        self.file_id
    }

    /// Returns the components of the file ID, with a backslash between them.
    pub(crate) fn file_id_text(&self) -> &[u8]
        ensures { result.now ≡ self.now.file_id }
    {
        self.file_id.text()
    }

    /// Returns the value of a key, or `None` if the data set has none. It is at most as long as the
    /// table allows.
    #[tactic(auto, using(crate::proofs::RowLaws::room_kept))]
    pub fn value(&self, tag: Tag) -> Option<&[u8]>
        ensures value { option_map (λ v. v.now) result ≡ value_of self.now.values (number tag) }
        ensures room { (room : ℕ) → room_of (row_wants key_table) (number tag) ≡ Some room → optional_size (value_of self.now.values (number tag)) ≤ room }
    {
        self.keys.value(tag)
    }

    /// Returns the value of a key, or an empty slice if the data set has none.
    pub(crate) fn key(&self, tag: Tag) -> &[u8]
        ensures { result.now ≡ key_in self.now.values tag }
    {
        match self.value(tag) {
            Some(value) => value,
            None => &[],
        }
    }
}
