//! The conditions that a file must meet to be listed.
ghost use Rattle.std.specs.Prelude.{◌≡◌, IfOk};
ghost use Rattle.std.specs.List.{list_all};
ghost use Rattle.list_command.specs.Tree.{IsFiled};
ghost use Rattle.list_command.specs.Values.{Selects, has_value as is_value_of, meets, tags_to_read};

use crate::columns::Column;
use crate::grouping::Grouping;
use element::{Tag, unpadded};
use failures::ProgramError;
use keyed_files::{Consumer, FileKeys, FoundFile, LONGEST_KEPT, is_text_element};
use std::alloc::Allocator;

/// The greatest number of conditions.
pub const MOST_CONDITIONS: usize = 8;

/// Returns whether one of the values of an element, separated by backslashes (PS3.5 section 6.4),
/// equals this text without padding.
fn has_value(values: &[u8], text: &[u8]) -> bool
    ensures { result ≡ is_value_of text.now values.now }
{
    values
        .split(|byte| *byte == b'\\')
        .any(|value| unpadded(value) == text)
}

/// The value that an element must have.
#[derive(Clone, Copy)]
pub struct Condition<'a> {
    tag: Tag,
    text: &'a [u8],
}

impl<'a> Condition<'a> {
    /// Creates the condition that one of the values of an element is this text, without padding.
    /// Returns `None` for an element of the File Meta Information or one whose value is not text.
    pub fn new(tag: Tag, text: &'a str) -> Option<Condition<'a>> {
        if !is_text_element(tag) {
            return None;
        }
        let text = unpadded(text.as_bytes());
        Some(Condition { tag, text })
    }

    /// Returns whether a file meets the condition. A file without the element has an empty value.
    fn holds(&self, keys: &FileKeys) -> bool
        ensures { result ≡ meets keys.now self.now }
    {
        let values = keys.value(self.tag).unwrap_or(&[]);
        // The end of a longer value is unknown.
        values.len() < LONGEST_KEPT && has_value(values, self.text)
    }
}

/// Returns the tags of the values to read from each file: the listed values, and those of
/// conditions and columns.
pub(crate) fn tags_of<A: Allocator>(
    alloc: A,
    listed: &[Tag],
    conditions: &[Condition<'_>],
    columns: &[Column<'_>],
) -> Result<Vec<Tag, A>, ProgramError>
    ensures { IfOk result (λ tags. tags.items ≡ tags_to_read listed.now conditions.now columns.now) }
{
    let mut tags = Vec::from_slice(alloc, listed)?;
    for condition in conditions {
        tags.push(condition.tag)?;
    }
    for column in columns {
        tags.push(column.tag)?;
    }
    Ok(tags)
}

/// Returns whether a file meets each of the conditions.
fn holds_each(conditions: &[Condition<'_>], keys: &FileKeys) -> bool
    ensures { result ≡ list_all (meets keys.now) conditions.now }
{
    for condition in conditions {
        if !condition.holds(keys) {
            return false;
        }
    }
    true
}

/// Groups the files that meet all of the conditions.
#[derive(Drop)]
pub(crate) struct Selection<'a, A: Allocator> {
    pub conditions: &'a [Condition<'a>],
    pub grouping: Grouping<'a, A>,
}

impl<A: Allocator + Copy> Consumer for Selection<'_, A> {
    ghost consumed = { λ old path keys new. (new.conditions.now ≡ old.conditions.now)
        × Selects (list_all (meets keys) old.conditions.now) (IsFiled path keys old.grouping new.grouping) (new ≡ old) };

    fn take(&mut self, file: FoundFile<'_>) -> Result<(), ProgramError> {
        if !holds_each(self.conditions, file.keys) {
            return Ok(());
        }
        self.grouping.take(file)
    }
}
