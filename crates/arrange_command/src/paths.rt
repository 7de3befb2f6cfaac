//! The paths of files in the tree.
ghost use Rattle.std.specs.Prelude.{◌≡◌, ◌++◌, ◌∷◌, IfOk, IsOk, OnOk, string_bytes};
ghost use Rattle.std.specs.List.{AllByRecursion, slice_split};
ghost use Rattle.keyed_files.specs.Keys.{file_value};
ghost use Rattle.arrange_command.specs.Names.{name_for};
ghost use Rattle.arrange_command.specs.Patterns as pattern;

use crate::name::{LONGEST_NAME, name_of};
use crate::pattern::Part;
use arrayvec::ArrayVec;
use element::Tag;
use keyed_files::FileKeys;
use std::alloc::{AllocError, Allocator};

/// The pattern of the paths of files if none is given: the Patient ID and the UIDs of the study,
/// the series and the instance.
pub const BY_UIDS: &[Part<'static>] = &[
    Part::Value(b"PatientID", Tag(0x0010, 0x0020)),
    Part::Slash,
    Part::Value(b"StudyInstanceUID", Tag(0x0020, 0x000d)),
    Part::Slash,
    Part::Value(b"SeriesInstanceUID", Tag(0x0020, 0x000e)),
    Part::Slash,
    Part::Value(b"SOPInstanceUID", Tag(0x0008, 0x0018)),
];

/// The text that replaces a value that a file does not have.
const UNKNOWN: &[u8] = b"UNKNOWN";

/// Returns the name for the value with this tag, or `UNKNOWN` if the file has no such value.
fn name_of_value_in(keys: &FileKeys, tag: Tag) -> ArrayVec<u8, LONGEST_NAME>
    ensures { result.items ≡ pattern.name_of_value (file_value keys.now tag) }
{
    name_of(keys.value(tag).unwrap_or(UNKNOWN))
}

/// Appends the name for a text to a path.
fn push_name<A: Allocator>(path: &mut String<A>, text: &[u8]) -> Result<(), AllocError>
    ensures { OnOk result (string_bytes path.new ≡ string_bytes path.old ++ name_for text.now) }
{
    let name = name_of(text);
    let bytes = name.as_slice();
    for byte in bytes {
        path.push(char::from(*byte))?;
    }
    Ok(())
}

/// Returns the path that a pattern gives to a file in the tree: each value in the pattern is
/// replaced by its name, and then each text between slashes by the name for it, which is `_` if the
/// text has more than 230 bytes.
pub(crate) fn path_of<A: Allocator + Copy>(
    alloc: A,
    tree: &str,
    parts: &[Part<'_>],
    keys: &FileKeys,
) -> Result<String<A>, AllocError>
    ensures path { IfOk result (λ path. string_bytes path ≡ tree.now ++ 47 ∷ pattern.path_for keys.now parts.now) }
    ensures names { IsOk result → AllByRecursion pattern.IsName (slice_split pattern.is_slash (pattern.path_for keys.now parts.now)) }
{
    let mut path = String::from_str(alloc, tree)?;
    path.push('/')?;
    let mut name = Vec::new(alloc);
    for part in parts {
        match part {
            Part::Slash => {
                push_name(&mut path, name.as_slice())?;
                path.push('/')?;
                name.clear();
            }
            Part::Byte(byte) => name.push(*byte)?,
            Part::Value(_, tag) => {
                name.extend_from_slice(name_of_value_in(keys, *tag).as_slice())?;
            }
        }
    }
    push_name(&mut path, name.as_slice())?;
    Ok(path)
}

/// Returns the path of the folder of a path in the tree.
pub(crate) fn folder_of(path: &str) -> &str {
    match path.rsplit_once('/') {
        Some((folder, _)) => folder,
        None => path,
    }
}

/// Returns the path of a file whose pattern gives this path: with `.dcm` appended, and before it a
/// `number` above 1, to tell apart files of the same path.
pub(crate) fn numbered<A: Allocator>(
    alloc: A,
    path: &str,
    number: u64,
) -> Result<String<A>, AllocError>
    ensures { IfOk result (λ p. string_bytes p ≡ pattern.numbered path.now number) }
{
    if number > 1 {
        format!(in alloc; "{path}-{number}.dcm")
    } else {
        format!(in alloc; "{path}.dcm")
    }
}
