//! Names of files and folders, derived from values of data sets.
ghost use Rattle.std.specs.Prelude.{◌≡◌, ◌≢◌, ◌<◌, ◌≤◌, length, get_or};
ghost use Rattle.std.specs.List.{AllByRecursion};
ghost use Rattle.arrange_command.specs.Names as spelling;

use arrayvec::ArrayVec;
use element::unpadded;

/// The longest name in bytes: with a number and `.dcm` appended, a name has at most 255 bytes, the
/// limit of file systems.
pub const LONGEST_NAME: usize = 230;

/// The byte that replaces bytes not allowed in a name.
const BLANK: u8 = b'_';

/// Returns a byte, or `_` if the byte is not allowed in a name.
fn kept_or_blank(byte: u8) -> u8
    ensures { result ≡ spelling.kept_or_blank byte }
{
    if 32 <= byte && byte <= 126 && byte != b'/' {
        byte
    } else {
        BLANK
    }
}

/// Returns a byte, or `_` if the byte is not allowed at the front of a name: `.` would hide the
/// file.
fn front_or_blank(byte: u8) -> u8
    ensures { result ≡ spelling.front_or_blank byte }
{
    if byte == b'.' {
        BLANK
    } else {
        kept_or_blank(byte)
    }
}

/// Returns the name of a file or folder for a value, of 1 to 230 bytes: the value without the
/// spaces and zero bytes at its end, with `_` for `/`, for each byte that is neither a printable
/// ASCII character nor a space, and for `.` at the front. The name is `_` if the value is empty
/// without padding or has more than 230 bytes.
pub fn name_of(value: &[u8]) -> ArrayVec<u8, LONGEST_NAME>
    ensures value { result.items ≡ spelling.name_for value.now }
    ensures some { 0 < length result.items }
    ensures bytes { AllByRecursion spelling.IsNameByte result.items }
    ensures front { get_or result.items 0 0 ≢ 46 }
{
    let mut name = ArrayVec::new();
    if value.len() > LONGEST_NAME {
        name.push(BLANK);
        return name;
    }
    let Some((first, rest)) = unpadded(value).split_first() else {
        name.push(BLANK);
        return name;
    };
    name.push(front_or_blank(*first));
    for byte in rest {
        name.push(kept_or_blank(*byte));
    }
    name
}
