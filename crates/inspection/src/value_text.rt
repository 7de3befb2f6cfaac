//! Prints values.
ghost use Rattle.std.specs.Prelude.{◌≡◌, ◌&&◌, nat_eq, if◌then◌else◌};
ghost use Rattle.std.specs.List.{list_any};
ghost use Rattle.element.specs.Padding.{is_empty, is_padding, without_trailing};

use crate::json_text::write_text;
use crate::options::OutputForm;
use crate::texts::TagText;
use element::{Tag, Vr, unpadded};
use std::fmt;
use std::num::{f32_from_bits_with_nan, f64_from_bits_with_nan};
use values::Repertoire;

/// How the values of a VR are printed.
#[derive(Clone, Copy)]
enum Notation {
    Text,
    Unsigned,
    Signed,
    Float,
    Tags,
    /// In hexadecimal.
    Bytes,
}

/// Returns how the values of a VR are printed, and the size of one value in bytes.
fn notation_of(vr: Option<Vr>) -> (Notation, usize) {
    let Some(vr) = vr else {
        return (Notation::Bytes, 1);
    };
    match vr.letters() {
        [b'U', b'S'] => (Notation::Unsigned, 2),
        [b'U', b'L'] => (Notation::Unsigned, 4),
        [b'U', b'V'] => (Notation::Unsigned, 8),
        [b'S', b'S'] => (Notation::Signed, 2),
        [b'S', b'L'] => (Notation::Signed, 4),
        [b'S', b'V'] => (Notation::Signed, 8),
        [b'F', b'L'] | [b'O', b'F'] => (Notation::Float, 4),
        [b'F', b'D'] | [b'O', b'D'] => (Notation::Float, 8),
        [b'A', b'T'] => (Notation::Tags, 4),
        [b'O', b'B'] | [b'U', b'N'] => (Notation::Bytes, 1),
        [b'O', b'W'] => (Notation::Bytes, 2),
        [b'O', b'L'] => (Notation::Bytes, 4),
        [b'O', b'V'] => (Notation::Bytes, 8),
        _ => (Notation::Text, 1),
    }
}

/// Prints the backslash between two values, escaped in JSON.
fn write_backslash<W: fmt::Write>(f: &mut fmt::Formatter<W>, form: OutputForm) -> fmt::Result {
    match form {
        OutputForm::Lines => f.write_str("\\"),
        OutputForm::Json => f.write_str("\\\\"),
    }
}

/// Prints a little-endian word in hexadecimal.
fn write_bytes<W: fmt::Write>(f: &mut fmt::Formatter<W>, bytes: &[u8]) -> fmt::Result {
    for byte in bytes.iter().rev() {
        write!(f, "{:02x}", *byte)?;
    }
    Ok(())
}

/// Prints a number or word of eight bytes.
fn write_long<W: fmt::Write>(
    f: &mut fmt::Formatter<W>,
    notation: Notation,
    bytes: [u8; 8],
) -> fmt::Result {
    match notation {
        Notation::Unsigned => write!(f, "{}", u64::from_le_bytes(bytes)),
        Notation::Signed => write!(f, "{}", i64::from_le_bytes(bytes)),
        Notation::Float => {
            let number = f64_from_bits_with_nan(u64::from_le_bytes(bytes));
            write!(f, "{number}")
        }
        Notation::Tags | Notation::Bytes | Notation::Text => write_bytes(f, &bytes),
    }
}

/// Prints one little-endian number, tag or word.
fn write_one<W: fmt::Write>(
    f: &mut fmt::Formatter<W>,
    notation: Notation,
    bytes: &[u8],
) -> fmt::Result {
    match (notation, bytes) {
        (_, [a, b, c, d, e, g, h, i]) => write_long(f, notation, [*a, *b, *c, *d, *e, *g, *h, *i]),
        (Notation::Unsigned, [a, b]) => write!(f, "{}", u16::from_le_bytes([*a, *b])),
        (Notation::Unsigned, [a, b, c, d]) => {
            write!(f, "{}", u32::from_le_bytes([*a, *b, *c, *d]))
        }
        (Notation::Signed, [a, b]) => write!(f, "{}", i16::from_le_bytes([*a, *b])),
        (Notation::Signed, [a, b, c, d]) => write!(f, "{}", i32::from_le_bytes([*a, *b, *c, *d])),
        (Notation::Float, [a, b, c, d]) => {
            let number = f32_from_bits_with_nan(u32::from_le_bytes([*a, *b, *c, *d]));
            write!(f, "{number}")
        }
        (Notation::Tags, [a, b, c, d]) => {
            let tag = Tag(u16::from_le_bytes([*a, *b]), u16::from_le_bytes([*c, *d]));
            let tag = TagText(tag);
            write!(f, "{tag}")
        }
        _ => write_bytes(f, bytes),
    }
}

/// Prints numbers, tags or words of `size` bytes, with a backslash between them.
fn write_all<W: fmt::Write>(
    f: &mut fmt::Formatter<W>,
    (notation, size): (Notation, usize),
    form: OutputForm,
    value: &[u8],
) -> fmt::Result {
    let mut is_first = true;
    let mut rest = value;
    for _ in 0..value.len() {
        if rest.is_empty() {
            break;
        }
        let (one, others) = rest.split_at(size.min(rest.len()));
        if !is_first {
            write_backslash(f, form)?;
        }
        write_one(f, notation, one)?;
        is_first = false;
        rest = others;
    }
    Ok(())
}

/// Returns a text without its padding; one of padding alone whole if it has a zero byte.
fn shown_text(value: &[u8]) -> &[u8]
    ensures { result.now ≡ (if is_empty (without_trailing is_padding value.now) && list_any (λ c. nat_eq c 0) value.now then value.now else without_trailing is_padding value.now) }
{
    let text = unpadded(value);
    if text.is_empty() && value.contains(&0) {
        value
    } else {
        text
    }
}

/// Prints a value: text without its padding, numbers, tags, or words in hexadecimal, with a
/// backslash between values. No control character is printed.
#[derive(Clone, Copy)]
pub struct ValueText<'a> {
    pub vr: Option<Vr>,
    pub value: &'a [u8],
    pub form: OutputForm,
    /// The repertoire of text.
    pub repertoire: Repertoire,
}

impl fmt::Display for ValueText<'_> {
    fn fmt<W: fmt::Write>(&self, f: &mut fmt::Formatter<W>) -> fmt::Result {
        let ValueText {
            vr,
            value,
            form,
            repertoire,
        } = *self;
        match notation_of(vr) {
            (Notation::Text, _) => write_text(f, form, repertoire, shown_text(value)),
            notation => write_all(f, notation, form, value),
        }
    }
}
