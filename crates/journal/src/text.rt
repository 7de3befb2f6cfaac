//! Texts of the log: printable ASCII, of bounded length.
ghost use Rattle.std.specs.Prelude.{◌≡◌, ◌≤◌, ◌+◌, ◌-◌, ◌^◌, ◌++◌, [], length, map, take, true};
ghost use Rattle.std.specs.List.{list_all};
ghost use Rattle.arrayvec.specs.ArrayString.{array_string_len};
ghost use Rattle.journal.specs.Printable as spelling;

use arrayvec::ArrayString;
use std::fmt;
use std::marker::Model;

/// Returns whether the byte is a space or a graphic character of ASCII.
fn is_printable(byte: u8) -> bool
    ensures { result ≡ spelling.is_printable byte }
{
    b' ' <= byte && byte <= b'~'
}

/// Returns the byte, or a question mark if it is not printable.
fn shown(byte: u8) -> u8
    ensures { result ≡ spelling.shown byte }
{
    if is_printable(byte) { byte } else { b'?' }
}

/// A text of at most `N` characters, each printable ASCII.
#[derive(Drop)]
pub struct Text<const N: usize> {
    text: ArrayString<N>,
}

impl<const N: usize> Model for Text<N> {
    ghost use Rattle.std.specs.Prelude.{◌≡◌, ◌≤◌, ◌^◌, List, ℕ, true};
    ghost use Rattle.std.specs.List.{list_all};
    ghost use Rattle.journal.specs.Printable as spelling;

    ghost Value = { List ℕ };

    ghost view = { λ t. t.text.bytes };

    ghost invariant = { λ t. (N ≤ 2 ^ 24) × (list_all spelling.is_printable t.text.bytes ≡ true) };
}

/// Appends these bytes, with a question mark for each that is not printable.
fn push_shown<const N: usize>(text: &mut ArrayString<N>, bytes: &[u8])
    requires few { N ≤ 2 ^ 24 }
    requires room { array_string_len text.old + length bytes.now ≤ N }
    ensures { text.new.bytes ≡ text.old.bytes ++ map spelling.shown bytes.now }
{
    for byte in bytes {
        text.push(char::from(shown(*byte)));
    }
}

impl<const N: usize> Text<N> {
    /// Returns an empty text.
    pub fn new() -> Text<N>
        requires { N ≤ 2 ^ 24 }
        ensures { result ≡ [] }
    {
        Text {
            text: ArrayString::new(),
        }
    }

    /// Appends these bytes, with `?` for each that is not printable, as far as there is room.
    pub fn add(&mut self, bytes: &[u8])
        ensures { self.new ≡ self.old ++ map spelling.shown (take (N - length self.old) bytes.now) }
    {
        let room = self.text.remaining_capacity().min(bytes.len());
        push_shown(&mut self.text, &bytes[..room]);
    }

    /// Returns the text.
    pub fn as_str(&self) -> &str
        ensures value { result.now ≡ self.now }
        ensures printable { list_all spelling.is_printable self.now ≡ true }
    {
        self.text.as_str()
    }

    /// Returns the number of its characters.
    pub fn len(&self) -> usize
        ensures value { result ≡ length self.now }
        ensures short { result ≤ N }
    {
        self.text.len()
    }
}

/// Appends what is written, as `add` does, as far as there is room. Never fails.
impl<const N: usize> fmt::Write for Text<N> {
    fn write_str(&mut self, s: &str) -> fmt::Result {
        self.add(s.as_bytes());
        Ok(())
    }
}

impl<const N: usize> fmt::Display for Text<N> {
    fn fmt<W: fmt::Write>(&self, f: &mut fmt::Formatter<W>) -> fmt::Result {
        f.write_str(self.as_str())
    }
}
