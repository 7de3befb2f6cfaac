//! The character set of a data set: which bytes of a text form one character (PS3.3 section
//! C.12.1.1.2, PS3.5 section 6.1.2).
ghost use Rattle.std.specs.Prelude.{◌≡◌};
ghost use Rattle.std.specs.List.{list_any};
ghost use Rattle.element.specs.Values.{is_backslash};
ghost use Rattle.values.specs.Characters as characters;

/// How the texts of a data set encode characters, by its Specific Character Set (0008,0005).
#[derive(Clone, Copy, Debug, PartialEq, Eq)]
pub enum CharacterSet {
    /// One byte for each character: ASCII, and the sets of ISO 8859 and JIS X 0201.
    SingleByte,
    /// UTF-8.
    Utf8,
    /// GB 18030 and GBK: one, two or four bytes for each character.
    Gb18030,
    /// Code extensions of ISO 2022: escape sequences switch between sets with one and with two
    /// bytes for each character.
    CodeExtensions,
}

fn has_several_values(value: &[u8]) -> bool
    ensures { result ≡ list_any is_backslash value.now }
{
    value.iter().any(|byte| *byte == b'\\')
}

/// Returns whether a value begins with `ISO 2022`, as the defined terms of code extensions do.
fn names_extension(value: &[u8]) -> bool
    ensures { result ≡ characters.names_extension value.now }
{
    value.len() >= 8 && &value[..8] == b"ISO 2022".as_slice()
}

impl CharacterSet {
    /// Returns the encoding that a value of Specific Character Set names. Several values mean code
    /// extensions; an unknown term means `SingleByte`.
    pub fn of_value(value: &[u8]) -> CharacterSet
        ensures { result ≡ characters.set_of value.now }
    {
        if has_several_values(value) || names_extension(value) {
            return CharacterSet::CodeExtensions;
        }
        let term = element::without_trailing_spaces(value);
        if term == b"ISO_IR 192".as_slice() {
            CharacterSet::Utf8
        } else if term == b"GB18030".as_slice() || term == b"GBK".as_slice() {
            CharacterSet::Gb18030
        } else {
            CharacterSet::SingleByte
        }
    }
}
