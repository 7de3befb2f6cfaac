//! Application entity titles.
ghost use Rattle.std.specs.Prelude.{◌≡◌, nat_eq, replicate};
ghost use Rattle.std.specs.List.{list_all};
ghost use Rattle.element.specs.Padding.{is_space};
ghost use Rattle.std.specs.Cmp.Lexicographic.{pointwise};
ghost use Rattle.std.specs.Cmp.Rules.{comparing};
ghost use Rattle.std.specs.Ordering.{on};
ghost use Rattle.std.proofs.Common.{rules};
ghost use Rattle.element.specs.Title.{title_text, title_of_text, title_bytes};
ghost use Rattle.element.specs.Title as spelling;

use crate::padding::trimmed;

/// An application entity title: 16 bytes, padded by spaces (PS3.8 section 9.3.2). Equality ignores
/// leading and trailing spaces.
#[derive(Clone, Copy, Debug)]
pub struct AeTitle(pub [u8; 16]);

fn is_title_character(byte: u8) -> bool
    ensures { result ≡ spelling.is_title_character byte }
{
    b' ' <= byte && byte <= b'~' && byte != b'\\'
}

fn are_title_characters(text: &[u8]) -> bool
    ensures { result ≡ list_all spelling.is_title_character text.now }
{
    text.iter().all(|byte| is_title_character(*byte))
}

fn are_spaces(text: &[u8]) -> bool
    ensures { result ≡ list_all is_space text.now }
{
    text.iter().all(|byte| *byte == b' ')
}

fn is_title(text: &[u8]) -> bool
    ensures { result ≡ spelling.is_title text.now }
{
    !text.is_empty() && text.len() <= 16 && are_title_characters(text) && !are_spaces(text)
}

impl AeTitle {
    /// Returns the title with this text, padded by spaces, or `None` if the text is not 1 to 16
    /// characters from 20H to 7EH without backslash, not all spaces (PS3.5 section 6.2, VR AE).
    pub fn of_text(text: &str) -> Option<AeTitle>
        ensures { title_bytes result ≡ title_of_text text.now }
    {
        let bytes = text.as_bytes();
        if !is_title(bytes) {
            return None;
        }
        let mut title = [b' '; 16];
        title[..bytes.len()].copy_from_slice(bytes);
        Some(AeTitle(title))
    }

    /// Returns the bytes without leading and trailing spaces.
    pub fn trimmed(&self) -> &[u8]
        ensures { result.now ≡ title_text self.now.0 }
    {
        trimmed(&self.0)
    }
}

impl PartialEq for AeTitle {
    ghost eq = { on (λ t. title_text t.0) (pointwise nat_eq) };

    ghost laws = { Prim.search (comparing, rules) };

    fn eq(&self, other: &AeTitle) -> bool {
        self.trimmed() == other.trimmed()
    }
}

impl Eq for AeTitle {
    ghost laws = { Prim.search (comparing, rules) };
}

impl Default for AeTitle {
    ghost is_default = { λ t. t.0 ≡ replicate 16 32 };

    /// Returns a title of spaces.
    fn default() -> AeTitle {
        AeTitle([b' '; 16])
    }
}
