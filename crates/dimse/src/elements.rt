//! Reads the elements of a command set, in Implicit VR Little Endian.
ghost use Rattle.std.specs.Prelude.{◌≡◌, List, option_map, Some};
ghost use Rattle.std.specs.Option.{is_some};
ghost use Rattle.dimse.specs.Command.{CommandElement, command_value};
ghost use Rattle.dimse.specs.Reading as spelling;

use element::{Syntax, Tag, read_header};

/// Returns the element number and the value of the first element, and the bytes after it. Returns
/// `None` if the bytes do not begin with a whole element of group 0000 and of even length.
#[tactic(auto, using(crate::proofs::BytesSpellTheElement::whole_plain, crate::proofs::BytesSpellTheElement::plain_parts), unfolding(crate::specs::Reading::element_at))]
pub fn element_at(bytes: &[u8]) -> Option<(u16, &[u8], &[u8])>
    ensures { option_map (λ x. (record { number = x.0; value = x.1.now }, x.2.now)) result ≡ spelling.element_at bytes.now }
{
    if bytes.len() < 8 {
        return None;
    }
    let header = read_header(Syntax::Implicit, bytes);
    let Tag(group, number) = header.tag;
    let length = header.length as usize;
    let rest = &bytes[8..];
    if group != 0 || length % 2 != 0 || length > rest.len() {
        return None;
    }
    let (value, rest) = rest.split_at(length);
    Some((number, value, rest))
}

/// Returns whether the bytes are whole elements of group 0000 and nothing else, with strictly
/// ascending element numbers above 0000.
#[tactic(auto, unfolding(crate::specs::Reading::elements_of))]
pub fn are_rising(bytes: &[u8]) -> bool
    ensures { result ≡ is_some (spelling.elements_of bytes.now) }
{
    let mut last = 0;
    let mut rest = bytes;
    while let Some((number, _, more)) = element_at(rest) {
        if number <= last {
            return false;
        }
        last = number;
        rest = more;
    }
    rest.is_empty()
}

/// Returns the value of the element with this element number, or `None` if there is none.
pub fn value_in(bytes: &[u8], number: u16) -> Option<&[u8]>
    ensures { (es : List CommandElement) → spelling.elements_of bytes.now ≡ Some es → option_map (λ v. v.now) result ≡ command_value number es }
{
    let mut rest = bytes;
    while let Some((at, value, more)) = element_at(rest) {
        if at == number {
            return Some(value);
        }
        rest = more;
    }
    None
}
