//! Finds which rule of the File Meta Information a file breaks (PS3.10 section 7.1).
ghost use Rattle.std.specs.Prelude.{◌≡◌};
ghost use Rattle.inspection.specs.MetaRules as rules;

use crate::front::KEPT;
use crate::keyword::known_keyword;
use crate::origin::{first_header, identifier_of};
use crate::texts::TagText;
use element::{Header, Need, Syntax, Tag, need};
use part10::{MetaFault, read_any_meta};
use std::fmt;

/// The offsets of the element with the length of group 0002, and of the elements after it.
const LENGTH: usize = 132;

const ELEMENTS: usize = 144;

/// The tags of SOP Class UID, SOP Instance UID and Transfer Syntax UID.
const NEEDED: [Tag; 3] = [
    Tag(0x0002, 0x0002),
    Tag(0x0002, 0x0003),
    Tag(0x0002, 0x0010),
];

/// The rule of the File Meta Information that a file breaks. It prints as a description of the
/// fault.
#[derive(Clone, Copy, Debug, PartialEq, Eq)]
pub enum MetaRule {
    /// Group 0002 begins with its length: (0002,0000), UL, of four bytes.
    Length,
    /// The file contains all of group 0002.
    Whole,
    /// Each element of group 0002 has a VR.
    Vr,
    /// Group 0002 ends at the end of an element.
    End,
    /// Only elements of group 0002 are within the group's length. This element is of another group.
    Group(Tag),
    /// Tags rise. This tag does not.
    Order(Tag),
    /// Lengths are even and defined. The length of this element is not.
    Even(Tag),
    /// The SOP Class UID, the SOP Instance UID and the Transfer Syntax UID are present. This
    /// element is absent or no UID.
    Needed(Tag),
}

impl fmt::Display for MetaRule {
    fn fmt<W: fmt::Write>(&self, f: &mut fmt::Formatter<W>) -> fmt::Result {
        let (tag, text) = match *self {
            MetaRule::Length => return f.write_str("group 0002 does not begin with its length"),
            MetaRule::Whole => return f.write_str("the file ends inside group 0002"),
            MetaRule::Vr => return f.write_str("an element of group 0002 has no VR"),
            MetaRule::End => {
                return f.write_str("the length of group 0002 ends inside an element");
            }
            MetaRule::Group(tag) => (tag, "stands within the length of group 0002"),
            MetaRule::Order(tag) => (tag, "does not rise above the tag before it"),
            MetaRule::Even(tag) => (tag, "has an odd or undefined length"),
            MetaRule::Needed(tag) => (tag, "is missing or no UID"),
        };
        let (keyword, tag) = (known_keyword(tag), TagText(tag));
        match keyword {
            Some(keyword) => write!(f, "{tag} {keyword} {text}"),
            None => write!(f, "{tag} {text}"),
        }
    }
}

/// Returns the rule that an element breaks, if any. Its header has `size` bytes, `last` is the
/// element number before it, and `remaining` bytes of the group remain.
fn rule_of(header: Header, size: u64, last: u16, remaining: u64) -> Option<MetaRule>
    ensures { result ≡ rules.rule_of header size last remaining }
{
    let Tag(group, number) = header.tag;
    if remaining < size {
        Some(MetaRule::End)
    } else if group != 2 {
        Some(MetaRule::Group(header.tag))
    } else if number <= last {
        Some(MetaRule::Order(header.tag))
    } else if header.length % 2 != 0 {
        Some(MetaRule::Even(header.tag))
    } else if remaining - size < u64::from(header.length) {
        Some(MetaRule::End)
    } else {
        None
    }
}

/// Returns the length of group 0002, or the broken rule.
fn group_length(file: &[u8]) -> Result<u32, MetaRule> {
    let Some(bytes) = file.get(LENGTH..ELEMENTS) else {
        return Err(MetaRule::Whole);
    };
    match bytes {
        [2, 0, 0, 0, b'U', b'L', 4, 0, a, b, c, d] => Ok(u32::from_le_bytes([*a, *b, *c, *d])),
        _ => Err(MetaRule::Length),
    }
}

/// Returns the header at the start of `bytes` and its size, or the rule that it breaks. `remaining`
/// bytes of the group remain.
fn header_within(bytes: &[u8], remaining: u64) -> Result<(Header, u64), MetaRule> {
    match need(Syntax::Explicit, bytes) {
        Need::More => Err(MetaRule::Whole),
        Need::BadVr => Err(MetaRule::Vr),
        Need::Size(size) => {
            if remaining < size as u64 {
                return Err(MetaRule::End);
            }
            match first_header(bytes) {
                Some((header, size)) => Ok((header, size as u64)),
                None => Err(MetaRule::Whole),
            }
        }
    }
}

/// Returns the first rule that an element of group 0002 breaks, if any; the group has this length.
fn rule_of_elements(file: &[u8], length: u32) -> Option<MetaRule> {
    let mut rest = file.get(ELEMENTS..)?;
    let mut remaining = u64::from(length);
    let mut last = 0;
    // Each element has at least eight bytes.
    for _ in 0..file.len() {
        if remaining == 0 {
            return None;
        }
        let (header, size) = match header_within(rest, remaining) {
            Ok(found) => found,
            Err(rule) => return Some(rule),
        };
        let (tag, length) = (header.tag, header.length);
        if let Some(rule) = rule_of(header, size, last, remaining) {
            return Some(rule);
        }
        let whole = size.saturating_add(u64::from(length));
        let Some(after) = rest.get(whole as usize..) else {
            return Some(MetaRule::Whole);
        };
        rest = after;
        remaining = remaining.saturating_sub(whole);
        let Tag(_, number) = tag;
        last = number;
    }
    None
}

/// Returns the rule for the first required element that is absent or no UID, if any. Group 0002 has
/// this length.
fn rule_of_needed(file: &[u8], length: u32) -> Option<MetaRule> {
    let end = ELEMENTS.saturating_add(length as usize);
    let header = file.get(..end)?;
    for tag in NEEDED {
        if identifier_of(header, tag).is_none() {
            return Some(MetaRule::Needed(tag));
        }
    }
    None
}

/// Returns the first rule that the File Meta Information breaks, if any.
fn first_rule(file: &[u8]) -> Option<MetaRule> {
    match group_length(file) {
        Ok(length) => match rule_of_elements(file, length) {
            Some(rule) => Some(rule),
            None => rule_of_needed(file, length),
        },
        Err(rule) => Some(rule),
    }
}

/// Returns the rule of the File Meta Information that a file breaks, if its header is rejected as
/// `BadMeta`. `file` is the beginning that `FileFront` keeps. `None` if the fault is after these
/// bytes or the header is not `BadMeta`.
pub fn broken_rule_of(file: &[u8]) -> Option<MetaRule> {
    let mut input = file;
    match read_any_meta(&mut input) {
        Err(MetaFault::BadMeta) => match first_rule(file) {
            Some(MetaRule::Whole) if KEPT <= file.len() => None,
            rule => rule,
        },
        _ => None,
    }
}
