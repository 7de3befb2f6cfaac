//! Keywords of data elements, SOP classes and transfer syntaxes, and VRs of data elements (PS3.6),
//! for output that people read. No check depends on them.
#![tactic(auto)]

mod classes;
mod elements;
mod syntaxes;

pub use elements::{element_digits, element_keyword, element_vrs};

/// A row of a table: the part of a UID after [`ROOT`], and its keyword.
type Row = (&'static str, &'static str);

/// The root of all UIDs that the standard defines.
const ROOT: &[u8] = b"1.2.840.10008.";

/// Returns the keyword of the UID whose part after [`ROOT`] is `rest`, or `None` if no row has it.
fn keyword_in(rows: &[Row], rest: &[u8]) -> Option<&'static str> {
    for (uid, keyword) in rows {
        if uid.as_bytes() == rest {
            return Some(*keyword);
        }
    }
    None
}

/// Returns the keyword of the SOP class with this UID, or `None` if the standard has none.
pub fn class_keyword(uid: &[u8]) -> Option<&'static str> {
    classes::keyword(uid.strip_prefix(ROOT)?)
}

/// Returns the keyword of the transfer syntax with this UID, or `None` if the standard has none.
pub fn syntax_keyword(uid: &[u8]) -> Option<&'static str> {
    syntaxes::keyword(uid.strip_prefix(ROOT)?)
}
