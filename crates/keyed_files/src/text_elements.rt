//! Elements of the data set whose values are text.
use element::Tag;
use keywords::element_vrs;

/// The group of the File Meta Information, which is not in the data set (PS3.10 section 7.1).
const META: u16 = 2;

/// The VRs whose values are text (PS3.5 section 6.2).
const OF_TEXT: &str = "AE AS CS DA DS DT IS LO LT PN SH ST TM UC UI UR UT";

/// Returns whether an element is in the data set and its value is text; `true` for an element that
/// PS3.6 does not have.
pub fn is_text_element(tag: Tag) -> bool {
    if tag.0 == META {
        return false;
    }
    match element_vrs(tag.0, tag.1) {
        Some(vrs) => OF_TEXT.contains(vrs),
        None => true,
    }
}
