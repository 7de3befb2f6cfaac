//! VRs and keywords of data elements. A row of a table is a line: a tag of eight hexadecimal
//! digits, in which `x` matches any digit, a space, the VRs, a space and the keyword. Where the VR
//! depends on other elements, slashes separate the alternatives; items and delimitations have `--`,
//! as they have no VR.
mod part_1;
mod part_10;
mod part_11;
mod part_12;
mod part_13;
mod part_2;
mod part_3;
mod part_4;
mod part_5;
mod part_6;
mod part_7;
mod part_8;
mod part_9;
mod repeaters;

/// The tables, in ascending order of tags.
const TABLES: [&str; 13] = [
    part_1::ROWS,
    part_2::ROWS,
    part_3::ROWS,
    part_4::ROWS,
    part_5::ROWS,
    part_6::ROWS,
    part_7::ROWS,
    part_8::ROWS,
    part_9::ROWS,
    part_10::ROWS,
    part_11::ROWS,
    part_12::ROWS,
    part_13::ROWS,
];

/// The eight hexadecimal digits of a tag, group first.
type Digits = [u8; 8];

/// Returns the last hexadecimal digit of a number.
fn digit(number: u16) -> u8 {
    b"0123456789abcdef"[usize::from(number & 15)]
}

/// Returns the hexadecimal digits of a tag.
fn digits_of(group: u16, element: u16) -> Digits {
    [
        digit(group >> 12),
        digit(group >> 8),
        digit(group >> 4),
        digit(group),
        digit(element >> 12),
        digit(element >> 8),
        digit(element >> 4),
        digit(element),
    ]
}

/// Rows split at the row in their middle: that row, and those before and after it.
#[derive(Clone, Copy)]
struct Halves {
    before: &'static str,
    row: &'static str,
    after: &'static str,
}

/// Splits rows at the row in their middle. Never `None` for ASCII text.
fn middle_of(rows: &'static str) -> Option<Halves> {
    let (front, _) = rows.split_at_checked(rows.len() / 2)?;
    let (before, start) = match front.rsplit_once('\n') {
        Some((before, _)) => (before, before.len().checked_add(1)?),
        None => ("", 0),
    };
    let rest = rows.get(start..)?;
    let (row, after) = rest.split_once('\n').unwrap_or((rest, ""));
    Some(Halves { before, row, after })
}

/// Returns the text after the digits in the row of `tag`, or `None` if no row has exactly this tag.
/// The rows must be in ascending order.
fn found_in(rows: &'static str, tag: &Digits) -> Option<&'static str> {
    let mut rows = rows;
    // Each iteration halves the rows.
    for _ in 0..64 {
        let Halves { before, row, after } = middle_of(rows)?;
        let (digits, found) = row.split_once(' ')?;
        if digits.as_bytes() == tag.as_slice() {
            return Some(found);
        }
        rows = if digits.as_bytes() < tag.as_slice() {
            after
        } else {
            before
        };
    }
    None
}

/// Returns whether the digits of a row match the tag; `x` matches any digit.
fn are_of(digits: &[u8], tag: &Digits) -> bool {
    digits.len() == 8
        && digits
            .iter()
            .zip(tag)
            .all(|(digit, wanted)| digit == wanted || *digit == b'x')
}

/// Returns the text after the digits in the first row that matches `tag`, or `None`.
fn found_among(rows: &'static str, tag: &Digits) -> Option<&'static str> {
    for row in rows.split('\n') {
        let (digits, found) = row.split_once(' ')?;
        if are_of(digits.as_bytes(), tag) {
            return Some(found);
        }
    }
    None
}

/// Returns whether the first row of a table has a tag above `tag`, or the table is empty.
fn is_above(rows: &str, tag: &Digits) -> bool {
    match rows.as_bytes().get(..8) {
        Some(first) => first > tag.as_slice(),
        None => true,
    }
}

/// Returns the only table of [`TABLES`] that can have this tag.
fn table_of(tag: &Digits) -> &'static str {
    let mut table = "";
    for rows in TABLES {
        if is_above(rows, tag) {
            break;
        }
        table = rows;
    }
    table
}

/// Returns the VRs and the keyword of the data element with this group and element number, or
/// `None` if the standard has none, as for odd (private) groups.
fn row_of(group: u16, element: u16) -> Option<(&'static str, &'static str)> {
    if group % 2 == 1 {
        return None;
    }
    let tag = digits_of(group, element);
    let found = match found_in(table_of(&tag), &tag) {
        Some(found) => found,
        None => found_among(repeaters::ROWS, &tag)?,
    };
    found.split_once(' ')
}

/// Returns the keyword of the data element with this group and element number (PS3.6 sections 6 to
/// 9), or `None` if the standard has none.
pub fn element_keyword(group: u16, element: u16) -> Option<&'static str> {
    let (_, keyword) = row_of(group, element)?;
    Some(keyword)
}

/// Returns the VR of the data element with this group and element number (PS3.6 sections 6 to 9),
/// or `None` if the standard has none. Where the VR depends on other elements, slashes separate the
/// alternatives; items and delimitations have `--`, as they have no VR.
pub fn element_vrs(group: u16, element: u16) -> Option<&'static str> {
    let (vrs, _) = row_of(group, element)?;
    Some(vrs)
}

/// Returns the digits of a row with this keyword, or `None` if it has another or stands for several
/// tags.
fn digits_in(row: &'static str, keyword: &str) -> Option<&'static str> {
    let (digits, found) = row.split_once(' ')?;
    let (_, named) = found.split_once(' ')?;
    if named == keyword && !digits.as_bytes().contains(&b'x') {
        Some(digits)
    } else {
        None
    }
}

/// Returns the digits of the first of these rows that has this keyword, or `None`.
fn first_digits(rows: &'static str, keyword: &str) -> Option<&'static str> {
    for row in rows.split('\n') {
        if let Some(digits) = digits_in(row, keyword) {
            return Some(digits);
        }
    }
    None
}

/// Returns the tag of the data element with this keyword (PS3.6 sections 6 to 9) as eight
/// hexadecimal digits, group first, or `None` if the standard does not have the keyword, or has it
/// for several tags.
pub fn element_digits(keyword: &str) -> Option<&'static str> {
    for rows in TABLES {
        if let Some(digits) = first_digits(rows, keyword) {
            return Some(digits);
        }
    }
    None
}
