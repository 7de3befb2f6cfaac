//! Date times (PS3.5 table 6.2-1, DT).
ghost use Rattle.std.specs.Prelude.{◌≡◌};
ghost use Rattle.values.specs.Moment as moment;

use crate::calendar::{are_at_most, is_date, is_month, is_year, two_digits};
use crate::clock::is_time;

/// Returns whether a byte is `+` or `-`.
pub(crate) fn is_sign(byte: u8) -> bool
    ensures { result ≡ moment.is_sign byte }
{
    byte == b'+' || byte == b'-'
}

/// Returns whether a date time has an offset from UTC: a sign five bytes before its end.
pub(crate) fn has_offset(text: &[u8]) -> bool
    ensures { result ≡ moment.has_offset text.now }
{
    text.len() >= 5 && is_sign(text[text.len() - 5])
}

/// Returns a date time without its offset from UTC, if it has one.
pub(crate) fn local_part(text: &[u8]) -> &[u8]
    ensures { result.now ≡ moment.local_part text.now }
{
    if has_offset(text) {
        &text[..text.len() - 5]
    } else {
        text
    }
}

/// Returns the offset from UTC of a date time, or an empty slice if it has none.
pub(crate) fn offset_part(text: &[u8]) -> &[u8]
    ensures { result.now ≡ moment.offset_part text.now }
{
    if has_offset(text) {
        &text[text.len() - 5..]
    } else {
        &[]
    }
}

/// Returns whether a text is an offset from UTC: a sign, hours and minutes, from -1200 to +1400,
/// and not -0000.
pub fn is_offset(text: &[u8]) -> bool
    ensures { result ≡ moment.is_offset text.now }
{
    match text {
        [sign, a, b, c, d] => {
            let minutes = two_digits(*a, *b) * 60 + two_digits(*c, *d);
            are_at_most(14, *a, *b)
                && are_at_most(59, *c, *d)
                && (*sign == b'+' && minutes <= 840
                    || *sign == b'-' && minutes >= 1 && minutes <= 720)
        }
        _ => false,
    }
}

/// Returns whether a text starts with a date that exists, YYYYMMDD, or is a year, YYYY, or a year
/// and month, YYYYMM.
fn begins_with_date(text: &[u8]) -> bool
    ensures { result ≡ moment.begins_with_date text.now }
{
    match text {
        [a, b, c, d] => is_year(*a, *b, *c, *d),
        [a, b, c, d, m, n] => is_year(*a, *b, *c, *d) && is_month(*m, *n),
        _ => text.len() >= 8 && is_date(&text[..8]),
    }
}

/// Returns whether a text has at most eight characters, or a time of day that exists after the
/// first eight.
fn ends_with_time(text: &[u8]) -> bool
    ensures { result ≡ moment.ends_with_time text.now }
{
    text.len() <= 8 || is_time(&text[8..])
}

/// Returns whether a date time (DT) starts with a date that exists: YYYY, YYYYMM or YYYYMMDD.
pub fn has_date(text: &[u8]) -> bool
    ensures { result ≡ moment.has_date text.now }
{
    begins_with_date(local_part(text))
}

/// Returns whether the time of day of a date time (DT) exists; true if it has none.
pub fn has_time(text: &[u8]) -> bool
    ensures { result ≡ moment.has_time text.now }
{
    ends_with_time(local_part(text))
}
