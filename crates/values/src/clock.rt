//! Times of day (PS3.5 table 6.2-1, TM).
ghost use Rattle.std.specs.Prelude.{◌≡◌};
ghost use Rattle.std.specs.List.{list_all};
ghost use Rattle.element.specs.Values.{is_digit};
ghost use Rattle.values.specs.Clock as clock;

use crate::calendar::are_at_most;

/// Returns whether all bytes are decimal digits.
pub(crate) fn are_digits(text: &[u8]) -> bool
    ensures { result ≡ list_all is_digit text.now }
{
    text.iter().all(|byte| byte.is_ascii_digit())
}

/// Returns whether a text is empty, or a decimal point and one to six digits.
fn is_fraction(text: &[u8]) -> bool
    ensures { result ≡ clock.is_fraction text.now }
{
    match text {
        [] => true,
        [point, digits @ ..] => *point == b'.'
            && !digits.is_empty()
            && digits.len() <= 6
            && are_digits(digits),
    }
}

/// Returns whether a text is a time of day that exists: HH, HHMM, or HHMMSS with or without a
/// fraction. Seconds go up to 60, for a leap second.
pub fn is_time(text: &[u8]) -> bool
    ensures { result ≡ clock.is_time text.now }
{
    match text {
        [a, b] => are_at_most(23, *a, *b),
        [a, b, c, d] => are_at_most(23, *a, *b) && are_at_most(59, *c, *d),
        [a, b, c, d, e, f, fraction @ ..] => are_at_most(23, *a, *b)
            && are_at_most(59, *c, *d)
            && are_at_most(60, *e, *f)
            && is_fraction(fraction),
        _ => false,
    }
}
