//! Dates of the Gregorian calendar (PS3.5 table 6.2-1, DA).
ghost use Rattle.std.specs.Prelude.{◌≡◌};
ghost use Rattle.values.specs.Calendar as calendar;

/// Returns the value of two decimal digits.
pub(crate) fn two_digits(tens: u8, ones: u8) -> u32
    ensures { result ≡ calendar.two_digits tens ones }
{
    u32::from(tens.saturating_sub(b'0')) * 10 + u32::from(ones.saturating_sub(b'0'))
}

/// Returns whether these are two decimal digits with a value of at most `most`.
pub(crate) fn are_at_most(most: u32, tens: u8, ones: u8) -> bool
    ensures { result ≡ calendar.are_at_most most tens ones }
{
    tens.is_ascii_digit() && ones.is_ascii_digit() && two_digits(tens, ones) <= most
}

/// Returns whether a year has a 29th of February.
fn is_leap(year: u32) -> bool
    ensures { result ≡ calendar.is_leap year }
{
    year % 4 == 0 && (year % 100 != 0 || year % 400 == 0)
}

/// Returns the number of days of a month.
fn days_of(year: u32, month: u32) -> u32
    ensures { result ≡ calendar.days_of year month }
{
    if month == 2 {
        if is_leap(year) { 29 } else { 28 }
    } else if month == 4 || month == 6 || month == 9 || month == 11 {
        30
    } else {
        31
    }
}

/// Returns whether these are four digits.
pub(crate) fn is_year(a: u8, b: u8, c: u8, d: u8) -> bool
    ensures { result ≡ calendar.is_year a b c d }
{
    a.is_ascii_digit() && b.is_ascii_digit() && c.is_ascii_digit() && d.is_ascii_digit()
}

/// Returns whether these are two digits from 01 to 12.
pub(crate) fn is_month(tens: u8, ones: u8) -> bool
    ensures { result ≡ calendar.is_month tens ones }
{
    are_at_most(12, tens, ones) && two_digits(tens, ones) >= 1
}

/// Returns whether these two digits are a day of this month and year.
fn is_day(year: u32, month: u32, tens: u8, ones: u8) -> bool
    ensures { result ≡ calendar.is_day year month tens ones }
{
    are_at_most(days_of(year, month), tens, ones) && two_digits(tens, ones) >= 1
}

/// Returns whether these four digits, MMDD, are a month and a day of that month in this year.
fn is_day_of(year: u32, m: u8, n: u8, tens: u8, ones: u8) -> bool
    ensures { result ≡ calendar.is_day_of year m n tens ones }
{
    is_month(m, n) && is_day(year, two_digits(m, n), tens, ones)
}

/// Returns whether a text is a date that exists in the calendar, YYYYMMDD.
pub fn is_date(text: &[u8]) -> bool
    ensures { result ≡ calendar.is_date text.now }
{
    match text {
        [a, b, c, d, m, n, tens, ones] => {
            let year = two_digits(*a, *b) * 100 + two_digits(*c, *d);
            is_year(*a, *b, *c, *d) && is_day_of(year, *m, *n, *tens, *ones)
        }
        _ => false,
    }
}
