//! Numbers in decimal text (PS3.5 table 6.2-1, IS and DS).
ghost use Rattle.std.specs.Prelude.{◌≡◌};
ghost use Rattle.std.specs.List.{list_any, fold};
ghost use Rattle.values.specs.Numbers as numbers;

use crate::moment::is_sign;

/// The state of reading a number character by character: what the last characters were.
#[derive(Clone, Copy)]
enum Spelled {
    /// Leading spaces, or nothing.
    Nothing,
    Sign,
    /// Digits, and no decimal point.
    Whole,
    /// A decimal point without a digit before it.
    Point,
    /// A decimal point, and digits before or after it.
    Fraction,
    /// `E` or `e` after a number.
    Exponent,
    ExponentSign,
    /// Digits of an exponent.
    Power,
    /// Text that is not a number, whatever follows.
    Broken,
}

fn after_digit(spelled: Spelled) -> Spelled
    ensures { result ≡ numbers.after_digit spelled }
{
    match spelled {
        Spelled::Nothing | Spelled::Sign | Spelled::Whole => Spelled::Whole,
        Spelled::Point | Spelled::Fraction => Spelled::Fraction,
        Spelled::Exponent | Spelled::ExponentSign | Spelled::Power => Spelled::Power,
        Spelled::Broken => Spelled::Broken,
    }
}

fn after_sign(spelled: Spelled) -> Spelled
    ensures { result ≡ numbers.after_sign spelled }
{
    match spelled {
        Spelled::Nothing => Spelled::Sign,
        Spelled::Exponent => Spelled::ExponentSign,
        _ => Spelled::Broken,
    }
}

fn after_point(spelled: Spelled) -> Spelled
    ensures { result ≡ numbers.after_point spelled }
{
    match spelled {
        Spelled::Nothing | Spelled::Sign => Spelled::Point,
        Spelled::Whole => Spelled::Fraction,
        _ => Spelled::Broken,
    }
}

fn after_exponent(spelled: Spelled) -> Spelled
    ensures { result ≡ numbers.after_exponent spelled }
{
    match spelled {
        Spelled::Whole | Spelled::Fraction => Spelled::Exponent,
        _ => Spelled::Broken,
    }
}

fn after_space(spelled: Spelled) -> Spelled
    ensures { result ≡ numbers.after_space spelled }
{
    match spelled {
        Spelled::Nothing => Spelled::Nothing,
        _ => Spelled::Broken,
    }
}

/// Returns the state after one more character.
fn after(spelled: Spelled, byte: u8) -> Spelled
    ensures { result ≡ numbers.after spelled byte }
{
    if byte.is_ascii_digit() {
        after_digit(spelled)
    } else if is_sign(byte) {
        after_sign(spelled)
    } else if byte == b'.' {
        after_point(spelled)
    } else if byte == b'E' || byte == b'e' {
        after_exponent(spelled)
    } else if byte == b' ' {
        after_space(spelled)
    } else {
        Spelled::Broken
    }
}

fn spelled_by(text: &[u8]) -> Spelled
    ensures { result ≡ fold numbers.after numbers.Nothing text.now }
{
    text.iter()
        .fold(Spelled::Nothing, |spelled, byte| after(spelled, *byte))
}

/// Returns whether a text is an integer: digits with an optional sign, after any spaces.
pub fn is_integer(text: &[u8]) -> bool
    ensures { result ≡ numbers.is_integer text.now }
{
    match spelled_by(text) {
        Spelled::Whole => true,
        _ => false,
    }
}

/// Returns whether a text is a decimal number: digits with an optional sign, decimal point and
/// exponent, after any spaces.
pub fn is_decimal(text: &[u8]) -> bool
    ensures { result ≡ numbers.is_decimal text.now }
{
    match spelled_by(text) {
        Spelled::Whole | Spelled::Fraction | Spelled::Power => true,
        _ => false,
    }
}

/// Returns a number with one more decimal digit, at most 2^32 - 1. Any other character leaves the
/// number unchanged.
fn with_digit(number: u32, byte: u8) -> u32
    ensures { result ≡ numbers.with_digit number byte }
{
    if !byte.is_ascii_digit() {
        return number;
    }
    let more = u64::from(number) * 10 + u64::from(byte - b'0');
    if more <= 4_294_967_295 {
        more as u32
    } else {
        4_294_967_295
    }
}

/// Returns the absolute value of a decimal integer, at most 2^32 - 1.
fn magnitude(text: &[u8]) -> u32
    ensures { result ≡ fold numbers.with_digit 0 text.now }
{
    text.iter()
        .fold(0, |number, byte| with_digit(number, *byte))
}

fn is_negative(text: &[u8]) -> bool
    ensures { result ≡ list_any numbers.is_minus text.now }
{
    text.iter().any(|byte| *byte == b'-')
}

/// Returns whether a decimal integer is from -2^31 to 2^31 - 1.
pub fn fits_32_bits(text: &[u8]) -> bool
    ensures { result ≡ numbers.fits_32_bits text.now }
{
    let most = if is_negative(text) {
        2_147_483_648
    } else {
        2_147_483_647
    };
    magnitude(text) <= most
}
