//! Removes the padding of values (PS3.5 section 6.2).
ghost use Rattle.std.specs.Prelude.{◌≡◌};
ghost use Rattle.element.specs.Padding as spelling;
ghost use Rattle.element.specs.Title.{title_text};

fn is_padding(byte: u8) -> bool
    ensures { result ≡ spelling.is_padding byte }
{
    byte == b' ' || byte == 0
}

/// Returns the bytes without trailing spaces and zero bytes (PS3.5 section 6.2).
#[tactic(auto, using(crate::proofs::Trimming::trailing_dropped, crate::proofs::Trimming::trailing_kept))]
pub fn unpadded(bytes: &[u8]) -> &[u8]
    ensures { result.now ≡ spelling.without_trailing spelling.is_padding bytes.now }
{
    let mut end = bytes.len();
    while end > 0 && is_padding(bytes[end - 1]) {
        end -= 1;
    }
    &bytes[..end]
}

/// Returns the bytes without trailing spaces. Zero bytes are kept: text is padded by spaces alone
/// (PS3.5 section 6.2).
#[tactic(auto, using(crate::proofs::Trimming::trailing_dropped, crate::proofs::Trimming::trailing_kept))]
pub fn without_trailing_spaces(bytes: &[u8]) -> &[u8]
    ensures { result.now ≡ spelling.without_trailing spelling.is_space bytes.now }
{
    let mut end = bytes.len();
    while end > 0 && bytes[end - 1] == b' ' {
        end -= 1;
    }
    &bytes[..end]
}

#[tactic(auto, using(crate::proofs::Trimming::leading_dropped, crate::proofs::Trimming::leading_kept))]
fn without_leading_spaces(bytes: &[u8]) -> &[u8]
    ensures { result.now ≡ spelling.without_leading spelling.is_space bytes.now }
{
    let mut start = 0;
    while start < bytes.len() && bytes[start] == b' ' {
        start += 1;
    }
    &bytes[start..]
}

/// Returns the bytes without leading and trailing spaces.
pub(crate) fn trimmed(bytes: &[u8]) -> &[u8]
    ensures { result.now ≡ title_text bytes.now }
{
    without_trailing_spaces(without_leading_spaces(bytes))
}
