//! What an archive refuses for good.
ghost use Rattle.std.specs.Prelude.{◌≡◌};
ghost use Rattle.sending.specs.Sending as spelling;

use element::AeTitle;
use jiff::Timestamp;
use part10::Meta;
use std::fmt;

/// Why an archive refuses an instance for good.
#[derive(Clone, Copy, PartialEq, Eq)]
pub enum Refusal {
    /// The response to its C-STORE has this status.
    Status(u16),
    /// No presentation context is accepted for its SOP class in its transfer syntax.
    NoContext,
}

/// Returns whether a status says that the peer will not file the instance, however often it is sent:
/// A9xx or Cxxx (PS3.4 table B.2-1), or 01xx (PS3.7 annex C). Others may pass, as A7xx, out of
/// resources.
pub fn is_refused(status: u16) -> bool
    ensures { result ≡ spelling.is_refused status }
{
    matches!(status >> 8, 0xa9 | 0x01) || status >> 12 == 0xc
}

/// Returns what the status of a refusal means.
fn meaning_of(status: u16) -> &'static str {
    match status {
        0x0111 => "duplicate SOP instance",
        0x0117 => "invalid SOP instance",
        0x0122 => "SOP class not supported",
        0x0124 => "not authorized",
        0xa900..=0xa9ff => "data set does not match SOP class",
        0xc000..=0xcfff => "cannot understand",
        _ => "processing failure",
    }
}

impl fmt::Display for Refusal {
    fn fmt<W: fmt::Write>(&self, f: &mut fmt::Formatter<W>) -> fmt::Result {
        match *self {
            Refusal::Status(status) => {
                let meaning = meaning_of(status);
                write!(f, "{status:04X}, {meaning}")
            }
            Refusal::NoContext => f.write_str("none, no accepted presentation context"),
        }
    }
}

/// The text beside a file that an archive refuses for good: a line for each field.
#[derive(Clone, Copy)]
pub(crate) struct RefusalText<'a> {
    /// When it was refused, if the clock can be read.
    pub time: Option<Timestamp>,
    pub path: &'a str,
    pub called: AeTitle,
    pub address: &'a str,
    pub meta: &'a Meta,
    pub refusal: Refusal,
}

impl fmt::Display for RefusalText<'_> {
    fn fmt<W: fmt::Write>(&self, f: &mut fmt::Formatter<W>) -> fmt::Result {
        if let Some(time) = self.time {
            writeln!(f, "time: {time:.3}")?;
        }
        let class = str::from_utf8(self.meta.class.as_bytes()).unwrap_or("");
        let instance = str::from_utf8(self.meta.instance.as_bytes()).unwrap_or("");
        let syntax = self.meta.syntax.keyword();
        let title = str::from_utf8(self.called.trimmed()).unwrap_or("");
        writeln!(f, "archive: {title} at {}", self.address)?;
        writeln!(f, "file: {}", self.path)?;
        writeln!(f, "class: {class}")?;
        writeln!(f, "instance: {instance}")?;
        writeln!(f, "syntax: {syntax}")?;
        writeln!(f, "status: {}", self.refusal)
    }
}
