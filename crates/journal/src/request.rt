//! The AE titles of an A-ASSOCIATE-RQ.
use crate::text::Text;
use element::AeTitle;
use pdu::read_titles;
use service::Consumed;

/// An AE title, as the log shows it.
pub(crate) type Title = Text<16>;

/// The size in bytes of the header of a PDU.
const HEAD: usize = 6;

/// Returns the body of the request that is complete with this input, the first PDU received.
pub(crate) fn body_of<'a>(consumed: &Consumed<'a>) -> &'a [u8] {
    match consumed.whole.get(HEAD..) {
        Some(body) => body,
        None => &[],
    }
}

/// Returns a title without leading and trailing spaces. Quotation marks enclose it in a line, so
/// each of its own is shown as `?`.
fn shown_title(title: AeTitle) -> Title {
    let mut text = Title::new();
    for byte in title.trimmed() {
        let shown = if *byte == b'"' { b'?' } else { *byte };
        text.add(&[shown]);
    }
    text
}

/// Returns the called and the calling AE title of a request, if this beginning of its body has
/// them.
pub(crate) fn shown_titles(body: &[u8]) -> Option<(Title, Title)> {
    let titles = read_titles(body)?;
    Some((shown_title(titles.called), shown_title(titles.calling)))
}
