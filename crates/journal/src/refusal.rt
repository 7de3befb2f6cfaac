//! Why a store was refused for lack of resources.
use crate::event::{Value, shown};
use service::DEPTH;

/// The minimum size in bytes of the header of an item or a sequence. A data set that is too deep
/// has one for each level, and one more.
const LEVEL: u64 = 8;

/// The maximum size in bytes that the header of an element announces, with the header.
const MOST_ANNOUNCED: u64 = 0xffff_ffff + 12;

/// Returns why the reply to a store was A700 (PS3.4 annex B.2.3) if no system call failed: its data
/// set, of which `bytes` were received, has too many bytes or levels.
///
/// A data set also has too many bytes if the header of an element announces them, even if they are
/// never received. Then the log may not know which of the two it was.
pub(crate) fn resources_reason<'a>(bytes: u64, max_data: u64) -> Value<'a> {
    let is_shallow = bytes < LEVEL * (DEPTH as u64 + 1);
    if bytes > max_data || is_shallow {
        shown("longer than --max-data")
    } else if bytes.saturating_add(MOST_ANNOUNCED) <= max_data {
        shown(format_args!("deeper than {DEPTH} levels"))
    } else {
        shown(format_args!("longer than --max-data, or deeper than {DEPTH} levels"))
    }
}
