//! Compares the SOP Instance UIDs of a file's header and data set.
use element::{Tag, unpadded};
use inspection::Printable;
use keyed_files::read_keys;
use std::io::{Read, Write};

/// The tag of SOP Instance UID.
const SOP_INSTANCE_UID: Tag = Tag(0x0008, 0x0018);

/// Reports a file whose data set has another SOP Instance UID than `instance`, that of its header
/// and record. The reader must be at the start of the file, and may yield only its beginning.
pub(crate) fn report_other_instance<I: Read, E: Write>(
    path: &str,
    input: &mut I,
    instance: &[u8],
    err: &mut E,
) {
    let Ok(keys) = read_keys(input, &[SOP_INSTANCE_UID]) else {
        return;
    };
    let Some(value) = keys.value(SOP_INSTANCE_UID) else {
        return;
    };
    let value = unpadded(value);
    if value != instance {
        let (path, value) = (Printable(path.as_bytes()), Printable(value));
        let instance = Printable(instance);
        let _ = writeln!(
            err,
            "dcmbox: {path}: its header names the instance {instance}, which its record has, and its data set {value}"
        );
    }
}
