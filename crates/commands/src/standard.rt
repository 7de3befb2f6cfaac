//! Opens closed standard descriptors.
use std::fs::{self, File};
use std::mem::forget;
use std::os::fd::AsRawFd;
use std::rt::Files;

/// The descriptor of standard error, the highest of the three standard ones.
const STANDARD_ERROR: i32 = 2;

/// Opens `/dev/null` on each standard descriptor that is closed. Otherwise a file or connection
/// opened later would get that descriptor, as the system assigns the lowest free one, and printed
/// lines would go into it. It is opened for reading only, so that writing to an output that was
/// closed still fails.
pub(crate) fn open_standard<R: Files<File = File>>(rt: &R) {
    for _ in 0..=STANDARD_ERROR {
        match fs::open(rt, "/dev/null") {
            Ok(file) if file.as_raw_fd() <= STANDARD_ERROR => forget(file),
            _ => return,
        }
    }
}
