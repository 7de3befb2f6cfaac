//! Shows progress on a terminal.
use std::io::{IsTerminal, Write};

/// Shows the number of visited files on standard error, if only standard error is a terminal.
#[derive(Clone, Copy)]
pub struct Counter {
    is_shown: bool,
    files: u64,
}

impl Counter {
    /// Creates a counter that shows nothing.
    pub fn hidden() -> Counter {
        Counter {
            is_shown: false,
            files: 0,
        }
    }

    /// Creates a counter of zero, which is shown if standard error is a terminal and standard
    /// output is not.
    pub fn new(rt: &HostRuntime) -> Counter {
        Counter {
            is_shown: rt.stderr().is_terminal() && !rt.stdout().is_terminal(),
            files: 0,
        }
    }

    /// Counts a file, and shows the number of files before it.
    pub fn show<E: Write>(&mut self, err: &mut E) {
        let files = self.files;
        if self.is_shown && files > 0 {
            let _ = write!(err, "\rfiles {files}");
        }
        self.files = files.saturating_add(1);
    }

    /// Clears the line with the number.
    pub fn clear<E: Write>(&self, err: &mut E) {
        if self.is_shown {
            let _ = write!(err, "\r                          \r");
        }
    }
}
