//! Decides what is logged about a file that cannot be written.
ghost use Rattle.std.specs.Prelude.{◌≡◌, ◌≢◌, None, true, false};

use std::io::ErrorKind;

/// Why the last attempt to write the file failed, or `None` if it succeeded.
#[derive(Clone, Copy)]
pub struct Complaint {
    pub failure: Option<ErrorKind>,
}

impl Complaint {
    /// Returns the state of a file that has not failed.
    pub fn new() -> Complaint
        ensures { result.failure ≡ None }
    {
        Complaint { failure: None }
    }

    /// Records an attempt: why it failed, or `None` if it succeeded. Returns whether that is to be
    /// logged: a failure is logged once, and again only for another reason or after a success; a
    /// success is logged after a failure.
    pub fn note(&mut self, failure: Option<ErrorKind>) -> bool
        ensures noted { self.new.failure ≡ failure }
        ensures known { self.old.failure ≡ failure → result ≡ false }
        ensures news { self.old.failure ≢ failure → result ≡ true }
    {
        let is_news = self.failure != failure;
        self.failure = failure;
        is_news
    }
}
