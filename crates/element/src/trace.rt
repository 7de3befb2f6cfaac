//! Ghost lists of bytes, for use in contracts only; they have no size at run time.
ghost use Rattle.std.specs.Prelude.{◌≡◌, [], ◌++◌};

use crate::history::History;

/// An unbounded list of the bytes that were read from a device or written to it. It is a ghost
/// value: contracts can name it, the program cannot read it. Only [`Traced`](crate::traced::Traced)
/// and [`TracedStream`](crate::traced_stream::TracedStream) create traces and append to them.
#[derive(Drop)]
pub struct Trace {
    bytes: History<u8>,
}

impl Trace {
    /// Creates an empty trace.
    pub(crate) fn new() -> Trace
        ensures { result.bytes ≡ [] }
    {
        Trace {
            bytes: History::new(),
        }
    }

    /// Appends all of `bytes`.
    pub(crate) fn append(&mut self, bytes: &[u8])
        ensures { self.new.bytes ≡ self.old.bytes ++ bytes.now }
    {
        self.bytes.append(bytes);
    }
}
