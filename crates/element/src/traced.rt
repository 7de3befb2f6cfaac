//! A wrapper of a writer that records, for contracts, the bytes that were written.
//!
//! Files and sockets of std have no contract that names their bytes; contracts name the trace
//! instead, so it must be right. Each method is generic over the writer and ensures two things of
//! the same bytes: the writer accepted them, as far as the writer's own contract shows, and they
//! were appended to the trace. A body that traces other bytes than it writes is not provable. No
//! method returns a reference to the writer, so no write bypasses the trace.
ghost use Rattle.std.specs.Prelude.{◌≡◌, [], ◌++◌, OnOk, OnErr};
ghost use Rattle.std.specs.Io.KnownBytes.{Appends};

use crate::trace::Trace;
use std::fs::OpenFile;
use std::io;
use std::io::Write;

/// A writer with a trace of the bytes written by its successful calls.
#[derive(Drop)]
pub struct Traced<D> {
    device: D,
    trace: Trace,
}

impl<D> Traced<D> {
    /// Wraps a writer, with an empty trace.
    pub fn new(device: D) -> Traced<D>
        ensures device { result.device ≡ device }
        ensures nothing { result.trace.bytes ≡ [] }
    {
        Traced {
            device,
            trace: Trace::new(),
        }
    }

    /// Returns the trace, for use in contracts.
    pub fn trace(&self) -> &Trace
        ensures { result.now ≡ self.now.trace }
    {
        &self.trace
    }
}

impl<W: Write> Traced<W> {
    /// Writes all of `bytes` and appends them to the trace. Fails as the writer does; then the
    /// trace is unchanged, though some bytes may have been written.
    pub fn write_all(&mut self, bytes: &[u8]) -> io::Result<()>
        ensures written { OnOk result (Appends (W.contents self.old.device) (W.contents self.new.device) bytes.now) }
        ensures traced { OnOk result (self.new.trace.bytes ≡ self.old.trace.bytes ++ bytes.now) }
        ensures failed { OnErr result (self.new.trace ≡ self.old.trace) }
    {
        self.device.write_all(bytes)?;
        self.trace.append(bytes);
        Ok(())
    }
}

impl<F: OpenFile> Traced<F> {
    /// Flushes the file's data and metadata to the disk. Fails as `File::sync_all` does.
    pub fn sync_all(&self) -> io::Result<()> {
        self.device.sync_all()
    }
}
