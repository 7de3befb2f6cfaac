//! A wrapper of a device, such as a socket, that records for contracts the bytes read from it and
//! the bytes written to it. See [`traced`](crate::traced) for why.
ghost use Rattle.std.specs.Prelude.{◌≡◌, ◌≢◌, [], ◌++◌, take, IfOk, IfErr, OnErr};
ghost use Rattle.std.specs.Io.{ReadsAtMost, WritesAtMost};
ghost use Rattle.std.specs.Io.KnownBytes.{ReadConsumes, WriteAppends};
ghost use Rattle.std.specs.IoError.{error_kind};

use crate::interrupted::{read_retrying, write_retrying};
use crate::trace::Trace;
use std::io;
use std::io::{ErrorKind, Read, Write};

/// A device with two traces: the bytes read from it and the bytes written to it. No method returns
/// a reference to the device, so no byte bypasses the traces.
#[derive(Drop)]
pub struct TracedStream<D> {
    device: D,
    read: Trace,
    written: Trace,
}

impl<D> TracedStream<D> {
    /// Wraps a device, with empty traces.
    pub fn new(device: D) -> TracedStream<D>
        ensures device { result.device ≡ device }
        ensures nothing_read { result.read.bytes ≡ [] }
        ensures nothing_written { result.written.bytes ≡ [] }
    {
        TracedStream {
            device,
            read: Trace::new(),
            written: Trace::new(),
        }
    }
}

impl<D: Drop> TracedStream<D> {
    /// Drops the device and returns its traces: first the bytes read, then the bytes written.
    pub fn into_traces(self) -> (Trace, Trace)
        ensures read { result.0 ≡ self.read }
        ensures written { result.1 ≡ self.written }
    {
        (self.read, self.written)
    }
}

impl<W: Write> TracedStream<W> {
    /// Writes some of `bytes`, appends those to the trace of written bytes and returns their
    /// number. Repeats the call while a signal interrupts it. Fails as the device does; then the
    /// traces are unchanged.
    pub fn write(&mut self, bytes: &[u8]) -> io::Result<usize>
        ensures bound { WritesAtMost result bytes.now }
        ensures written { WriteAppends (W.contents self.old.device) (W.contents self.new.device) result bytes.now }
        ensures traced { IfOk result (λ n. self.new.written.bytes ≡ self.old.written.bytes ++ take n bytes.now) }
        ensures failed { OnErr result (self.new.written ≡ self.old.written) }
        ensures same_read { self.new.read ≡ self.old.read }
        ensures retried { IfErr result (λ error. error_kind error ≢ ErrorKind.Interrupted) }
    {
        let len = write_retrying(&mut self.device, bytes)?;
        self.written.append(&bytes[..len]);
        Ok(len)
    }
}

impl<R: Read> TracedStream<R> {
    /// Reads bytes into the front of `room`, appends them to the trace of read bytes and returns
    /// their number, 0 at the end of the input. Repeats the call while a signal interrupts it.
    /// Fails as the device does; then the traces are unchanged.
    pub fn read(&mut self, room: &mut [u8]) -> io::Result<usize>
        ensures bound { ReadsAtMost result room.new }
        ensures consumed { ReadConsumes (R.remaining self.old.device) (R.remaining self.new.device) result room.new }
        ensures traced { IfOk result (λ n. self.new.read.bytes ≡ self.old.read.bytes ++ take n room.new) }
        ensures failed { OnErr result (self.new.read ≡ self.old.read) }
        ensures same_written { self.new.written ≡ self.old.written }
        ensures retried { IfErr result (λ error. error_kind error ≢ ErrorKind.Interrupted) }
    {
        let len = read_retrying(&mut self.device, room)?;
        self.read.append(&room[..len]);
        Ok(len)
    }
}
