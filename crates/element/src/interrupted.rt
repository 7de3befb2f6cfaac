//! Reads and writes that are repeated while a signal interrupts them.
//!
//! Their contracts are those of std for a single call; in addition no error is `Interrupted`.
ghost use Rattle.std.specs.Prelude.{◌≡◌, ◌≢◌, ◌<◌, ◌≤◌, ◌↔◌, length, take, IsTrue, IfOk, IfErr, OnErr, IsErrAnd};
ghost use Rattle.std.specs.Io.KnownBytes.{Appends, Consumes, IsAtEnd, Keeps};
ghost use Rattle.std.specs.IoError.{error_kind};

use std::io;
use std::io::{ErrorKind, Read, Write};

/// Returns whether the call failed with `ErrorKind::Interrupted`.
fn is_interrupted(call: &io::Result<usize>) -> bool
    ensures { IsTrue result ↔ IsErrAnd call.now (λ error. error_kind error ≡ ErrorKind.Interrupted) }
{
    matches!(call, Err(error) if error.kind() == ErrorKind::Interrupted)
}

/// Calls `read` once to fill the front of the buffer `room`, and repeats the call while a signal
/// interrupts it. Returns the number of bytes read, which is 0 only at the end of the input or for
/// an empty buffer.
///
/// Fails as the reader does, and with `Other` after 2^64 - 1 interruptions in a row, the bound of
/// the loop. A call that fails consumes no byte.
pub fn read_retrying<R: Read>(reader: &mut R, room: &mut [u8]) -> io::Result<usize>
    ensures size { length room.new ≡ length room.old }
    ensures within { IfOk result (λ n. n ≤ length room.new) }
    ensures consumes { IfOk result (λ n. Consumes (R.remaining reader.old) (R.remaining reader.new) (take n room.new)) }
    ensures end { IfOk result (λ n. n ≡ 0 → 0 < length room.new → IsAtEnd (R.remaining reader.new)) }
    ensures keeps { OnErr result (Keeps (R.remaining reader.old) (R.remaining reader.new)) }
    ensures retried { IfErr result (λ error. error_kind error ≢ ErrorKind.Interrupted) }
{
    for _ in 0..u64::MAX {
        let read = reader.read(room);
        if !is_interrupted(&read) {
            return read;
        }
    }
    Err(io::Error::from(ErrorKind::Other))
}

/// Calls `write` once, and repeats the call while a signal interrupts it. Returns the number of
/// bytes written, which may be fewer than all.
///
/// Fails as the writer does, and with `Other` after 2^64 - 1 interruptions in a row, the bound of
/// the loop. A call that fails writes no byte.
pub fn write_retrying<W: Write>(writer: &mut W, bytes: &[u8]) -> io::Result<usize>
    ensures within { IfOk result (λ n. n ≤ length bytes.now) }
    ensures appends { IfOk result (λ n. Appends (W.contents writer.old) (W.contents writer.new) (take n bytes.now)) }
    ensures keeps { OnErr result (Keeps (W.contents writer.old) (W.contents writer.new)) }
    ensures retried { IfErr result (λ error. error_kind error ≢ ErrorKind.Interrupted) }
{
    for _ in 0..u64::MAX {
        let written = writer.write(bytes);
        if !is_interrupted(&written) {
            return written;
        }
    }
    Err(io::Error::from(ErrorKind::Other))
}
