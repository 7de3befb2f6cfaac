//! Writes all bytes to a writer.
ghost use Rattle.std.specs.Prelude.{◌≤◌, IfOk, OnOk, OnErr, length, take};
ghost use Rattle.std.specs.Io.KnownBytes.{Appends, Keeps};
ghost use Rattle.dicomdir_writing.specs.Built.{AppendsFront};

use element::interrupted::write_retrying;
use std::io;
use std::io::{ErrorKind, Write};

/// Writes all of the bytes. Fails as the writer does, or with `WriteZero` if the writer accepts no
/// byte; some of the first bytes may have been written then. A write that a signal interrupts is
/// repeated.
pub(crate) fn write_all<W: Write>(writer: &mut W, bytes: &[u8]) -> io::Result<()>
    ensures all { OnOk result (Appends (W.contents writer.old) (W.contents writer.new) bytes.now) }
    ensures front { OnErr result (AppendsFront (W.contents writer.old) (W.contents writer.new) bytes.now) }
{
    let mut at = 0;
    while at < bytes.len() {
        let n = write_retrying(writer, &bytes[at..])?;
        if n == 0 {
            return Err(io::Error::from(ErrorKind::WriteZero));
        }
        at += n;
    }
    Ok(())
}
