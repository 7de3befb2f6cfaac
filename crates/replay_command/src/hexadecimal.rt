//! Prints bytes in hexadecimal.
use std::io;
use std::io::Write;

/// The number of bytes on one line.
const LINE: usize = 32;

/// Writes the bytes in lower-case hexadecimal, 32 on each line, the last line with the rest. Writes
/// nothing for no bytes.
pub fn write_lines<O: Write>(bytes: &[u8], out: &mut O) -> io::Result<()> {
    for line in bytes.chunks(LINE) {
        for byte in line {
            write!(out, "{byte:02x}")?;
        }
        writeln!(out)?;
    }
    Ok(())
}
