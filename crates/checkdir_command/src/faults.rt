//! Prints the faults of a directory.
use dicomdir::DirFault;
use inspection::{OutputForm, TagText};
use std::io;
use std::io::Write;

/// Writes a fault of a directory as a line, or as the last members of an object: number, name,
/// offset in bytes from the start of the file, and for a fault of the data set (10 to 21) its tag.
pub fn write_dir_fault<O: Write>(fault: DirFault, form: OutputForm, out: &mut O) -> io::Result<()> {
    let DirFault {
        number,
        offset,
        tag,
    } = fault;
    let (name, tag) = (fault.name(), TagText(tag));
    let has_tag = 10 <= number && number <= 21;
    if form == OutputForm::Lines {
        write!(out, "fault {number} {name} at {offset}")?;
        return if has_tag {
            writeln!(out, " tag {tag}")
        } else {
            writeln!(out)
        };
    }
    write!(
        out,
        "\"result\":\"fault\",\"number\":{number},\"name\":\"{name}\",\"place\":{offset}"
    )?;
    if has_tag {
        write!(out, ",\"tag\":\"{tag}\"")?;
    }
    writeln!(out, "}}")
}
