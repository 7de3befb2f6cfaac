//! Reports why files are left out of a directory.
use crate::contents::{Contents, Reason, Skipped};
use dicomdir::DirFault;
use element::Tag;
use inspection::known_keyword;
use part10::MetaFault;
use std::alloc::Allocator;
use std::fmt;
use std::io::{self, Write};

/// Prints the reason why files are left out, with the name of the fault or the keyword.
#[derive(Clone, Copy)]
struct ReasonText<'a>(&'a Reason);

/// Returns the name of a file's fault.
fn fault_name(number: u8) -> &'static str {
    if number == MetaFault::ReadFailed.number() {
        return MetaFault::ReadFailed.name();
    }
    let fault = DirFault {
        number,
        offset: 0,
        tag: Tag(0, 0),
    };
    fault.name()
}

impl fmt::Display for ReasonText<'_> {
    fn fmt<W: fmt::Write>(&self, f: &mut fmt::Formatter<W>) -> fmt::Result {
        let (name, reason) = (self.0.name(), self.0);
        write!(f, "{name} {reason}")?;
        let explanation = match reason {
            Reason::Fault(number) => fault_name(*number),
            Reason::Compressed => MetaFault::OtherSyntax.name(),
            Reason::Missing(tag) => known_keyword(*tag).unwrap_or("?"),
            Reason::Class(_) => return Ok(()),
        };
        write!(f, " {explanation}")
    }
}

/// Returns how many files are left out for this reason.
fn count_of(skipped: &[Skipped], reason: &Reason) -> usize {
    skipped.iter().filter(|file| file.reason == *reason).count()
}

/// Returns what accepts the files that are left out for this reason, if an option does.
fn hint_for(reason: &Reason) -> &'static str {
    match reason {
        Reason::Compressed => " (taken with --all-syntaxes)",
        _ => "",
    }
}

/// Writes each reason once, with its number of files.
fn write_reasons<E: Write>(skipped: &[Skipped], err: &mut E) -> io::Result<()> {
    let mut comma = "";
    for (index, file) in skipped.iter().enumerate() {
        let before = skipped.get(..index).unwrap_or(&[]);
        if count_of(before, &file.reason) == 0 {
            let (count, reason) = (count_of(skipped, &file.reason), ReasonText(&file.reason));
            let hint = hint_for(&file.reason);
            write!(err, "{comma}{reason} {count}{hint}")?;
            comma = ", ";
        }
    }
    Ok(())
}

/// Writes a line with the reasons and their numbers of files.
fn write_omitted<A: Allocator, E: Write>(
    contents: &Contents<A>,
    duplicates: usize,
    err: &mut E,
) -> io::Result<()> {
    write!(err, "left out: ")?;
    write_reasons(contents.skipped.as_slice(), err)?;
    let mut comma = if contents.skipped.is_empty() {
        ""
    } else {
        ", "
    };
    for (count, text) in [
        (duplicates, "doubles"),
        (contents.omitted, "records of other types"),
        (contents.others, "other names"),
    ] {
        if count > 0 {
            write!(err, "{comma}{text} {count}")?;
            comma = ", ";
        }
    }
    writeln!(err)
}

/// Reports why files are left out, if any are. Ignores errors of writing.
pub(crate) fn report_reasons<A: Allocator, E: Write>(
    contents: &Contents<A>,
    duplicates: usize,
    err: &mut E,
) {
    if contents.count(duplicates) > 0 {
        let _ = write_omitted(contents, duplicates, err);
    }
}
