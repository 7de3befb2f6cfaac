//! The text of each error of the program: what failed, and what to do.
use failures::{Failure, ProgramError, WordsError};
use std::alloc::{AllocError, Global};
use std::io;
use std::io::ErrorKind;
use std::test::Fail;

/// A test case: an error and its text.
#[derive(Drop)]
struct Row(ProgramError, &'static str);

/// Returns a device's error, which prints as `timed out`.
fn failed() -> io::Error {
    io::Error::from(ErrorKind::TimedOut)
}

/// Returns whether each error prints its text.
fn are_printed(alloc: Global, rows: &[Row]) -> Result<bool, Fail> {
    for Row(error, text) in rows {
        let printed = format!(in alloc; "{error}")?;
        if printed.as_str() != *text {
            return Err(Fail::from(printed));
        }
    }
    Ok(true)
}

#[test]
fn failed_devices_have_their_texts(rt: HostRuntime) -> Result<(), Fail> {
    let rows = [
        Row(
            ProgramError::System(Failure::Arguments, failed()),
            "the command line can't be read: timed out; start the program again",
        ),
        Row(
            ProgramError::System(Failure::Open, failed()),
            "the file can't be opened: timed out; check its name, and that you may read it",
        ),
        Row(
            ProgramError::System(Failure::Read, failed()),
            "the file can't be read: timed out; give a file, and copy it first if its disk fails",
        ),
        Row(
            ProgramError::System(Failure::IsFolder, failed()),
            "the file can't be read: timed out; give a file",
        ),
        Row(
            ProgramError::System(Failure::Name, failed()),
            "the file can't be opened: timed out; its name is not UTF-8: rename it",
        ),
        Row(
            ProgramError::System(Failure::ReadFolder, failed()),
            "the folder can't be opened: timed out; check its name, that it is a folder, and that you may read it",
        ),
        Row(
            ProgramError::System(Failure::Folder, failed()),
            "the folder can't be opened: timed out; check that it is a folder, and that you may write into it",
        ),
        Row(
            ProgramError::System(Failure::MissingFolder, failed()),
            "the folder can't be opened: timed out; create it, or check its name",
        ),
        Row(
            ProgramError::System(Failure::BusyFolder, failed()),
            "the folder can't be opened: timed out; end the other program that writes into it",
        ),
        Row(
            ProgramError::System(Failure::UnwrittenFolder, failed()),
            "the folder can't be written into: timed out; check that you may, and that its disk is not read-only or full",
        ),
        Row(
            ProgramError::System(Failure::Numbers, failed()),
            "the file of numbers can't be read or made: timed out; check that you may write it; once it is damaged, put the greatest number that was given into it, as I0000100 S0000007",
        ),
        Row(
            ProgramError::System(Failure::UnreadDirectory, failed()),
            "the folder's DICOMDIR can't be looked at: timed out; check that you may read it, or write over it with --replace",
        ),
        Row(
            ProgramError::System(Failure::Random, failed()),
            "no UID can be made: timed out; give one with --uid",
        ),
        Row(
            ProgramError::System(Failure::NoDirectory, failed()),
            "the folder's DICOMDIR can't be read: timed out; run index without --keep",
        ),
        Row(
            ProgramError::System(Failure::Directory, failed()),
            "the directory can't be written: timed out; check that the disk has room, and that you may write into the folder",
        ),
        Row(
            ProgramError::System(Failure::Write, failed()),
            "the output can't be written: timed out; check that its disk has room",
        ),
        Row(
            ProgramError::System(Failure::Serve, failed()),
            "associations can't be served any more: timed out; start the program again",
        ),
        Row(
            ProgramError::System(Failure::Listen, failed()),
            "can't be listened on: timed out; choose another port, or end what uses it",
        ),
        Row(
            ProgramError::System(Failure::KeptPort, failed()),
            "can't be listened on: timed out; choose a port from 1024 on: lower ones are for programs with CAP_NET_BIND_SERVICE",
        ),
        Row(
            ProgramError::System(Failure::Address, failed()),
            "can't be listened on: timed out; --bind takes an IP address of this machine, or 0.0.0.0 for all of them, and no name",
        ),
    ];
    assert!(rt; are_printed(rt.alloc(), &rows)?);
    Ok(())
}

/// The system's error for a folder, an address or a port determines the advice. Running out of
/// memory while listing a folder is no fault of the folder.
#[test]
fn errors_are_about_what_is_wrong(rt: HostRuntime) -> Result<(), Fail> {
    for kind in [
        ErrorKind::NotFound,
        ErrorKind::WouldBlock,
        ErrorKind::PermissionDenied,
        ErrorKind::OutOfMemory,
    ] {
        let is_reported = match ProgramError::of_folder(io::Error::from(kind)) {
            ProgramError::System(Failure::MissingFolder, error) => error.kind()
                == ErrorKind::NotFound,
            ProgramError::System(Failure::BusyFolder, error) => error.kind()
                == ErrorKind::WouldBlock,
            ProgramError::System(Failure::Folder, error) => error.kind()
                == ErrorKind::PermissionDenied,
            ProgramError::Memory(_) => kind == ErrorKind::OutOfMemory,
            _ => false,
        };
        assert!(rt; is_reported);
    }
    for kind in [ErrorKind::AddrNotAvailable, ErrorKind::Unsupported] {
        let reported = ProgramError::of_listening(io::Error::from(kind));
        assert!(rt; matches!(reported, ProgramError::System(Failure::Address, _)));
    }
    let reported = ProgramError::of_listening(io::Error::from(ErrorKind::PermissionDenied));
    assert!(rt; matches!(reported, ProgramError::System(Failure::KeptPort, _)));
    for kind in [ErrorKind::AddrInUse, ErrorKind::TimedOut] {
        let reported = ProgramError::of_listening(io::Error::from(kind));
        assert!(rt; matches!(reported, ProgramError::System(Failure::Listen, _)));
    }
    Ok(())
}

/// A full disk has its text; an output closed by its reader has none.
#[test]
fn only_a_closed_output_has_no_text(rt: HostRuntime) {
    for kind in [
        ErrorKind::BrokenPipe,
        ErrorKind::StorageFull,
        ErrorKind::WriteZero,
    ] {
        let reported = ProgramError::of_output(io::Error::from(kind));
        assert!(rt; reported.is_of_closed_output() == (kind == ErrorKind::BrokenPipe));
    }
    let reported = ProgramError::of(Failure::Read, io::Error::from(ErrorKind::BrokenPipe));
    assert!(rt; !reported.is_of_closed_output());
    let reported = ProgramError::of_output(io::Error::from_raw_os_error(9));
    assert!(rt; reported.is_of_closed_output());
}

/// Running out of memory for an output is no fault of the output.
#[test]
fn an_output_without_memory_is_out_of_memory(rt: HostRuntime) {
    let reported = ProgramError::of_output(io::Error::from(ErrorKind::OutOfMemory));
    assert!(rt; matches!(reported, ProgramError::Memory(_)));
    let reported = ProgramError::of_output(io::Error::from(ErrorKind::StorageFull));
    assert!(rt; matches!(reported, ProgramError::System(Failure::Write, _)));
}

#[test]
fn other_errors_have_their_texts(rt: HostRuntime) -> Result<(), Fail> {
    let alloc = rt.alloc();
    let help = String::from_str(alloc, "Usage: dcmbox\n")?;
    let refusal = String::from_str(alloc, "error: no folder\n")?;
    let rows = [
        Row(
            ProgramError::Words(WordsError::Shown(help)),
            "Usage: dcmbox\n",
        ),
        Row(
            ProgramError::Words(WordsError::Refused(refusal)),
            "error: no folder\n",
        ),
        Row(
            ProgramError::Words(WordsError::Memory(AllocError)),
            "out of memory",
        ),
        Row(
            ProgramError::OtherDirectory,
            "the folder's DICOMDIR was written by another program, and stays as it is; take the images that it names with --keep, or write over it with --replace",
        ),
        Row(
            ProgramError::Wire,
            "out of memory for what is sent; replay a shorter recording",
        ),
        Row(
            ProgramError::Memory(AllocError),
            "out of memory; give the program more",
        ),
    ];
    assert!(rt; are_printed(alloc, &rows)?);
    Ok(())
}
