//! The first bytes of a file that are kept, and outputs of a check that are full.
use dictionary::Transfer;
use element::{AeTitle, Uid};
use inspection::{CheckOptions, FileFront, InspectionError, OutputForm, Syntaxes, check_with};
use part10::{Meta, meta_bytes};
use std::alloc::Global;
use std::io::{self, ErrorKind, Read, Write};
use std::test::Fail;

/// A name of four groups in ISO 8859-1, a date that does not exist, and an element without a
/// keyword that has an invalid character.
const BROKEN: &[u8] = b"\x08\0\x05\0CS\x0a\0ISO_IR 100\x08\0\x20\0DA\x08\x0020230229\
\x09\0\x01\x10CS\x02\0ab\x10\0\x10\0PN\x08\0\xc9=B=C=\xe9 ";

/// Returns a file of a CT image `1.2.3` with this data set in Explicit VR Little Endian.
fn file(alloc: Global, data: &[u8]) -> Result<Vec<u8>, Fail> {
    let meta = Meta {
        class: Uid::read(b"1.2.840.10008.5.1.4.1.1.2").ok_or("no class")?,
        instance: Uid::read(b"1.2.3").ok_or("no instance")?,
        syntax: Transfer::Explicit,
        calling: AeTitle(*b"SCANNER1        "),
    };
    let mut file = Vec::from_slice(alloc, meta_bytes(&meta).as_slice())?;
    file.extend_from_slice(data)?;
    Ok(file)
}

/// Only the first bytes of a file are kept.
#[test]
fn kept_fronts(rt: HostRuntime) -> Result<(), Fail> {
    let bytes = [7; 5000];
    let mut input = bytes.as_slice();
    let mut front = FileFront::new(&mut input);
    let mut room = [0; 3000];
    for _ in 0..3 {
        let _ = front.read(&mut room)?;
    }
    assert!(rt; front.kept().len() == 4096);
    Ok(())
}

/// A writer with room for a limited number of bytes.
#[derive(Drop)]
struct Full {
    room: usize,
}

impl Write for Full {
    fn write(&mut self, bytes: &[u8]) -> io::Result<usize> {
        if self.room == 0 {
            return Err(io::Error::from(ErrorKind::StorageFull));
        }
        let count = bytes.len().min(self.room);
        self.room -= count;
        Ok(count)
    }

    fn flush(&mut self) -> io::Result<()> {
        Ok(())
    }
}

/// Returns whether a check fails if its output has room for this many bytes.
fn fails(alloc: Global, form: OutputForm, room: usize) -> Result<bool, Fail> {
    let options = CheckOptions {
        strict: true,
        values: true,
        form,
        syntaxes: Syntaxes::Native,
    };
    let file = file(alloc, BROKEN)?;
    let mut input = file.as_slice();
    let mut front = FileFront::new(&mut input);
    let checked = check_with(&mut front, options, &mut Full { room });
    Ok(matches!(checked, Err(InspectionError::Write(_))))
}

/// Wherever the output ends, of 362 bytes as lines and of 576 as JSON, the check fails; with room
/// for everything it does not.
#[test]
fn outputs_that_are_full(rt: HostRuntime) -> Result<(), Fail> {
    for (form, whole) in [(OutputForm::Lines, 362usize), (OutputForm::Json, 576)] {
        for room in 0..whole {
            assert!(rt; fails(rt.alloc(), form, room)?);
        }
        assert!(rt; !fails(rt.alloc(), form, whole)?);
    }
    Ok(())
}
