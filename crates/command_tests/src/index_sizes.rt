//! `index` over a folder whose directory would exceed its greatest size.
use arguments::Index;
use cases::{Case, Parts};
use element::Uid;
use fixtures::folders::{count, fresh, holds, put};
use index_command::{IndexCounts, Indexed, index_folder};
use std::fs;
use std::test::Fail;

/// The header of a file of the CT image `1.2.3.1.1`, 292 bytes; the last component of its SOP
/// Instance UID is at 208.
static HEADER: &str =
    "header | 00*128 'DICM' 02000000 'UL' 0400 94000000 02000100 'OB' 0000 02000000 0001 \
02000200 'UI' 1a00 '1.2.840.10008.5.1.4.1.1.2' 00 02000300 'UI' 0a00 '1.2.3.1.1' 00 \
02001000 'UI' 1400 '1.2.840.10008.1.2.1' 00 02001200 'UI' 0e00 '2.25.20260101' 00 \
02001300 'SH' 0800 'DCMBOX_1' 02001600 'AE' 0800 'SCANNER1'";

/// The files of the image and of another one of its series without Study ID, which is from 400 to
/// 410.
static IMAGES: &str = "I0000001 | header 08002000 'DA' 0800 '20260101' 08003000 'TM' 0600 '120000' \
08006000 'CS' 0200 'CT' 08003010 'LO' 0400 'HEAD' 10001000 'PN' 0800 'DOE^JANE' \
10002000 'LO' 0200 'P1' 20000d00 'UI' 0600 '1.2.3' 00 20000e00 'UI' 0800 '1.2.3.1' 00 \
20001000 'SH' 0200 'S1' 20001100 'IS' 0200 '1 ' 20001300 'IS' 0200 '1 '
I0000002 | I0000001[..208] '3' I0000001[209..400] I0000001[410..]";

/// Creates the folder with these files.
fn put_images(rt: &HostRuntime) -> Result<(), Fail> {
    fresh(rt, "large")?;
    let mut parts = Parts::read(rt.alloc(), HEADER, 1)?;
    for line in IMAGES.lines() {
        let case = Case::of(line);
        let bytes = parts.bytes(&case, 0)?;
        put(rt, "large", case.name, bytes.as_slice())?;
        parts.add(case.name, bytes)?;
    }
    Ok(())
}

/// Runs `index` with this greatest size of a directory. Returns whether it has this result and
/// prints these lines.
fn is_indexed(rt: &HostRuntime, most: u32, wanted: Indexed, printed: &[u8]) -> Result<bool, Fail> {
    let uid = Uid::read(b"2.25.1").ok_or("no UID")?;
    let settings = Index {
        dir: "large",
        uid: Some(uid),
        descriptions: false,
        all_syntaxes: false,
        json: false,
        any_name: false,
        ignore_others: false,
        follow: false,
        keep: false,
        replace: false,
        strict: false,
    };
    let (mut out, mut err) = (Vec::new(rt.alloc()), Vec::new(rt.alloc()));
    let indexed = index_folder(rt, &settings, most, &mut out, &mut err)?;
    Ok(indexed == wanted && out.as_slice() == printed)
}

const WRITTEN: &[u8] = b"skipped I0000002 missing 0020,0010\nrecords 4\n";

const TOO_LARGE: &[u8] = b"skipped I0000002 missing 0020,0010\nfault 66 TooLarge at 0\n";

/// The directory of 788 bytes is written if 788 bytes are allowed. With a smaller limit the fault
/// is that it is too large, and the old directory is unchanged.
#[test]
fn directories_that_are_too_large(rt: HostRuntime) -> Result<(), Fail> {
    put_images(&rt)?;
    let counts = IndexCounts {
        images: 1,
        omitted: 1,
    };
    assert!(rt; is_indexed(&rt, 788, Indexed::Written(counts), WRITTEN)?);
    let old = fs::read(&rt, "large/DICOMDIR")?;
    assert!(rt; old.len() == 788);
    for most in [787, 700, 468, 467, 319, 0] {
        assert!(rt; is_indexed(&rt, most, Indexed::Faulty, TOO_LARGE)?);
        assert!(rt; count(&rt, "large")? == 3);
        assert!(rt; holds(&rt, "large", "DICOMDIR", old.as_slice())?);
    }
    Ok(())
}
