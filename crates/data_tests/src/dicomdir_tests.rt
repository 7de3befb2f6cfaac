//! Test cases of `dicomdir`, on its public calls.
use dicomdir::FileId;

fn reads(value: &[u8], text: &[u8]) -> bool {
    match FileId::read(value) {
        Some(file_id) => {
            let copy = file_id;
            file_id.text() == text && copy.text() == text
        }
        None => false,
    }
}

const LONGEST: &[u8] =
    b"A0000001\\A0000002\\A0000003\\A0000004\\A0000005\\A0000006\\A0000007\\A0000008";

const FILE_IDS: [(&[u8], &[u8]); 4] = [
    (b"I0000001", b"I0000001"),
    (b"S0000001\\I_1  ", b"S0000001\\I_1"),
    (b"A\\B\\C\\D\\E\\F\\G\\H", b"A\\B\\C\\D\\E\\F\\G\\H"),
    (LONGEST, LONGEST),
];

#[test]
fn file_ids_are_read(rt: HostRuntime) {
    assert!(rt; LONGEST.len() == 71);
    for (value, text) in FILE_IDS {
        assert!(rt; reads(value, text));
    }
}

const OTHER_VALUES: [&[u8]; 11] = [
    b"",
    b"   ",
    b" I1",
    b"i1",
    b"I1\0",
    b"I00000001",
    b"S1\\\\I1",
    b"\\I1",
    b"I1\\",
    b"I1 \\I2",
    b"A\\B\\C\\D\\E\\F\\G\\H\\I",
];

#[test]
fn other_values_are_no_file_ids(rt: HostRuntime) {
    for value in OTHER_VALUES {
        assert!(rt; FileId::read(value).is_none());
    }
}
