//! Values that are numbers, tags or words: exactly the lengths that are a multiple of their size
//! are valid.
use element::{ValueFault, Vr, check_value};

/// The letters of a VR, and the size in bytes of its numbers, tags or words (PS3.5 table 6.2-1).
const SIZES: [([u8; 2], usize); 14] = [
    (*b"US", 2),
    (*b"SS", 2),
    (*b"OW", 2),
    (*b"UL", 4),
    (*b"SL", 4),
    (*b"FL", 4),
    (*b"AT", 4),
    (*b"OL", 4),
    (*b"OF", 4),
    (*b"FD", 8),
    (*b"SV", 8),
    (*b"UV", 8),
    (*b"OD", 8),
    (*b"OV", 8),
];

/// Returns whether values of a VR shorter than 25 bytes are valid exactly if they fit its size.
fn are_sized(letters: [u8; 2], size: usize) -> bool {
    let Some(vr) = Vr::read(letters) else {
        return false;
    };
    let value = [0xffu8; 24];
    for length in 0..25usize {
        let is_good = match check_value(vr, &value[..length]) {
            Ok(()) => true,
            Err(ValueFault::WrongSize) => false,
            Err(_) => return false,
        };
        if is_good != length.is_multiple_of(size) {
            return false;
        }
    }
    true
}

#[test]
fn sizes_of_numbers(rt: HostRuntime) {
    for (letters, size) in SIZES {
        assert!(rt; are_sized(letters, size));
    }
}
