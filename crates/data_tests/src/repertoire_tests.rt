//! The characters of texts by their Specific Character Set.
use values::{Part, Repertoire};

/// A letter of the first byte from A0H on, of the last one, and none below.
#[test]
fn letters_of_parts(rt: HostRuntime) {
    let latin = Repertoire::Iso8859(Part::Latin1);
    assert!(rt; latin.letter(0xa0) == Some('\u{a0}') && latin.letter(0xff) == Some('\u{ff}'));
    assert!(rt; latin.letter(0x9f).is_none() && latin.letter(0x41).is_none());
    assert!(rt; Repertoire::of_value(b"ISO_IR 148 ") == Repertoire::Iso8859(Part::Latin5));
    assert!(rt; Repertoire::of_value(b"") == Repertoire::Ascii);
    assert!(rt; Repertoire::of_value(b"ISO_IR 6") == Repertoire::Ascii);
    assert!(rt;
        Repertoire::Utf8.letter(0xe9).is_none() && Repertoire::Other.letter(0xe9).is_none()
    );
}
