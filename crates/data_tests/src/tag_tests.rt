//! Tags as named on a command line.
use element::Tag;
use inspection::{tag_named, tag_spelled};
use keywords::{element_digits, element_keyword, element_vrs};
use std::test::Fail;

#[test]
fn tags_in_hexadecimal(rt: HostRuntime) {
    for text in ["0010,0020", "00100020", "(0010,0020)"] {
        assert!(rt; tag_named(text) == Some(Tag(0x0010, 0x0020)));
    }
    for text in ["7FE0,00fF", "7fe000FF", "(7Fe0,00Ff)"] {
        assert!(rt; tag_named(text) == Some(Tag(0x7fe0, 0x00ff)));
    }
    assert!(rt; tag_named("ffffFFFF") == Some(Tag(0xffff, 0xffff)));
    assert!(rt; tag_named("00000000") == Some(Tag(0, 0)));
}

#[test]
fn tags_by_keyword(rt: HostRuntime) {
    assert!(rt; tag_named("PatientName") == Some(Tag(0x0010, 0x0010)));
    assert!(rt; tag_named("FileMetaInformationGroupLength") == Some(Tag(0x0002, 0x0000)));
    assert!(rt; tag_named("PixelData") == Some(Tag(0x7fe0, 0x0010)));
    assert!(rt; tag_named("DataSetTrailingPadding") == Some(Tag(0xfffc, 0xfffc)));
    // The first and the last row of a table, and the row after it.
    for keyword in ["IconImageSequence", "RescaleSlope", "Item"] {
        let tag = tag_named(keyword);
        let known = match tag {
            Some(tag) => element_keyword(tag.0, tag.1),
            None => Some(keyword),
        };
        assert!(rt; known == Some(keyword));
    }
}

#[test]
fn other_texts_name_no_tag(rt: HostRuntime) {
    for text in [
        "",
        "0010",
        "0010,002",
        "0010,00200",
        "+010,0020",
        "001g,0020",
        "0010 0020",
        "0010;0020",
        "(0010,0020",
        "0010,0020)",
        "[0010,0020]",
        "(00100020)",
        "0010020",
        "000100020",
        "@0100020",
        "/0100020",
        ":0100020",
        "G0100020",
        "`0100020",
        "patientname",
        "Patient",
        "PatientName ",
        "PatientName\n00100020 PatientID",
        "x",
        "10",
        // Keywords of several tags.
        "OverlayData",
        "SourceImageIDs",
    ] {
        assert!(rt; tag_named(text).is_none());
    }
}

/// A text that spells a tag is no keyword.
#[test]
fn keywords_spell_no_tag(rt: HostRuntime) {
    assert!(rt; tag_spelled(b"PatientID").is_none() && tag_spelled(b"(0010,0020)").is_some());
    assert!(rt; element_digits("PatientID") == Some("00100020"));
    assert!(rt; element_digits("00100020").is_none() && element_digits("").is_none());
}

/// Tags, VRs and keywords of PS3.6, with `--` for none: the first and the last row of a table, rows
/// in its middle, repeating groups, and tags next to them.
static VRS: &str = "0002,0000 UL FileMetaInformationGroupLength
0008,0001 UL LengthToEnd
0018,0081 DS EchoTime
0028,0106 US/SS SmallestImagePixelValue
0028,3006 US/OW LUTData
7fe0,0010 OB/OW PixelData
fffc,fffc OB DataSetTrailingPadding
fffe,e0dd -- SequenceDelimitationItem
6000,3000 OB/OW OverlayData
60fe,3000 OB/OW OverlayData
6100,3000 none none
5012,0040 SH AxisLabels
0020,3155 CS SourceImageIDs
0020,3200 none none
0008,0000 none none
0009,0010 none none
6001,3000 none none
ffff,ffff none none";

#[test]
fn vrs_of_the_standard(rt: HostRuntime) -> Result<(), Fail> {
    for line in VRS.lines() {
        let (tag, wanted) = line.split_once(' ').ok_or("no tag")?;
        let (vrs, keyword) = wanted.split_once(' ').ok_or("no VRs")?;
        let Tag(group, element) = tag_named(tag).ok_or("no tag")?;
        let is_right = element_vrs(group, element).unwrap_or("none") == vrs
            && element_keyword(group, element).unwrap_or("none") == keyword;
        if !is_right {
            return Err(Fail::new(format_args!("{line}")));
        }
    }
    assert!(rt; VRS.lines().count() == 18);
    Ok(())
}
