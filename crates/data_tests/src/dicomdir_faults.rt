//! The printed form of each fault of a directory.
use dicomdir::DirFault;
use element::Tag;
use std::test::Fail;

/// A number, and the printed form of its fault at offset 626 with tag (0008,0060).
type Printed<'a> = (u8, &'a str);

const FAULTS: [Printed<'static>; 26] = [
    (0, "0 Unknown at 626"),
    (10, "10 BadVr at 626 tag 0008,0060"),
    (11, "11 OddLength at 626 tag 0008,0060"),
    (12, "12 Order at 626 tag 0008,0060"),
    (13, "13 BadGroup at 626 tag 0008,0060"),
    (14, "14 UndefinedLength at 626 tag 0008,0060"),
    (15, "15 UnexpectedTag at 626 tag 0008,0060"),
    (16, "16 DelimiterLength at 626 tag 0008,0060"),
    (17, "17 Overrun at 626 tag 0008,0060"),
    (18, "18 TooDeep at 626 tag 0008,0060"),
    (19, "19 TooLong at 626 tag 0008,0060"),
    (20, "20 Truncated at 626 tag 0008,0060"),
    (21, "21 KeptTooLong at 626 tag 0008,0060"),
    (50, "50 NotPart10 at 626"),
    (51, "51 BadMeta at 626"),
    (53, "53 OtherSyntax at 626"),
    (60, "60 BadOffset at 626"),
    (61, "61 Cycle at 626"),
    (62, "62 TwiceReached at 626"),
    (63, "63 Unreached at 626"),
    (64, "64 WrongLevel at 626"),
    (65, "65 BadFileId at 626"),
    (66, "66 TooLarge at 626"),
    (67, "67 OutOfMemory at 626"),
    (68, "68 BadRecord at 626"),
    (69, "69 Unknown at 626"),
];

#[test]
fn each_fault_is_printed(rt: HostRuntime) -> Result<(), Fail> {
    for (number, printed) in FAULTS {
        let fault = DirFault {
            number,
            offset: 626,
            tag: Tag(0x0008, 0x0060),
        };
        let text = format!(in rt.alloc(); "{fault}")?;
        assert!(rt; text.as_str() == printed);
    }
    Ok(())
}
