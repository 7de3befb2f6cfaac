//! Test cases of `dictionary`, on its public calls.
use dictionary::{APPLICATION_CONTEXT, Class, Transfer, class_of, name_of, syntax_of, vr_of};
use element::{Syntax, Tag, Vr};

/// Group, element, VR and keyword.
type Row = (u16, u16, [u8; 2], &'static str);

const IDENTIFYING: [Row; 27] = [
    (0x0008, 0x0005, *b"CS", "SpecificCharacterSet"),
    (0x0008, 0x0008, *b"CS", "ImageType"),
    (0x0008, 0x0016, *b"UI", "SOPClassUID"),
    (0x0008, 0x0018, *b"UI", "SOPInstanceUID"),
    (0x0008, 0x0020, *b"DA", "StudyDate"),
    (0x0008, 0x0021, *b"DA", "SeriesDate"),
    (0x0008, 0x0022, *b"DA", "AcquisitionDate"),
    (0x0008, 0x0023, *b"DA", "ContentDate"),
    (0x0008, 0x0030, *b"TM", "StudyTime"),
    (0x0008, 0x0031, *b"TM", "SeriesTime"),
    (0x0008, 0x0050, *b"SH", "AccessionNumber"),
    (0x0008, 0x0060, *b"CS", "Modality"),
    (0x0008, 0x0070, *b"LO", "Manufacturer"),
    (0x0008, 0x0080, *b"LO", "InstitutionName"),
    (0x0008, 0x0090, *b"PN", "ReferringPhysicianName"),
    (0x0008, 0x0100, *b"SH", "CodeValue"),
    (0x0008, 0x0102, *b"SH", "CodingSchemeDesignator"),
    (0x0008, 0x0104, *b"LO", "CodeMeaning"),
    (0x0008, 0x1030, *b"LO", "StudyDescription"),
    (0x0008, 0x1032, *b"SQ", "ProcedureCodeSequence"),
    (0x0008, 0x103e, *b"LO", "SeriesDescription"),
    (0x0008, 0x1110, *b"SQ", "ReferencedStudySequence"),
    (
        0x0008,
        0x1111,
        *b"SQ",
        "ReferencedPerformedProcedureStepSequence",
    ),
    (0x0008, 0x1140, *b"SQ", "ReferencedImageSequence"),
    (0x0008, 0x1150, *b"UI", "ReferencedSOPClassUID"),
    (0x0008, 0x1155, *b"UI", "ReferencedSOPInstanceUID"),
    (0x0008, 0x2112, *b"SQ", "SourceImageSequence"),
];

const PATIENT: [Row; 15] = [
    (0x0010, 0x0010, *b"PN", "PatientName"),
    (0x0010, 0x0020, *b"LO", "PatientID"),
    (0x0010, 0x0030, *b"DA", "PatientBirthDate"),
    (0x0010, 0x0040, *b"CS", "PatientSex"),
    (0x0010, 0x1010, *b"AS", "PatientAge"),
    (0x0018, 0x0050, *b"DS", "SliceThickness"),
    (0x0018, 0x0060, *b"DS", "KVP"),
    (0x0020, 0x000d, *b"UI", "StudyInstanceUID"),
    (0x0020, 0x000e, *b"UI", "SeriesInstanceUID"),
    (0x0020, 0x0010, *b"SH", "StudyID"),
    (0x0020, 0x0011, *b"IS", "SeriesNumber"),
    (0x0020, 0x0013, *b"IS", "InstanceNumber"),
    (0x0020, 0x0032, *b"DS", "ImagePositionPatient"),
    (0x0020, 0x0037, *b"DS", "ImageOrientationPatient"),
    (0x0020, 0x0052, *b"UI", "FrameOfReferenceUID"),
];

const IMAGE: [Row; 19] = [
    (0x0028, 0x0002, *b"US", "SamplesPerPixel"),
    (0x0028, 0x0004, *b"CS", "PhotometricInterpretation"),
    (0x0028, 0x0008, *b"IS", "NumberOfFrames"),
    (0x0028, 0x0010, *b"US", "Rows"),
    (0x0028, 0x0011, *b"US", "Columns"),
    (0x0028, 0x0030, *b"DS", "PixelSpacing"),
    (0x0028, 0x0100, *b"US", "BitsAllocated"),
    (0x0028, 0x0101, *b"US", "BitsStored"),
    (0x0028, 0x0102, *b"US", "HighBit"),
    (0x0028, 0x0103, *b"US", "PixelRepresentation"),
    (0x0028, 0x1050, *b"DS", "WindowCenter"),
    (0x0028, 0x1051, *b"DS", "WindowWidth"),
    (0x0028, 0x1052, *b"DS", "RescaleIntercept"),
    (0x0028, 0x1053, *b"DS", "RescaleSlope"),
    (0x0040, 0x0275, *b"SQ", "RequestAttributesSequence"),
    (0x0040, 0xa730, *b"SQ", "ContentSequence"),
    (0x7fe0, 0x0010, *b"OW", "PixelData"),
    (0xfffa, 0xfffa, *b"SQ", "DigitalSignaturesSequence"),
    (0xfffc, 0xfffc, *b"OB", "DataSetTrailingPadding"),
];

fn is_registered(row: Row) -> bool {
    let (group, element, vr, keyword) = row;
    let tag = Tag(group, element);
    vr_of(tag) == Vr::read(vr) && name_of(tag).unwrap_or("") == keyword
}

fn are_registered(rows: &[Row]) -> bool {
    for row in rows {
        if !is_registered(*row) {
            return false;
        }
    }
    true
}

#[test]
fn registry(rt: HostRuntime) {
    assert!(rt; are_registered(&IDENTIFYING));
    assert!(rt; are_registered(&PATIENT));
    assert!(rt; are_registered(&IMAGE));
}

#[test]
fn tags_outside_the_registry(rt: HostRuntime) {
    for tag in [
        Tag(0x0008, 0x0006),
        Tag(0x0009, 0x0005),
        Tag(0x0010, 0x0005),
        Tag(0xfffe, 0xe000),
    ] {
        assert!(rt; vr_of(tag).is_none() && name_of(tag).is_none());
    }
}

const CLASSES: [(&[u8], Class); 12] = [
    (b"1.2.840.10008.1.1", Class::Verification),
    (b"1.2.840.10008.5.1.4.1.1.1\0", Class::ComputedRadiography),
    (b"1.2.840.10008.5.1.4.1.1.1.1 ", Class::DigitalXRay),
    (b"1.2.840.10008.5.1.4.1.1.2", Class::Ct),
    (b"1.2.840.10008.5.1.4.1.1.2.1", Class::EnhancedCt),
    (b"1.2.840.10008.5.1.4.1.1.4", Class::Mr),
    (b"1.2.840.10008.5.1.4.1.1.4.1", Class::EnhancedMr),
    (b"1.2.840.10008.5.1.4.1.1.6.1", Class::Ultrasound),
    (b"1.2.840.10008.5.1.4.1.1.7", Class::SecondaryCapture),
    (b"1.2.840.10008.5.1.4.1.1.12.1", Class::XRayAngiographic),
    (b"1.2.840.10008.5.1.4.1.1.20", Class::NuclearMedicine),
    (b"1.2.840.10008.5.1.4.1.1.128", Class::Pet),
];

#[test]
fn identifiers_of_classes(rt: HostRuntime) {
    for (text, class) in &CLASSES {
        assert!(rt; class_of(text) == Some(*class));
        assert!(rt; class.is_storage() == (*class != Class::Verification));
    }
}

/// Radiotherapy images and directories are of no supported SOP Class.
#[test]
fn other_classes(rt: HostRuntime) {
    for text in [
        b"1.2.840.10008.5.1.4.1.1.481.1".as_slice(),
        b"1.2.840.10008.1.3.10".as_slice(),
    ] {
        assert!(rt; class_of(text).is_none());
    }
}

#[test]
fn identifiers_of_syntaxes(rt: HostRuntime) {
    assert!(rt; syntax_of(b"1.2.840.10008.1.2\0") == Some(Syntax::Implicit));
    assert!(rt; syntax_of(b"1.2.840.10008.1.2.1") == Some(Syntax::Explicit));
    assert!(rt; APPLICATION_CONTEXT == b"1.2.840.10008.3.1.1.1".as_slice());
}

/// Encapsulated uncompressed, deflated, big endian, JPEG and RLE.
#[test]
fn other_syntaxes(rt: HostRuntime) {
    for text in [
        b"1.2.840.10008.1.2.1.98".as_slice(),
        b"1.2.840.10008.1.2.1.99".as_slice(),
        b"1.2.840.10008.1.2.2".as_slice(),
        b"1.2.840.10008.1.2.4.50".as_slice(),
        b"1.2.840.10008.1.2.5".as_slice(),
    ] {
        assert!(rt; syntax_of(text).is_none());
    }
}

#[test]
fn transfer_syntaxes(rt: HostRuntime) {
    assert!(rt; Transfer::of(b"1.2.840.10008.1.2.4.70\0\0") == Some(Transfer::JpegLosslessSv1));
    assert!(rt; Transfer::of(b"1.2.840.10008.1.2.5 ") == Some(Transfer::RleLossless));
    assert!(rt; Transfer::of(b"1.2.840.10008.1.2") == Some(Transfer::Implicit));
    let uncompressed = Transfer::EncapsulatedUncompressed;
    assert!(rt; Transfer::of(b"1.2.840.10008.1.2.1.98") == Some(uncompressed));
    assert!(rt; uncompressed.syntax() == Syntax::Explicit && uncompressed.is_encapsulated());
    assert!(rt; Transfer::of(b"1.2.840.10008.1.2.1.99").is_none());
    assert!(rt; Transfer::of(b"1.2.840.10008.1.2.2").is_none());
    assert!(rt; Transfer::of(b"1.2.840.10008.1.2.4.94").is_none());
    assert!(rt; Transfer::Htj2k.uid() == b"1.2.840.10008.1.2.4.203".as_slice());
    assert!(rt; Transfer::JpegBaseline8Bit.keyword() == "JPEGBaseline8Bit");
}
