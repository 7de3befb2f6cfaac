//! The part of the registry of data elements (PS3.6 section 6) that this product uses: a match by
//! group, then by element number, so that a look-up takes few comparisons.
ghost use Rattle.std.specs.Prelude.{◌≡◌, Some};
ghost use Rattle.std.specs.Option.{option_map};
ghost use Rattle.dictionary.specs.Tags as table;
ghost use Rattle.dictionary.specs.machine.Attributes.{attribute_value, registered};

use element::{Tag, Vr};

/// The registry's entry for a tag.
#[derive(Clone, Copy)]
struct Attribute {
    vr: Vr,
    keyword: &'static str,
}

fn found(vr: Vr, keyword: &'static str) -> Option<Attribute>
    ensures { attribute_value result ≡ Some (vr, keyword.now) }
{
    Some(Attribute { vr, keyword })
}

#[tactic(auto, unfolding(crate::specs::Tags::row_of))]
fn identifying_attribute(element: u16) -> Option<Attribute>
    ensures { attribute_value result ≡ registered 0x0008 element }
{
    match element {
        0x0005 => found(Vr::CS, "SpecificCharacterSet"),
        0x0008 => found(Vr::CS, "ImageType"),
        0x0016 => found(Vr::UI, "SOPClassUID"),
        0x0018 => found(Vr::UI, "SOPInstanceUID"),
        0x0020 => found(Vr::DA, "StudyDate"),
        0x0021 => found(Vr::DA, "SeriesDate"),
        0x0022 => found(Vr::DA, "AcquisitionDate"),
        0x0023 => found(Vr::DA, "ContentDate"),
        0x0030 => found(Vr::TM, "StudyTime"),
        0x0031 => found(Vr::TM, "SeriesTime"),
        0x0050 => found(Vr::SH, "AccessionNumber"),
        0x0060 => found(Vr::CS, "Modality"),
        0x0070 => found(Vr::LO, "Manufacturer"),
        0x0080 => found(Vr::LO, "InstitutionName"),
        0x0090 => found(Vr::PN, "ReferringPhysicianName"),
        0x0100 => found(Vr::SH, "CodeValue"),
        0x0102 => found(Vr::SH, "CodingSchemeDesignator"),
        0x0104 => found(Vr::LO, "CodeMeaning"),
        0x1030 => found(Vr::LO, "StudyDescription"),
        0x1032 => found(Vr::SQ, "ProcedureCodeSequence"),
        0x103e => found(Vr::LO, "SeriesDescription"),
        0x1110 => found(Vr::SQ, "ReferencedStudySequence"),
        0x1111 => found(Vr::SQ, "ReferencedPerformedProcedureStepSequence"),
        0x1140 => found(Vr::SQ, "ReferencedImageSequence"),
        0x1150 => found(Vr::UI, "ReferencedSOPClassUID"),
        0x1155 => found(Vr::UI, "ReferencedSOPInstanceUID"),
        0x2112 => found(Vr::SQ, "SourceImageSequence"),
        _ => None,
    }
}

#[tactic(auto, unfolding(crate::specs::Tags::row_of))]
fn patient_attribute(element: u16) -> Option<Attribute>
    ensures { attribute_value result ≡ registered 0x0010 element }
{
    match element {
        0x0010 => found(Vr::PN, "PatientName"),
        0x0020 => found(Vr::LO, "PatientID"),
        0x0030 => found(Vr::DA, "PatientBirthDate"),
        0x0040 => found(Vr::CS, "PatientSex"),
        0x1010 => found(Vr::AS, "PatientAge"),
        _ => None,
    }
}

#[tactic(auto, unfolding(crate::specs::Tags::row_of))]
fn acquisition_attribute(element: u16) -> Option<Attribute>
    ensures { attribute_value result ≡ registered 0x0018 element }
{
    match element {
        0x0050 => found(Vr::DS, "SliceThickness"),
        0x0060 => found(Vr::DS, "KVP"),
        _ => None,
    }
}

#[tactic(auto, unfolding(crate::specs::Tags::row_of))]
fn relationship_attribute(element: u16) -> Option<Attribute>
    ensures { attribute_value result ≡ registered 0x0020 element }
{
    match element {
        0x000d => found(Vr::UI, "StudyInstanceUID"),
        0x000e => found(Vr::UI, "SeriesInstanceUID"),
        0x0010 => found(Vr::SH, "StudyID"),
        0x0011 => found(Vr::IS, "SeriesNumber"),
        0x0013 => found(Vr::IS, "InstanceNumber"),
        0x0032 => found(Vr::DS, "ImagePositionPatient"),
        0x0037 => found(Vr::DS, "ImageOrientationPatient"),
        0x0052 => found(Vr::UI, "FrameOfReferenceUID"),
        _ => None,
    }
}

#[tactic(auto, unfolding(crate::specs::Tags::row_of))]
fn image_attribute(element: u16) -> Option<Attribute>
    ensures { attribute_value result ≡ registered 0x0028 element }
{
    match element {
        0x0002 => found(Vr::US, "SamplesPerPixel"),
        0x0004 => found(Vr::CS, "PhotometricInterpretation"),
        0x0008 => found(Vr::IS, "NumberOfFrames"),
        0x0010 => found(Vr::US, "Rows"),
        0x0011 => found(Vr::US, "Columns"),
        0x0030 => found(Vr::DS, "PixelSpacing"),
        0x0100 => found(Vr::US, "BitsAllocated"),
        0x0101 => found(Vr::US, "BitsStored"),
        0x0102 => found(Vr::US, "HighBit"),
        0x0103 => found(Vr::US, "PixelRepresentation"),
        0x1050 => found(Vr::DS, "WindowCenter"),
        0x1051 => found(Vr::DS, "WindowWidth"),
        0x1052 => found(Vr::DS, "RescaleIntercept"),
        0x1053 => found(Vr::DS, "RescaleSlope"),
        _ => None,
    }
}

#[tactic(auto, unfolding(crate::specs::Tags::row_of))]
fn procedure_attribute(element: u16) -> Option<Attribute>
    ensures { attribute_value result ≡ registered 0x0040 element }
{
    match element {
        0x0275 => found(Vr::SQ, "RequestAttributesSequence"),
        0xa730 => found(Vr::SQ, "ContentSequence"),
        _ => None,
    }
}

#[tactic(auto, unfolding(crate::specs::Tags::row_of))]
fn pixel_attribute(element: u16) -> Option<Attribute>
    ensures { attribute_value result ≡ registered 0x7fe0 element }
{
    match element {
        0x0010 => found(Vr::OW, "PixelData"),
        _ => None,
    }
}

#[tactic(auto, unfolding(crate::specs::Tags::row_of))]
fn signature_attribute(element: u16) -> Option<Attribute>
    ensures { attribute_value result ≡ registered 0xfffa element }
{
    match element {
        0xfffa => found(Vr::SQ, "DigitalSignaturesSequence"),
        _ => None,
    }
}

#[tactic(auto, unfolding(crate::specs::Tags::row_of))]
fn padding_attribute(element: u16) -> Option<Attribute>
    ensures { attribute_value result ≡ registered 0xfffc element }
{
    match element {
        0xfffc => found(Vr::OB, "DataSetTrailingPadding"),
        _ => None,
    }
}

#[tactic(auto, unfolding(crate::specs::Tags::row_of))]
fn attribute_of(tag: Tag) -> Option<Attribute>
    ensures { attribute_value result ≡ registered tag.0 tag.1 }
{
    match tag.0 {
        0x0008 => identifying_attribute(tag.1),
        0x0010 => patient_attribute(tag.1),
        0x0018 => acquisition_attribute(tag.1),
        0x0020 => relationship_attribute(tag.1),
        0x0028 => image_attribute(tag.1),
        0x0040 => procedure_attribute(tag.1),
        0x7fe0 => pixel_attribute(tag.1),
        0xfffa => signature_attribute(tag.1),
        0xfffc => padding_attribute(tag.1),
        _ => None,
    }
}

/// Returns the VR of a tag, or `None` if this part of the registry does not have it. PixelData has
/// OW.
pub fn vr_of(tag: Tag) -> Option<Vr>
    ensures { result ≡ table.vr_of tag }
{
    match attribute_of(tag) {
        Some(attribute) => Some(attribute.vr),
        None => None,
    }
}

/// Returns the keyword of a tag, or `None` if this part of the registry does not have it.
pub fn name_of(tag: Tag) -> Option<&'static str>
    ensures { option_map (λ name. name.now) result ≡ table.name_of tag }
{
    match attribute_of(tag) {
        Some(attribute) => Some(attribute.keyword),
        None => None,
    }
}
