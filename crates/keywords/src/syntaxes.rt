//! The keywords of transfer syntaxes (PS3.6 annex A). Made by tools/keywords.
use super::{Row, keyword_in};

/// Returns the keyword of the UID whose part after `1.2.840.10008.` is `rest`.
pub(super) fn keyword(rest: &[u8]) -> Option<&'static str> {
    if let Some(keyword) = part_1(rest) {
        return Some(keyword);
    }
    if let Some(keyword) = part_2(rest) {
        return Some(keyword);
    }
    None
}

fn part_1(rest: &[u8]) -> Option<&'static str> {
    keyword_in(PART_1, rest)
}

const PART_1: &[Row] = &[
    ("1.2", "ImplicitVRLittleEndian"),
    ("1.2.1", "ExplicitVRLittleEndian"),
    ("1.2.1.98", "EncapsulatedUncompressedExplicitVRLittleEndian"),
    ("1.2.1.99", "DeflatedExplicitVRLittleEndian"),
    ("1.2.2", "ExplicitVRBigEndian"),
    ("1.2.4.50", "JPEGBaseline8Bit"),
    ("1.2.4.51", "JPEGExtended12Bit"),
    ("1.2.4.52", "JPEGExtended35"),
    ("1.2.4.53", "JPEGSpectralSelectionNonHierarchical68"),
    ("1.2.4.54", "JPEGSpectralSelectionNonHierarchical79"),
    ("1.2.4.55", "JPEGFullProgressionNonHierarchical1012"),
    ("1.2.4.56", "JPEGFullProgressionNonHierarchical1113"),
    ("1.2.4.57", "JPEGLossless"),
    ("1.2.4.58", "JPEGLosslessNonHierarchical15"),
    ("1.2.4.59", "JPEGExtendedHierarchical1618"),
    ("1.2.4.60", "JPEGExtendedHierarchical1719"),
    ("1.2.4.61", "JPEGSpectralSelectionHierarchical2022"),
    ("1.2.4.62", "JPEGSpectralSelectionHierarchical2123"),
    ("1.2.4.63", "JPEGFullProgressionHierarchical2426"),
    ("1.2.4.64", "JPEGFullProgressionHierarchical2527"),
    ("1.2.4.65", "JPEGLosslessHierarchical28"),
    ("1.2.4.66", "JPEGLosslessHierarchical29"),
    ("1.2.4.70", "JPEGLosslessSV1"),
    ("1.2.4.80", "JPEGLSLossless"),
];

fn part_2(rest: &[u8]) -> Option<&'static str> {
    keyword_in(PART_2, rest)
}

const PART_2: &[Row] = &[
    ("1.2.4.81", "JPEGLSNearLossless"),
    ("1.2.4.90", "JPEG2000Lossless"),
    ("1.2.4.91", "JPEG2000"),
    ("1.2.4.92", "JPEG2000MCLossless"),
    ("1.2.4.93", "JPEG2000MC"),
    ("1.2.4.94", "JPIPReferenced"),
    ("1.2.4.95", "JPIPReferencedDeflate"),
    ("1.2.4.100", "MPEG2MPML"),
    ("1.2.4.101", "MPEG2MPHL"),
    ("1.2.4.102", "MPEG4HP41"),
    ("1.2.4.103", "MPEG4HP41BD"),
    ("1.2.4.104", "MPEG4HP422D"),
    ("1.2.4.105", "MPEG4HP423D"),
    ("1.2.4.106", "MPEG4HP42STEREO"),
    ("1.2.4.107", "HEVCMP51"),
    ("1.2.4.108", "HEVCM10P51"),
    ("1.2.5", "RLELossless"),
    ("1.2.6.1", "RFC2557MIMEEncapsulation"),
    ("1.2.6.2", "XMLEncoding"),
    ("1.2.7.1", "SMPTEST211020UncompressedProgressiveActiveVideo"),
    ("1.2.7.2", "SMPTEST211020UncompressedInterlacedActiveVideo"),
    ("1.2.7.3", "SMPTEST211030PCMDigitalAudio"),
    ("1.20", "Papyrus3ImplicitVRLittleEndian"),
];
