//! Transfer syntaxes (PS3.5 annex A, PS3.6 table A-1), as `tools/transfer-syntaxes` writes them.
ghost use Rattle.std.specs.Prelude.{◌≡◌};
ghost use Rattle.std.specs.List.{find};
ghost use Rattle.dictionary.specs.Transfers as table;

use element::{Syntax, unpadded};

/// A transfer syntax: one of the two in which Pixel Data is native, or one in which it may be
/// encapsulated (PS3.5 section A.4).
#[derive(Clone, Copy, Debug, PartialEq, Eq)]
pub enum Transfer {
    /// ImplicitVRLittleEndian.
    Implicit,
    /// ExplicitVRLittleEndian.
    Explicit,
    /// EncapsulatedUncompressedExplicitVRLittleEndian.
    EncapsulatedUncompressed,
    /// JPEGBaseline8Bit.
    JpegBaseline8Bit,
    /// JPEGExtended12Bit.
    JpegExtended12Bit,
    /// JPEGLossless.
    JpegLossless,
    /// JPEGLosslessSV1.
    JpegLosslessSv1,
    /// JPEGLSLossless.
    JpegLsLossless,
    /// JPEGLSNearLossless.
    JpegLsNearLossless,
    /// JPEG2000Lossless.
    Jpeg2000Lossless,
    /// JPEG2000.
    Jpeg2000,
    /// JPEG2000MCLossless.
    Jpeg2000McLossless,
    /// JPEG2000MC.
    Jpeg2000Mc,
    /// MPEG2MPML.
    Mpeg2MainLevel,
    /// MPEG2MPHL.
    Mpeg2HighLevel,
    /// MPEG4HP41.
    Mpeg4High41,
    /// MPEG4HP41BD.
    Mpeg4High41Bd,
    /// MPEG4HP422D.
    Mpeg4High42For2d,
    /// MPEG4HP423D.
    Mpeg4High42For3d,
    /// MPEG4HP42STEREO.
    Mpeg4High42Stereo,
    /// HEVCMP51.
    HevcMainLevel51,
    /// HEVCM10P51.
    HevcMain10Level51,
    /// HTJ2KLossless.
    Htj2kLossless,
    /// HTJ2KLosslessRPCL.
    Htj2kLosslessRpcl,
    /// HTJ2K.
    Htj2k,
    /// RLELossless.
    RleLossless,
}

impl Transfer {
    /// All transfer syntaxes, by the numbers of their UIDs.
    pub const ALL: [Transfer; 26] = [
        Transfer::Implicit,
        Transfer::Explicit,
        Transfer::EncapsulatedUncompressed,
        Transfer::JpegBaseline8Bit,
        Transfer::JpegExtended12Bit,
        Transfer::JpegLossless,
        Transfer::JpegLosslessSv1,
        Transfer::JpegLsLossless,
        Transfer::JpegLsNearLossless,
        Transfer::Jpeg2000Lossless,
        Transfer::Jpeg2000,
        Transfer::Jpeg2000McLossless,
        Transfer::Jpeg2000Mc,
        Transfer::Mpeg2MainLevel,
        Transfer::Mpeg2HighLevel,
        Transfer::Mpeg4High41,
        Transfer::Mpeg4High41Bd,
        Transfer::Mpeg4High42For2d,
        Transfer::Mpeg4High42For3d,
        Transfer::Mpeg4High42Stereo,
        Transfer::HevcMainLevel51,
        Transfer::HevcMain10Level51,
        Transfer::Htj2kLossless,
        Transfer::Htj2kLosslessRpcl,
        Transfer::Htj2k,
        Transfer::RleLossless,
    ];

    /// Returns the UID of the transfer syntax.
    pub fn uid(self) -> &'static [u8]
        ensures { result.now ≡ table.transfer_uid self }
    {
        match self {
            Transfer::Implicit => b"1.2.840.10008.1.2",
            Transfer::Explicit => b"1.2.840.10008.1.2.1",
            Transfer::EncapsulatedUncompressed => b"1.2.840.10008.1.2.1.98",
            Transfer::JpegBaseline8Bit => b"1.2.840.10008.1.2.4.50",
            Transfer::JpegExtended12Bit => b"1.2.840.10008.1.2.4.51",
            Transfer::JpegLossless => b"1.2.840.10008.1.2.4.57",
            Transfer::JpegLosslessSv1 => b"1.2.840.10008.1.2.4.70",
            Transfer::JpegLsLossless => b"1.2.840.10008.1.2.4.80",
            Transfer::JpegLsNearLossless => b"1.2.840.10008.1.2.4.81",
            Transfer::Jpeg2000Lossless => b"1.2.840.10008.1.2.4.90",
            Transfer::Jpeg2000 => b"1.2.840.10008.1.2.4.91",
            Transfer::Jpeg2000McLossless => b"1.2.840.10008.1.2.4.92",
            Transfer::Jpeg2000Mc => b"1.2.840.10008.1.2.4.93",
            Transfer::Mpeg2MainLevel => b"1.2.840.10008.1.2.4.100",
            Transfer::Mpeg2HighLevel => b"1.2.840.10008.1.2.4.101",
            Transfer::Mpeg4High41 => b"1.2.840.10008.1.2.4.102",
            Transfer::Mpeg4High41Bd => b"1.2.840.10008.1.2.4.103",
            Transfer::Mpeg4High42For2d => b"1.2.840.10008.1.2.4.104",
            Transfer::Mpeg4High42For3d => b"1.2.840.10008.1.2.4.105",
            Transfer::Mpeg4High42Stereo => b"1.2.840.10008.1.2.4.106",
            Transfer::HevcMainLevel51 => b"1.2.840.10008.1.2.4.107",
            Transfer::HevcMain10Level51 => b"1.2.840.10008.1.2.4.108",
            Transfer::Htj2kLossless => b"1.2.840.10008.1.2.4.201",
            Transfer::Htj2kLosslessRpcl => b"1.2.840.10008.1.2.4.202",
            Transfer::Htj2k => b"1.2.840.10008.1.2.4.203",
            Transfer::RleLossless => b"1.2.840.10008.1.2.5",
        }
    }

    /// Returns the keyword of the transfer syntax.
    pub fn keyword(self) -> &'static str
        ensures { result.now ≡ table.transfer_keyword self }
    {
        match self {
            Transfer::Implicit => "ImplicitVRLittleEndian",
            Transfer::Explicit => "ExplicitVRLittleEndian",
            Transfer::EncapsulatedUncompressed => "EncapsulatedUncompressedExplicitVRLittleEndian",
            Transfer::JpegBaseline8Bit => "JPEGBaseline8Bit",
            Transfer::JpegExtended12Bit => "JPEGExtended12Bit",
            Transfer::JpegLossless => "JPEGLossless",
            Transfer::JpegLosslessSv1 => "JPEGLosslessSV1",
            Transfer::JpegLsLossless => "JPEGLSLossless",
            Transfer::JpegLsNearLossless => "JPEGLSNearLossless",
            Transfer::Jpeg2000Lossless => "JPEG2000Lossless",
            Transfer::Jpeg2000 => "JPEG2000",
            Transfer::Jpeg2000McLossless => "JPEG2000MCLossless",
            Transfer::Jpeg2000Mc => "JPEG2000MC",
            Transfer::Mpeg2MainLevel => "MPEG2MPML",
            Transfer::Mpeg2HighLevel => "MPEG2MPHL",
            Transfer::Mpeg4High41 => "MPEG4HP41",
            Transfer::Mpeg4High41Bd => "MPEG4HP41BD",
            Transfer::Mpeg4High42For2d => "MPEG4HP422D",
            Transfer::Mpeg4High42For3d => "MPEG4HP423D",
            Transfer::Mpeg4High42Stereo => "MPEG4HP42STEREO",
            Transfer::HevcMainLevel51 => "HEVCMP51",
            Transfer::HevcMain10Level51 => "HEVCM10P51",
            Transfer::Htj2kLossless => "HTJ2KLossless",
            Transfer::Htj2kLosslessRpcl => "HTJ2KLosslessRPCL",
            Transfer::Htj2k => "HTJ2K",
            Transfer::RleLossless => "RLELossless",
        }
    }

    /// Returns the layout of element headers: without VRs in Implicit VR Little Endian, with VRs in
    /// all others.
    pub fn syntax(self) -> Syntax
        ensures { result ≡ table.syntax_in self }
    {
        match self {
            Transfer::Implicit => Syntax::Implicit,
            _ => Syntax::Explicit,
        }
    }

    /// Returns whether Pixel Data may be encapsulated in the transfer syntax.
    pub fn is_encapsulated(self) -> bool
        ensures { result ≡ table.is_encapsulated self }
    {
        // One arm for each line of the definition, as the proof needs.
        match self {
            Transfer::Implicit => false,
            Transfer::Explicit => false,
            _ => true,
        }
    }

    /// Returns the transfer syntaxes in which Pixel Data may be encapsulated.
    pub fn encapsulated() -> &'static [Transfer]
        ensures { result.now ≡ table.encapsulated_transfers }
    {
        &Transfer::ALL[2..]
    }

    /// Returns the native transfer syntax with this layout.
    pub fn native(syntax: Syntax) -> Transfer
        ensures { result ≡ table.native syntax }
    {
        match syntax {
            Syntax::Implicit => Transfer::Implicit,
            Syntax::Explicit => Transfer::Explicit,
        }
    }

    /// Returns the transfer syntax with this UID, or `None`. Ignores trailing spaces and zero
    /// bytes.
    pub fn of(bytes: &[u8]) -> Option<Transfer>
        ensures { result ≡ table.transfer_of bytes.now }
    {
        first_named(&Transfer::ALL, unpadded(bytes))
    }
}

impl Default for Transfer {
    ghost is_default = { λ transfer. transfer ≡ table.default_transfer };

    /// Returns the default transfer syntax (PS3.5 section 10.1).
    fn default() -> Transfer {
        Transfer::Implicit
    }
}

fn first_named(transfers: &[Transfer], text: &[u8]) -> Option<Transfer>
    ensures { result ≡ find (table.is_text_of text.now) transfers.now }
{
    transfers
        .iter()
        .copied()
        .find(|transfer| transfer.uid() == text)
}
