//! The compressed transfer syntaxes that `serve` and `replay` accept for a command line.
use crate::asked::asks;
use std::test::Fail;

static ASKED: &str = "dcmbox serve --port 104 --out files
syntaxes |
dcmbox serve --port 104 --out files --all-syntaxes
syntaxes | all 24
dcmbox serve --port 104 --out files --transfer-syntax 1.2.840.10008.1.2.5 --transfer-syntax 1.2.840.10008.1.2.4.50
syntaxes | 1.2.840.10008.1.2.5 1.2.840.10008.1.2.4.50
dcmbox serve --port 104 --out files --transfer-syntax 1.2.840.10008.1.2.4.50 --all-syntaxes
syntaxes | all 24
dcmbox serve --port 104 --out files --transfer-syntax 1.2.840.10008.1.2.1
syntaxes | 1.2.840.10008.1.2.1
dcmbox replay FILE --out files --transfer-syntax 1.2.840.10008.1.2.5
syntaxes | 1.2.840.10008.1.2.5";

#[test]
fn syntaxes_are_those_that_are_asked_for(rt: HostRuntime) -> Result<(), Fail> {
    asks(rt.alloc(), ASKED)
}

static UNKNOWN: &str =
    "dcmbox serve --port 104 --out files --transfer-syntax 1.2.840.10008.1.2.2 --all-syntaxes
refused | error: --transfer-syntax takes the UID of a known transfer syntax, not '1.2.840.10008.1.2.2'; these are known:\
<LF>  1.2.840.10008.1.2 ImplicitVRLittleEndian\
<LF>  1.2.840.10008.1.2.1 ExplicitVRLittleEndian\
<LF>  1.2.840.10008.1.2.1.98 EncapsulatedUncompressedExplicitVRLittleEndian\
<LF>  1.2.840.10008.1.2.4.50 JPEGBaseline8Bit\
<LF>  1.2.840.10008.1.2.4.51 JPEGExtended12Bit\
<LF>  1.2.840.10008.1.2.4.57 JPEGLossless\
<LF>  1.2.840.10008.1.2.4.70 JPEGLosslessSV1\
<LF>  1.2.840.10008.1.2.4.80 JPEGLSLossless\
<LF>  1.2.840.10008.1.2.4.81 JPEGLSNearLossless\
<LF>  1.2.840.10008.1.2.4.90 JPEG2000Lossless\
<LF>  1.2.840.10008.1.2.4.91 JPEG2000\
<LF>  1.2.840.10008.1.2.4.92 JPEG2000MCLossless\
<LF>  1.2.840.10008.1.2.4.93 JPEG2000MC\
<LF>  1.2.840.10008.1.2.4.100 MPEG2MPML\
<LF>  1.2.840.10008.1.2.4.101 MPEG2MPHL\
<LF>  1.2.840.10008.1.2.4.102 MPEG4HP41\
<LF>  1.2.840.10008.1.2.4.103 MPEG4HP41BD\
<LF>  1.2.840.10008.1.2.4.104 MPEG4HP422D\
<LF>  1.2.840.10008.1.2.4.105 MPEG4HP423D\
<LF>  1.2.840.10008.1.2.4.106 MPEG4HP42STEREO\
<LF>  1.2.840.10008.1.2.4.107 HEVCMP51\
<LF>  1.2.840.10008.1.2.4.108 HEVCM10P51\
<LF>  1.2.840.10008.1.2.4.201 HTJ2KLossless\
<LF>  1.2.840.10008.1.2.4.202 HTJ2KLosslessRPCL\
<LF>  1.2.840.10008.1.2.4.203 HTJ2K\
<LF>  1.2.840.10008.1.2.5 RLELossless
dcmbox serve --port 104 --out files --transfer-syntax JPEGBaseline8Bit --all-syntaxes
refused | error: --transfer-syntax takes the UID of a known transfer syntax, not 'JPEGBaseline8Bit'; these are known:\
<LF>  1.2.840.10008.1.2 ImplicitVRLittleEndian\
<LF>  1.2.840.10008.1.2.1 ExplicitVRLittleEndian\
<LF>  1.2.840.10008.1.2.1.98 EncapsulatedUncompressedExplicitVRLittleEndian\
<LF>  1.2.840.10008.1.2.4.50 JPEGBaseline8Bit\
<LF>  1.2.840.10008.1.2.4.51 JPEGExtended12Bit\
<LF>  1.2.840.10008.1.2.4.57 JPEGLossless\
<LF>  1.2.840.10008.1.2.4.70 JPEGLosslessSV1\
<LF>  1.2.840.10008.1.2.4.80 JPEGLSLossless\
<LF>  1.2.840.10008.1.2.4.81 JPEGLSNearLossless\
<LF>  1.2.840.10008.1.2.4.90 JPEG2000Lossless\
<LF>  1.2.840.10008.1.2.4.91 JPEG2000\
<LF>  1.2.840.10008.1.2.4.92 JPEG2000MCLossless\
<LF>  1.2.840.10008.1.2.4.93 JPEG2000MC\
<LF>  1.2.840.10008.1.2.4.100 MPEG2MPML\
<LF>  1.2.840.10008.1.2.4.101 MPEG2MPHL\
<LF>  1.2.840.10008.1.2.4.102 MPEG4HP41\
<LF>  1.2.840.10008.1.2.4.103 MPEG4HP41BD\
<LF>  1.2.840.10008.1.2.4.104 MPEG4HP422D\
<LF>  1.2.840.10008.1.2.4.105 MPEG4HP423D\
<LF>  1.2.840.10008.1.2.4.106 MPEG4HP42STEREO\
<LF>  1.2.840.10008.1.2.4.107 HEVCMP51\
<LF>  1.2.840.10008.1.2.4.108 HEVCM10P51\
<LF>  1.2.840.10008.1.2.4.201 HTJ2KLossless\
<LF>  1.2.840.10008.1.2.4.202 HTJ2KLosslessRPCL\
<LF>  1.2.840.10008.1.2.4.203 HTJ2K\
<LF>  1.2.840.10008.1.2.5 RLELossless";

#[test]
fn a_syntax_is_refused_with_those_that_are_known(rt: HostRuntime) -> Result<(), Fail> {
    asks(rt.alloc(), UNKNOWN)
}

static SIXTEEN: &str = "dcmbox replay FILE --out files --transfer-syntax=1.2.840.10008.1.2.4.50*16
syntaxes count | 16
dcmbox replay FILE --out files --transfer-syntax=1.2.840.10008.1.2.4.50*17
refused | error: --transfer-syntax may be given 16 times at most";

#[test]
fn more_than_sixteen_are_refused(rt: HostRuntime) -> Result<(), Fail> {
    asks(rt.alloc(), SIXTEEN)
}

static COMPRESSED: &str = "dcmbox show FILE --json --all-syntaxes
all-syntaxes | yes
dcmbox show FILE --json
all-syntaxes | no
dcmbox check FILE --json --all-syntaxes
all-syntaxes | yes
dcmbox check FILE --json
all-syntaxes | no
dcmbox index FILE --uid 2.25.1 --keep --all-syntaxes
all-syntaxes | yes
dcmbox index FILE --uid 2.25.1 --keep
all-syntaxes | no";

#[test]
fn compressed_files_are_read_where_that_is_asked_for(rt: HostRuntime) -> Result<(), Fail> {
    asks(rt.alloc(), COMPRESSED)
}
