//! The printed form of faults and of the status of an association.
use dicomdir::DirFault;
use dimse::DimseFault;
use element::{Tag, ValueFault};
use engine::Standing;
use part10::MetaFault;
use pdu::PduFault;
use sequence::Fault;
use std::alloc::Global;
use std::fmt::Display;
use std::process::Abort;
use std::test::Fail;

/// Fails unless the value is printed as this text.
fn prints<D: Display + Drop>(
    rt: &impl Abort,
    alloc: Global,
    value: D,
    text: &str,
) -> Result<(), Fail> {
    let printed = format!(in alloc; "{value}")?;
    assert!(rt; printed.as_str() == text, "{text}");
    Ok(())
}

/// The tag of faults in the test cases.
const TAG: Tag = Tag(0x0008, 0x7fe0);

#[test]
fn faults_are_printed(rt: HostRuntime) -> Result<(), Fail> {
    prints(&rt, rt.alloc(), PduFault::BadLength, "31 BadLength")?;
    prints(&rt, rt.alloc(), DimseFault::BadCommand, "41 BadCommand")?;
    prints(&rt, rt.alloc(), MetaFault::BadMeta, "51 BadMeta")?;
    prints(&rt, rt.alloc(), ValueFault::TooLongValue, "TooLongValue")?;
    let overrun = Fault {
        number: Fault::OVERRUN,
        offset: 26,
        tag: TAG,
    };
    prints(&rt, rt.alloc(), overrun, "17 Overrun at 26 tag 0008,7fe0")
}

/// The tag is printed for faults of the data set only.
#[test]
fn faults_of_a_directory_are_printed(rt: HostRuntime) -> Result<(), Fail> {
    for (number, text) in [
        (Fault::BAD_VR, "10 BadVr at 346 tag 0008,7fe0"),
        (Fault::KEPT_TOO_LONG, "21 KeptTooLong at 346 tag 0008,7fe0"),
        (50, "50 NotPart10 at 346"),
        (DirFault::CYCLE, "61 Cycle at 346"),
    ] {
        let fault = DirFault {
            number,
            offset: 346,
            tag: TAG,
        };
        prints(&rt, rt.alloc(), fault, text)?;
    }
    Ok(())
}

#[test]
fn standings_are_printed(rt: HostRuntime) -> Result<(), Fail> {
    prints(&rt, rt.alloc(), Standing::Open, "Open")?;
    prints(&rt, rt.alloc(), Standing::Closing, "Closing")?;
    prints(&rt, rt.alloc(), Standing::Ended, "Ended")
}
