//! DCMBOX, a DICOM storage receiver: the `main` of the program `dcmbox`.
#![tactic(auto)]

use commands::run_program;
use std::process::ExitCode;

fn main(rt: HostRuntime) -> ExitCode {
    run_program(&rt)
}
