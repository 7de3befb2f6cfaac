//! The result of an inspection.

/// Whether a fault was found.
#[derive(Clone, Copy, Debug, PartialEq, Eq)]
pub enum Outcome {
    /// No fault: exit status 0.
    Good,
    /// A fault, which the last line of the output names: exit status 1.
    Faulty,
}

/// The result of inspecting a file.
#[derive(Clone, Copy, Debug)]
pub struct Inspected {
    pub outcome: Outcome,
    /// How many notes were written.
    pub notes: u64,
    /// How many values a strict check could not judge: their VR is unknown or UN.
    pub unjudged: u64,
}
