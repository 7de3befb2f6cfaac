//! Converts what a walker read into the [`Step`] that it returns.
ghost use Rattle.std.specs.Prelude.{◌≡◌};
ghost use Rattle.sequence.specs.machine.Made.{header_reported, made_reported, value_reported};

use crate::broken::same_tag;
use crate::stage::Stage;
use crate::step::Step;
use element::{Header, Tag};

/// Returns the result of a step that read bytes of a header. `made` is the header that these bytes
/// completed, if any; `stage` is the walker's stage after the step.
pub fn header_step<'p>(stage: Stage, made: Option<Header>) -> Step<'p>
    ensures { result ≡ header_reported stage made }
{
    // One arm for each line of the definition: the proof goes through them one by one.
    match stage {
        Stage::Stopped(fault) => Step::Refused(fault),
        Stage::Heading => made_step(made),
        Stage::Value { .. } => made_step(made),
    }
}

/// Returns the result of a step that broke no rule: the completed header, by its tag, or
/// `Step::More`.
fn made_step<'p>(made: Option<Header>) -> Step<'p>
    ensures { result ≡ made_reported made }
{
    match made {
        None => Step::More,
        Some(header) => {
            if !header.tag.is_marker() {
                Step::Element(header)
            } else if same_tag(header.tag, Tag::ITEM) {
                Step::Opened(header)
            } else {
                Step::Closed(header)
            }
        }
    }
}

/// Returns the result of a step that consumed the bytes `run` of a value. `stage`, the walker's stage
/// after it, has a fault if the value ended and no header fits before the end of a level.
pub fn value_step<'p>(stage: Stage, run: &'p [u8]) -> Step<'p>
    ensures { value_reported stage run.now result }
{
    // One arm for each line of the definition: the proof goes through them one by one.
    match stage {
        Stage::Stopped(fault) => Step::Refused(fault),
        Stage::Heading => Step::Run(run),
        Stage::Value { .. } => Step::Run(run),
    }
}
