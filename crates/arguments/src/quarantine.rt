//! Reads the settings of the quarantine.
ghost use Rattle.std.specs.Prelude.{◌≡◌, IfOk, codes};
ghost use Rattle.clap.specs.Walk.{first_of};
ghost use Rattle.arguments.specs.AskedQuarantine.{IsQuarantine};

use crate::given::Given;
use crate::options::QuarantineOption;
use crate::settings::number;
use failures::WordsError;
use std::alloc::Global;

/// The most data sets in a quarantine by default.
const DEFAULT_MOST: u32 = 100;

/// Returns the quarantine that the arguments of `serve` request, if any. Fails if they limit one
/// without a folder.
pub(crate) fn quarantine_of<'a>(
    alloc: Global,
    given: &Given<'a>,
) -> Result<Option<QuarantineOption<'a>>, WordsError>
    ensures { IfOk result (λ q. IsQuarantine q (first_of (codes "quarantine") given.now) (first_of (codes "quarantine-most") given.now)) }
{
    match (given.get("quarantine"), given.get("quarantine-most")) {
        (None, None) => Ok(None),
        (Some(dir), None) => Ok(Some(QuarantineOption {
            dir,
            most: DEFAULT_MOST,
        })),
        (Some(dir), Some(text)) => {
            let most = number(alloc, "quarantine-most", text, 1, 999_999)?;
            Ok(Some(QuarantineOption {
                dir,
                most: most as u32,
            }))
        }
        (None, Some(_)) => {
            Err(WordsError::refused(alloc, "--quarantine-most goes with --quarantine"))
        }
    }
}
