//! Reads the settings of `send` and `echo`.
ghost use Rattle.std.specs.Prelude.{◌≡◌, IfOk, IfSome, IsSomeAnd, Some, true, codes, option_map};
ghost use Rattle.clap.specs.Walk.{first_of};
ghost use Rattle.element.specs.Title.{title_of_text};
ghost use Rattle.arguments.specs.AskedSend.{IsArchive, IsSend};
ghost use Rattle.arguments.specs.CommandLine.{is_given};

use crate::given::Given;
use crate::options::{Archive, Send};
use crate::service_options::seconds_of;
use crate::settings::title;
use element::AeTitle;
use failures::WordsError;
use std::alloc::Global;

/// Reads the host and the port, which is a number from 1 to 65535.
fn address_of<'a>(alloc: Global, given: &Given<'a>) -> Result<&'a str, WordsError>
    ensures { IfOk result (λ t. first_of (codes "HOST:PORT") given.now ≡ Some t.now) }
{
    let address = given.text(alloc, "HOST:PORT")?;
    if let Some((host, port)) = address.rsplit_once(':') {
        if !host.is_empty() && matches!(port.parse::<u16>(), Ok(port) if port > 0) {
            return Ok(address);
        }
    }
    let reason = format_args!(
        "HOST:PORT takes a host and a port, as archive.example:104 or \
        [2001:db8::1]:104, not '{address}'"
    );
    Err(WordsError::refused(alloc, reason))
}

/// Reads the AE title that the option gives.
fn title_of(alloc: Global, given: &Given, option: &str) -> Result<AeTitle, WordsError>
    ensures { IfOk result (λ t. IsSomeAnd (first_of option.now given.now) (λ text. title_of_text text ≡ Some t.0)) }
{
    title(alloc, option, given.text(alloc, option)?)
}

/// Returns the archive that the arguments name.
pub fn archive_of<'a>(alloc: Global, given: &Given<'a>) -> Result<Archive<'a>, WordsError>
    ensures { IfOk result (λ a. IsArchive a given.now) }
{
    Ok(Archive {
        address: address_of(alloc, given)?,
        called: title_of(alloc, given, "aec")?,
        calling: title_of(alloc, given, "aet")?,
        timeout: seconds_of(alloc, given, "timeout", 1)?,
    })
}

/// Returns the folder of refused files, if any. Fails if filed files are not removed.
fn refused_of<'a>(alloc: Global, given: &Given<'a>) -> Result<Option<&'a str>, WordsError>
    ensures refused { IfOk result (λ r. first_of (codes "refused") given.now ≡ option_map (λ t. t.now) r) }
    ensures moved { IfOk result (λ r. IfSome r (λ t. is_given given.now (codes "move") ≡ true)) }
{
    match given.get("refused") {
        Some(_) if !given.flag("move") => {
            Err(WordsError::refused(alloc, "--refused goes with --move"))
        }
        refused => Ok(refused),
    }
}

/// Returns the settings of `send` from its arguments.
pub fn send_settings<'a>(alloc: Global, given: &Given<'a>) -> Result<Send<'a>, WordsError>
    ensures send { IfOk result (λ s. IsSend s given.now) }
{
    Ok(Send {
        dir: given.text(alloc, "DIR")?,
        archive: archive_of(alloc, given)?,
        remove: given.flag("move"),
        refused: refused_of(alloc, given)?,
        any_name: given.flag("any-name"),
        verbose: given.flag("verbose"),
        json: given.flag("json"),
    })
}
