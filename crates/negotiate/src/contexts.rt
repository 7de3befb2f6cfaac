//! The accepted presentation contexts.
ghost use Rattle.std.specs.Prelude.{◌≡◌};
ghost use Rattle.negotiate.specs.Contexts as spelling;
ghost use Rattle.negotiate.specs.Settings.{settings_of};

use crate::config::Config;
use crate::proposals::{Context, accepted};
use pdu::Request;

/// Returns the accepted context with this ID of a request that `judge` accepts, or `None` if that
/// context is not proposed or is rejected.
pub fn context(config: &Config, request: &Request, id: u8) -> Option<Context>
    ensures { result ≡ spelling.context_of (spelling.offered (settings_of config.now).additional request.now) id }
{
    for proposal in request.contexts() {
        if proposal.id() == id {
            return accepted(config, &proposal);
        }
    }
    None
}
