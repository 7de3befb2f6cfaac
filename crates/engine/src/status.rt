//! The status of the response to a C-ECHO (PS3.7 annex C).
ghost use Rattle.std.specs.Prelude.{◌≡◌};
ghost use Rattle.engine.specs.Replies as spelling;

use dictionary::{Class, class_of};
use dimse::Command;
use dimse::status::{CLASS_NOT_SUPPORTED, SUCCESS};
use negotiate::{Context, Service};

fn is_verification(class: Option<Class>) -> bool
    ensures { result ≡ spelling.is_verification class }
{
    matches!(class, Some(Class::Verification))
}

/// Returns the class of a presentation context, if there is one and its class is in the dictionary.
fn class_by(context: Option<Context>) -> Option<Class>
    ensures { result ≡ spelling.class_by context }
{
    match context {
        Some(context) => match context.class {
            Service::Known(class) => Some(class),
            Service::Additional(_) => None,
        },
        None => None,
    }
}

/// Returns the status of the response to a C-ECHO in this presentation context: Success if both the
/// command and the context have the Verification SOP Class, else 0122 (SOP class not supported).
pub(crate) fn echo_status(context: Option<Context>, command: &Command) -> u16
    ensures { result ≡ spelling.echo_status context command.now }
{
    let named = class_of(command.class().as_bytes());
    if is_verification(named) && is_verification(class_by(context)) {
        SUCCESS
    } else {
        CLASS_NOT_SUPPORTED
    }
}
