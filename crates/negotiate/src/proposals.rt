//! Decides which proposed presentation contexts are accepted.
ghost use Rattle.std.specs.Prelude.{◌≡◌};
ghost use Rattle.negotiate.specs.Contexts as spelling;
ghost use Rattle.negotiate.specs.Settings.{settings_of};

use crate::config::Config;
use dictionary::{Class, Transfer, class_of, syntax_of};
use element::{Syntax, Uid};
use pdu::Proposal;

/// The service that the abstract syntax of a presentation context names.
#[derive(Debug, PartialEq, Eq, Drop)]
pub enum Service {
    /// A class of the dictionary: Verification, or one of eleven storage classes.
    Known(Class),
    /// An additional storage class that the settings accept.
    Additional(Uid),
}

/// An accepted presentation context.
#[derive(Debug, PartialEq, Eq, Drop)]
pub struct Context {
    /// The service, by its abstract syntax.
    pub class: Service,
    /// The transfer syntax of its data sets.
    pub syntax: Transfer,
}

/// Result of a proposed context: acceptance (PS3.8 Table 9-18).
const ACCEPTANCE: u8 = 0;

/// Result: abstract-syntax-not-supported.
const ABSTRACT_SYNTAX_NOT_SUPPORTED: u8 = 3;

/// Result: transfer-syntaxes-not-supported.
const TRANSFER_SYNTAXES_NOT_SUPPORTED: u8 = 4;

/// Returns the native transfer syntax to choose from those that a context proposes: Explicit VR
/// Little Endian, else Implicit VR Little Endian, else `None`.
fn chosen_syntax(proposal: &Proposal) -> Option<Syntax>
    ensures { result ≡ spelling.chosen proposal.now.transfer_syntaxes }
{
    let mut has_implicit = false;
    for uid in proposal.transfer_syntaxes() {
        match syntax_of(uid) {
            Some(Syntax::Explicit) => return Some(Syntax::Explicit),
            Some(Syntax::Implicit) => has_implicit = true,
            None => {}
        }
    }
    if has_implicit {
        Some(Syntax::Implicit)
    } else {
        None
    }
}

/// Returns the first proposed transfer syntax of a context that the settings accept.
fn first_allowed(config: &Config, proposal: &Proposal) -> Option<Transfer>
    ensures { result ≡ spelling.first_known (spelling.allowed_transfers (settings_of config.now).additional.transfers proposal.now.transfer_syntaxes) }
{
    for uid in proposal.transfer_syntaxes() {
        if let Some(transfer) = Transfer::of(uid) {
            if config.accepts(transfer) {
                return Some(transfer);
            }
        }
    }
    None
}

/// Returns the transfer syntax to choose from those that a context proposes: a native one if there
/// is one, else the first that the settings accept.
fn agreed_transfer(config: &Config, proposal: &Proposal) -> Option<Transfer>
    ensures { result ≡ spelling.agreed (spelling.allowed_transfers (settings_of config.now).additional.transfers proposal.now.transfer_syntaxes) }
{
    match chosen_syntax(proposal) {
        Some(syntax) => Some(Transfer::native(syntax)),
        None => first_allowed(config, proposal),
    }
}

/// Returns the service that an abstract syntax names, if it is accepted.
fn allowed_service(config: &Config, bytes: &[u8]) -> Option<Service>
    ensures { result ≡ spelling.service_of (spelling.allowed_syntax (settings_of config.now).additional.classes bytes.now) }
{
    match class_of(bytes) {
        Some(class) => Some(Service::Known(class)),
        None => match Uid::read(bytes) {
            Some(uid) => match config.class_index(&uid) {
                Some(_) => Some(Service::Additional(uid)),
                None => None,
            },
            None => None,
        },
    }
}

/// Returns the context, or `None` if it is rejected.
pub(crate) fn accepted(config: &Config, proposal: &Proposal) -> Option<Context>
    ensures { result ≡ spelling.accepted (spelling.seen (settings_of config.now).additional proposal.now) }
{
    match (
        allowed_service(config, proposal.abstract_syntax()),
        agreed_transfer(config, proposal),
    ) {
        (Some(class), Some(syntax)) => Some(Context { class, syntax }),
        (_, _) => None,
    }
}

/// Returns the result of a proposed context (PS3.8 Table 9-18).
pub fn result_of(config: &Config, proposal: &Proposal) -> u8
    ensures { result ≡ spelling.result_of (spelling.seen (settings_of config.now).additional proposal.now) }
{
    match (
        allowed_service(config, proposal.abstract_syntax()),
        agreed_transfer(config, proposal),
    ) {
        (None, _) => ABSTRACT_SYNTAX_NOT_SUPPORTED,
        (Some(_), None) => TRANSFER_SYNTAXES_NOT_SUPPORTED,
        (Some(_), Some(_)) => ACCEPTANCE,
    }
}

/// Returns the transfer syntax that the answer to a proposed context carries.
pub(crate) fn carried(config: &Config, proposal: &Proposal) -> Transfer
    ensures { result ≡ spelling.carried (spelling.seen (settings_of config.now).additional proposal.now) }
{
    match accepted(config, proposal) {
        Some(context) => context.syntax,
        None => Transfer::Implicit,
    }
}
