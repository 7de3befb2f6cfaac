//! Judges association requests.
ghost use Rattle.std.specs.Prelude.{◌≡◌, map};
ghost use Rattle.negotiate.specs.Answer.{judged};
ghost use Rattle.negotiate.specs.Answer as spelling;
ghost use Rattle.negotiate.specs.Rejections.{rejected_permanent, service_user};
ghost use Rattle.negotiate.specs.Settings.{settings_of};

use crate::config::Config;
use crate::rejection;
use dictionary::APPLICATION_CONTEXT;
use element::AeTitle;
use pdu::Request;

/// The answer to an A-ASSOCIATE-RQ.
#[derive(Clone, Copy, Debug, PartialEq, Eq)]
pub enum Answer {
    /// An A-ASSOCIATE-AC (PS3.8 section 9.3.3).
    Accept,
    /// An A-ASSOCIATE-RJ with this result, source and reason (PS3.8 section 9.3.4).
    Reject(u8, u8, u8),
}

fn is_among(titles: &[AeTitle], title: AeTitle) -> bool
    ensures { result ≡ spelling.is_among (map (λ t. t.0) titles.now) title.0 }
{
    titles.contains(&title)
}

/// Returns whether a peer may use this called title.
fn may_be_called(config: &Config, called: AeTitle) -> bool
    ensures { result ≡ spelling.may_be_called (settings_of config.now) called.0 }
{
    config.any_called || config.ae == called || is_among(config.also.as_slice(), called)
}

/// Returns the answer to a request: the rejection for the first of these rules that it breaks, else
/// an acceptance. Bit 0 of the protocol version is set; the application context is DICOM's; the
/// called title is one of the receiver's; the calling title may call; the maximum length is 0 (no
/// limit) or at least 8, so that a fragment fits (this product's own profile). The first rejection
/// is the service provider's, the others are the local user's.
pub fn judge(config: &Config, request: &Request) -> Answer
    ensures { result ≡ judged (settings_of config.now) request.now }
{
    if request.version() % 2 == 0 {
        return Answer::Reject(
            rejection::PERMANENT,
            rejection::SERVICE_PROVIDER_ACSE,
            rejection::PROTOCOL_VERSION_NOT_SUPPORTED,
        );
    }
    if request.application_context() != APPLICATION_CONTEXT {
        return user_rejection(rejection::APPLICATION_CONTEXT_NAME_NOT_SUPPORTED);
    }
    if !may_be_called(config, request.called()) {
        return user_rejection(rejection::CALLED_AE_TITLE_NOT_RECOGNIZED);
    }
    if !config.may_call(request.calling()) {
        return user_rejection(rejection::CALLING_AE_TITLE_NOT_RECOGNIZED);
    }
    if (1..=7).contains(&request.maximum()) {
        return user_rejection(rejection::NO_REASON_GIVEN);
    }
    Answer::Accept
}

/// Returns the local user's rejection with this reason.
fn user_rejection(reason: u8) -> Answer
    ensures { result ≡ Answer.Reject rejected_permanent service_user reason }
{
    Answer::Reject(rejection::PERMANENT, rejection::SERVICE_USER, reason)
}
