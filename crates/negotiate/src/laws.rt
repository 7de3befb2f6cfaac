//! Lemmas on the definitions, each stated as the contract of a function with an empty body.
ghost use Rattle.std.specs.Prelude.{◌≡◌, ◌≤◌, ◌⊎◌, ℕ, List, Some, None, [], eqb, length, nat_eq, option_map, option_and_then};
ghost use Rattle.std.specs.List.{IsDistinct, find};
ghost use Rattle.dictionary.specs.Classes.{class_of};
ghost use Rattle.dictionary.specs.Transfers.{native};
ghost use Rattle.element.specs.Numbers.{IsBytes};
ghost use Rattle.element.specs.declared.syntax.Syntax.{Syntax};
ghost use Rattle.pdu.specs.Items.{request_record};
ghost use Rattle.pdu.specs.Record.{Proposal, RequestRecord, ids};
ghost use Rattle.pdu.specs.Refusal.{request_fault};
ghost use Rattle.negotiate.specs.Accept.{accept_text, longest_accept};
ghost use Rattle.negotiate.specs.ContextLaws.{TableIsOffered, accepted_by_default, service_allowed};
ghost use Rattle.negotiate.specs.ContextRows.{accepted_count, context_rows};
ghost use Rattle.negotiate.specs.Contexts.{accepted, accepted_by, agreed, carried, carried_by, chosen, context_of, offered, result_by, result_of, seen};
ghost use Rattle.negotiate.specs.Rejections as spelling;
ghost use Rattle.negotiate.specs.Allowed.{Allowed, nothing_additional};
ghost use Rattle.negotiate.specs.Settings.{Settings, default_max_data, default_max_pdu};
ghost use Rattle.negotiate.specs.Answer.{judged};
ghost use Rattle.negotiate.specs.declared.answer.Answer.TheVariants.{Accept};

use crate::config::Config;
use crate::rejection::{
    APPLICATION_CONTEXT_NAME_NOT_SUPPORTED, CALLED_AE_TITLE_NOT_RECOGNIZED,
    CALLING_AE_TITLE_NOT_RECOGNIZED, LOCAL_LIMIT_EXCEEDED, NO_REASON_GIVEN, PERMANENT,
    PROTOCOL_VERSION_NOT_SUPPORTED, SERVICE_PROVIDER_ACSE, SERVICE_PROVIDER_PRESENTATION,
    SERVICE_USER, TRANSIENT,
};

/// The table of a request has one row for each accepted context and no other. Looking up a
/// presentation context ID gives the same in the table as in the request.
pub fn table_has_the_accepted_contexts()
    ensures contexts { (additional : Allowed) (r : RequestRecord) → IsDistinct eqb (ids r.contexts) → TableIsOffered additional r }
    ensures count { (additional : Allowed) (r : RequestRecord) → length (context_rows additional r) ≡ accepted_count r }
{}

/// Without additional classes or transfer syntaxes, the dictionary's classes alone determine the
/// result of each proposed context and the context that is accepted under an ID.
pub fn by_default_the_dictionary_decides()
    ensures result { (p : Proposal) → result_of (seen nothing_additional p) ≡ result_by (class_of p.abstract_syntax) (chosen p.transfer_syntaxes) }
    ensures context { (r : RequestRecord) (id : ℕ) →
        context_of (offered nothing_additional r) id ≡ option_and_then accepted_by_default (find (λ p. nat_eq p.id id) r.contexts) }
{}

/// Without additional transfer syntaxes, the two native ones alone determine the result of each
/// proposed context, the context that is accepted and the transfer syntax that the answer carries.
pub fn by_default_the_native_syntaxes_decide()
    ensures result { (additional : Allowed) (p : Proposal) → additional.transfers ≡ [] → result_of (seen additional p) ≡ result_by (service_allowed additional p) (chosen p.transfer_syntaxes) }
    ensures context { (additional : Allowed) (p : Proposal) → additional.transfers ≡ [] →
        accepted (seen additional p) ≡ accepted_by (service_allowed additional p) (option_map native (chosen p.transfer_syntaxes)) }
    ensures carried { (additional : Allowed) (p : Proposal) → additional.transfers ≡ [] →
        carried (seen additional p) ≡ carried_by (service_allowed additional p) (option_map native (chosen p.transfer_syntaxes)) }
{}

/// If a context proposes a native transfer syntax, no additional one is chosen, whatever the
/// settings accept.
pub fn native_syntaxes_are_preferred()
    ensures { (additional : Allowed) (p : Proposal) (s : Syntax) → chosen p.transfer_syntaxes ≡ Some s → agreed (seen additional p).transfer_syntaxes ≡ Some (native s) }
{}

/// The maximum length of a peer whose request is accepted allows fragments: it is 0 (no limit) or
/// at least 8.
pub fn accepted_peers_take_fragments()
    ensures { (s : Settings) (r : RequestRecord) → judged s r ≡ Accept → (r.maximum ≡ 0) ⊎ (8 ≤ r.maximum) }
{}

/// An A-ASSOCIATE-AC has at most 4,620 bytes: 140, and 35 for each of at most 128 contexts.
pub fn acceptances_are_short()
    ensures { (s : Settings) (body : List ℕ) → IsBytes body → request_fault body ≡ None → length (accept_text s (request_record body)) ≤ longest_accept }
{}

/// The default settings equal those of the definitions.
pub fn defaults_are_named()
    ensures max_pdu { Config.DEFAULT_MAX_PDU ≡ default_max_pdu }
    ensures max_data { Config.DEFAULT_MAX_DATA ≡ default_max_data }
{}

/// The numbers in rejections equal those of the definitions.
pub fn rejections_are_named()
    ensures permanent { PERMANENT ≡ spelling.rejected_permanent }
    ensures transient { TRANSIENT ≡ spelling.rejected_transient }
    ensures service_user { SERVICE_USER ≡ spelling.service_user }
    ensures service_provider_acse { SERVICE_PROVIDER_ACSE ≡ spelling.service_provider_acse }
    ensures service_provider_presentation { SERVICE_PROVIDER_PRESENTATION ≡ spelling.service_provider_presentation }
    ensures no_reason_given { NO_REASON_GIVEN ≡ spelling.no_reason_given }
    ensures application_context_name_not_supported { APPLICATION_CONTEXT_NAME_NOT_SUPPORTED ≡ spelling.application_context_name_not_supported }
    ensures calling_ae_title_not_recognized { CALLING_AE_TITLE_NOT_RECOGNIZED ≡ spelling.calling_ae_title_not_recognized }
    ensures called_ae_title_not_recognized { CALLED_AE_TITLE_NOT_RECOGNIZED ≡ spelling.called_ae_title_not_recognized }
    ensures protocol_version_not_supported { PROTOCOL_VERSION_NOT_SUPPORTED ≡ spelling.protocol_version_not_supported }
    ensures local_limit_exceeded { LOCAL_LIMIT_EXCEEDED ≡ spelling.local_limit_exceeded }
{}
