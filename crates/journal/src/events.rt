//! The events of the log, each with the text and the fields of its line.
use crate::event::Event;
use crate::line_limits::Limited;
use log::Level;

macro_rules! event {
    ($level:ident $name:literal: $parts:literal) => {
        Event {
            level: Level::$level,
            name: $name,
            parts: $parts,
            limit: None,
        }
    };
    ($level:ident $name:literal limited to $limit:ident: $parts:literal) => {
        Event {
            limit: Some(Limited::$limit),
            ..event!($level $name: $parts)
        }
    };
}

/// The server starts: its version and configuration, the number of old drafts that it removed, and
/// what it accepts.
pub const STARTED: Event = event!(Info "started": "dcmbox| {version}| title \"{title}\"\
    | folder {folder}| limits max-pdu {max-pdu}| max-data {max-data}| at-once {at-once}\
    | removed drafts {drafts}| titles {titles}| callers {callers}| classes {classes}\
    | and {further-classes} named| syntaxes {syntaxes}| quarantine {quarantine}");
/// The server listens at this address and port.
pub const LISTENING: Event = event!(Info "listening": "listening| on {address}");
/// The server was asked to stop.
pub const STOPPING: Event = event!(Info "stopping": "stopping");
/// The server has stopped.
pub const STOPPED: Event = event!(Info "stopped": "stopped");
/// The file of calling titles was read anew: this many titles may call from now on.
pub const CALLERS_READ: Event =
    event!(Info "callers read": "the calling titles were read anew:| {callers} may call");
/// The file of calling titles has changed and cannot be used. The titles that were read before still
/// apply.
pub const CALLERS_NOT_READ: Event =
    event!(Error "callers not read": "the calling titles stay as they were|: {reason}");
/// Every slot, of this number, has an association.
pub const SLOTS_FULL: Event =
    event!(Warn "places full": "all places are taken, and connections wait| places {places}");
/// The peer has as many associations as one address may have, which is this number.
pub const PEER_FULL: Event = event!(Warn "peer full":
    "the peer has as many places as it may have, and its connections wait| places {places}");
/// A connection was closed at once, as the maximum number of connections wait for a slot.
pub const TURNED_AWAY: Event =
    event!(Warn "turned away": "the connection was closed, since too many wait for a place");
/// A connection got the only slot after it waited for at least this many seconds.
pub const WAITED: Event =
    event!(Warn "waited": "the connection waited| {seconds} s for the one place");
/// A connection could not be accepted.
pub const NOT_ACCEPTED: Event =
    event!(Error "not accepted": "a connection could not be accepted|: {error}");
/// No association could be opened over a connection.
pub const CONNECTION_FAILED: Event =
    event!(Error "connection failed" limited to Connection: "the connection failed|: {error}");
/// The names that files were given could not be synced to the disk. The files whose replies waited
/// for that are lost.
pub const NAMES_NOT_SYNCED: Event =
    event!(Error "folder not synced" limited to Names: "the folder could not be synced|: {error}");
/// The metrics could not be written. Serving continues.
pub const METRICS_NOT_WRITTEN: Event =
    event!(Warn "metrics not written": "the metrics could not be written|: {error}");
/// The metrics were written, after writing them had failed.
pub const METRICS_WRITTEN: Event = event!(Info "metrics written": "the metrics are written again");
/// Few file numbers remain in the folder, from this file on.
pub(crate) const NUMBERS_LOW: Event = event!(Warn "numbers low": "few numbers are left, so file \
    with --per, or start anew without the files and that of --numbers|: {file} of 9999999");
/// This many lines were left out by their rate limit, about this subject.
pub(crate) const LINES_OMITTED: Event =
    event!(Warn "lines left out": "lines left out:| {lines}| of {of}");

/// An association request was rejected.
pub(crate) const REJECTED: Event = event!(Warn "rejected":
    "rejected|: {reason}| calling \"{calling}\"| called \"{called}\"");
/// dcmbox aborted the association, perhaps for an invalid element of the command set.
pub(crate) const ABORTED: Event =
    event!(Warn "aborted": "{end}| element {element}| \"{value}\"| calling \"{calling}\"");
/// No context of these classes was accepted: a warning only if one may be a storage class.
pub(crate) const CLASSES_REFUSED: Event = event!(Warn "classes refused":
    "classes refused|: {classes}| and {others} more| calling \"{calling}\"");
/// Contexts of these classes were accepted and others refused for their transfer syntaxes, and the
/// peer asked for no store or aborted.
pub(crate) const SYNTAXES_REFUSED: Event = event!(Warn "syntaxes refused":
    "syntaxes refused|: {classes}| and {others} more| calling \"{calling}\"");
/// A proposed presentation context was not accepted.
pub(crate) const CONTEXT_REFUSED: Event = event!(Trace "context refused":
    "context| {context}| refused: {reason}| class {class}| syntaxes {syntaxes}");
/// An association ended.
pub(crate) const ENDED: Event = event!(Info "association": "{state}| held {held}| files {files}\
    | dropped {dropped}| received {received}| in {seconds} s| calling \"{calling}\"\
    | called \"{called}\"| {end}| contexts {accepted}| of {proposed}| stored {stored}\
    | refused {refused}| failed {failed}");

/// The reply to a C-ECHO did not report success.
pub(crate) const ECHO_REFUSED: Event =
    event!(Warn "echo refused": "an echo was refused:| status {status}| calling \"{calling}\"");
/// The reply to a store.
pub(crate) const ANSWERED: Event = event!(Debug "store": "store| class {class}\
    | instance {instance}| syntax {syntax}| bytes {bytes}| status {status}| {fault}| tag {tag}\
    | file {file}");
/// The reply to a store that did not report success.
pub(crate) const NOT_STORED: Event = event!(Warn "not stored": "not stored:| status {status}\
    | {fault}| tag {tag}| {reason}| class {class}| instance {instance}| syntax {syntax}\
    | calling \"{calling}\"");
/// More stores of the association without success, which have no lines of their own: their number,
/// and the reply to the last.
pub(crate) const MORE_NOT_STORED: Event = event!(Warn "more not stored": "not stored:\
    | {stores} more, the last with| status {status}| {fault}| tag {tag}| calling \"{calling}\"");
/// The association ended before the reply to stores: their number, and the last of them, if it is
/// known.
pub(crate) const UNANSWERED: Event = event!(Warn "not answered": "not stored: no reply,| {end}\
    | class {class}| instance {instance}| stores {stores}| calling \"{calling}\"");
/// A store was filed, but the association ended before its reply was sent completely.
pub(crate) const NOT_CONFIRMED: Event = event!(Warn "not confirmed": "filed, but not confirmed:\
    | {end}| file {file}| class {class}| instance {instance}| calling \"{calling}\"");
/// A file could not be written, with its store, if that is known.
pub(crate) const FILING_FAILED: Event =
    event!(Error "filing failed" limited to File: "a file could not be \
    written|: {error}| class {class}| instance {instance}| calling \"{calling}\"");

/// A data set was quarantined, in this file.
pub(crate) const QUARANTINED: Event =
    event!(Info "quarantined" limited to Quarantined: "kept in the quarantine:| {file}| bytes {bytes}");
/// A data set could not be quarantined.
pub(crate) const NOT_QUARANTINED: Event =
    event!(Warn "not quarantined" limited to NotQuarantined: "a data set could not be kept in the quarantine|: {error}");
/// The quarantine has its maximum number of data sets, so no more are kept.
pub const QUARANTINE_FULL: Event = event!(Warn "quarantine full":
    "the quarantine is full, and no further data set is kept there");
/// This many drafts, which a killed program had left, were removed from the quarantine.
pub const QUARANTINE_CLEARED: Event = event!(Info "quarantine cleared":
    "removed from the quarantine:| {drafts} drafts that were left");
/// The text beside a quarantined data set. It is no line of the log.
pub(crate) const QUARANTINE_SHEET: Event = event!(Info "quarantined": "{calling}|{called}|{status}\
    |{fault}|{tag}|{reason}|{class}|{instance}|{received}|{kept}|{whole}");
