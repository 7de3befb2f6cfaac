//! Reads the settings of commands.
ghost use Rattle.std.specs.Prelude.{◌≡◌, ◌≤◌, ◌^◌, ◌++◌, IfOk, IsSomeAnd, Some, codes, length, map, option_map, unwrap_or};
ghost use Rattle.clap.specs.Walk.{count_of, first_of};
ghost use Rattle.element.specs.Title.{title_of_text};
ghost use Rattle.element.specs.Uid.{uid_of};
ghost use Rattle.negotiate.specs.Settings.{registered, settings_of};
ghost use Rattle.arguments.specs.Asked.{AsksFor, Spells, IsLevel, IsForm, IsLayout, IsDirectoryUid, IsServed, IsReplayed, IsIndexed};
ghost use Rattle.arguments.specs.AskedService.{IsService};
ghost use Rattle.arguments.specs.AskedCallers.{AreCallers};
ghost use Rattle.arguments.specs.AskedQuarantine.{IsQuarantine};
ghost use Rattle.arguments.specs.CommandLine.{is_given, values_of};

use crate::callers::{called_of, callers_of};
use crate::given::Given;
use crate::options::{FolderLayout, Index, LogForm, Per, Replay, Serve};
use crate::quarantine::quarantine_of;
use crate::service_options::service_of;
use crate::transfers::accepting_transfers;
use crate::words::{MOST_ADDRESSES, MOST_VALUES};
use arrayvec::ArrayVec;
use element::{AeTitle, Uid};
use failures::WordsError;
use log::Level;
use negotiate::Config;
use std::alloc::Global;
use std::net::SocketAddr;

/// The greatest limit for the length of a data set: 2^48 bytes.
const MOST_DATA: u64 = 281_474_976_710_656;

/// Reads a number from `least` to `most` in the syntax of Rust's `u64::from_str`.
pub(crate) fn number(
    alloc: Global,
    option: &str,
    text: &str,
    least: u64,
    most: u64,
) -> Result<u64, WordsError>
    ensures bounds { IfOk result (λ n. (least ≤ n) × (n ≤ most)) }
    ensures spelled { IfOk result (λ n. Spells least most text.now n) }
{
    if let Ok(number) = text.parse::<u64>() {
        if least <= number && number <= most {
            return Ok(number);
        }
    }
    let reason = format_args!("--{option} takes a number from {least} to {most}, not '{text}'");
    Err(WordsError::refused(alloc, reason))
}

/// Reads the number that the option gives, from `least` to `most`.
pub(crate) fn number_of(
    alloc: Global,
    given: &Given,
    option: &str,
    least: u64,
    most: u64,
) -> Result<u64, WordsError>
    ensures bounds { IfOk result (λ n. (least ≤ n) × (n ≤ most)) }
    ensures spelled { IfOk result (λ n. IsSomeAnd (first_of option.now given.now) (λ text. Spells least most text n)) }
{
    number(alloc, option, given.text(alloc, option)?, least, most)
}

/// Reads an AE title: 1 to 16 characters without a backslash, not all of them spaces.
pub(crate) fn title(alloc: Global, option: &str, text: &str) -> Result<AeTitle, WordsError>
    ensures { IfOk result (λ t. title_of_text text.now ≡ Some t.0) }
{
    match AeTitle::of_text(text) {
        Some(title) => Ok(title),
        None => {
            let reason = format_args!(
                "--{option} takes an AE title of 1 to 16 characters, \
                not '{text}'"
            );
            Err(WordsError::refused(alloc, reason))
        }
    }
}

/// Reads a UID (PS3.5 section 9.1).
fn identifier(alloc: Global, option: &str, text: &str) -> Result<Uid, WordsError>
    ensures { IfOk result (λ u. uid_of text.now ≡ Some u) }
{
    match Uid::read(text.as_bytes()) {
        Some(uid) => Ok(uid),
        None => {
            let reason = format_args!(
                "--{option} takes a UID of 1 to 64 digits and dots, not '{text}'"
            );
            Err(WordsError::refused(alloc, reason))
        }
    }
}

/// Reads the named storage classes. Fails if one is named twice or ends in a dot.
fn classes_of(alloc: Global, classes: &[&str]) -> Result<Vec<Uid>, WordsError>
    ensures few { IfOk result (λ uids. length uids.items ≡ length classes.now) }
    ensures read { IfOk result (λ uids. map (λ t. uid_of t.now) classes.now ≡ map Some uids.items) }
{
    let mut uids = Vec::new(alloc);
    for class in classes {
        let uid = identifier(alloc, "storage-class", *class)?;
        if class.ends_with('.') {
            let reason = format_args!("--storage-class names '{class}', which ends in a dot");
            return Err(WordsError::refused(alloc, reason));
        }
        if uids.iter().any(|other: &Uid| *other == uid) {
            let reason = format_args!("--storage-class names '{class}' twice");
            return Err(WordsError::refused(alloc, reason));
        }
        uids.push(uid)?;
    }
    Ok(uids)
}

/// Returns the settings with the requested storage classes and transfer syntaxes added.
fn with_storage(alloc: Global, config: Config, given: &Given) -> Result<Config, WordsError>
    ensures rest { IfOk result (λ c. settings_of c ≡ record (settings_of config) { additional = (settings_of c).additional }) }
    ensures classes { IfOk result (λ c. map Some (settings_of c).additional.classes ≡ map uid_of (values_of given.now (codes "storage-class")) ++ map Some (registered (is_given given.now (codes "all-storage")))) }
    ensures transfers { IfOk result (λ c. AsksFor (is_given given.now (codes "all-syntaxes")) (values_of given.now (codes "transfer-syntax")) (settings_of c).additional.transfers) }
{
    let classes = given.few(alloc, "storage-class", MOST_VALUES)?;
    let uids = classes_of(alloc, classes)?;
    let accepting = config.with_storage(given.flag("all-storage"), uids.as_slice());
    accepting_transfers(alloc, accepting, given)
}

/// Returns the settings of `replay` from its arguments.
pub fn replay_settings<'a>(alloc: Global, given: &Given<'a>) -> Result<Replay<'a>, WordsError>
    ensures replayed { IfOk result (λ r. IsReplayed r given.now) }
{
    let called = called_of(alloc, given)?;
    let cut = number_of(alloc, given, "cut", 1, 65536)?;
    let own = Config::new(
        called.own,
        Config::DEFAULT_MAX_PDU,
        Config::DEFAULT_MAX_DATA,
    );
    let config = own.with_called(called.also, false);
    Ok(Replay {
        file: given.text(alloc, "FILE")?,
        out: given.text(alloc, "out")?,
        config: with_storage(alloc, config, given)?,
        cut: cut as usize,
        layout: layout_of(alloc, given)?,
    })
}

/// Reads the further addresses of `serve`, each with a port.
fn addresses_of<'a>(
    alloc: Global,
    texts: &[&'a str],
) -> Result<ArrayVec<&'a str, MOST_ADDRESSES>, WordsError>
    requires few { length texts.now ≤ 4 }
    ensures { IfOk result (λ read. read.items ≡ texts.now) }
{
    let mut addresses = ArrayVec::new();
    for text in texts {
        if !matches!(text.parse::<SocketAddr>(), Ok(address) if address.port() > 0) {
            let reason = format_args!(
                "--listen takes an IP address and a port, as \
                127.0.0.1:11112 or [::1]:11112, not '{text}'"
            );
            return Err(WordsError::refused(alloc, reason));
        }
        addresses.push(*text);
    }
    Ok(addresses)
}

/// Returns the settings of `serve` from its arguments and the text of the file of titles, if they
/// name one.
pub fn serve_settings<'a>(
    alloc: Global,
    given: &Given<'a>,
    listed: &str,
) -> Result<Serve<'a>, WordsError>
    ensures served { IfOk result (λ s. IsServed s given.now) }
    ensures callers { IfOk result (λ s. AreCallers (settings_of s.config).callers given.now listed.now) }
    ensures service { IfOk result (λ s. IsService s.service given.now) }
    ensures quarantine { IfOk result (λ s. IsQuarantine s.quarantine (first_of (codes "quarantine") given.now) (first_of (codes "quarantine-most") given.now)) }
{
    let port = number_of(alloc, given, "port", 1, 65535)?;
    let listen = addresses_of(alloc, given.few(alloc, "listen", MOST_ADDRESSES)?)?;
    let called = called_of(alloc, given)?;
    let callers = callers_of(alloc, given, listed)?;
    let service = service_of(alloc, given)?;
    let max_pdu = number_of(alloc, given, "max-pdu", 1024, 131_072)?;
    let max_data = number_of(alloc, given, "max-data", 1024, MOST_DATA)?;
    let own = Config::new(called.own, max_pdu as u32, max_data).with_callers(callers);
    let config = own.with_called(called.also, given.flag("any-called"));
    Ok(Serve {
        bind: given.text(alloc, "bind")?,
        listen,
        port: port as u16,
        out: given.text(alloc, "out")?,
        config: with_storage(alloc, config, given)?,
        service,
        level: level_of(alloc, given)?,
        form: form_of(alloc, given.get("log"))?,
        layout: layout_of(alloc, given)?,
        numbers: given.get("numbers"),
        quarantine: quarantine_of(alloc, given)?,
        sync: !given.flag("no-sync"),
        metrics: given.get("metrics"),
    })
}

/// Reads the level of the log.
fn level_of(alloc: Global, given: &Given) -> Result<Level, WordsError>
    ensures { IfOk result (λ l. IsLevel (count_of (codes "verbose") given.now) (is_given given.now (codes "quiet")) l) }
{
    match (given.count("verbose"), given.flag("quiet")) {
        (0, false) => Ok(Level::Info),
        (1, false) => Ok(Level::Debug),
        (_, false) => Ok(Level::Trace),
        (0, true) => Ok(Level::Warn),
        (_, true) => { Err(WordsError::refused(alloc, "--verbose and --quiet exclude each other")) }
    }
}

/// Reads the format of the log.
fn form_of(alloc: Global, form: Option<&str>) -> Result<LogForm, WordsError>
    ensures { IfOk result (λ f. IsForm f (unwrap_or (option_map (λ t. t.now) form.entry) (codes "text"))) }
{
    match form {
        None | Some("text") => Ok(LogForm::Text),
        Some("json") => Ok(LogForm::Json),
        Some(form) => {
            let reason = format_args!("--log takes text or json, not '{form}'");
            Err(WordsError::refused(alloc, reason))
        }
    }
}

/// Reads the layout of files.
fn layout_of(alloc: Global, given: &Given) -> Result<FolderLayout, WordsError>
    ensures { IfOk result (λ l. IsLayout l (first_of (codes "per") given.now)) }
{
    let Some(per) = given.get("per") else {
        return Ok(FolderLayout::Flat);
    };
    let files = number(alloc, "per", per, 1, 9999)?;
    Ok(FolderLayout::Levels(Per {
        files: files as u32,
    }))
}

/// Reads the SOP Instance UID of a directory, or `None` if a new one is requested. Fails unless
/// exactly one of the two options is given.
fn instance_of(alloc: Global, given: &Given) -> Result<Option<Uid>, WordsError>
    ensures { IfOk result (λ uid. IsDirectoryUid uid (first_of (codes "uid") given.now) (is_given given.now (codes "new-uid"))) }
{
    match (given.get("uid"), given.flag("new-uid")) {
        (Some(text), false) => Ok(Some(identifier(alloc, "uid", text)?)),
        (None, true) => Ok(None),
        (Some(_), true) => {
            Err(WordsError::refused(alloc, "--uid and --new-uid exclude each other"))
        }
        (None, false) => {
            let reason = "index needs --uid UID, or --new-uid, which makes one";
            Err(WordsError::refused(alloc, reason))
        }
    }
}

/// Returns the settings of `index` from its arguments.
pub fn index_settings<'a>(alloc: Global, given: &Given<'a>) -> Result<Index<'a>, WordsError>
    ensures indexed { IfOk result (λ i. IsIndexed i given.now) }
{
    Ok(Index {
        dir: given.text(alloc, "DIR")?,
        uid: instance_of(alloc, given)?,
        descriptions: given.flag("descriptions"),
        all_syntaxes: given.flag("all-syntaxes"),
        any_name: given.flag("any-name"),
        ignore_others: given.flag("ignore-others"),
        follow: given.flag("follow"),
        keep: given.flag("keep"),
        replace: given.flag("replace"),
        strict: given.flag("strict"),
        json: given.flag("json"),
    })
}
