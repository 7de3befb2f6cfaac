//! Reads the AE titles that a peer may call, and those of the peers that may call.
ghost use Rattle.std.specs.Prelude.{◌≡◌, ◌<◌, ◌≤◌, ◌∷◌, IfOk, IfSome, Some, codes, length, map, nat_eq, option_map};
ghost use Rattle.std.specs.List.{list_all};
ghost use Rattle.std.specs.Str.Lines.{lines};
ghost use Rattle.element.specs.Title.{title_of_text};
ghost use Rattle.arguments.specs.AskedCallers as asked;
ghost use Rattle.arguments.specs.AskedCallers.{AreCallers};
ghost use Rattle.arguments.specs.CommandLine.{values_of};

use crate::given::Given;
use crate::settings::title;
use crate::words::{MOST_TITLES, MOST_VALUES};
use arrayvec::ArrayVec;
use element::AeTitle;
use failures::WordsError;
use negotiate::MOST_ALSO;
use std::alloc::{AllocError, Global};

/// The most AE titles of peers that may call.
const MOST_CALLERS: usize = 4096;

/// A file of AE titles: its path and its text.
#[derive(Clone, Copy)]
struct TitleFile<'a> {
    path: &'a str,
    text: &'a str,
}

/// Returns whether a line is blank: it has nothing but spaces and tabs.
fn is_blank(line: &[u8]) -> bool
    ensures { result ≡ asked.is_blank line.now }
{
    line.iter().all(|byte| *byte == b' ' || *byte == b'\t')
}

/// Returns whether a line of a file of titles has a title: it is neither blank nor a comment.
fn is_title_line(line: &str) -> bool
    ensures { result ≡ asked.is_title_line line.now }
{
    !is_blank(line.as_bytes()) && !line.starts_with("#")
}

/// Returns the lines of a text.
fn lines_of<'a>(alloc: Global, text: &'a str) -> Result<Vec<&'a str>, AllocError>
    ensures { IfOk result (λ found. map (λ l. l.now) found.items ≡ lines text.now) }
{
    text.lines().collect(alloc)
}

/// Returns the error for too many titles of peers that may call.
fn too_many_titles(alloc: Global) -> WordsError {
    let reason = format_args!("--callers and --caller may name {MOST_CALLERS} titles at most");
    WordsError::refused(alloc, reason)
}

/// Reads the title in the line with this number, counted from 1.
fn line_title(alloc: Global, path: &str, number: usize, line: &str) -> Result<AeTitle, WordsError>
    ensures { IfOk result (λ t. title_of_text line.now ≡ Some t.0) }
{
    if line.contains(" # ") {
        let reason = format_args!(
            "--callers names '{path}', whose line {number} has a comment \
            behind a title; it needs a line of its own: {line:?}"
        );
        return Err(WordsError::refused(alloc, reason));
    }
    match AeTitle::of_text(line) {
        Some(title) => Ok(title),
        None => {
            let reason = format_args!(
                "--callers names '{path}', whose line {number} is no AE \
                title of 1 to 16 characters: {line:?}"
            );
            Err(WordsError::refused(alloc, reason))
        }
    }
}

/// Reads the titles of a file. Fails if the file has none.
fn listed_titles(alloc: Global, file: TitleFile) -> Result<Vec<AeTitle>, WordsError>
    ensures read { IfOk result (λ titles. map title_of_text (asked.listed_titles file.entry.text.now) ≡ map Some (map (λ t. t.0) titles.items)) }
    ensures some { IfOk result (λ titles. 0 < length (asked.listed_titles file.entry.text.now)) }
{
    let found = lines_of(alloc, file.text)?;
    let lines = found.as_slice();
    let mut titles = Vec::new(alloc);
    for index in 0..lines.len() {
        if is_title_line(lines[index]) {
            let title = line_title(alloc, file.path, index + 1, lines[index])?;
            if titles.len() >= MOST_CALLERS {
                return Err(too_many_titles(alloc));
            }
            titles.push(title)?;
        }
    }
    if titles.is_empty() {
        let path = file.path;
        let reason = format_args!("--callers names '{path}', which has no title");
        return Err(WordsError::refused(alloc, reason));
    }
    Ok(titles)
}

/// Reads the titles of the file with this path and text, or none if `path` is `None`.
fn file_titles(alloc: Global, path: Option<&str>, text: &str) -> Result<Vec<AeTitle>, WordsError>
    ensures read { IfOk result (λ titles. map title_of_text (asked.titles_of_file (option_map (λ t. t.now) path.entry) text.now) ≡ map Some (map (λ t. t.0) titles.items)) }
    ensures some { IfOk result (λ _. IfSome path.entry (λ _. 0 < length (asked.listed_titles text.now))) }
{
    match path {
        Some(path) => listed_titles(alloc, TitleFile { path, text }),
        None => Ok(Vec::new(alloc)),
    }
}

/// Reads the titles given with an option.
fn named_titles<const MOST: usize>(
    alloc: Global,
    option: &str,
    texts: &[&str],
) -> Result<ArrayVec<AeTitle, MOST>, WordsError>
    requires few { length texts.now ≤ MOST }
    ensures read { IfOk result (λ titles. map (λ t. title_of_text t.now) texts.now ≡ map Some (map (λ t. t.0) titles.items)) }
{
    let mut titles = ArrayVec::new();
    for text in texts {
        titles.push(title(alloc, option, *text)?);
    }
    Ok(titles)
}

/// The titles that a peer may call: the receiver's own title, which is given first, and the others.
#[derive(Drop)]
pub(crate) struct Called {
    pub own: AeTitle,
    pub also: ArrayVec<AeTitle, MOST_ALSO>,
}

/// Reads the titles that a peer may call. Fails if none is given.
pub(crate) fn called_of(alloc: Global, given: &Given) -> Result<Called, WordsError>
    ensures read { IfOk result (λ c. map title_of_text (values_of given.now (codes "ae")) ≡ map Some (c.own.0 ∷ map (λ t. t.0) c.also.items)) }
{
    let texts = given.few(alloc, "ae", MOST_TITLES)?;
    if texts.is_empty() {
        return Err(WordsError::refused(alloc, "--ae names no title"));
    }
    Ok(Called {
        own: title(alloc, "ae", texts[0])?,
        also: named_titles(alloc, "ae", &texts[1..])?,
    })
}

/// Reads the titles of the peers that may call: those in the file with this text, if the arguments
/// name a file, then those of the option `--caller`.
pub(crate) fn callers_of(
    alloc: Global,
    given: &Given,
    text: &str,
) -> Result<Vec<AeTitle>, WordsError>
    ensures { IfOk result (λ titles. AreCallers (map (λ t. t.0) titles.items) given.now text.now) }
{
    let mut titles = file_titles(alloc, given.get("callers"), text)?;
    let callers = given.few(alloc, "caller", MOST_VALUES)?;
    let named = named_titles::<MOST_VALUES>(alloc, "caller", callers)?;
    if MOST_CALLERS.saturating_sub(titles.len()) < named.len() {
        return Err(too_many_titles(alloc));
    }
    titles.extend_from_slice(named.as_slice())?;
    Ok(titles)
}
