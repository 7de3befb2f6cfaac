//! The options of the commands that read files.
ghost use Rattle.std.specs.Prelude.{◌≡◌, IfOk, None, codes, length, option_map};
ghost use Rattle.arguments.specs.CommandLine.{is_given, values_of};
ghost use Rattle.arguments.specs.Walk.{first_of};
ghost use Rattle.commands.specs.Options.{IsArranged, IsChecked, IsListed, IsShown, NamesFiles, NamesPattern, form_for, syntaxes_for};

use arguments::Given;
use arrange_command::{ArrangeOptions, Part, read_pattern};
use element::Tag;
use failures::WordsError;
use file_commands::Files;
use inspection::{CheckOptions, OutputForm, ShowOptions, Syntaxes, tag_named};
use list_command::{Column, Condition, ListOptions, MOST_COLUMNS, MOST_CONDITIONS};
use std::alloc::Global;

/// Returns the form of the output: JSON, or lines.
pub(crate) fn form_of(given: &Given) -> OutputForm
    ensures { result ≡ form_for (is_given given.now (codes "json")) }
{
    if given.flag("json") {
        OutputForm::Json
    } else {
        OutputForm::Lines
    }
}

/// Returns which files are accepted: those in the two native transfer syntaxes, in all of the
/// dictionary, or, with `--any`, also those without a header.
fn syntaxes_of(given: &Given) -> Syntaxes
    ensures { result ≡ syntaxes_for (is_given given.now (codes "all-syntaxes")) (is_given given.now (codes "any")) }
{
    if given.flag("any") {
        Syntaxes::Any
    } else if given.flag("all-syntaxes") {
        Syntaxes::All
    } else {
        Syntaxes::Native
    }
}

/// Returns the files of `show` and `check`, and how they are found.
pub(crate) fn files_of<'g: 'a, 'a>(given: &'a Given<'g>) -> Files<'a>
    ensures { NamesFiles result given.now }
{
    Files {
        paths: given.all("FILE"),
        recursive: given.flag("recursive"),
        ignore_others: given.flag("ignore-others"),
        follow: given.flag("follow"),
    }
}

/// Returns the options of `show`, with these tags.
pub(crate) fn show_options<'a>(given: &Given, tags: &'a [Tag], unicode: bool) -> ShowOptions<'a>
    ensures { IsShown result given.now }
{
    ShowOptions {
        values: given.flag("values") || given.flag("full"),
        full: given.flag("full"),
        meta: given.flag("meta"),
        tags,
        form: form_of(given),
        unicode,
        syntaxes: syntaxes_of(given),
    }
}

/// Returns the options of `check`.
pub(crate) fn check_options(given: &Given) -> CheckOptions
    ensures { IsChecked result given.now }
{
    CheckOptions {
        strict: given.flag("strict"),
        values: given.flag("values"),
        form: form_of(given),
        syntaxes: syntaxes_of(given),
    }
}

/// Returns the options of `list`, with these conditions and columns.
pub(crate) fn list_options<'a>(
    given: &Given,
    conditions: &'a [Condition<'a>],
    columns: &'a [Column<'a>],
    unicode: bool,
) -> ListOptions<'a>
    ensures { IsListed result given.now }
{
    ListOptions {
        series: given.flag("series"),
        instances: given.flag("instances"),
        conditions,
        columns,
        ignore_others: given.flag("ignore-others"),
        follow: given.flag("follow"),
        form: form_of(given),
        unicode,
    }
}

/// Returns the options of `arrange`, with this pattern.
pub(crate) fn arrange_options<'g: 'a, 'a>(
    alloc: Global,
    given: &Given<'g>,
    pattern: &'a [Part<'a>],
    unicode: bool,
) -> Result<ArrangeOptions<'a>, WordsError>
    ensures { IfOk result (λ o. IsArranged o given.now) }
{
    Ok(ArrangeOptions {
        tree: given.text(alloc, "to")?,
        pattern,
        copy: given.flag("copy"),
        dry_run: given.flag("dry-run"),
        ignore_others: given.flag("ignore-others"),
        follow: given.flag("follow"),
        form: form_of(given),
        unicode,
    })
}

/// Reads the pattern that the option `--pattern` names, without `.dcm` at its end, which each path
/// has. Returns `None` without the option. Fails with a text for the user if the pattern is invalid.
pub(crate) fn pattern_of<'a>(
    alloc: Global,
    given: &Given<'a>,
) -> Result<Option<Vec<Part<'a>>>, WordsError>
    ensures { IfOk result (λ p. NamesPattern (option_map (λ parts. parts.items) p) (first_of (codes "pattern") given.now)) }
{
    match given.get("pattern") {
        Some(text) => {
            let parts = read_pattern(alloc, text.strip_suffix(".dcm").unwrap_or(text))?;
            Ok(Some(parts))
        }
        None => Ok(None),
    }
}

/// Returns whether a keyword is that of a repeating group: 50xx, curves, or 60xx, overlays (PS3.5
/// section 7.6).
fn is_repeating(keyword: &str) -> bool {
    keyword.starts_with("Overlay") || keyword.starts_with("Curve")
}

/// Reads the tag in an option. Fails with a text for the user if it is invalid.
fn tag_of(alloc: Global, option: &str, text: &str) -> Result<Tag, WordsError> {
    if let Some(tag) = tag_named(text) {
        return Ok(tag);
    }
    let also = if is_repeating(text) {
        ", whose group repeats: name the element of one, as 6000,3000"
    } else {
        ""
    };
    let reason = format_args!(
        "--{option} takes a tag as 0010,0020 or its keyword as PatientID, \
        not '{text}'{also}"
    );
    Err(WordsError::refused(alloc, reason))
}

/// Reads the tags of the options `--tag`. Fails with a text for the user if one is invalid.
pub(crate) fn tags_of(alloc: Global, given: &Given) -> Result<Vec<Tag>, WordsError>
    ensures { IfOk result (λ tags. length tags.items ≡ length (values_of given.now (codes "tag"))) }
{
    let mut tags = Vec::new(alloc);
    for text in given.all("tag") {
        tags.push(tag_of(alloc, "tag", *text)?)?;
    }
    Ok(tags)
}

/// Reads a condition of the option `--where`. Fails with a text for the user if it is invalid.
fn condition_of<'a>(alloc: Global, text: &'a str) -> Result<Condition<'a>, WordsError> {
    let Some((name, value)) = text.split_once('=') else {
        let reason = format_args!("--where takes KEYWORD=VALUE, as PatientID=P1, not '{text}'");
        return Err(WordsError::refused(alloc, reason));
    };
    match Condition::new(tag_of(alloc, "where", name)?, value) {
        Some(condition) => Ok(condition),
        None => {
            let reason = format_args!(
                "--where takes an element of the data set whose value is \
                text, not '{name}'"
            );
            Err(WordsError::refused(alloc, reason))
        }
    }
}

/// Reads the conditions of the options `--where`. Fails with a text for the user if one is invalid,
/// or there are too many.
pub(crate) fn conditions_of<'a>(
    alloc: Global,
    given: &Given<'a>,
) -> Result<Vec<Condition<'a>>, WordsError>
    ensures { IfOk result (λ conditions. length conditions.items ≡ length (values_of given.now (codes "where"))) }
{
    let mut conditions = Vec::new(alloc);
    for text in given.all("where") {
        conditions.push(condition_of(alloc, *text)?)?;
    }
    if conditions.len() > MOST_CONDITIONS {
        let reason = format_args!("--where may be given {MOST_CONDITIONS} times at most");
        return Err(WordsError::refused(alloc, reason));
    }
    Ok(conditions)
}

/// Reads a column that the option `--columns` names. Fails with a text for the user if the name is
/// invalid.
fn column_of<'a>(alloc: Global, keyword: &'a str) -> Result<Column<'a>, WordsError> {
    let Some(tag) = tag_named(keyword) else {
        let reason = format_args!(
            "--columns takes keywords as PatientID, or tags as 00100020, \
            not '{keyword}'"
        );
        return Err(WordsError::refused(alloc, reason));
    };
    match Column::new(tag, keyword) {
        Some(column) => Ok(column),
        None => {
            let reason = format_args!(
                "--columns takes elements of the data set whose value is \
                text, not '{keyword}'"
            );
            Err(WordsError::refused(alloc, reason))
        }
    }
}

/// Reads the columns that the option `--columns` names, separated by commas. Fails with a text for
/// the user if a name is invalid or an element is named twice, or there are too many.
pub(crate) fn columns_of<'a>(
    alloc: Global,
    given: &Given<'a>,
) -> Result<Vec<Column<'a>>, WordsError>
    ensures { IfOk result (λ columns. first_of (codes "columns") given.now ≡ None → length columns.items ≡ 0) }
{
    let mut columns: Vec<Column<'a>> = Vec::new(alloc);
    let Some(names) = given.get("columns") else {
        return Ok(columns);
    };
    for keyword in names.split(',') {
        let column = column_of(alloc, keyword)?;
        if columns.iter().any(|other| other.tag == column.tag) {
            let reason = format_args!("--columns has '{keyword}' twice");
            return Err(WordsError::refused(alloc, reason));
        }
        columns.push(column)?;
    }
    if columns.len() > MOST_COLUMNS {
        let reason = format_args!("--columns takes {MOST_COLUMNS} keywords at most");
        return Err(WordsError::refused(alloc, reason));
    }
    Ok(columns)
}
