//! Checks the settings of command lines given in text: a further line needs no proof.
use arguments::{
    CommandName, FolderLayout, Given, Index, LogForm, Replay, Serve, WordsError, index_settings,
    read_words, replay_settings, serve_settings,
};
use cases::Case;
use dictionary::Transfer;
use log::Level;
use negotiate::Config;
use std::alloc::Global;
use std::str;
use std::test::Fail;
use std::time::Duration;

/// A command line, and the text of the file of titles that it names.
#[derive(Drop)]
struct Asked {
    words: Vec<String>,
    listed: String,
}

/// Runs a script; fails at the first line that does not hold, with the value found.
///
/// A line that begins with `dcmbox` is a command line, of arguments separated by one blank; `BLANK`
/// stands for a blank. `*` and a number repeat an argument, in which `#` stands for 0, 1 and so on.
///
/// Each following line has the name of a setting and its value: a number, a text, titles or UIDs
/// separated by blanks, `yes`, `no` or `none`. `count` or `last` behind a name is the number of
/// values or the last one. `refused` has the text with which the command line is refused, without
/// its line end; `fails` is `yes` if the command line is refused with any text. `listed` gives the
/// text of the file of titles, which `*` and a number repeat. In texts `<LF>`, `<CR>` and `<TAB>`
/// stand for these characters. `syntaxes` that are all encapsulated ones are `all` and their number.
pub(crate) fn asks(alloc: Global, script: &str) -> Result<(), Fail> {
    let mut asked = Asked {
        words: Vec::new(alloc),
        listed: String::new(alloc),
    };
    let mut at = 0usize;
    for line in script.lines() {
        at = at.saturating_add(1);
        let case = Case::of(line);
        if line.starts_with("dcmbox ") {
            asked.words = words_of(alloc, line)?;
            asked.listed.clear();
        } else if case.name == "listed" {
            asked.listed = listed(alloc, case.field(0)?)?;
        } else {
            let seen = answer(alloc, &asked, case.name)?;
            if seen.as_str() != case.field(0)? {
                return Err(Fail::new(format_args!("line {at}: {line}: it is {seen}")));
            }
        }
    }
    Ok(())
}

/// Splits a text from the number of times that it is repeated.
fn repeated(text: &str) -> (&str, usize) {
    match text.split_once('*') {
        Some((text, times)) => (text, times.parse::<usize>().unwrap_or(0)),
        None => (text, 1),
    }
}

fn words_of(alloc: Global, line: &str) -> Result<Vec<String>, Fail> {
    let mut words = Vec::new(alloc);
    for argument in line.split(' ') {
        let (text, times) = repeated(argument);
        for index in 0..times {
            let index = number(alloc, index as u64)?;
            let word = text.replace(alloc, "#", index.as_str())?;
            words.push(word.as_str().replace(alloc, "BLANK", " ")?)?;
        }
    }
    Ok(words)
}

/// Returns the text of a file of titles.
fn listed(alloc: Global, field: &str) -> Result<String, Fail> {
    let (text, times) = repeated(field);
    let text = text.replace(alloc, "<LF>", "\n")?;
    let text = text.as_str().replace(alloc, "<CR>", "\r")?;
    let text = text.as_str().replace(alloc, "<TAB>", "\t")?;
    let mut listed = String::new(alloc);
    for _ in 0..times {
        listed.push_str(text.as_str())?;
    }
    Ok(listed)
}

/// Returns the value of this setting, or the number of its values or the last one.
fn answer(alloc: Global, asked: &Asked, name: &str) -> Result<String, Fail> {
    let Some((list, part)) = name.split_once(' ') else {
        return seen(alloc, asked, name);
    };
    let values = seen(alloc, asked, list)?;
    let values = values.as_str().split_whitespace();
    match part {
        "count" => number(alloc, values.count() as u64),
        "last" => owned(alloc, values.last().unwrap_or("none")),
        _ => Err(unknown(name)),
    }
}

/// Returns the value of this setting for a command line.
fn seen(alloc: Global, asked: &Asked, name: &str) -> Result<String, Fail> {
    let mut words = Vec::new(alloc);
    for word in asked.words.as_slice() {
        words.push(word.as_str())?;
    }
    let job = match read_words(alloc, words.as_slice()) {
        Ok(job) => job,
        Err(error) => return refusal(alloc, &error, name),
    };
    let (command, given) = (job.command, &job.given);
    match command {
        CommandName::Serve => match serve_settings(alloc, given, asked.listed.as_str()) {
            Ok(serve) => of_serve(alloc, &serve, name),
            Err(error) => refusal(alloc, &error, name),
        },
        CommandName::Replay => match replay_settings(alloc, given) {
            Ok(replay) => of_replay(alloc, &replay, name),
            Err(error) => refusal(alloc, &error, name),
        },
        CommandName::Index => match index_settings(alloc, given) {
            Ok(index) => of_index(alloc, &index, name),
            Err(error) => refusal(alloc, &error, name),
        },
        _ => of_given(alloc, given, name),
    }
}

fn refusal(alloc: Global, error: &WordsError, name: &str) -> Result<String, Fail> {
    match (error, name) {
        (_, "fails") => owned(alloc, "yes"),
        (WordsError::Refused(text), "refused") => {
            let text = text.as_str().strip_suffix('\n').unwrap_or("not a line");
            Ok(text.replace(alloc, "\n", "<LF>")?)
        }
        _ => Ok(format!(in alloc; "{error}")?),
    }
}

fn owned(alloc: Global, text: &str) -> Result<String, Fail> {
    Ok(String::from_str(alloc, text)?)
}

fn yes(is: bool) -> &'static str {
    if is { "yes" } else { "no" }
}

fn unknown(name: &str) -> Fail {
    Fail::new(format_args!("{name}: no such setting"))
}

/// Returns a number as text.
fn number(alloc: Global, number: u64) -> Result<String, Fail> {
    Ok(format!(in alloc; "{number}")?)
}

fn seconds(time: Option<Duration>) -> Option<u64> {
    match time {
        Some(time) => Some(time.as_secs()),
        None => None,
    }
}

/// Returns how many files a subfolder has, 0 without subfolders.
fn per_of(layout: FolderLayout) -> u64 {
    match layout {
        FolderLayout::Flat => 0,
        FolderLayout::Levels(per) => u64::from(per.files),
    }
}

fn level_name(level: Level) -> &'static str {
    match level {
        Level::Warn => "Warn",
        Level::Info => "Info",
        Level::Debug => "Debug",
        Level::Trace => "Trace",
        _ => "another",
    }
}

/// Returns the value of this numeric setting of `serve`, or `None` if there is no such setting.
fn number_of_serve(serve: &Serve, name: &str) -> Option<u64> {
    Some(match name {
        "port" => u64::from(serve.port),
        "timeout" => serve.service.timeouts.artim.as_secs(),
        "idle" => serve.service.timeouts.idle.as_secs(),
        "per" => per_of(serve.layout),
        "at-once" => serve.service.associations as u64,
        "per-peer" => serve.service.per_peer as u64,
        "grace" => serve.service.grace.as_secs(),
        "longest" => return seconds(serve.service.longest),
        _ => return None,
    })
}

fn of_serve(alloc: Global, serve: &Serve, name: &str) -> Result<String, Fail> {
    if let Some(count) = number_of_serve(serve, name) {
        return number(alloc, count);
    }
    match name {
        "out" => owned(alloc, serve.out),
        "bind" => owned(alloc, serve.bind),
        "listen" => {
            let mut texts = String::new(alloc);
            for address in serve.listen.as_slice() {
                add(&mut texts, address.as_bytes())?;
            }
            Ok(texts)
        }
        "longest" => owned(alloc, "none"),
        "metrics" => owned(alloc, serve.metrics.unwrap_or("none")),
        "numbers" => owned(alloc, serve.numbers.unwrap_or("none")),
        "stop-file" => owned(alloc, serve.service.stop_file.unwrap_or("none")),
        "sync" => owned(alloc, yes(serve.sync)),
        "once" => owned(alloc, yes(serve.service.once)),
        "serial" => owned(alloc, yes(serve.service.is_serial())),
        "level" => owned(alloc, level_name(serve.level)),
        "log" => match serve.form {
            LogForm::Text => owned(alloc, "text"),
            LogForm::Json => owned(alloc, "json"),
        },
        _ => of_config(alloc, &serve.config, name),
    }
}

fn of_replay(alloc: Global, replay: &Replay, name: &str) -> Result<String, Fail> {
    match name {
        "file" => owned(alloc, replay.file),
        "out" => owned(alloc, replay.out),
        "cut" => number(alloc, replay.cut as u64),
        "per" => number(alloc, per_of(replay.layout)),
        _ => of_config(alloc, &replay.config, name),
    }
}

/// Returns the value of a setting of associations.
fn of_config(alloc: Global, config: &Config, name: &str) -> Result<String, Fail> {
    let mut texts = String::new(alloc);
    match name {
        "ae" => {
            add(&mut texts, &config.ae.0)?;
            for title in config.also.as_slice() {
                add(&mut texts, &title.0)?;
            }
        }
        "any-called" => return owned(alloc, yes(config.any_called)),
        "max-pdu" => return number(alloc, u64::from(config.max_pdu)),
        "max-data" => return number(alloc, config.max_data),
        "all-storage" => return owned(alloc, yes(config.all_storage)),
        "refused" | "fails" => return owned(alloc, "no"),
        "callers" => {
            for title in config.callers() {
                add(&mut texts, &title.0)?;
            }
        }
        "classes" => {
            for class in config.named.as_slice() {
                add(&mut texts, class.as_slice())?;
            }
        }
        "syntaxes" if config.transfers.as_slice() == Transfer::encapsulated() => {
            let count = config.transfers.len();
            return Ok(format!(in alloc; "all {count}")?);
        }
        "syntaxes" => {
            for transfer in config.transfers.as_slice() {
                add(&mut texts, transfer.uid())?;
            }
        }
        _ => return Err(unknown(name)),
    }
    Ok(texts)
}

/// Appends a text without its trailing blanks, after a blank unless it is the first.
fn add(texts: &mut String, bytes: &[u8]) -> Result<(), Fail> {
    if !texts.is_empty() {
        texts.push(' ')?;
    }
    texts.push_str(str::from_utf8(bytes).unwrap_or("?").trim_end())?;
    Ok(())
}

fn of_index(alloc: Global, index: &Index, name: &str) -> Result<String, Fail> {
    let text = match name {
        "dir" => index.dir,
        "uid" => match &index.uid {
            Some(uid) => str::from_utf8(uid.as_bytes()).unwrap_or("?"),
            None => "new",
        },
        "keep" => yes(index.keep),
        "replace" => yes(index.replace),
        "descriptions" => yes(index.descriptions),
        "all-syntaxes" => yes(index.all_syntaxes),
        "refused" | "fails" => "no",
        _ => return Err(unknown(name)),
    };
    owned(alloc, text)
}

/// Returns texts joined by blanks.
fn joined(alloc: Global, texts: &[&str]) -> Result<String, Fail> {
    let mut joined = String::new(alloc);
    for text in texts {
        add(&mut joined, text.as_bytes())?;
    }
    Ok(joined)
}

/// Returns the values of an argument, or whether an option without a value is given.
fn of_given(alloc: Global, given: &Given, name: &str) -> Result<String, Fail> {
    match name {
        "files" => joined(alloc, given.all("FILE")),
        "folders" => joined(alloc, given.all("DIR")),
        "tags" => joined(alloc, given.all("tag")),
        "conditions" => joined(alloc, given.all("where")),
        "columns" => owned(alloc, given.get("columns").unwrap_or("none")),
        "refused" | "fails" => owned(alloc, "no"),
        _ => owned(alloc, yes(given.flag(name))),
    }
}
