//! The first line of the log.
use arguments::{Serve, VERSION};
use journal::{Logger, Text, Value, events, shown};
use log::Log;
use negotiate::Config;
use std::time::Clock;

/// How many storage classes are accepted by default.
const OWN_CLASSES: u64 = 11;

/// How many transfer syntaxes are always accepted.
const NATIVE_SYNTAXES: u64 = 2;

/// Returns a number of items as a value, or `none` if it is 0.
fn number_or<'a>(count: usize, none: Value<'a>) -> Value<'a> {
    match count {
        0 => none,
        _ => Value::Number(count as u64),
    }
}

/// Returns how many called titles are accepted, unless only one is.
fn titles_of(config: &Config) -> Value<'_> {
    match config.also.len() as u64 {
        _ if config.any_called => shown("any"),
        0 => Value::Absent,
        further => Value::Number(further.saturating_add(1)),
    }
}

/// Logs the version, the settings, and how many old drafts were removed.
pub(crate) fn report_started<R: Log + Clock>(
    logger: &Logger<'_, R>,
    settings: &Serve<'_>,
    drafts: u64,
) {
    let config = &settings.config;
    let mut title = Text::<16>::new();
    title.add(config.ae.trimmed());
    logger.report(
        events::STARTED,
        &[
            shown(VERSION),
            shown(title),
            shown(settings.out),
            Value::Number(u64::from(config.max_pdu)),
            Value::Number(config.max_data),
            Value::Number(settings.service.associations as u64),
            Value::Number(drafts),
            titles_of(config),
            number_or(config.callers().len(), shown("any")),
            if config.all_storage {
                shown("all")
            } else {
                Value::Number(OWN_CLASSES)
            },
            number_or(config.named.len(), Value::Absent),
            Value::Number((config.transfers.len() as u64).saturating_add(NATIVE_SYNTAXES)),
            match settings.quarantine {
                Some(quarantine) => shown(quarantine.dir),
                None => Value::Absent,
            },
        ],
    );
}
