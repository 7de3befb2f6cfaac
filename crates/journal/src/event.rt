//! What a log line says: an event, and the values of its fields.
use crate::line_limits::Limited;
use crate::text::Text;
use log::Level;
use std::fmt::{Display, Write};

/// The event of a line: its level, its name in JSON, its text, and its rate limit, if any.
///
/// `|` separates the parts of the text. A part has at most one field, by its name in braces, and is
/// left out if that field has no value.
#[derive(Clone, Copy)]
pub struct Event {
    pub level: Level,
    pub name: &'static str,
    pub parts: &'static str,
    pub limit: Option<Limited>,
}

/// A short text that the log itself composes.
pub type Words = Text<160>;

/// The value of a field.
#[derive(Drop)]
pub enum Value<'a> {
    Absent,
    Number(u64),
    Shown(Words),
    Text(&'a str),
    /// Texts, separated by a comma and a space.
    List(&'a str),
}

/// Returns what a value displays, as far as there is room, as the value of a field.
pub fn shown<'a, D: Display + Drop>(value: D) -> Value<'a> {
    let mut words = Words::new();
    let _ = write!(words, "{value}");
    Value::Shown(words)
}

/// Returns what a value displays as the value of a field, absent if there is none.
pub(crate) fn some<'a, D: Display + Drop>(value: Option<D>) -> Value<'a> {
    match value {
        Some(value) => shown(value),
        None => Value::Absent,
    }
}

/// Returns a text as the value of a field, absent if it is empty.
pub(crate) fn known<'a, const N: usize>(text: &Text<N>) -> Value<'a> {
    match text.len() {
        0 => Value::Absent,
        _ => shown(text),
    }
}

/// Writes the parts of an event.
pub(crate) trait Form {
    /// Writes a text before or after a field.
    fn text(&mut self, text: &str);

    fn field(&mut self, name: &str, value: &Value<'_>);
}

/// Returns the text before the field of a part, its name, and the text after it.
fn field_of(part: &str) -> Option<(&str, &str, &str)> {
    let (before, rest) = part.split_once('{')?;
    let (name, after) = rest.split_once('}')?;
    Some((before, name, after))
}

/// Writes the parts of an event, with the value of each field in their order.
pub(crate) fn write_parts<F: Form>(event: Event, values: &[Value<'_>], form: &mut F) {
    let mut values = values.iter();
    for part in event.parts.split('|') {
        let Some((before, name, after)) = field_of(part) else {
            form.text(part);
            continue;
        };
        match values.next() {
            None | Some(Value::Absent) => {}
            Some(value) => {
                form.text(before);
                form.field(name, value);
                form.text(after);
            }
        }
    }
}
