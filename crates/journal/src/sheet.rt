//! The text beside a quarantined data set: a line for each field.
use crate::event::{Event, Form, Value, Words, write_parts};
use crate::line::{Head, shown_peer, shown_time};
use std::alloc::{AllocError, Global};
use std::fmt::Write;

/// The lines of a text, unless memory ran out.
#[derive(Drop)]
struct Sheet {
    text: String,
    is_lost: bool,
}

impl Sheet {
    fn add(&mut self, part: &str) {
        if self.text.push_str(part).is_err() {
            self.is_lost = true;
        }
    }

    /// Adds a line: the key, a colon, and the value.
    fn put(&mut self, key: &str, value: &str) {
        self.add(key);
        self.add(": ");
        self.add(value);
        self.add("\n");
    }
}

impl Form for Sheet {
    fn text(&mut self, _text: &str) {}

    fn field(&mut self, name: &str, value: &Value<'_>) {
        match value {
            Value::Absent => {}
            Value::Number(number) => {
                let mut digits = Words::new();
                let _ = write!(digits, "{number}");
                self.put(name, digits.as_str());
            }
            Value::Shown(words) => self.put(name, words.as_str()),
            Value::Text(text) | Value::List(text) => self.put(name, text),
        }
    }
}

/// Returns an event as text, a line for each field, after lines for the time and the peer. Fails if
/// memory runs out.
pub(crate) fn sheet_of(
    alloc: Global,
    head: Head,
    event: Event,
    values: &[Value<'_>],
) -> Result<String, AllocError> {
    let mut sheet = Sheet {
        text: String::new(alloc),
        is_lost: false,
    };
    if let Some(time) = head.time {
        sheet.put("time", shown_time(time).as_str());
    }
    if let Some(peer) = head.peer {
        sheet.put("peer", shown_peer(peer).as_str());
    }
    write_parts(event, values, &mut sheet);
    if sheet.is_lost {
        return Err(AllocError);
    }
    Ok(sheet.text)
}
