//! Log lines: printable ASCII, of bounded length.
use crate::event::{Event, Form, Value, write_parts};
use crate::form::LineForm;
use crate::text::Text;
use jiff::Timestamp;
use serde_json::{Map, Value as Json};
use std::alloc::{AllocError, Global};
use std::fmt::Write;
use std::net::SocketAddr;

/// The maximum number of characters of a line, without the level and the target before a text.
pub const LINE: usize = 980;

/// A log line.
pub type Line = Text<LINE>;

/// The time of a line, and the peer that it concerns.
#[derive(Clone, Copy)]
pub(crate) struct Head {
    pub time: Option<Timestamp>,
    pub peer: Option<SocketAddr>,
}

/// A time in UTC with milliseconds (RFC 3339), of fixed width.
pub(crate) type Time = Text<32>;

/// The address of a peer, with its port.
pub(crate) type Peer = Text<64>;

/// The line that replaces a JSON line for which memory runs out.
const NO_MEMORY: &[u8] =
    b"{\"event\":\"lost line\",\"level\":\"ERROR\",\"error\":\"out of memory\"}";

/// The line that replaces a JSON line of more than `LINE` characters.
const TOO_LONG: &[u8] = b"{\"event\":\"lost line\",\"level\":\"ERROR\",\"error\":\"too long\"}";

impl Form for Line {
    fn text(&mut self, text: &str) {
        self.add(text.as_bytes());
    }

    fn field(&mut self, _name: &str, value: &Value<'_>) {
        match value {
            Value::Absent => {}
            Value::Number(number) => {
                let _ = write!(self, "{number}");
            }
            Value::Shown(words) => self.add(words.as_str().as_bytes()),
            Value::Text(text) | Value::List(text) => self.add(text.as_bytes()),
        }
    }
}

/// Returns the time as the log shows it.
pub(crate) fn shown_time(time: Timestamp) -> Time {
    let mut text = Time::new();
    let _ = write!(text, "{time:.3}");
    text
}

/// Returns the peer as the log shows it.
pub(crate) fn shown_peer(peer: SocketAddr) -> Peer {
    let mut text = Peer::new();
    let _ = write!(text, "{peer}");
    text
}

/// Returns the text line of an event.
fn text_line(head: Head, event: Event, values: &[Value<'_>]) -> Line {
    let mut line = Line::new();
    if let Some(time) = head.time {
        line.add(shown_time(time).as_str().as_bytes());
        line.add(b" ");
    }
    if let Some(peer) = head.peer {
        line.add(shown_peer(peer).as_str().as_bytes());
        line.add(b" ");
    }
    write_parts(event, values, &mut line);
    line
}

/// The members of a JSON object, unless memory ran out.
#[derive(Drop)]
struct Object {
    alloc: Global,
    members: Map<String, Json>,
    is_lost: bool,
}

impl Object {
    /// Adds a member, or records that memory ran out.
    fn put(&mut self, key: &str, value: Result<Json, AllocError>) {
        let added = match value {
            Ok(value) => serde_json::put(&mut self.members, self.alloc, key, value),
            Err(error) => Err(error),
        };
        if added.is_err() {
            self.is_lost = true;
        }
    }

    fn put_text(&mut self, key: &str, value: &str) {
        let value = Json::try_from_str(self.alloc, value);
        self.put(key, value);
    }
}

impl Form for Object {
    fn text(&mut self, _text: &str) {}

    fn field(&mut self, name: &str, value: &Value<'_>) {
        match value {
            Value::Absent => {}
            Value::Number(number) => self.put(name, Ok(Json::from(*number))),
            Value::Shown(words) => self.put_text(name, words.as_str()),
            Value::Text(text) => self.put_text(name, text),
            Value::List(texts) => {
                let list = list_of(self.alloc, texts);
                self.put(name, list);
            }
        }
    }
}

/// Returns the parts of a text that a comma and a space separate.
fn list_of(alloc: Global, values: &str) -> Result<Json, AllocError> {
    let mut list = Vec::new(alloc);
    for value in values.split(", ") {
        list.push(Json::try_from_str(alloc, value)?)?;
    }
    Ok(Json::Array(list))
}

/// Returns the members of a JSON line.
fn object_of(alloc: Global, head: Head, event: Event, values: &[Value<'_>]) -> Object {
    let mut object = Object {
        alloc,
        members: Map::new(alloc),
        is_lost: false,
    };
    if let Some(time) = head.time {
        object.put_text("time", shown_time(time).as_str());
    }
    object.put_text("level", event.level.as_str());
    object.put_text("event", event.name);
    if let Some(peer) = head.peer {
        object.put_text("peer", shown_peer(peer).as_str());
    }
    write_parts(event, values, &mut object);
    object
}

/// Returns the JSON line of an event.
fn json_line(alloc: Global, head: Head, event: Event, values: &[Value<'_>]) -> Line {
    let object = object_of(alloc, head, event, values);
    let mut line = Line::new();
    if object.is_lost {
        line.add(NO_MEMORY);
        return line;
    }
    match Json::Object(object.members).to_string(alloc) {
        Ok(text) if text.len() <= LINE => line.add(text.as_bytes()),
        Ok(_) => line.add(TOO_LONG),
        Err(_) => line.add(NO_MEMORY),
    }
    line
}

/// Returns the line of an event with these values.
pub(crate) fn line_of(form: LineForm, head: Head, event: Event, values: &[Value<'_>]) -> Line {
    match form {
        LineForm::Text => text_line(head, event, values),
        LineForm::Json(alloc) => json_line(alloc, head, event, values),
    }
}
