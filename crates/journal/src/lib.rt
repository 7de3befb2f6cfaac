//! The log of served associations: observes what each decides, and writes log lines. It is passed
//! the bytes by reference, and cannot change what is received, sent or filed.
#![tactic(auto)]

mod accepted;
mod asked;
mod cause;
mod contexts;
mod end;
mod event;
pub mod events;
mod fields;
mod form;
mod journal;
mod line;
mod line_limits;
mod logger;
mod message;
mod outcome;
mod output;
mod quarantine;
mod refusal;
mod refused;
mod request;
mod sheet;
mod state;
mod store_lines;
mod text;
mod words;

pub use event::{Event, Value, Words, shown};
pub use form::LineForm;
pub use journal::{Journal, Served};
pub use line::{LINE, Line};
pub use line_limits::{Limited, LineLimits};
pub use logger::{Logger, TARGET};
pub use outcome::{Counts, Outcome};
pub use output::Output;
pub use text::Text;
pub use words::{provider_words, rejection_words};
