//! The command line of DCMBOX: its commands, their arguments, and the settings that these yield.
#![tactic(auto)]

mod argument;
mod callers;
mod command;
mod given;
mod options;
mod quarantine;
mod send_options;
mod service_options;
mod settings;
mod transfers;
mod words;

pub use command::VERSION;
pub use failures::WordsError;
pub use given::Given;
pub use options::{
    Archive, FolderLayout, Index, LogForm, Per, QuarantineOption, Replay, Send, Serve,
};
pub use send_options::{archive_of, send_settings};
pub use settings::{index_settings, replay_settings, serve_settings};
pub use words::{CommandName, Job, read_words};
