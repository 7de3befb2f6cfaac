//! One association of the acceptor: handles inputs (received bytes, the close of the connection,
//! the ARTIM timer's expiry, an abort of the local user), sends the answers and stores the files
//! (PS3.8 section 9.2).
#![tactic(auto)]

mod association;
mod devices;
mod events;
mod given;
mod heads;
pub mod laws;
mod list_source;
mod messages;
mod phase;
mod provider;
mod report;
mod requests;
mod running;
mod sending;
mod source;
mod status;
mod stores;

pub use association::Association;
pub use given::Given;
pub use list_source::{ListSource, ListedInput};
pub use report::{Report, Standing};
pub use running::run;
pub use source::{Input, Source};
