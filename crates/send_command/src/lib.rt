//! `dcmbox send`: sends the files of a folder to an archive, removes what it has filed, and sets aside
//! what it refuses for good; and `dcmbox echo`, which tests whether an archive answers.
#![tactic(auto)]

mod counts;
mod echoing;
mod listing;
mod refused;
mod report;
mod running;
mod sender;
mod texts;

pub use counts::SendCounts;
pub use echoing::echo;
pub use running::{send, send_folder};
