//! The metrics of the program: they are counted ([`Counters`]), and written from time to time
//! ([`Pace`]) to a file ([`MetricsFile`]) in the text form of Prometheus ([`Figures`]). Nothing
//! here can change what is received, sent or stored.
#![tactic(auto)]

mod complaint;
mod counters;
mod ends;
mod figures;
mod metrics_file;
mod pace;
mod statuses;

pub use complaint::Complaint;
pub use counters::Counters;
pub use ends::CountedEnd;
pub use figures::Figures;
pub use metrics_file::{MetricsFile, WriteReport};
pub use pace::Pace;
pub use statuses::CountedStatus;
