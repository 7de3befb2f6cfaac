//! Judges association requests and writes the answers to them (PS3.8 sections 7.1 and 9.3).
#![tactic(auto)]

mod accept;
mod answer;
mod config;
mod contexts;
mod items;
pub mod laws;
mod proposals;
pub mod rejection;
mod table;
mod writing;

pub use answer::{Answer, judge};
pub use config::{Config, MOST_ALSO, MOST_NAMED};
pub use contexts::context;
pub use items::extend_by_item;
pub use proposals::{Context, Service, result_of};
pub use table::{ContextRow, RowClass, compact, context_of};
pub use writing::{answer_size, write_answer};
