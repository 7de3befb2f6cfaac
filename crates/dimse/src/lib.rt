//! DIMSE messages: joins the fragments of received messages, reads their command sets, and sends
//! the responses (PS3.7 chapter 9).
#![tactic(auto)]

mod command;
mod detail;
pub mod element_numbers;
mod elements;
mod fault;
mod join;
mod joined;
pub mod laws;
mod operation;
mod reading;
mod reply_set;
mod response;
mod set;
mod stage;
pub mod status;
mod unfinished;

pub use command::Command;
pub use detail::{CLASS_MISMATCH, Detail, INSTANCE_MISMATCH, cause_name};
pub use fault::DimseFault;
pub use join::Join;
pub use joined::Joined;
pub use reading::{command_field, read_command};
pub use reply_set::{put_element, put_number, put_uid};
pub use response::write_response;
pub use set::CommandSet;
pub use unfinished::Unfinished;
