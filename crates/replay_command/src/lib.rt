//! `dcmbox replay`: runs an association with the recorded bytes of a peer.
#![tactic(auto)]

mod hexadecimal;
mod recording;

pub use recording::{replay, replay_over};
