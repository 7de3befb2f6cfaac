//! The acceptor of an association: the part of the upper layer's state machine that a receiver
//! needs (PS3.8 section 9.2). It handles no bytes: [`act`] returns the action and the next state
//! for an event, and [`Action`] has what is sent and the effect on the ARTIM timer.
#![tactic(auto)]

mod action;
mod effect;
mod event;
pub mod laws;
mod state;
mod table;

pub use action::Action;
pub use effect::{Sending, Timer};
pub use event::Event;
pub use state::State;
pub use table::act;
