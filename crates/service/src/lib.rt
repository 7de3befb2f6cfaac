//! What all connections of the program share: the limits of an association, the settings of the
//! server and its connections, the interface of an observer, and a socket option.
#![tactic(auto)]

mod acknowledge;
mod limits;
mod observer;
mod service;
mod timeouts;

pub use acknowledge::acknowledge_at_once;
pub use limits::{COMMAND, DEPTH, REQUEST, VALUES};
pub use observer::{Consumed, Observer, ReadEnd};
pub use service::Service;
pub use timeouts::Timeouts;
