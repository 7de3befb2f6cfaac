//! Limits the number of connections: how many are served at a time, in all and of one peer
//! ([`Slots`]), which ones wait ([`Queue`]), and how often a repeated message is logged
//! ([`Notice`]).
#![tactic(auto)]

mod notice;
mod peer;
mod places;
mod queue;
mod slots;

pub use notice::Notice;
pub use peer::peer_number;
pub use places::Occupiable;
pub use queue::{Queue, Waiter};
pub use slots::{Admission, Slots};
