//! The single-threaded server of associations: it accepts connections, assigns them slots, and
//! gives each association its turn when its socket is readable or writable.
#![tactic(auto)]

mod arrivals;
mod config_source;
mod configuration;
pub mod laws;
mod listeners;
mod policy;
mod server;
mod slot;
mod socket;
mod stopping;

pub use config_source::{ConfigSource, Unchanging};
pub use configuration::{MOST_AT_ONCE, ServerConfiguration};
pub use policy::Policy;
pub use server::{ServerHistory, SlotHistory, serve_many};
pub use socket::Socket;
