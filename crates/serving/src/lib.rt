//! One connection, served in turns with others: its non-blocking socket, its association with its
//! filing, its deadlines, and a record of the bytes that it carried.
#![tactic(auto)]

mod buffered_socket;
mod deadlines;
mod exchange;
mod inbox;
mod memory;
mod moment;
mod open_connection;
mod outbox;
mod stop;
mod traces;

pub use deadlines::{Deadlines, Wait};
pub use exchange::Exchange;
pub use inbox::{INBOX, Inbox};
pub use memory::{AssociationMemory, ConnectionMemory};
pub use moment::Moment;
pub use open_connection::{Connection, ConnectionConfiguration, ConnectionEnd, Turn};
pub use outbox::{OUTBOX, Outbox};
pub use stop::Stop;
pub use traces::SocketTrace;
