//! Protocol data units (PDUs) of the upper layer: their layouts, the division of a received stream
//! into PDUs, association requests, and the [`Wire`] on which PDUs are sent (PS3.8 section 9.3).
#![tactic(auto)]

mod checking;
mod contexts;
mod deframer;
pub mod deframer_laws;
mod event;
mod fault;
mod head;
mod item;
pub mod item_type;
pub mod laws;
mod memory_wire;
pub mod part_laws;
pub mod pdu_type;
mod position;
mod proposal;
mod request;
mod syntaxes;
mod wire;
mod writers;

pub use contexts::Contexts;
pub use deframer::Deframer;
pub use event::Event;
pub use fault::PduFault;
pub use head::{PduHead, PdvHead, read_pdu_head, read_pdv_head};
pub use item::{Item, Items, first_item};
pub use memory_wire::MemoryWire;
pub use proposal::Proposal;
pub use request::{Request, TITLES_END, Titles, read_request, read_titles};
pub use syntaxes::TransferSyntaxes;
pub use wire::{Wire, WireFailed};
pub use writers::{write_abort, write_data, write_reject, write_release};
