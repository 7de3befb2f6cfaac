//! Data elements: tags, value representations, headers, unique identifiers and titles
//! (PS3.5 sections 6 and 7), and the names of the rules that a data set has to obey.
#![tactic(auto)]

pub mod count;
mod header;
pub mod header_laws;
pub mod history;
pub mod interrupted;
mod kinds;
pub mod laws;
mod padding;
mod parts;
mod reading;
mod rule;
mod size;
mod syntax;
mod tag;
mod title;
pub mod trace;
pub mod traced;
pub mod traced_stream;
mod uid;
mod values;
mod vr;
mod writing;

pub use header::Header;
pub use padding::{unpadded, without_trailing_spaces};
pub use reading::{need, read_header, read_tag};
pub use rule::Rule;
pub use size::Need;
pub use syntax::Syntax;
pub use tag::Tag;
pub use title::AeTitle;
pub use uid::Uid;
pub use values::{ValueFault, check_value};
pub use vr::Vr;
pub use writing::{header_fits, write_header};
