//! Makes DICOMDIR files, directories of DICOM files (PS3.3 annex F, PS3.10 section 8): [`rows_of`]
//! reads the rows of files, [`build`] makes a directory of them, and [`write_dir`] writes it.
#![tactic(auto)]

mod allowed;
mod build_groups;
mod build_plan;
mod built;
mod duplicates;
mod first_seen;
mod keys;
pub mod laws;
mod record_bytes;
mod record_table;
mod record_writer;
mod root_bytes;
mod row;
mod row_reading;
mod row_record;
mod skip;
mod writing;

pub use built::{Built, build, build_within, write_dir};
pub use keys::Keys;
pub use row::Row;
pub use row_reading::{described_row_of, rows_of};
pub use skip::Skip;
