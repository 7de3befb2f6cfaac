//! Checks the values of data elements against the table of VRs (PS3.5 table 6.2-1): lengths in
//! characters, dates and times that exist, and the form of numbers and names.
#![tactic(auto)]

mod calendar;
mod character_set;
mod clock;
mod fault;
mod letters;
mod moment;
mod name;
mod numbers;
mod reading;
mod repertoire;
mod rule;
mod table;
mod texts;

pub use calendar::is_date;
pub use character_set::CharacterSet;
pub use clock::is_time;
pub use fault::FormFault;
pub use moment::{has_date, has_time, is_offset};
pub use name::is_name;
pub use numbers::{fits_32_bits, is_decimal, is_integer};
pub use reading::{ExtendedPosition, GbPosition, Reading, WideSets};
pub use repertoire::{Part, Repertoire};
pub use table::{check_form, number_size};
