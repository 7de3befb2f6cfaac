//! Reads the structure of a data set that is received in chunks. Holds only an unfinished header,
//! the open levels (sequences and items) and the wanted values (PS3.5 chapter 7).
#![tactic(auto)]

mod answering;
mod broken;
mod coding;
mod fault;
mod heading;
mod keep;
pub mod laws;
mod level;
mod levels;
mod reading;
mod shape;
mod spot;
mod stage;
mod step;
mod transfer;
mod walker;
mod wanted;

pub use coding::Coding;
pub use element::Rule;
pub use fault::Fault;
pub use level::Level;
pub use shape::{Shape, shape_of};
pub use step::Step;
pub use walker::Walker;
pub use wanted::{Want, Wanted};
