//! Test cases in text: a further test case is a line more and needs no proof.
//!
//! A line is the name of the test case and its fields, separated by bars:
//!
//!     a text that is too long | SH | '12345678901234567 ' | 5
//!
//! A field of bytes has, in any order, pairs of hexadecimal digits (`00 1f ff` or `001fff`), text
//! between apostrophes, and names of `Parts`, possibly with a range of bytes (`request[10..26]`,
//! `request[..60]`). `*` and a number repeat a word (`00*32`, `echo*50`).
#![tactic(auto)]

mod case;
mod parts;

pub use case::{Case, cases};
pub use parts::Parts;
