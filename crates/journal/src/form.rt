//! The form of log lines.
use std::alloc::Global;

/// The form of log lines.
#[derive(Clone, Copy)]
pub enum LineForm {
    /// As text, for people.
    Text,
    /// As JSON objects, for machines. Memory is allocated while a line is written.
    Json(Global),
}
