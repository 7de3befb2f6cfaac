//! What an association decides, as values that `engine` reports and the log prints.
#![tactic(auto)]

mod decision;
mod head_fault;
mod value_end;

pub use decision::Decision;
pub use head_fault::HeadFault;
pub use value_end::ValueEnd;
