//! The program without its `main`: runs the command that its arguments name, and returns the exit
//! status.
#![tactic(auto)]

mod marked;
mod options;
mod perform;
mod program;
mod standard;

pub use checkdir_command::checkdir_over;
pub use failures::{Failure, ProgramError};
pub use folders::open_folder;
pub use index_command::index_dir;
pub use program::run_program;
pub use replay_command::replay_over;
pub use serve_command::serve_one;
