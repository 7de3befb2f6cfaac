//! The requestor of an association for storage: proposes presentation contexts, sends the instances
//! of files by C-STORE, and reads the responses (PS3.7 section 9.1.1, PS3.8 section 9.2). One
//! C-STORE is pending at a time.
#![tactic(auto)]

mod acceptance;
mod association;
mod buffers;
mod context;
mod ending;
mod handing;
pub mod laws;
mod refusal;
mod refused_folder;
mod removing;
mod request;
mod response;
mod sent_file;
mod store_request;
mod stream;

pub use association::Association;
pub use context::{MOST_CONTEXTS, StorageContext};
pub use ending::Ending;
pub use handing::{Handed, hand_over};
pub use refusal::{Refusal, is_refused};
pub use refused_folder::RefusedFolder;
pub use removing::{NameCall, Removals};
pub use request::{Titles, request_pdu};
pub use response::is_filed;
pub use sent_file::SentFile;
