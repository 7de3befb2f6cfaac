//! The identity of files and folders.
use std::fs::Metadata;
use std::os::unix::fs::MetadataExt;

/// The device and inode numbers of a file or folder, equal for all paths that lead to it.
#[derive(Clone, Copy, PartialEq, Eq, Hash)]
pub struct NodeId {
    device: u64,
    inode: u64,
}

impl NodeId {
    /// Returns the identity of a file or a folder.
    pub fn of(found: &Metadata) -> NodeId {
        NodeId {
            device: found.dev(),
            inode: found.ino(),
        }
    }
}
