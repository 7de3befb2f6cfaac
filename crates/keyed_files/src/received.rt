//! The paths of received files below their folder.
use folder_filing::EntryKind;

/// Returns whether a path is that of a folder of received files: a name like S0000001.
pub fn is_received_folder(path: &str) -> bool {
    EntryKind::Folder.number_in(path).is_some()
}

/// Returns whether a path is that of a received file: a name like I0000001, in the folder itself or
/// in a subfolder like S0000001.
pub fn is_received_file(path: &str) -> bool {
    match path.split_once('/') {
        Some((folder, name)) => is_received_folder(folder)
            && EntryKind::File.number_in(name).is_some(),
        None => EntryKind::File.number_in(path).is_some(),
    }
}
