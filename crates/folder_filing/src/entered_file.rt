//! Files that were named in a folder whose own entry is on the disk.
ghost use Rattle.std.specs.Prelude.{◌≡◌, Some, true};
ghost use Rattle.folder_filing.specs.Folders.{IsParentSynced};
ghost use Rattle.folder_filing.specs.Synced.{have_moved, is_at, is_moved};

use crate::folder_calls::FolderCalls;
use crate::folder_identity::NumberedFolder;
use crate::location::Location;
use crate::named_file::NamedFile;
use crate::open_folder::OpenFolder;

/// A subfolder whose entry in the folder is on the disk: only [`SyncedEntry::of`] makes one.
#[derive(Clone, Copy)]
pub(crate) struct SyncedEntry {
    folder: NumberedFolder,
}

impl SyncedEntry {
    /// Returns the entry of an open subfolder, after the last of these system calls has synced the
    /// folder.
    pub(crate) fn of<F: Drop>(folder: &OpenFolder<F>, _calls: &FolderCalls) -> SyncedEntry
        requires { IsParentSynced _calls.now }
        ensures { result.folder ≡ folder.now }
    {
        SyncedEntry {
            folder: folder.numbered(),
        }
    }

    /// Returns whether this is the entry of an open subfolder. A subfolder that replaced one that
    /// was moved away has the same number, but is another folder.
    pub(crate) fn is_of<F: Drop>(self, folder: &OpenFolder<F>) -> bool
        ensures { result ≡ true → self.folder ≡ folder.now }
    {
        self.folder == folder.numbered()
    }
}

/// A file that the system has named in a folder whose own entry is on the disk: only
/// [`EnteredFile::in_folder`] and [`EnteredFile::in_subfolder`] make one.
#[derive(Clone, Copy)]
pub(crate) struct EnteredFile {
    file: NamedFile,
    folder: NumberedFolder,
}

impl EnteredFile {
    /// Returns a file that was named in the folder itself.
    pub(crate) fn in_folder<F: Drop>(file: NamedFile, folder: &OpenFolder<F>) -> EnteredFile
        requires own { folder.now.number ≡ 0 }
        requires number { file.location.folder ≡ 0 }
        ensures file { result.file ≡ file }
        ensures folder { result.folder ≡ folder.now }
    {
        EnteredFile {
            file,
            folder: folder.numbered(),
        }
    }

    /// Returns a file that was named in this open subfolder, to which its number led right before
    /// and right after that, and which has this entry.
    pub(crate) fn in_subfolder<F: Drop>(
        file: NamedFile,
        folder: &OpenFolder<F>,
        _entry: SyncedEntry,
    ) -> EnteredFile
        requires number { folder.now.number ≡ file.location.folder }
        requires same { file.folder ≡ Some folder.now.identity }
        requires entry { _entry.folder ≡ folder.now }
        ensures file { result.file ≡ file }
        ensures folder { result.folder ≡ folder.now }
    {
        EnteredFile {
            file,
            folder: folder.numbered(),
        }
    }

    pub(crate) fn location(self) -> Location
        ensures { result ≡ self.file.location }
    {
        self.file.location()
    }

    pub(crate) fn folder(self) -> NumberedFolder
        ensures { result ≡ self.folder }
    {
        self.folder
    }

    /// Returns whether the file is at this location, in this folder.
    pub(crate) fn is_at(self, location: Location, folder: NumberedFolder) -> bool
        ensures at { result ≡ is_at location folder self }
        ensures location { result ≡ true → self.file.location ≡ location }
        ensures folder { result ≡ true → self.folder ≡ folder }
    {
        let own = self.file.location();
        own.folder == location.folder && own.file == location.file && self.folder == folder
    }

    /// Returns whether the draft of the file was renamed from another folder.
    pub(crate) fn has_remaining(self) -> bool
        ensures { result ≡ is_moved self.file }
    {
        self.file.has_remaining()
    }
}

/// Returns whether the draft of one of these files was renamed from another folder.
pub(crate) fn have_remaining(files: &[EnteredFile]) -> bool
    ensures { result ≡ have_moved files.now }
{
    files.iter().any(|file| file.has_remaining())
}
