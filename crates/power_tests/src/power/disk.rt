//! A disk in memory that separates what was written from what is durable.

use crate::power::folder::{Folder, Node};
use crate::power::name::Name;
use crate::power::stored::Stored;
use crate::power::survivors::Choices;
use crate::power::trouble::{Act, Trouble};
use std::alloc::Global;
use std::cell::RefCell;
use std::fs::Metadata;
use std::io;
use std::io::{Error, ErrorKind};
use std::rc::Rc;

/// A failed call: its kind, and how many sends preceded it.
#[derive(Clone, Copy)]
pub(crate) struct Failed {
    pub(crate) act: Act,
    pub(crate) sends: usize,
}

/// Files in one folder and its subfolders. The first part of each path names the disk.
///
/// A change of a folder (a name created or removed; a rename is both) may be lost until that folder
/// is synced, and each half of a write until that file is synced. Each change that may be lost
/// survives a loss of power or not, independently of the others and of their order: a real disk may
/// write its sectors in any order, and a file system may keep later names while earlier ones are
/// lost. Lost bytes of a file before a part that survives read as zeros. Syncing a file makes no
/// name durable, and syncing a folder no bytes.
#[derive(Drop)]
pub(crate) struct Disk {
    alloc: Global,
    files: Vec<Stored>,
    /// The folders; the first is the disk's own.
    folders: Vec<Folder>,
    trouble: Trouble,
    calls: usize,
    has_power: bool,
    failed: Option<Failed>,
    sends: usize,
}

/// A disk shared by its open files.
pub(crate) type Shared = Rc<RefCell<Disk>>;

fn missing() -> Error {
    Error::from(ErrorKind::NotFound)
}

fn name_of(text: &str) -> io::Result<Name> {
    Name::of(text).ok_or(Error::from(ErrorKind::InvalidFilename))
}

/// Returns the metadata of a node; a disk in memory has no device and inode numbers.
fn metadata_of(node: Node) -> Metadata {
    match node {
        Node::File(_) => Metadata::of_file(0),
        Node::Folder(_) => Metadata::of_dir(),
    }
}

impl Disk {
    pub(crate) fn new(alloc: Global, trouble: Trouble) -> io::Result<Disk> {
        let mut folders = Vec::new(alloc);
        folders.push(Folder::new(alloc)?)?;
        Ok(Disk {
            alloc,
            files: Vec::new(alloc),
            folders,
            trouble,
            calls: 0,
            has_power: true,
            failed: None,
            sends: 0,
        })
    }

    /// Returns a disk that open files can share.
    pub(crate) fn shared(self) -> io::Result<Shared> {
        Ok(Rc::new(self.alloc, RefCell::new(self))?)
    }

    /// Starts a call. Fails if power is lost or the call is to fail.
    pub(crate) fn call(&mut self, act: Act) -> io::Result<()> {
        let at = self.calls;
        self.calls = at.saturating_add(1);
        if self.trouble.power_ends == Some(at) {
            self.has_power = false;
        }
        if !self.has_power {
            return Err(Error::from(ErrorKind::NotConnected));
        }
        match self.trouble.failure {
            Some((failing, kind)) if failing == at => {
                self.failed = Some(Failed {
                    act,
                    sends: self.sends,
                });
                Err(Error::from(kind))
            }
            _ => Ok(()),
        }
    }

    /// Returns whether there is power, and counts a send if there is.
    pub(crate) fn sends(&mut self) -> bool {
        if self.has_power {
            self.sends = self.sends.saturating_add(1);
        }
        self.has_power
    }

    /// Returns how many sends were made.
    pub(crate) fn sent(&self) -> usize {
        self.sends
    }

    pub(crate) fn has_power(&self) -> bool {
        self.has_power
    }

    pub(crate) fn failed(&self) -> Option<Failed> {
        self.failed
    }

    /// Returns the files of a folder, if it exists.
    pub(crate) fn folder(&self, at: usize) -> io::Result<&Folder> {
        self.folders.get(at).ok_or(missing())
    }

    fn folder_mut(&mut self, at: usize) -> io::Result<&mut Folder> {
        self.folders.get_mut(at).ok_or(missing())
    }

    pub(crate) fn file(&self, at: usize) -> io::Result<&Stored> {
        self.files.get(at).ok_or(missing())
    }

    /// Returns the folder of a path's last name, and that name; the disk's own folder has none.
    fn find(&self, path: &str) -> io::Result<(usize, Option<Name>)> {
        let mut folder = 0;
        let mut name = None;
        for part in path.split('/').skip(1) {
            if part.is_empty() {
                continue;
            }
            if let Some(above) = name {
                folder = match self.folder(folder)?.node(above) {
                    Some(Node::Folder(at)) => at,
                    _ => return Err(missing()),
                };
            }
            name = Some(name_of(part)?);
        }
        Ok((folder, name))
    }

    /// Returns the folder of a path's last name, and that name.
    fn find_name(&self, path: &str) -> io::Result<(usize, Name)> {
        match self.find(path)? {
            (folder, Some(name)) => Ok((folder, name)),
            _ => Err(Error::from(ErrorKind::InvalidInput)),
        }
    }

    /// Returns whether there is a draft in the disk's own folder.
    pub(crate) fn has_draft(&self) -> io::Result<bool> {
        for entry in self.folder(0)?.entries() {
            if entry.name.is_draft() {
                return Ok(true);
            }
        }
        Ok(false)
    }

    /// Returns the node at a path.
    pub(crate) fn node(&self, path: &str) -> io::Result<Node> {
        match self.find(path)? {
            (folder, None) => Ok(Node::Folder(folder)),
            (folder, Some(name)) => self.folder(folder)?.node(name).ok_or(missing()),
        }
    }

    /// Adds a node at a path.
    fn add(&mut self, path: &str, node: Node) -> io::Result<()> {
        let (folder, name) = self.find_name(path)?;
        if self.folder(folder)?.node(name).is_some() {
            return Err(Error::from(ErrorKind::AlreadyExists));
        }
        let alloc = self.alloc;
        self.folder_mut(folder)?.add(alloc, name, node)?;
        Ok(())
    }

    fn remove(&mut self, path: &str) -> io::Result<()> {
        let (folder, name) = self.find_name(path)?;
        let alloc = self.alloc;
        self.folder_mut(folder)?.remove(alloc, name)?;
        Ok(())
    }

    pub(crate) fn open(&mut self, path: &str) -> io::Result<Node> {
        self.call(Act::Open)?;
        self.node(path)
    }

    pub(crate) fn create(&mut self, path: &str) -> io::Result<Node> {
        self.call(Act::Create)?;
        let node = Node::File(self.files.len());
        self.add(path, node)?;
        self.files.push(Stored::new(self.alloc))?;
        Ok(node)
    }

    pub(crate) fn metadata(&mut self, path: &str) -> io::Result<Metadata> {
        let is_own_folder = matches!(self.find(path), Ok((_, None)));
        self.call(if is_own_folder {
            Act::LookAtFolder
        } else {
            Act::Look
        })?;
        Ok(metadata_of(self.node(path)?))
    }

    /// Returns the metadata of an open file or folder.
    pub(crate) fn metadata_of_open(&mut self, node: Node) -> io::Result<Metadata> {
        self.call(match node {
            Node::Folder(0) => Act::LookAtFolder,
            _ => Act::Look,
        })?;
        Ok(metadata_of(node))
    }

    /// Appends as many of these bytes to a file as one write accepts. Returns how many.
    pub(crate) fn write(&mut self, node: Node, bytes: &[u8]) -> io::Result<usize> {
        self.call(Act::Write)?;
        let bytes = bytes.get(..self.trouble.most).unwrap_or(bytes);
        match node {
            Node::File(at) => {
                self.files.get_mut(at).ok_or(missing())?.append(bytes)?;
                Ok(bytes.len())
            }
            Node::Folder(_) => Err(Error::from(ErrorKind::IsADirectory)),
        }
    }

    pub(crate) fn sync(&mut self, node: Node) -> io::Result<()> {
        self.call(Act::Sync)?;
        match node {
            Node::File(at) => self.files.get_mut(at).ok_or(missing())?.sync(),
            Node::Folder(at) => {
                let alloc = self.alloc;
                self.folder_mut(at)?.sync(alloc)?;
            }
        }
        Ok(())
    }

    pub(crate) fn link(&mut self, from: &str, to: &str) -> io::Result<()> {
        self.call(Act::Link)?;
        if !self.trouble.has_links {
            return Err(Error::from(ErrorKind::Unsupported));
        }
        let node = self.node(from)?;
        self.add(to, node)
    }

    /// Renames a file, replacing any file with the new name.
    pub(crate) fn rename(&mut self, from: &str, to: &str) -> io::Result<()> {
        self.call(Act::Rename)?;
        let node = self.node(from)?;
        let (folder, name) = self.find_name(to)?;
        let alloc = self.alloc;
        self.folder_mut(folder)?.add(alloc, name, node)?;
        self.remove(from)
    }

    pub(crate) fn remove_file(&mut self, path: &str) -> io::Result<()> {
        self.call(Act::Remove)?;
        match self.node(path)? {
            Node::File(_) => self.remove(path),
            Node::Folder(_) => Err(Error::from(ErrorKind::IsADirectory)),
        }
    }

    pub(crate) fn make_folder(&mut self, path: &str) -> io::Result<()> {
        self.call(Act::MakeFolder)?;
        let at = self.folders.len();
        self.add(path, Node::Folder(at))?;
        self.folders.push(Folder::new(self.alloc)?)?;
        Ok(())
    }

    pub(crate) fn remove_folder(&mut self, path: &str) -> io::Result<()> {
        self.call(Act::RemoveFolder)?;
        match self.node(path)? {
            Node::Folder(at) if self.folder(at)?.entries().is_empty() => self.remove(path),
            _ => Err(Error::from(ErrorKind::DirectoryNotEmpty)),
        }
    }

    fn may_name(&self, file: usize) -> bool {
        for folder in &self.folders {
            if folder.may_name(file) {
                return true;
            }
        }
        false
    }

    /// Returns how many changes may be lost.
    pub(crate) fn pending(&self) -> usize {
        let mut pending = 0usize;
        for folder in &self.folders {
            pending = pending.saturating_add(folder.pending());
        }
        for (at, file) in self.files.iter().enumerate() {
            if self.may_name(at) {
                pending = pending.saturating_add(file.pending());
            }
        }
        pending
    }

    /// Returns the disk that remains with these choices, all of it durable and without further
    /// trouble.
    pub(crate) fn survivor(&self, choices: Choices) -> io::Result<Disk> {
        let mut choices = choices;
        let alloc = self.alloc;
        let mut remaining = Disk::new(alloc, Trouble::NONE)?;
        remaining.folders.clear();
        for folder in &self.folders {
            remaining
                .folders
                .push(folder.survivor(alloc, &mut choices)?)?;
        }
        for (at, file) in self.files.iter().enumerate() {
            let kept = if self.may_name(at) {
                file.survivor(alloc, &mut choices)?
            } else {
                Stored::new(alloc)
            };
            remaining.files.push(kept)?;
        }
        Ok(remaining)
    }
}
