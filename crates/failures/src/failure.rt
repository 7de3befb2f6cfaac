//! The operations of the program that can fail with a system error.

/// The operation that failed with a system error. Each variant has a text that says what failed,
/// and one that advises the user.
#[derive(Clone, Copy, PartialEq, Eq)]
pub enum Failure {
    /// The arguments of the program cannot be read.
    Arguments,
    /// A file cannot be opened.
    Open,
    /// A file cannot be read.
    Read,
    /// A file cannot be read, as it is a folder.
    IsFolder,
    /// A file cannot be opened, as its name is not UTF-8.
    Name,
    /// A folder that is read cannot be opened or listed.
    ReadFolder,
    /// A folder that files go to cannot be opened or listed.
    Folder,
    /// A folder that files go to does not exist.
    MissingFolder,
    /// A folder is locked: another program stores files in it.
    BusyFolder,
    /// No file can be created in a folder.
    UnwrittenFolder,
    /// The file of numbers (option `--numbers`) cannot be read or created.
    Numbers,
    /// The file of numbers is locked: another program writes it.
    BusyNumbers,
    /// The file of titles (option `--callers`) cannot be read.
    Callers,
    /// The quarantine (option `--quarantine`) cannot be created or opened, or no file can be moved
    /// there.
    Quarantine,
    /// The DICOMDIR of a folder cannot be read.
    NoDirectory,
    /// The DICOMDIR of a folder cannot be read to see which program wrote it.
    UnreadDirectory,
    /// The system provides no random bytes, for a new UID.
    Random,
    /// A DICOMDIR cannot be written.
    Directory,
    /// The standard output cannot be written.
    Write,
    /// A port cannot be listened on.
    Listen,
    /// A port cannot be listened on, as it needs more rights (below 1024).
    KeptPort,
    /// No more connections can be accepted.
    Serve,
    /// An address cannot be listened on.
    Address,
    /// A further address (option `--listen`) cannot be listened on.
    FurtherAddress,
    /// The file of metrics (option `--metrics`) is locked: another program writes it.
    BusyMetrics,
    /// A file cannot be linked into a tree of folders, by `arrange`.
    Link,
    /// A tree of folders cannot be written, by `arrange`.
    Tree,
    /// A file has the name of a folder of the tree, by `arrange`.
    InTheWay,
    /// No connection to the archive can be opened, by `send`.
    Archive,
    /// The folder of refused files (option `--refused`) cannot be used, by `send`.
    Refused,
}

impl Failure {
    /// Returns the text that says what failed.
    pub fn what(self) -> &'static str {
        match self {
            Failure::Arguments => "the command line can't be read",
            Failure::Open => "the file can't be opened",
            Failure::Read => "the file can't be read",
            Failure::IsFolder => "the file can't be read",
            Failure::Name => "the file can't be opened",
            Failure::ReadFolder => "the folder can't be opened",
            Failure::Folder => "the folder can't be opened",
            Failure::MissingFolder => "the folder can't be opened",
            Failure::BusyFolder => "the folder can't be opened",
            Failure::UnwrittenFolder => "the folder can't be written into",
            Failure::Numbers => "the file of numbers can't be read or made",
            Failure::BusyNumbers => "the file of numbers can't be used",
            Failure::Callers => "the file of titles can't be read",
            Failure::Quarantine => "the quarantine can't be used",
            Failure::NoDirectory => "the folder's DICOMDIR can't be read",
            Failure::UnreadDirectory => "the folder's DICOMDIR can't be looked at",
            Failure::Random => "no UID can be made",
            Failure::Directory => "the directory can't be written",
            Failure::Write => "the output can't be written",
            Failure::Listen => "can't be listened on",
            Failure::KeptPort => "can't be listened on",
            Failure::Serve => "associations can't be served any more",
            Failure::Address => "can't be listened on",
            Failure::FurtherAddress => "an address of --listen can't be listened on",
            Failure::BusyMetrics => "the file of metrics can't be used",
            Failure::Link => "a file can't be linked into it",
            Failure::Tree => "it can't be written into",
            Failure::InTheWay => "its path in the tree needs a folder where a file is",
            Failure::Archive => "can't be reached",
            Failure::Refused => "the folder can't be used",
        }
    }

    /// Returns the text that says what the user can do.
    pub fn advice(self) -> &'static str {
        match self {
            Failure::Arguments => "start the program again",
            Failure::Open => "check its name, and that you may read it",
            Failure::Read => "give a file, and copy it first if its disk fails",
            Failure::IsFolder => "give a file",
            Failure::Name => "its name is not UTF-8: rename it",
            Failure::ReadFolder => "check its name, that it is a folder, and that you may read it",
            Failure::Folder => "check that it is a folder, and that you may write into it",
            Failure::MissingFolder => "create it, or check its name",
            Failure::BusyFolder => "end the other program that writes into it",
            Failure::UnwrittenFolder =>
                "check that you may, and that its disk is not read-only or full",
            Failure::Numbers =>
                "check that you may write it; once it is damaged, put the greatest number that was given into it, as I0000100 S0000007",
            Failure::Callers => "check its name, and that you may read it",
            Failure::Quarantine =>
                "--quarantine takes a folder other than that of --out, on its file system, that no other program uses; it is made within a folder that is there",
            Failure::NoDirectory => "run index without --keep",
            Failure::UnreadDirectory =>
                "check that you may read it, or write over it with --replace",
            Failure::Random => "give one with --uid",
            Failure::Directory =>
                "check that the disk has room, and that you may write into the folder",
            Failure::Write => "check that its disk has room",
            Failure::Listen => "choose another port, or end what uses it",
            Failure::KeptPort =>
                "choose a port from 1024 on: lower ones are for programs with CAP_NET_BIND_SERVICE",
            Failure::Serve => "start the program again",
            Failure::Address =>
                "--bind takes an IP address of this machine, or 0.0.0.0 for all of them, and no name",
            Failure::FurtherAddress =>
                "--listen takes IP addresses of this machine, each with a port that nothing uses",
            Failure::BusyMetrics | Failure::BusyNumbers => "give each program a file of its own",
            Failure::Link =>
                "where it is on another disk, or the files are another user's, copy them with --copy",
            Failure::Tree => "check that you may, and that its disk has room",
            Failure::InTheWay => "move that file away, or give another tree with --to",
            Failure::Archive => "check the host and the port, and that the archive runs",
            Failure::Refused =>
                "--refused takes a folder on the file system of the files, from which none are sent; create it, or check its name",
        }
    }

    /// Returns whether an input of the program failed: a file, also for want of its path in the
    /// tree, or a folder. Other inputs can still be read.
    pub fn is_of_input(self) -> bool {
        matches!(
            self,
            Failure::Open | Failure::Read | Failure::IsFolder | Failure::Name | Failure::InTheWay
        ) || self.is_of_folder()
    }

    /// Returns whether the output tree of `arrange` failed, or is locked by another program.
    pub fn is_of_tree(self) -> bool {
        matches!(self, Failure::Link | Failure::Tree | Failure::BusyFolder)
    }

    /// Returns whether a folder failed: it cannot be opened, listed or written.
    pub fn is_of_folder(self) -> bool {
        matches!(
            self,
            Failure::ReadFolder
                | Failure::Folder
                | Failure::MissingFolder
                | Failure::BusyFolder
                | Failure::UnwrittenFolder
        )
    }
}
