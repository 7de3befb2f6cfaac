//! The settings of the commands.
ghost use Rattle.std.specs.Prelude.{◌<◌, ◌≤◌};

use crate::words::MOST_ADDRESSES;
use arrayvec::ArrayVec;
use element::{AeTitle, Uid};
use log::Level;
use negotiate::Config;
use service::Service;
use std::time::Duration;

/// The format of the log.
#[derive(Clone, Copy)]
pub enum LogForm {
    /// Lines of text, for people.
    Text,
    /// Lines with a JSON object each, for machines.
    Json,
}

/// How received files are arranged in the output folder.
#[derive(Clone, Copy)]
pub enum FolderLayout {
    Flat,
    /// In subfolders of this many files, 1 to 9999.
    Levels(Per),
}

/// The number of files of a subfolder, 1 to 9999.
#[derive(Clone, Copy)]
pub struct Per {
    pub files: u32,
    pub ghost some: { 1 ≤ files },
    pub ghost most: { files ≤ 9999 },
}

/// The settings of `dcmbox replay`.
#[derive(Drop)]
pub struct Replay<'a> {
    pub file: &'a str,
    pub out: &'a str,
    pub config: Config,
    /// How many bytes are read at a time, at least 1.
    pub cut: usize,
    pub layout: FolderLayout,
    pub ghost some: { 0 < cut },
}

/// The settings of `dcmbox serve`.
#[derive(Drop)]
pub struct Serve<'a> {
    pub bind: &'a str,
    pub port: u16,
    /// Further addresses to listen on, each with its port.
    pub listen: ArrayVec<&'a str, MOST_ADDRESSES>,
    pub out: &'a str,
    pub config: Config,
    pub service: Service<'a>,
    /// The least important level that is logged.
    pub level: Level,
    pub form: LogForm,
    pub layout: FolderLayout,
    /// The path of the file that keeps the greatest file numbers, if any.
    pub numbers: Option<&'a str>,
    /// The quarantine, if any.
    pub quarantine: Option<QuarantineOption<'a>>,
    /// Whether a C-STORE-RSP is sent only after the file is synced to the disk.
    pub sync: bool,
    /// The path of the file of metrics, if any.
    pub metrics: Option<&'a str>,
}

/// The folder that keeps rejected data sets, and the most data sets that it keeps.
#[derive(Clone, Copy)]
pub struct QuarantineOption<'a> {
    pub dir: &'a str,
    /// The most data sets that are kept: 1 to 999,999.
    pub most: u32,
}

/// The settings of `dcmbox index`.
#[derive(Drop)]
pub struct Index<'a> {
    pub dir: &'a str,
    /// The SOP Instance UID of the directory; `None` for a new one.
    pub uid: Option<Uid>,
    /// Whether records of series have Series Description.
    pub descriptions: bool,
    /// Whether files in compressed transfer syntaxes are listed.
    pub all_syntaxes: bool,
    /// Whether each DICOM file is listed whose path is a file ID, not only files named like
    /// received files.
    pub any_name: bool,
    /// Whether files that are no DICOM files are ignored.
    pub ignore_others: bool,
    /// Whether symbolic links are followed.
    pub follow: bool,
    /// Whether the files are those that the present directory names.
    pub keep: bool,
    /// Whether a directory of another implementation is replaced.
    pub replace: bool,
    /// Whether a file that is left out makes the program exit with status 1.
    pub strict: bool,
    /// Whether the output is one JSON object.
    pub json: bool,
}

/// The peer that `dcmbox send` and `dcmbox echo` call.
#[derive(Clone, Copy)]
pub struct Archive<'a> {
    /// Its host and port.
    pub address: &'a str,
    /// Its AE title.
    pub called: AeTitle,
    /// The AE title that calls it.
    pub calling: AeTitle,
    /// How long it may be silent, at least a second.
    pub timeout: Duration,
}

/// The settings of `dcmbox send`.
#[derive(Clone, Copy)]
pub struct Send<'a> {
    pub dir: &'a str,
    pub archive: Archive<'a>,
    /// Whether files that the archive has filed are removed.
    pub remove: bool,
    /// The folder that files go to which the archive refuses for good, if any.
    pub refused: Option<&'a str>,
    /// Whether each DICOM file is sent, not only files named like received files.
    pub any_name: bool,
    /// Whether files that are filed are reported, too.
    pub verbose: bool,
    /// Whether the output is one JSON object.
    pub json: bool,
}
