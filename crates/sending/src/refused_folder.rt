//! The folder of the files that an archive refuses for good.
use crate::refusal::{Refusal, RefusalText};
use crate::removing::remove_text;
use crate::sent_file::SentFile;
use element::AeTitle;
use jiff::Timestamp;
use part10::Meta;
use std::fs::{self, File, OpenFile};
use std::io::{self, Error, ErrorKind, Write};
use std::rt::Files;
use std::time::Clock;

/// The greatest number after a name in the folder.
const MOST: u32 = 9999;

/// A folder to which files go that an archive refuses for good, each with a text beside it.
#[derive(Clone, Copy)]
pub struct RefusedFolder<'a> {
    pub dir: &'a str,
    /// The AE title of the archive.
    pub called: AeTitle,
    /// The host and the port of the archive.
    pub address: &'a str,
}

/// Writes a new text, and syncs it to the disk. One that is there is of a run that was killed, and
/// stays. After an error there is no text.
fn write_text<R: Files>(rt: &R, path: &str, text: &str) -> io::Result<()> {
    let mut file = match File::create_new(rt, path) {
        Ok(file) => file,
        Err(error) if error.kind() == ErrorKind::AlreadyExists => return Ok(()),
        Err(error) => return Err(error),
    };
    let written = match file.write_all(text.as_bytes()) {
        Ok(()) => file.sync_all(),
        Err(error) => Err(error),
    };
    if written.is_err() {
        remove_text(rt, path);
    }
    written
}

impl RefusedFolder<'_> {
    /// Gives a file a second name in the folder: its own, or with a number if that is taken. Returns
    /// its path there. A name that it has there already is kept.
    fn link<R: Files + Alloc>(
        self,
        rt: &R,
        file: &SentFile<'_, R::File>,
    ) -> io::Result<String<R::A>> {
        let (dir, name) = (self.dir, file.name());
        if file.is_in(rt, dir)? {
            return Err(Error::new(
                ErrorKind::InvalidInput,
                "its folder is that of refused files",
            ));
        }
        for number in 1..=MOST {
            let path = if number == 1 {
                format!(in rt.alloc(); "{dir}/{name}")?
            } else {
                format!(in rt.alloc(); "{dir}/{name}.{number}")?
            };
            if file.is_also_at(rt, path.as_str())? {
                return Ok(path);
            }
            let text = format!(in rt.alloc(); "{path}.txt")?;
            if fs::symlink_metadata(rt, text.as_str()).is_ok() {
                continue;
            }
            match fs::hard_link(rt, file.path(), path.as_str()) {
                Ok(()) => return Ok(path),
                Err(error) if error.kind() == ErrorKind::AlreadyExists => {}
                Err(error) => return Err(error),
            }
        }
        Err(Error::from(ErrorKind::AlreadyExists))
    }

    /// Gives a file a second name in the folder, with a text beside it, and syncs both to the disk.
    /// Returns its path there.
    ///
    /// Fails if a system call does, as where the folder is on another file system, or memory runs out.
    pub(crate) fn take_in<R: Files + Alloc + Clock>(
        self,
        rt: &R,
        file: &SentFile<'_, R::File>,
        meta: &Meta,
        refusal: Refusal,
    ) -> io::Result<String<R::A>> {
        let path = self.link(rt, file)?;
        let text = RefusalText {
            time: Timestamp::now(rt).ok(),
            path: file.path(),
            called: self.called,
            address: self.address,
            meta,
            refusal,
        };
        let text = format!(in rt.alloc(); "{text}")?;
        let beside = format!(in rt.alloc(); "{path}.txt")?;
        write_text(rt, beside.as_str(), text.as_str())?;
        fs::open(rt, self.dir)?.sync_all()?;
        Ok(path)
    }
}
