//! Sends the listed files, in one association after the other.
ghost use Rattle.sending.specs.Handing.{state_of};
ghost use Rattle.send_command.specs.Running.{HandsAll, HandsOver};

use crate::listing::{ListedFile, Listing};
use crate::report::SendReport;
use crate::texts::EndingText;
use arguments::{Archive, Send};
use failures::{Failure, ProgramError};
use sending::{Association, RefusedFolder, Removals, SentFile, StorageContext, Titles, hand_over};
use std::alloc::Allocator;
use std::io::{self, Error, ErrorKind, Read, Write};
use std::net::{Net, OpenStream, TcpStream, ToSocketAddrs};
use std::rt::Files;
use std::time::Clock;

/// How many associations in a row may end with a file before the rest is given up.
const MOST_LOST: u32 = 3;

/// Sends the listed files, in their order.
#[derive(Drop)]
pub(crate) struct Sender<'a, R: Files + Alloc, E: Write + Drop> {
    rt: &'a R,
    archive: &'a Archive<'a>,
    files: &'a [ListedFile<R::A>],
    contexts: &'a [StorageContext],
    /// The index of the file that is next.
    next: usize,
    /// How many associations in a row have ended with a file, without a response since.
    lost: u32,
    removals: Removals<'a>,
    pub report: SendReport<E>,
}

/// Connects to the archive, at the first of its addresses that accepts.
pub(crate) fn connect<R: Net>(rt: &R, archive: &Archive<'_>) -> io::Result<R::Stream> {
    let mut failed = Error::from(ErrorKind::NotFound);
    for address in archive.address.to_socket_addrs(rt)? {
        match TcpStream::connect_timeout(rt, &address, archive.timeout) {
            Ok(stream) => {
                stream.set_nodelay(true)?;
                stream.set_read_timeout(Some(archive.timeout))?;
                stream.set_write_timeout(Some(archive.timeout))?;
                return Ok(stream);
            }
            Err(error) => failed = error,
        }
    }
    Err(failed)
}

/// Returns the AE titles of an association with the archive.
pub(crate) fn titles_of(archive: &Archive<'_>) -> Titles {
    Titles {
        called: archive.called,
        calling: archive.calling,
    }
}

impl<'a, R: Files + Net + Alloc + Clock, E: Write + Drop> Sender<'a, R, E>
where
    R::A: Copy,
{
    /// Creates the state before the first file.
    pub(crate) fn new(
        rt: &'a R,
        settings: &'a Send<'a>,
        listing: &'a Listing<R::A>,
        report: SendReport<E>,
    ) -> Sender<'a, R, E> {
        let archive = &settings.archive;
        let refused = match settings.refused {
            Some(dir) => Some(RefusedFolder {
                dir,
                called: archive.called,
                address: archive.address,
            }),
            None => None,
        };
        Sender {
            rt,
            archive,
            files: listing.files.as_slice(),
            contexts: listing.contexts.as_slice(),
            next: 0,
            lost: 0,
            removals: Removals::new(settings.remove, refused),
            report,
        }
    }

    /// Hands a file over, or leaves it out. Returns whether the association goes on.
    fn hand<S: Read + Write + Drop>(
        &mut self,
        association: &mut Association<S>,
        file: &ListedFile<R::A>,
    ) -> bool
        ensures handed { HandsOver (state_of self.old.removals association.old) (state_of self.new.removals association.new) }
    {
        let path = file.path.as_str();
        let Some(context) = self.contexts.get(file.context) else {
            return true;
        };
        let mut opened = match SentFile::open(self.rt, path) {
            Ok(opened) => opened,
            Err(error) => {
                // Another run may have removed it.
                if error.kind() != ErrorKind::NotFound {
                    let error = ProgramError::of(Failure::Open, error);
                    self.report.leave_out(path, &error);
                }
                return true;
            }
        };
        match hand_over(
            self.rt,
            association,
            context,
            &mut opened,
            &mut self.removals,
        ) {
            Ok(handed) => {
                self.lost = 0;
                self.report.add(path, context, &handed);
                true
            }
            Err(ending) => {
                self.lost = self.lost.saturating_add(1);
                let text = EndingText(&ending, self.archive.timeout);
                self.report.refuse(path, text);
                false
            }
        }
    }

    /// Hands over the files from the next one on, in their order, until all are, or the association
    /// ends. Returns whether all are.
    fn hand_rest<S: Read + Write + Drop>(&mut self, association: &mut Association<S>) -> bool
        ensures handed { HandsAll (state_of self.old.removals association.old) (state_of self.new.removals association.new) }
    {
        let files = self.files;
        for index in self.next..files.len() {
            self.next = index + 1;
            if !self.hand(association, &files[index]) {
                return false;
            }
        }
        true
    }

    /// Opens an association, hands files over in it, and releases it. Returns whether the archive
    /// accepted it; if not, it reports why.
    fn associate(&mut self) -> Result<bool, ProgramError> {
        let archive = self.archive;
        let stream = match connect(self.rt, archive) {
            Ok(stream) => stream,
            Err(error) => return Err(ProgramError::of(Failure::Archive, error)),
        };
        match Association::open(self.rt.alloc(), stream, titles_of(archive), self.contexts) {
            Ok(mut association) => {
                if self.hand_rest(&mut association) {
                    let _ = association.release();
                }
                Ok(true)
            }
            Err(ending) => {
                let text = EndingText(&ending, archive.timeout);
                self.report.tell(archive.address, &text);
                Ok(false)
            }
        }
    }

    /// Sends the files, and counts those that were not reached. A file with which an association
    /// ends stays, and those after it are sent in a new one, until three in a row end so or one is
    /// not accepted.
    ///
    /// Fails with `Archive` if no connection can be opened.
    pub(crate) fn run(&mut self) -> Result<(), ProgramError> {
        let mut ran = Ok(true);
        for _ in 0..self.files.len() {
            if self.next >= self.files.len() || self.lost >= MOST_LOST {
                break;
            }
            ran = self.associate();
            if !matches!(ran, Ok(true)) {
                break;
            }
        }
        self.report.counts.remaining = self.files.len().saturating_sub(self.next) as u64;
        ran?;
        Ok(())
    }
}
