//! A reader that keeps the first bytes of a file.
ghost use Rattle.std.specs.Prelude.{◌≡◌, ◌≤◌, length, IfOk};

use crate::error::InspectionError;
use arrayvec::ArrayVec;
use element::interrupted::read_retrying;
use std::io::{self, Error, ErrorKind, Read};

/// How many bytes are kept.
pub(crate) const KEPT: usize = 4096;

/// A reader that keeps the first 4096 bytes read, counts the bytes, and keeps the error of a failed
/// read.
#[derive(Drop)]
pub struct FileFront<'a, R: Read> {
    input: &'a mut R,
    bytes: ArrayVec<u8, KEPT>,
    /// How many bytes were returned by reads; kept bytes after these were read ahead.
    count: u64,
    failure: Option<Error>,
}

/// Returns an error of the same kind, with the same text if it is the system's.
fn copied(error: &Error) -> Error {
    match error.raw_os_error() {
        Some(number) => Error::from_raw_os_error(number),
        None => Error::from(error.kind()),
    }
}

impl<'a, R: Read> FileFront<'a, R> {
    pub fn new(input: &'a mut R) -> FileFront<'a, R> {
        FileFront {
            input,
            bytes: ArrayVec::new(),
            count: 0,
            failure: None,
        }
    }

    /// Returns the kept bytes: the first that were read.
    pub fn kept(&self) -> &[u8] {
        self.bytes.as_slice()
    }

    /// Returns how many bytes reads have returned.
    pub fn count(&self) -> u64 {
        self.count
    }

    /// Removes and returns the error of the last failed read.
    pub fn take_error(&mut self) -> InspectionError {
        match self.failure.take() {
            Some(error) => InspectionError::Read(error),
            None => InspectionError::Read(Error::from(ErrorKind::Other)),
        }
    }

    /// Returns how many of the kept bytes reads have returned.
    fn split(&self) -> usize {
        let kept = self.bytes.len();
        usize::try_from(self.count).unwrap_or(kept).min(kept)
    }

    /// Returns the kept bytes that reads have returned: not those that were only read ahead.
    pub(crate) fn returned(&self) -> &[u8] {
        let split = self.split();
        self.bytes.as_slice().get(..split).unwrap_or(&[])
    }

    /// Keeps these bytes, as many as still fit.
    fn keep(&mut self, bytes: &[u8]) {
        let room = KEPT.saturating_sub(self.bytes.len());
        let front = &bytes[..room.min(bytes.len())];
        let _ = self.bytes.try_extend_from_slice(front);
    }

    /// Reads ahead until 4096 bytes are kept, or to the end of a shorter file, and returns the kept
    /// bytes. The next reads return the bytes read ahead. A failed read ends this; the reads after
    /// the bytes read ahead then read again.
    pub fn look_ahead(&mut self) -> &[u8] {
        let mut room = [0; KEPT];
        // Each read keeps at least one byte.
        for _ in 0..KEPT {
            let free = KEPT.saturating_sub(self.bytes.len());
            match read_retrying(self.input, &mut room[..free]) {
                Ok(0) | Err(_) => break,
                Ok(len) => self.keep(&room[..len]),
            }
        }
        self.kept()
    }

    /// Returns bytes that were read ahead, as many as fit, in `room`. Returns their number: 0 if
    /// there are none.
    fn take_ahead(&mut self, room: &mut [u8]) -> usize
        ensures size { length room.new ≡ length room.old }
        ensures within { result ≤ length room.new }
    {
        let split = self.split();
        let ahead = self.bytes.as_slice().get(split..).unwrap_or(&[]);
        let len = ahead.len().min(room.len());
        room[..len].copy_from_slice(&ahead[..len]);
        self.count = self.count.saturating_add(len as u64);
        len
    }

    /// Reads once, and again if a signal interrupted the call. Returns the number of bytes read: 0
    /// at the end.
    pub fn read_some(&mut self, room: &mut [u8]) -> Result<usize, InspectionError>
        ensures size { length room.new ≡ length room.old }
        ensures within { IfOk result (λ n. n ≤ length room.new) }
    {
        match read_retrying(self, room) {
            Ok(len) => Ok(len),
            Err(error) => Err(InspectionError::Read(error)),
        }
    }
}

impl<R: Read> Read for FileFront<'_, R> {
    fn read(&mut self, room: &mut [u8]) -> io::Result<usize> {
        let ahead = self.take_ahead(room);
        if ahead > 0 {
            return Ok(ahead);
        }
        match self.input.read(room) {
            Ok(len) => {
                self.keep(&room[..len]);
                self.count = self.count.saturating_add(len as u64);
                Ok(len)
            }
            Err(error) => {
                self.failure = Some(copied(&error));
                Err(error)
            }
        }
    }
}
