//! A test socket that blocks and is interrupted at random.
ghost use Rattle.std.specs.Prelude.{◌≡◌, ◌≤◌, [], length};

use crate::chance::Chance;
use element::history::History;
use service::{Consumed, Observer, ReadEnd};
use std::alloc::Global;
use std::cell::{Cell, RefCell};
use std::io;
use std::io::{ErrorKind, Read, Write};

/// A peer that sends a stream, closes, and reads what it is sent: each call moves some bytes, would
/// block, or is interrupted.
#[derive(Drop)]
pub struct FickleSocket<'a> {
    stream: &'a [u8],
    at: usize,
    chance: Chance,
    /// The most bytes moved by one call.
    most: usize,
    consumed: &'a RefCell<Vec<u8>>,
    ghost within: { at ≤ length stream.now },
}

impl<'a> FickleSocket<'a> {
    /// Returns a peer that sends this stream, at most `most` bytes per call.
    pub fn new(
        stream: &'a [u8],
        most: usize,
        seed: u64,
        consumed: &'a RefCell<Vec<u8>>,
    ) -> FickleSocket<'a> {
        FickleSocket {
            stream,
            at: 0,
            chance: Chance::new(seed),
            most,
            consumed,
        }
    }

    /// Returns how many bytes the call moves, or why it moves none.
    fn count(&mut self) -> io::Result<usize> {
        match self.chance.below(4) {
            0 => Err(io::Error::from(ErrorKind::WouldBlock)),
            1 => Err(io::Error::from(ErrorKind::Interrupted)),
            _ => Ok(self.chance.below(self.most).saturating_add(1)),
        }
    }
}

impl Read for FickleSocket<'_> {
    fn read(&mut self, room: &mut [u8]) -> io::Result<usize> {
        let most = self.count()?;
        let count = (self.stream.len() - self.at).min(room.len()).min(most);
        room[..count].copy_from_slice(&self.stream[self.at..self.at + count]);
        self.at += count;
        Ok(count)
    }
}

impl Write for FickleSocket<'_> {
    fn write(&mut self, bytes: &[u8]) -> io::Result<usize> {
        let count = self.count()?.min(bytes.len());
        let Ok(mut consumed) = self.consumed.try_borrow_mut() else {
            return Err(io::Error::from(ErrorKind::Other));
        };
        consumed.extend_from_slice(&bytes[..count])?;
        Ok(count)
    }

    fn flush(&mut self) -> io::Result<()> {
        Ok(())
    }
}

/// What an observer saw of a connection.
#[derive(Drop)]
pub struct Audience {
    pub received: RefCell<Vec<u8>>,
    /// The most bytes that waited behind a chunk.
    pub most_ahead: Cell<usize>,
    /// How many bytes the association sent, as observed.
    pub answered: Cell<usize>,
    pub sent: RefCell<Vec<u8>>,
    pub end: Cell<Option<ReadEnd>>,
    /// How many writes failed.
    pub failures: Cell<u32>,
    /// Whether the last answer is held back.
    pub is_held: Cell<bool>,
    /// How many files were settled and kept, and how many were lost.
    pub kept: Cell<u32>,
    pub lost: Cell<u32>,
}

impl Audience {
    /// Returns the record of an observer that saw nothing.
    pub fn new(alloc: Global) -> Audience {
        Audience {
            received: RefCell::new(Vec::new(alloc)),
            most_ahead: Cell::new(0),
            answered: Cell::new(0),
            sent: RefCell::new(Vec::new(alloc)),
            end: Cell::new(None),
            failures: Cell::new(0),
            is_held: Cell::new(false),
            kept: Cell::new(0),
            lost: Cell::new(0),
        }
    }

    /// Counts bytes to be sent.
    fn answer(&self, count: usize) {
        self.answered.set(self.answered.get().saturating_add(count));
    }
}

fn keep(kept: &RefCell<Vec<u8>>, bytes: &[u8]) {
    if let Ok(mut kept) = kept.try_borrow_mut() {
        let _ = kept.extend_from_slice(bytes);
    }
}

/// An observer that records what it sees of a connection.
#[derive(Drop)]
pub struct Viewer<'a> {
    audience: &'a Audience,
    /// For contracts: the chunks that were observed.
    heard: History<History<u8>>,
}

impl<'a> Viewer<'a> {
    /// Returns an observer that records into `audience`.
    pub fn new(audience: &'a Audience) -> Viewer<'a>
        ensures { result.heard ≡ [] }
    {
        Viewer {
            audience,
            heard: History::new(),
        }
    }
}

impl Observer for Viewer<'_> {
    ghost heard = { λ viewer. viewer.heard };

    fn consumed(&mut self, consumed: &Consumed<'_>) {
        let mut bytes = History::new();
        bytes.append(consumed.bytes);
        self.heard.push(&bytes);
        let audience = self.audience;
        keep(&audience.received, consumed.bytes);
        audience.answer(consumed.reply.len());
        let ahead = consumed.ahead.len();
        audience
            .most_ahead
            .set(audience.most_ahead.get().max(ahead));
        audience.is_held.set(consumed.is_held);
    }

    fn settled(&self, is_kept: bool) {
        let audience = self.audience;
        let count = if is_kept {
            &audience.kept
        } else {
            &audience.lost
        };
        count.set(count.get().saturating_add(1));
    }

    fn sent(&self, bytes: &[u8]) {
        keep(&self.audience.sent, bytes);
    }

    fn read_ended(&self, why: ReadEnd, abort: usize) {
        self.audience.end.set(Some(why));
        self.audience.answer(abort);
    }

    fn send_failed(&self, _error: &io::Error) {
        let failures = &self.audience.failures;
        failures.set(failures.get().saturating_add(1));
    }
}
