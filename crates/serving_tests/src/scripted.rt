//! A test socket that sends and accepts as a script says.
ghost use Rattle.std.specs.Prelude.{◌≡◌, []};

use negotiate::Config;
use part10::Settling;
use service::{Observer, Timeouts};
use serving::{Connection, ConnectionConfiguration, ConnectionMemory, Stop};
use std::alloc::{AllocError, Global};
use std::cell::{Cell, RefCell};
use std::io;
use std::io::{ErrorKind, Read, Write};
use std::time::{Duration, Instant};

/// The script of a test socket, and what the peer received.
#[derive(Drop)]
pub struct Script {
    /// The bytes sent by the peer and not read yet.
    arriving: RefCell<Vec<u8>>,
    /// Whether the peer closes the connection after those bytes.
    pub is_closed: Cell<bool>,
    /// How many more bytes the peer accepts.
    pub accepts: Cell<usize>,
    /// Whether each write fails.
    pub fails: Cell<bool>,
    /// How often the socket was read.
    pub reads: Cell<u32>,
    /// The bytes that the peer received.
    pub consumed: RefCell<Vec<u8>>,
}

impl Script {
    /// Returns the script of a peer that has sent nothing and accepts everything.
    pub fn new(alloc: Global) -> Script {
        Script {
            arriving: RefCell::new(Vec::new(alloc)),
            is_closed: Cell::new(false),
            accepts: Cell::new(usize::MAX),
            fails: Cell::new(false),
            reads: Cell::new(0),
            consumed: RefCell::new(Vec::new(alloc)),
        }
    }

    /// Sends these bytes from the peer.
    pub fn send(&self, bytes: &[u8]) -> io::Result<()> {
        let Ok(mut arriving) = self.arriving.try_borrow_mut() else {
            return Err(io::Error::from(ErrorKind::Other));
        };
        arriving.extend_from_slice(bytes)?;
        Ok(())
    }
}

/// A socket that follows a script.
#[derive(Drop)]
pub struct ScriptedSocket<'a>(pub &'a Script);

impl Read for ScriptedSocket<'_> {
    fn read(&mut self, room: &mut [u8]) -> io::Result<usize> {
        let script = self.0;
        script.reads.set(script.reads.get().saturating_add(1));
        let Ok(mut arriving) = script.arriving.try_borrow_mut() else {
            return Err(io::Error::from(ErrorKind::Other));
        };
        if arriving.is_empty() && !script.is_closed.get() {
            return Err(io::Error::from(ErrorKind::WouldBlock));
        }
        let count = arriving.len().min(room.len());
        room[..count].copy_from_slice(&arriving.as_slice()[..count]);
        let _ = arriving.drain(..count);
        Ok(count)
    }
}

impl Write for ScriptedSocket<'_> {
    fn write(&mut self, bytes: &[u8]) -> io::Result<usize> {
        let script = self.0;
        if script.fails.get() {
            return Err(io::Error::from(ErrorKind::BrokenPipe));
        }
        let accepts = script.accepts.get();
        let count = bytes.len().min(accepts);
        if count == 0 {
            return Err(io::Error::from(ErrorKind::WouldBlock));
        }
        script.accepts.set(accepts.saturating_sub(count));
        let Ok(mut consumed) = script.consumed.try_borrow_mut() else {
            return Err(io::Error::from(ErrorKind::Other));
        };
        consumed.extend_from_slice(&bytes[..count])?;
        Ok(count)
    }

    fn flush(&mut self) -> io::Result<()> {
        Ok(())
    }
}

/// Returns settings of a connection with 30 seconds for the ARTIM timer, 600 seconds of silence and
/// this longest duration.
pub fn configuration(config: &Config, longest: Option<Duration>) -> ConnectionConfiguration<'_> {
    ConnectionConfiguration {
        config,
        timeouts: Timeouts {
            artim: Duration::from_secs(30),
            idle: Duration::from_secs(600),
        },
        longest,
    }
}

/// Opens a connection over this socket and filing, with this observer and its own memory, 30
/// seconds for the ARTIM timer, 600 seconds of silence and this longest duration.
pub fn over<'c, S: Drop, F: Settling + Drop, B: Observer + Drop>(
    alloc: Global,
    config: &'c Config,
    parts: (S, F, B),
    longest: Option<Duration>,
    now: Instant,
) -> Result<Connection<'c, S, F, B>, AllocError>
    requires nothing_heard { B.heard parts.2 ≡ [] }
{
    let memory = ConnectionMemory::new(alloc, config)?;
    Ok(Connection::open(configuration(config, longest), parts, memory, now))
}

/// Returns the last time before `seconds` seconds after `time`.
pub fn just_before(time: Instant, seconds: u64) -> Instant {
    let less = Duration::from_secs(seconds).saturating_sub(Duration::from_nanos(1));
    match time.checked_add(less) {
        Some(time) => time,
        None => time,
    }
}

/// Returns the time `seconds` seconds after `time`.
pub fn after(time: Instant, seconds: u64) -> Instant {
    match time.checked_add(Duration::from_secs(seconds)) {
        Some(time) => time,
        None => time,
    }
}

/// Returns the longest duration of the connection of a script: that of its line `longest |
/// SECONDS`, or `None` without the line.
pub fn longest_of(script: &str) -> Option<Duration> {
    for line in script.lines() {
        if let Some(seconds) = line.strip_prefix("longest | ") {
            return Some(Duration::from_secs(seconds.parse::<u64>().unwrap_or(0)));
        }
    }
    None
}

/// Returns the request to stop a server at once.
pub fn at_once(now: Instant) -> Stop {
    Stop {
        asked: now,
        grace: Duration::ZERO,
    }
}
