//! The bytes that were read from a socket and not yet consumed by its association.
ghost use Rattle.std.specs.Prelude.{◌≡◌, ◌≤◌, ◌<◌, [], drop, length, true};
ghost use Rattle.serving.specs.Capacities.{inbox_size};

use element::count::Count;
use element::traced_stream::TracedStream;
use service::ReadEnd;
use std::io::{ErrorKind, Read};

/// The PDU size that most peers keep to: the default maximum length of a P-DATA-TF
/// (`negotiate::Config::DEFAULT_MAX_PDU`), and the header of a PDU (PS3.8 section 9.3.5).
const USUAL_PDU: usize = 16_384 + 6;

/// The capacity of an inbox in bytes, 65,560: four usual PDUs.
pub const INBOX: usize = 4 * USUAL_PDU;

/// The result of a read of a non-blocking socket.
#[derive(Clone, Copy, Debug, PartialEq, Eq)]
pub(crate) enum Arrival {
    /// This many bytes, at least one.
    Bytes(usize),
    /// No byte yet.
    Nothing,
    /// The end of the stream, or an error.
    End(ReadEnd),
}

/// A buffer of the bytes read from a socket, until the association consumes them. The socket is
/// read directly into it.
#[derive(Drop)]
pub struct Inbox {
    bytes: Box<[u8; INBOX]>,
    /// How many of `bytes` were consumed.
    consumed: usize,
    /// How many of `bytes` were read.
    read: usize,
    ghost ordered: { consumed ≤ read },
    ghost within: { read ≤ inbox_size },
}

impl Inbox {
    ghost use Rattle.serving.specs.Wires.{CountsEnd, ReadsMore, unconsumed_in};

    /// Creates an empty inbox in this memory.
    pub(crate) fn new(bytes: Box<[u8; INBOX]>) -> Inbox
        ensures nothing { unconsumed_in result ≡ [] }
    {
        Inbox {
            bytes,
            consumed: 0,
            read: 0,
        }
    }

    /// Drops the buffered bytes, and returns the memory.
    pub(crate) fn into_memory(self) -> Box<[u8; INBOX]> {
        self.bytes
    }

    /// Returns the bytes that are not yet consumed.
    pub fn pending(&self) -> &[u8]
        ensures { result.now ≡ unconsumed_in self.now }
    {
        &self.bytes[self.consumed..self.read]
    }

    /// Removes the first `count` bytes, which the association consumed.
    pub(crate) fn drop_front(&mut self, count: usize)
        requires within { count ≤ length (unconsumed_in self.old) }
        ensures { unconsumed_in self.new ≡ drop count (unconsumed_in self.old) }
    {
        self.consumed += count;
    }

    /// Returns whether to read before an association consumes up to `most` bytes: the inbox is
    /// empty, or has fewer and the last read filled it, so that more may be available.
    pub(crate) fn is_short(&self, most: usize) -> bool
        ensures room { result ≡ true → length (unconsumed_in self.now) < inbox_size }
    {
        let has_pending = self.read - self.consumed;
        has_pending == 0 || (has_pending < most && has_pending < self.read && self.read == INBOX)
    }

    /// Returns the consumed bytes that are still buffered, and the first `count` bytes after them.
    pub(crate) fn kept(&self, count: usize) -> &[u8]
        requires within { count ≤ length (unconsumed_in self.now) }
    {
        &self.bytes[..self.consumed + count]
    }

    /// Makes room for at least one byte. Consumed bytes stay if `keeps` is set and the buffer is
    /// not full.
    fn make_room(&mut self, keeps: bool)
        requires room { length (unconsumed_in self.old) < inbox_size }
        ensures same { unconsumed_in self.new ≡ unconsumed_in self.old }
        ensures room { self.new.read < inbox_size }
    {
        if !keeps || self.read == INBOX {
            self.move_to_front();
        }
    }

    /// Moves the bytes that are not consumed to the front.
    fn move_to_front(&mut self)
        ensures same { unconsumed_in self.new ≡ unconsumed_in self.old }
        ensures front { self.new.read ≡ length (unconsumed_in self.old) }
        ensures none_consumed { self.new.consumed ≡ 0 }
    {
        let (consumed, read) = (self.consumed, self.read);
        self.bytes.copy_within(consumed..read, 0);
        self.consumed = 0;
        self.read = read - consumed;
    }

    /// Reads as many bytes from the socket as there is room for. If `keeps` is set, consumed bytes
    /// stay in the buffer unless their room is needed.
    ///
    /// `ends` counts the reads that found the end of the stream since the last byte was read: they
    /// returned no byte, or an error other than `WouldBlock`.
    pub(crate) fn fill<S: Read>(
        &mut self,
        socket: &mut TracedStream<S>,
        ends: &mut Count,
        keeps: bool,
    ) -> Arrival
        requires room { length (unconsumed_in self.old) < inbox_size }
        ensures reads { ReadsMore result (unconsumed_in self.old) (unconsumed_in self.new) socket.old.read.bytes socket.new.read.bytes }
        ensures ends { CountsEnd result ends.old ends.new }
        ensures same_written { socket.new.written ≡ socket.old.written }
    {
        self.make_room(keeps);
        let end = self.read;
        let room = &mut self.bytes[..];
        match socket.read(&mut room[end..]) {
            Ok(0) => {
                ends.add_one();
                Arrival::End(ReadEnd::Closed)
            }
            Ok(len) => {
                *ends = Count::new();
                self.read = end + len;
                Arrival::Bytes(len)
            }
            Err(error) if error.kind() == ErrorKind::WouldBlock => Arrival::Nothing,
            Err(_) => {
                ends.add_one();
                Arrival::End(ReadEnd::Failed)
            }
        }
    }
}
