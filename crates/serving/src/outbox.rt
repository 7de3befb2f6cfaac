//! The bytes that an association has sent and its socket has not yet accepted.
ghost use Rattle.std.specs.Prelude.{◌≡◌, ◌≤◌, ◌<◌, ◌-◌, ◌+◌, [], drop, length};
ghost use Rattle.arrayvec.specs.ArrayVec.{array_vec_len};
ghost use Rattle.serving.specs.Capacities.{outbox_size};

use arrayvec::ArrayVec;
use element::count::Count;
use pdu::{Wire, WireFailed};

/// The maximum number of bytes that an association sends for one event, an A-ASSOCIATE-AC or a
/// reply not counted. An A-ABORT is counted.
const MOST_BESIDE_ANSWERS: usize = 30;

/// The maximum size in bytes of an A-ASSOCIATE-AC, which is larger than any reply.
const LONGEST_ACCEPT: usize = 140 + 35 * 128;

/// The maximum number of bytes that an association sends for one portion of input
/// (`engine::Association::input_limit`), 18,600: a portion causes at most four events.
const MOST_SENT: usize = 4 * (MOST_BESIDE_ANSWERS + LONGEST_ACCEPT);

/// The capacity of an outbox in bytes, 18,631: the output for one portion of input, then an
/// A-ABORT, and one more byte, so that only an outbox that refused a send is full.
pub const OUTBOX: usize = MOST_SENT + MOST_BESIDE_ANSWERS + 1;

/// A buffer of the bytes that an association sends, until the socket accepts them.
///
/// A send that does not fit fills the buffer with the first of its bytes, and fails.
#[derive(Drop)]
pub struct Outbox {
    bytes: ArrayVec<u8, OUTBOX>,
    failures: Count,
    ghost full: { 0 < failures → array_vec_len bytes ≡ outbox_size },
}

impl Outbox {
    ghost use Rattle.serving.specs.Wires.{pending_in};

    /// Creates an empty outbox.
    pub fn new() -> Outbox
        ensures nothing { pending_in result ≡ [] }
        ensures never { result.failures ≡ 0 }
    {
        Outbox {
            bytes: ArrayVec::new(),
            failures: Count::new(),
        }
    }

    /// Returns the bytes that the socket has not yet accepted.
    pub fn pending(&self) -> &[u8]
        ensures { result.now ≡ pending_in self.now }
    {
        self.bytes.as_slice()
    }

    /// Removes the first `count` bytes, which the socket accepted.
    pub(crate) fn drop_front(&mut self, count: usize)
        requires within { count ≤ length (pending_in self.old) }
        requires never { self.old.failures ≡ 0 }
        ensures rest { pending_in self.new ≡ drop count (pending_in self.old) }
        ensures same { self.new.failures ≡ self.old.failures }
    {
        let rest = self.bytes.len() - count;
        if rest > 0 {
            self.bytes.as_mut_slice().copy_within(count.., 0);
        }
        self.bytes.truncate(rest);
    }
}

impl Wire for Outbox {
    ghost use Rattle.serving.specs.Wires.{line_of};

    ghost line = { line_of };

    fn send(&mut self, bytes: &[u8]) -> Result<(), WireFailed> {
        if self.bytes.try_extend_from_slice(bytes).is_ok() {
            return Ok(());
        }
        let count = self.bytes.remaining_capacity();
        self.bytes.try_extend_from_slice(&bytes[..count]).unwrap();
        self.failures.add_one();
        Err(WireFailed)
    }
}
