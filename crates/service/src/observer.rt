//! The interface of an observer of connections, such as a log.
ghost use Rattle.std.specs.Prelude.{◌≡◌, ℕ, List, [], ◌∷◌, ◌++◌};

use decisions::Decision;
use std::io;

/// Why reading from a peer ended.
#[derive(Clone, Copy, Debug, PartialEq, Eq)]
pub enum ReadEnd {
    /// The peer closed the connection.
    Closed,
    /// A read failed.
    Failed,
    /// The ARTIM timer expired (PS3.8 section 9.1.5).
    Timer,
    /// The peer of an established association neither sent nor accepted bytes for
    /// [`Timeouts::idle`](crate::Timeouts).
    Idle,
    /// The association reached its maximum duration.
    Longest,
    /// The program is stopping.
    Stopped,
}

/// Input that an association consumed, and its effect. The input is part of one section of a PDU:
/// of the PDU's header, of its body, of the header of a presentation data value, or of a fragment.
#[derive(Clone, Copy, Debug)]
pub struct Consumed<'a> {
    /// The input.
    pub bytes: &'a [u8],
    /// The input, preceded by the earlier bytes that are still buffered: until something is sent,
    /// all that fit the buffer.
    pub whole: &'a [u8],
    /// The bytes that were read after the input and are not consumed yet.
    pub ahead: &'a [u8],
    /// Whether the input completes its section of the PDU. If not, `decision` is unchanged.
    pub is_complete: bool,
    /// The last decision of the association.
    pub decision: Decision,
    /// The command set of the unfinished message, as far as it was received.
    pub command: &'a [u8],
    /// The bytes that the association sends in reply. They are buffered until the peer accepts
    /// them, and, if `is_held`, until [`settled`](Observer::settled) is called.
    pub reply: &'a [u8],
    /// Whether the reply is held until the file of a store is settled (durable).
    pub is_held: bool,
}

/// An observer of a connection. It is notified of what is received and sent, and cannot change it.
pub trait Observer {
    /// The portions of input of which the observer was notified, in order.
    ghost heard: { Self → List (List ℕ) };

    /// Called after each portion of input that the association consumed: a section of a PDU, or a
    /// part of one.
    fn consumed(&mut self, consumed: &Consumed<'_>)
        ensures heard { heard self.new ≡ heard self.old ++ consumed.now.bytes.now ∷ [] };

    /// Called after the file of a store whose reply is held was settled. `is_kept` is whether the
    /// file is durable; if not, nothing more is sent.
    fn settled(&self, is_kept: bool);

    /// Called with bytes that the socket accepted.
    fn sent(&self, bytes: &[u8]);

    /// Called when reading has ended, with the reason, and with the size in bytes of the A-ABORT
    /// that was queued for it, or 0 if there was none.
    fn read_ended(&self, why: ReadEnd, abort: usize);

    /// Called with the error of a failed send, or with `TimedOut` if the peer accepts no bytes.
    fn send_failed(&self, error: &io::Error);
}
