//! The non-blocking socket of a connection, with its buffers.
ghost use Rattle.std.specs.Prelude.{◌≡◌, ◌≢◌, ◌≤◌, ◌<◌, [], ◌∷◌, ◌++◌, length, take, drop, OnErr, true, false};

use crate::inbox::{Arrival, Inbox};
use crate::memory::ServedAssociation;
use crate::outbox::Outbox;
use crate::traces::SocketTraces;
use element::count::Count;
use element::traced_stream::TracedStream;
use service::{Consumed, Observer};
use std::io::{Error, ErrorKind, Read, Write};

/// A non-blocking socket whose traffic is traced, with a buffer of input (inbox) and one of output
/// (outbox). The bytes that the socket accepted, followed by the outbox, are what the association
/// has sent. The bytes that the association consumed, followed by the inbox, are what was read.
///
/// It counts how often the socket stopped: reached its end, or accepted nothing. Only this type
/// reads and writes the socket.
#[derive(Drop)]
pub struct BufferedSocket<S> {
    pub(crate) traced: TracedStream<S>,
    /// How many reads reached the end of the stream since the last byte was read.
    pub(crate) ends: Count,
    /// How many writes were refused since the last byte was written.
    pub(crate) refusals: Count,
    pub(crate) inbox: Inbox,
    pub(crate) outbox: Outbox,
    /// Whether anything was sent. Until then consumed bytes are kept, so that the observer is shown
    /// the whole A-ASSOCIATE-RQ.
    has_sent: bool,
}

/// The first bytes of the inbox, which the association has just consumed.
#[derive(Clone, Copy)]
pub(crate) struct Portion {
    /// The number of bytes.
    pub len: usize,
    /// Whether these bytes complete a section of a PDU.
    pub is_complete: bool,
    /// Whether the reply to these bytes is held until a file is settled.
    pub is_held: bool,
}

impl<S> BufferedSocket<S> {
    ghost use Rattle.engine.specs.Fields.{decided_in};
    ghost use Rattle.engine.specs.MovesOn.{HasCommand, HasDecided};
    ghost use Rattle.serving.specs.Wires.{pending_in, unconsumed_in};

    /// Creates the buffers of a socket, whose traffic is traced from now on. The inbox must be
    /// empty.
    pub(crate) fn new(socket: S, inbox: Inbox) -> BufferedSocket<S>
        requires empty { unconsumed_in inbox ≡ [] }
        ensures nothing_read { result.traced.read.bytes ≡ [] }
        ensures nothing_sent { result.traced.written.bytes ≡ [] }
        ensures no_end { result.ends ≡ 0 }
        ensures no_refusal { result.refusals ≡ 0 }
        ensures nothing_unconsumed { unconsumed_in result.inbox ≡ [] }
        ensures nothing_waits { pending_in result.outbox ≡ [] }
        ensures never { result.outbox.failures ≡ 0 }
    {
        BufferedSocket {
            traced: TracedStream::new(socket),
            ends: Count::new(),
            refusals: Count::new(),
            inbox,
            outbox: Outbox::new(),
            has_sent: false,
        }
    }

    /// Returns what the association consumed and decided: `portion` of the inbox, and the bytes
    /// after it. The whole outbox is the reply to it.
    pub(crate) fn consumed<'a>(
        &'a self,
        portion: Portion,
        association: &'a ServedAssociation<'_>,
    ) -> Consumed<'a>
        requires within { portion.len ≤ length (unconsumed_in self.now.inbox) }
        ensures bytes { result.bytes.now ≡ take portion.len (unconsumed_in self.now.inbox) }
        ensures ahead { result.ahead.now ≡ drop portion.len (unconsumed_in self.now.inbox) }
        ensures complete { result.is_complete ≡ portion.is_complete }
        ensures held { result.is_held ≡ portion.is_held }
        ensures kept { result.decision ≡ decided_in association.now }
        ensures decided { HasDecided association.now result.decision }
        ensures command { HasCommand association.now result.command.now }
        ensures reply { result.reply.now ≡ pending_in self.now.outbox }
    {
        let (bytes, ahead) = self.inbox.pending().split_at(portion.len);
        Consumed {
            bytes,
            whole: self.inbox.kept(portion.len),
            ahead,
            is_complete: portion.is_complete,
            decision: association.decision(),
            command: association.command(),
            reply: self.outbox.pending(),
            is_held: portion.is_held,
        }
    }
}

impl<S: Read> BufferedSocket<S> {
    ghost use Rattle.serving.specs.Wires.{Arrives, CountsEnd};

    /// Returns how many bytes of the inbox the association is to consume, 1 to `most`. Reads from
    /// the socket if the inbox has too few. Returns `Nothing` or `End` if no byte is available.
    pub(crate) fn receive(&mut self, most: usize) -> Arrival
        requires some { 0 < most }
        ensures arrives { Arrives most result self.old self.new }
        ensures ends { CountsEnd result self.old.ends self.new.ends }
        ensures same_written { self.new.traced.written ≡ self.old.traced.written }
        ensures same_refusals { self.new.refusals ≡ self.old.refusals }
        ensures same_outbox { self.new.outbox ≡ self.old.outbox }
    {
        if self.inbox.is_short(most) {
            let has_pending = self.inbox.pending().len();
            match self
                .inbox
                .fill(&mut self.traced, &mut self.ends, !self.has_sent)
            {
                Arrival::Bytes(_) => {}
                arrival if has_pending == 0 => return arrival,
                _ => {}
            }
        }
        Arrival::Bytes(self.inbox.pending().len().min(most))
    }
}

impl<S: Write> BufferedSocket<S> {
    ghost use Rattle.serving.specs.Wires.{pending_in, sent_over};

    /// Writes the outbox to the socket, as far as the socket accepts it, and notifies the observer
    /// of the bytes written. Returns whether the outbox is empty.
    ///
    /// Fails if the socket does, or if it accepts no byte.
    #[tactic(auto, using(crate::proofs::SocketAcceptsTheFront::consumed_front, crate::proofs::SocketAcceptsTheFront::fewer_wait))]
    pub(crate) fn flush<B: Observer>(&mut self, observer: &B) -> Result<bool, Error>
        requires never { self.old.outbox.failures ≡ 0 }
        ensures same_sent { sent_over self.new ≡ sent_over self.old }
        ensures all { result ≡ Ok true → pending_in self.new.outbox ≡ [] }
        ensures fewer { length (pending_in self.new.outbox) ≤ length (pending_in self.old.outbox) }
        ensures same_failures { self.new.outbox.failures ≡ self.old.outbox.failures }
        ensures some { result ≡ Ok false → pending_in self.new.outbox ≢ [] }
        ensures blocked { result ≡ Ok false → 0 < self.new.refusals }
        ensures some_remaining { OnErr result (pending_in self.new.outbox ≢ []) }
        ensures refused { OnErr result (0 < self.new.refusals) }
        ensures same_read { self.new.traced.read ≡ self.old.traced.read }
        ensures same_ends { self.new.ends ≡ self.old.ends }
        ensures same_inbox { self.new.inbox ≡ self.old.inbox }
    {
        for _call in 0..self.outbox.pending().len() {
            let pending = self.outbox.pending();
            if pending.is_empty() {
                return Ok(true);
            }
            match self.traced.write(pending) {
                Ok(0) => {
                    self.refusals.add_one();
                    return Err(Error::from(ErrorKind::WriteZero));
                }
                Ok(len) => {
                    self.refusals = Count::new();
                    self.has_sent = true;
                    observer.sent(&pending[..len]);
                    self.outbox.drop_front(len);
                }
                Err(error) => {
                    self.refusals.add_one();
                    if error.kind() == ErrorKind::WouldBlock {
                        return Ok(false);
                    }
                    return Err(error);
                }
            }
        }
        Ok(true)
    }
}

impl<S: Drop> BufferedSocket<S> {
    /// Drops the socket. Returns its traces for contracts, and what is left in the inbox and the
    /// outbox.
    pub(crate) fn end(self) -> (SocketTraces<S>, Inbox, Outbox)
        ensures read { result.0.read.trace ≡ self.traced.read }
        ensures ends { result.0.read.stops ≡ self.ends }
        ensures sent { result.0.sent.trace ≡ self.traced.written }
        ensures refusals { result.0.sent.stops ≡ self.refusals }
        ensures inbox { result.1 ≡ self.inbox }
        ensures outbox { result.2 ≡ self.outbox }
    {
        (
            SocketTraces::of(self.traced, self.ends, self.refusals),
            self.inbox,
            self.outbox,
        )
    }
}
