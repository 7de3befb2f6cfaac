//! An association for storage or verification, from its request to its release.
ghost use Rattle.std.specs.Prelude.{◌≡◌, ◌≤◌, ◌<◌, ◌++◌, length, slice_range, get_or, IfOk, OnOk, true, false};
ghost use Rattle.std.specs.Io.KnownBytes.{IsAtEnd};
ghost use Rattle.part10.specs.MetaText.{meta_values_of};
ghost use Rattle.pdu.specs.Texts.{data_text};
ghost use Rattle.sending.specs.Sending.{Echoes, Stores};

use crate::acceptance::Acceptance;
use crate::buffers::{Buffers, Front, Route};
use crate::context::{MOST_CONTEXTS, StorageContext};
use crate::ending::Ending;
use crate::request::{Titles, request_pdu};
use crate::response::{ECHO_RESPONSE, STORE_RESPONSE, receive_response};
use crate::store_request::{SET, echo_set, store_set};
use crate::stream::{HEADS, LONGEST, receive, send_all, send_fragment};
use arrayvec::ArrayVec;
use element::traced_stream::TracedStream;
use pdu::{PduHead, pdu_type, read_pdu_head};
use std::alloc::Allocator;
use std::io::{Error, Read, Write};

/// The greatest size in bytes of the body of an A-ASSOCIATE-AC.
const BODY: usize = 65536;

/// The greatest size in bytes of the PDU with the command set of a C-STORE-RQ.
const REQUEST: usize = HEADS + SET;

/// An A-RELEASE-RQ (PS3.8 section 9.3.6).
const RELEASE: &[u8] = &[pdu_type::A_RELEASE_RQ, 0, 0, 0, 0, 4, 0, 0, 0, 0];

/// An A-ABORT by the service user (PS3.8 section 9.3.8).
const ABORT: &[u8] = &[pdu_type::A_ABORT, 0, 0, 0, 0, 4, 0, 0, 0, 0];

/// An association that the peer has accepted. One C-STORE is pending at a time.
#[derive(Drop)]
pub struct Association<S> {
    pub(crate) stream: TracedStream<S>,
    accepted: [bool; MOST_CONTEXTS],
    /// The greatest length of a P-DATA-TF PDU that the peer receives; 0 for no limit.
    pub maximum: u32,
    /// The Message ID of the last request.
    message: u16,
    pub(crate) buffers: Buffers,
}

/// Returns the greatest size in bytes of fragments for a peer with this maximum length, which is 0
/// for no limit, or at least 1,024.
fn fragment_size(maximum: u32) -> usize
    ensures some { 0 < result }
    ensures fits { result ≤ 65536 }
{
    if maximum < 1024 {
        return LONGEST;
    }
    ((maximum as usize - 6) / 2 * 2).min(LONGEST)
}

/// Sends a command set.
fn send_command<S: Write>(
    stream: &mut TracedStream<S>,
    context: u8,
    set: &[u8],
) -> Result<(), Ending>
    requires { length set.now ≤ 196 }
    ensures sent { OnOk result (stream.new.written.bytes ≡ stream.old.written.bytes ++ data_text context true true set.now) }
    ensures same { stream.new.read ≡ stream.old.read }
{
    let mut pdu = ArrayVec::<u8, REQUEST>::new();
    let _heads = pdu.try_extend_from_slice(&[0; HEADS]);
    let _set = pdu.try_extend_from_slice(set);
    send_fragment(stream, context, true, true, pdu.as_mut_slice())
}

impl<S: Read + Write + Drop> Association<S> {
    /// Requests an association over a connected stream, with these presentation contexts.
    ///
    /// Fails with `Rejected` or `Aborted` if the peer answers so; with `Invalid` if its answer is no
    /// A-ASSOCIATE-AC, or has a maximum length below 1,024, in which a command set may not fit; and
    /// with `Broken` if the connection fails or memory runs out.
    pub fn open<A: Allocator + Copy>(
        alloc: A,
        stream: S,
        titles: Titles,
        contexts: &[StorageContext],
    ) -> Result<Association<S>, Ending> {
        let mut stream = TracedStream::new(stream);
        let request = match request_pdu(alloc, titles, contexts) {
            Ok(request) => request,
            Err(error) => return Err(Ending::Broken(Error::from(error))),
        };
        send_all(&mut stream, request.as_slice())?;
        let mut head = [0; 6];
        receive(&mut stream, &mut head)?;
        let PduHead { kind, length } = read_pdu_head(&head);
        let size = length as usize;
        if size > BODY {
            return Err(Ending::Invalid("a PDU of over 65,536 bytes"));
        }
        let mut body = [0; BODY];
        let body = &mut body[..size];
        receive(&mut stream, body)?;
        match (kind, &*body) {
            (pdu_type::A_ASSOCIATE_AC, body) => {
                let Acceptance { accepted, maximum } = Acceptance::read(contexts, body)?;
                Ok(Association {
                    stream,
                    accepted,
                    maximum,
                    message: 0,
                    buffers: Buffers::new(),
                })
            }
            (pdu_type::A_ASSOCIATE_RJ, [_, outcome, source, reason]) => {
                Err(Ending::Rejected(*outcome, *source, *reason))
            }
            (pdu_type::A_ABORT, [_, _, source, reason]) => Err(Ending::Aborted(*source, *reason)),
            _ => Err(Ending::Invalid("no answer to the request")),
        }
    }

    /// Returns whether the peer has accepted this presentation context, which the request had.
    pub fn accepts(&self, context: &StorageContext) -> bool
        ensures { result ≡ get_or self.now.accepted context.now.index false }
    {
        self.accepted[context.index()]
    }

    /// Returns where the fragments of data sets in this presentation context go.
    pub(crate) fn route(&self, context: &StorageContext) -> Route {
        Route {
            context: context.id(),
            size: fragment_size(self.maximum),
        }
    }

    /// Sends the C-STORE of the instance that this header names, and receives the response.
    #[tactic(auto, using(crate::proofs::StoreIsAnswered::stored))]
    fn exchange<F: Read>(
        &mut self,
        route: Route,
        front: &Front,
        file: &mut TracedStream<F>,
    ) -> Result<u16, Ending>
        ensures answered { IfOk result (λ status. Stores (meta_values_of front.now.meta).class (meta_values_of front.now.meta).instance
            (slice_range self.old.buffers.first front.now.start front.now.end)
            file.old.read.bytes file.new.read.bytes
            self.old.stream.written.bytes self.new.stream.written.bytes self.old.stream.read.bytes self.new.stream.read.bytes status) }
        ensures end { IfOk result (λ status. IsAtEnd (F.remaining file.new.device)) }
    {
        self.message = self.message.wrapping_add(1);
        let message = self.message;
        let set = store_set(&front.meta.class, &front.meta.instance, message);
        send_command(&mut self.stream, route.context, set.as_slice())?;
        self.buffers
            .send_data(&mut self.stream, route, front, file)?;
        receive_response(&mut self.stream, route.context, STORE_RESPONSE, message)
    }

    /// Sends a C-ECHO in this presentation context, which the peer has accepted, and receives the
    /// response. Returns its status. An error is the end of the association.
    #[tactic(auto, using(crate::proofs::StoreIsAnswered::echoed_if))]
    pub fn echo(&mut self, context: &StorageContext) -> Result<u16, Ending>
        ensures { IfOk result (λ status. Echoes self.old.stream.written.bytes self.new.stream.written.bytes self.old.stream.read.bytes self.new.stream.read.bytes status) }
    {
        self.message = self.message.wrapping_add(1);
        let message = self.message;
        let (id, set) = (context.id(), echo_set(message));
        send_command(&mut self.stream, id, set.as_slice())?;
        receive_response(&mut self.stream, id, ECHO_RESPONSE, message)
    }

    /// Sends the instance that this header names, whose data set begins in the buffers and goes on
    /// in the file. Returns the status of the response. After an error the association has ended: if
    /// the peer does not know that yet, it gets an A-ABORT.
    pub(crate) fn store<F: Read>(
        &mut self,
        route: Route,
        front: &Front,
        file: &mut TracedStream<F>,
    ) -> Result<u16, Ending>
        ensures answered { IfOk result (λ status. Stores (meta_values_of front.now.meta).class (meta_values_of front.now.meta).instance
            (slice_range self.old.buffers.first front.now.start front.now.end)
            file.old.read.bytes file.new.read.bytes
            self.old.stream.written.bytes self.new.stream.written.bytes self.old.stream.read.bytes self.new.stream.read.bytes status) }
        ensures end { IfOk result (λ status. IsAtEnd (F.remaining file.new.device)) }
    {
        match self.exchange(route, front, file) {
            Ok(status) => Ok(status),
            Err(ending) => {
                if let Ending::Invalid(_) | Ending::Unread(_) = &ending {
                    let _ = send_all(&mut self.stream, ABORT);
                }
                Err(ending)
            }
        }
    }

    /// Releases the association, in which no C-STORE is pending.
    ///
    /// Fails with `Broken` if the connection does, and with `Invalid` if the peer sends anything
    /// other than an A-RELEASE-RP.
    pub fn release(&mut self) -> Result<(), Ending> {
        send_all(&mut self.stream, RELEASE)?;
        let mut response = [0; 10];
        receive(&mut self.stream, &mut response)?;
        if response[0] == pdu_type::A_RELEASE_RP {
            Ok(())
        } else {
            Err(Ending::Invalid("no response to the release"))
        }
    }
}
