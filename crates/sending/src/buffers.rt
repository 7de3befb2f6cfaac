//! Reads the bytes of a file, and sends its data set.
ghost use Rattle.std.specs.Prelude.{◌≡◌, ◌≤◌, ◌<◌, ◌++◌, [], List, ℕ, length, slice_range, take, IfOk, OnOk};
ghost use Rattle.std.specs.Io.KnownBytes.{IsAtEnd};
ghost use Rattle.part10.specs.MetaText.{SpellsMeta, meta_values_of};
ghost use Rattle.sending.specs.Sending.{SendsData};

use crate::ending::Ending;
use crate::stream::{HEADS, LONGEST, ROOM, fill, send_fragment};
use element::traced_stream::TracedStream;
use part10::{Meta, MetaFault, read_any_meta};
use std::io::{self, Error, ErrorKind, Read, Write};

/// The front of a file: its File Meta Information, and which bytes of the first buffer are the first
/// of its data set.
#[derive(Drop)]
pub(crate) struct Front {
    pub(crate) meta: Meta,
    start: usize,
    end: usize,
    ghost headed: { 12 ≤ start },
    ghost ordered: { start ≤ end },
    ghost fits: { end ≤ 65548 },
}

/// Where the fragments of a data set go: the presentation context ID, and the greatest size of a
/// fragment in bytes.
#[derive(Clone, Copy)]
pub(crate) struct Route {
    pub(crate) context: u8,
    pub(crate) size: usize,
    ghost some: { 0 < size },
    ghost fits: { size ≤ 65536 },
}

/// Two buffers for P-DATA-TF PDUs. While a fragment is sent from one, the other has the next one, so
/// that the last fragment is known before it is sent, and no byte is copied.
#[derive(Drop)]
pub(crate) struct Buffers {
    first: [u8; ROOM],
    second: [u8; ROOM],
}

impl Front {
    /// Returns the size in bytes of the File Meta Information.
    pub(crate) fn meta_size(&self) -> usize {
        self.start - HEADS
    }
}

/// Reads the next fragment of a file. Returns its size, less than that of `room` only at the end of
/// the file.
fn read_next<F: Read>(file: &mut TracedStream<F>, room: &mut [u8]) -> Result<usize, Ending>
    ensures within { IfOk result (λ n. n ≤ length room.new) }
    ensures read { IfOk result (λ n. file.new.read.bytes ≡ file.old.read.bytes ++ take n room.new) }
    ensures end { IfOk result (λ n. n < length room.new → IsAtEnd (F.remaining file.new.device)) }
{
    fill(file, room).map_err(Ending::Unread)
}

impl Buffers {
    pub(crate) fn new() -> Buffers {
        Buffers {
            first: [0; ROOM],
            second: [0; ROOM],
        }
    }

    /// Reads the front of a file, at most `size` bytes, which must have the whole File Meta
    /// Information.
    pub(crate) fn read_front<F: Read>(
        &mut self,
        file: &mut TracedStream<F>,
        size: usize,
    ) -> io::Result<Result<Front, MetaFault>>
        requires fits { size ≤ LONGEST }
        requires unread { file.old.read.bytes ≡ [] }
        ensures front { IfOk result (λ read. IfOk read (λ front. (header : List ℕ) × SpellsMeta (meta_values_of front.meta) header
            × (file.new.read.bytes ≡ header ++ slice_range self.new.first front.start front.end))) }
    {
        let count = fill(file, &mut self.first[HEADS..HEADS + size])?;
        let end = HEADS + count;
        let mut rest = &self.first[HEADS..end];
        match read_any_meta(&mut rest) {
            Ok(meta) => {
                let start = end - rest.len();
                Ok(Ok(Front { meta, start, end }))
            }
            Err(fault) => Ok(Err(fault)),
        }
    }

    /// Sends a data set, whose first fragment was read last and whose rest is that of the file.
    #[tactic(auto, using(crate::proofs::DataInFragments::begun))]
    pub(crate) fn send_data<S: Write, F: Read>(
        &mut self,
        stream: &mut TracedStream<S>,
        route: Route,
        front: &Front,
        file: &mut TracedStream<F>,
    ) -> Result<(), Ending>
        ensures sent { OnOk result (SendsData route.context (slice_range self.old.first front.now.start front.now.end) file.old.read.bytes file.new.read.bytes
            stream.old.written.bytes stream.new.written.bytes) }
        ensures end { OnOk result (IsAtEnd (F.remaining file.new.device)) }
        ensures same { stream.new.read ≡ stream.old.read }
    {
        let Route { context, size } = route;
        let (mut start, mut end) = (front.start, front.end);
        for _turn in 0..u64::MAX {
            let count = read_next(file, &mut self.second[HEADS..HEADS + size])?;
            let pdu = &mut self.first[start - HEADS..end];
            send_fragment(stream, context, false, count == 0, pdu)?;
            if count == 0 {
                return Ok(());
            }
            let next = read_next(file, &mut self.first[HEADS..HEADS + size])?;
            let pdu = &mut self.second[..HEADS + count];
            send_fragment(stream, context, false, next == 0, pdu)?;
            if next == 0 {
                return Ok(());
            }
            (start, end) = (HEADS, HEADS + next);
        }
        Err(Ending::Unread(Error::from(ErrorKind::FileTooLarge)))
    }
}
