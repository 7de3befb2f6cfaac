//! Streams of PDUs cut into events, on the public calls of `pdu::Deframer`.

use cases::{Parts, cases};
use pdu::{Deframer, Event};
use std::alloc::{AllocError, Global};
use std::test::Fail;

/// The events of a stream, each with the number of bytes received by then; for bytes lent in parts,
/// by the last part.
#[derive(Drop)]
struct EventList {
    alloc: Global,
    text: String,
    consumed: usize,
    /// What is being lent, and the number of bytes received by its last part.
    lent: Option<(&'static str, usize)>,
    parts: Vec<u8>,
}

impl EventList {
    fn new(alloc: Global) -> EventList {
        EventList {
            alloc,
            text: String::new(alloc),
            consumed: 0,
            lent: None,
            parts: Vec::new(alloc),
        }
    }

    /// Adds an event.
    fn add(&mut self, what: &str) -> Result<(), AllocError> {
        if !self.text.is_empty() {
            self.text.push_str(", ")?;
        }
        self.text.push_str(what)
    }

    /// Adds what was lent so far.
    fn end(&mut self) -> Result<(), AllocError> {
        if let Some((what, index)) = self.lent {
            let lent = format!(in self.alloc; "{index} {what} {:?}", self.parts)?;
            self.add(lent.as_str())?;
        }
        self.lent = None;
        self.parts.clear();
        Ok(())
    }

    /// Records a lent part. An empty part would show in the text.
    fn lend(&mut self, what: &'static str, part: &[u8]) -> Result<(), AllocError> {
        if part.is_empty() {
            self.add("nothing is lent")?;
        }
        if let Some((before, _)) = self.lent
            && before != what
        {
            self.end()?;
        }
        self.lent = Some((what, self.consumed));
        self.parts.extend_from_slice(part)
    }

    /// Records an event.
    fn take(&mut self, event: Event) -> Result<(), AllocError> {
        match event {
            Event::Body(part) => self.lend("Body", part),
            Event::Fragment(part) => self.lend("Fragment", part),
            event => self.report(event),
        }
    }

    /// Adds an event that lends nothing, after what was lent.
    fn report(&mut self, event: Event) -> Result<(), AllocError> {
        self.end()?;
        let event = format!(in self.alloc; "{} {event:?}", self.consumed)?;
        self.add(event.as_str())
    }

    /// Adds that bytes of a chunk remain, if any do.
    fn leave(&mut self, rest: &[u8]) -> Result<(), AllocError> {
        if rest.is_empty() {
            return Ok(());
        }
        self.add("not taken")
    }

    /// Feeds a chunk to the deframer until it is used up.
    fn hand(&mut self, deframer: &mut Deframer, piece: &[u8]) -> Result<(), AllocError> {
        let mut rest = piece;
        for _ in 0..100 {
            let (count, event) = deframer.next(rest);
            rest = &rest[count..];
            self.consumed = self.consumed.saturating_add(count);
            let Some(event) = event else {
                return self.leave(rest);
            };
            self.take(event)?;
        }
        self.add("more than 100 events")
    }
}

/// Returns the events of a stream in two chunks, the first of `cut` bytes; byte by byte if the
/// stream has fewer.
fn events(alloc: Global, stream: &[u8], cut: usize) -> Result<String, AllocError> {
    let mut deframer = Deframer::new();
    let mut events = EventList::new(alloc);
    match stream.split_at_checked(cut) {
        Some((front, back)) => {
            events.hand(&mut deframer, front)?;
            events.hand(&mut deframer, back)?;
        }
        None => {
            for byte in stream.chunks(1) {
                events.hand(&mut deframer, byte)?;
            }
        }
    }
    events.end()?;
    Ok(events.text)
}

/// A fragment of a command set, an empty fragment, a fragment of a data set with the ignored bits
/// set, and a release.
const DATA: &[u8] = &[
    4, 0, 0, 0, 0, 21, 0, 0, 0, 4, 1, 3, 0xAA, 0xBB, 0, 0, 0, 2, 3, 1, 0, 0, 0, 3, 255, 0xFE, 0xCC,
    5, 0, 0, 0, 0, 4, 0, 0, 0, 0,
];

/// A stream and its events. `data` stands for `DATA`.
static STREAMS: &str = "
type 01 with a body | 01 ff 00 00 00 03 04 00 09 | \
    6 PduHead(PduHead { kind: 1, length: 3 }), 9 Body [4, 0, 9], 9 PduEnd(1)
type 01 without a body | 01 00 00 00 00 00 | 6 PduHead(PduHead { kind: 1, length: 0 }), \
    6 PduEnd(1)
type 02 with a body | 02 ff 00 00 00 03 04 00 09 | \
    6 PduHead(PduHead { kind: 2, length: 3 }), 9 Body [4, 0, 9], 9 PduEnd(2)
type 02 without a body | 02 00 00 00 00 00 | 6 PduHead(PduHead { kind: 2, length: 0 }), \
    6 PduEnd(2)
type 03 with a body | 03 ff 00 00 00 03 04 00 09 | \
    6 PduHead(PduHead { kind: 3, length: 3 }), 9 Body [4, 0, 9], 9 PduEnd(3)
type 03 without a body | 03 00 00 00 00 00 | 6 PduHead(PduHead { kind: 3, length: 0 }), \
    6 PduEnd(3)
type 05 with a body | 05 ff 00 00 00 03 04 00 09 | \
    6 PduHead(PduHead { kind: 5, length: 3 }), 9 Body [4, 0, 9], 9 PduEnd(5)
type 05 without a body | 05 00 00 00 00 00 | 6 PduHead(PduHead { kind: 5, length: 0 }), \
    6 PduEnd(5)
type 06 with a body | 06 ff 00 00 00 03 04 00 09 | \
    6 PduHead(PduHead { kind: 6, length: 3 }), 9 Body [4, 0, 9], 9 PduEnd(6)
type 06 without a body | 06 00 00 00 00 00 | 6 PduHead(PduHead { kind: 6, length: 0 }), \
    6 PduEnd(6)
type 07 with a body | 07 ff 00 00 00 03 04 00 09 | \
    6 PduHead(PduHead { kind: 7, length: 3 }), 9 Body [4, 0, 9], 9 PduEnd(7)
type 07 without a body | 07 00 00 00 00 00 | 6 PduHead(PduHead { kind: 7, length: 0 }), \
    6 PduEnd(7)
type 47 with a body | 47 ff 00 00 00 03 04 00 09 | \
    6 PduHead(PduHead { kind: 71, length: 3 }), 9 Body [4, 0, 9], 9 PduEnd(71)
type 47 without a body | 47 00 00 00 00 00 | 6 PduHead(PduHead { kind: 71, length: 0 }), \
    6 PduEnd(71)
a long body | 01 00 01 02 03 04 07 08 09 | \
    6 PduHead(PduHead { kind: 1, length: 16909060 }), 9 Body [7, 8, 9]
several PDVs and another PDU | data | 6 PduHead(PduHead { kind: 4, length: 21 }), \
    12 PdvHead(PdvHead { length: 4, context: 1, command: true, last: true }), \
    14 Fragment [170, 187], 14 PdvEnd, \
    20 PdvHead(PdvHead { length: 2, context: 3, command: true, last: false }), 20 PdvEnd, \
    26 PdvHead(PdvHead { length: 3, context: 255, command: false, last: true }), \
    27 Fragment [204], 27 PdvEnd, 27 PduEnd(4), 33 PduHead(PduHead { kind: 5, length: 4 }), \
    37 Body [0, 0, 0, 0], 37 PduEnd(5)
a bad PDV head of length 0 | 04 00 00 00 00 08 00 00 00 00 01 03 08 09 | \
    6 PduHead(PduHead { kind: 4, length: 8 }), 12 BadPdv, 14 Body [8, 9], 14 PduEnd(4)
a bad PDV head of length 1 | 04 00 00 00 00 08 00 00 00 01 01 03 08 09 | \
    6 PduHead(PduHead { kind: 4, length: 8 }), 12 BadPdv, 14 Body [8, 9], 14 PduEnd(4)
a bad PDV head of length 5 | 04 00 00 00 00 08 00 00 00 05 01 03 08 09 | \
    6 PduHead(PduHead { kind: 4, length: 8 }), 12 BadPdv, 14 Body [8, 9], 14 PduEnd(4)
a bad PDV head of length 255 | 04 00 00 00 00 08 00 00 00 ff 01 03 08 09 | \
    6 PduHead(PduHead { kind: 4, length: 8 }), 12 BadPdv, 14 Body [8, 9], 14 PduEnd(4)
a bad PDV head at the end | 04 00 00 00 00 06 00 00 00 03 01 03 04 | \
    6 PduHead(PduHead { kind: 4, length: 6 }), 12 BadPdv, 12 PduEnd(4)
a PDV of the whole PDU | 04 00 00 00 00 08 00 00 00 04 01 03 08 09 | \
    6 PduHead(PduHead { kind: 4, length: 8 }), \
    12 PdvHead(PdvHead { length: 4, context: 1, command: true, last: true }), \
    14 Fragment [8, 9], 14 PdvEnd, 14 PduEnd(4)
1 bytes left over | 04 00 00 00 00 07 00 00 00 02 01 00 01 | \
    6 PduHead(PduHead { kind: 4, length: 7 }), \
    12 PdvHead(PdvHead { length: 2, context: 1, command: false, last: false }), 12 PdvEnd, \
    12 Leftover, 13 Body [1], 13 PduEnd(4)
2 bytes left over | 04 00 00 00 00 08 00 00 00 02 01 00 01 01 | \
    6 PduHead(PduHead { kind: 4, length: 8 }), \
    12 PdvHead(PdvHead { length: 2, context: 1, command: false, last: false }), 12 PdvEnd, \
    12 Leftover, 14 Body [1, 1], 14 PduEnd(4)
3 bytes left over | 04 00 00 00 00 09 00 00 00 02 01 00 01 01 01 | \
    6 PduHead(PduHead { kind: 4, length: 9 }), \
    12 PdvHead(PdvHead { length: 2, context: 1, command: false, last: false }), 12 PdvEnd, \
    12 Leftover, 15 Body [1, 1, 1], 15 PduEnd(4)
4 bytes left over | 04 00 00 00 00 0a 00 00 00 02 01 00 01 01 01 01 | \
    6 PduHead(PduHead { kind: 4, length: 10 }), \
    12 PdvHead(PdvHead { length: 2, context: 1, command: false, last: false }), 12 PdvEnd, \
    12 Leftover, 16 Body [1, 1, 1, 1], 16 PduEnd(4)
5 bytes left over | 04 00 00 00 00 0b 00 00 00 02 01 00 01 01 01 01 01 | \
    6 PduHead(PduHead { kind: 4, length: 11 }), \
    12 PdvHead(PdvHead { length: 2, context: 1, command: false, last: false }), 12 PdvEnd, \
    12 Leftover, 17 Body [1, 1, 1, 1, 1], 17 PduEnd(4)
six bytes are a head | 04 00 00 00 00 0c 00 00 00 02 01 00 01 01 01 01 01 01 | \
    6 PduHead(PduHead { kind: 4, length: 12 }), \
    12 PdvHead(PdvHead { length: 2, context: 1, command: false, last: false }), 12 PdvEnd, \
    18 BadPdv, 18 PduEnd(4)
short data of 0 bytes | 04 00 00 00 00 00 | 6 PduHead(PduHead { kind: 4, length: 0 }), \
    6 PduEnd(4)
short data of 1 bytes | 04 00 00 00 00 01 00 | 6 PduHead(PduHead { kind: 4, length: 1 }), \
    7 PduEnd(4)
short data of 2 bytes | 04 00 00 00 00 02 00 00 | \
    6 PduHead(PduHead { kind: 4, length: 2 }), 8 PduEnd(4)
short data of 3 bytes | 04 00 00 00 00 03 00 00 00 | \
    6 PduHead(PduHead { kind: 4, length: 3 }), 9 PduEnd(4)
short data of 4 bytes | 04 00 00 00 00 04 00 00 00 02 | \
    6 PduHead(PduHead { kind: 4, length: 4 }), 10 PduEnd(4)
short data of 5 bytes | 04 00 00 00 00 05 00 00 00 02 01 | \
    6 PduHead(PduHead { kind: 4, length: 5 }), 11 PduEnd(4)
";

#[test]
fn streams(rt: HostRuntime) -> Result<(), Fail> {
    let mut parts = Parts::new(rt.alloc());
    parts.add("data", Vec::from_slice(rt.alloc(), DATA)?)?;
    for case in cases(rt.alloc(), STREAMS, 34)?.as_slice() {
        let stream = parts.bytes(case, 0)?;
        for cut in 0..stream.len() + 2 {
            let found = events(rt.alloc(), stream.as_slice(), cut)?;
            case.expect(1, found.as_str())?;
        }
    }
    Ok(())
}

/// Makes this many calls on a chunk. Returns the bytes that remain.
fn call<'p>(deframer: &mut Deframer, piece: &'p [u8], calls: usize) -> &'p [u8] {
    let mut rest = piece;
    for _ in 0..calls {
        let (count, _) = deframer.next(rest);
        rest = &rest[count..];
    }
    rest
}

/// Only bytes of unfinished heads are buffered: how many after each byte.
#[test]
fn heads_are_held(rt: HostRuntime) {
    let held = [
        1, 2, 3, 4, 5, 0, 1, 2, 3, 4, 5, 0, 0, 0, 1, 2, 3, 4, 5, 0, 1, 2, 3, 4, 5, 0, 0, 1,
    ];
    let mut deframer = Deframer::new();
    for (at, expected) in held.iter().enumerate() {
        let rest = call(
            &mut deframer,
            DATA.get(at..at.saturating_add(1)).unwrap_or(&[]),
            5,
        );
        assert!(rt; rest.is_empty() && deframer.held() == *expected);
    }
}

/// Returns the events of a stream after a PDU is skipped, after this many calls on `index` bytes.
fn skipped(alloc: Global, stream: &[u8], index: usize, calls: usize) -> Result<String, AllocError> {
    let mut deframer = Deframer::new();
    let mut events = EventList::new(alloc);
    let remaining = call(&mut deframer, stream.get(..index).unwrap_or(&[]), calls).len();
    deframer.skip_frame();
    events.consumed = index.saturating_sub(remaining);
    let rest = stream.get(events.consumed..).unwrap_or(&[]);
    events.hand(&mut deframer, rest)?;
    if deframer.held() > 0 {
        events.add("held")?;
    }
    Ok(events.text)
}

/// The events after skipping: the end of the first PDU, and the head of the next.
static SKIPPED: &str = "27 PduEnd(4), 33 PduHead(PduHead { kind: 5, length: 4 })";

#[test]
fn a_skipped_pdu_has_its_end_alone(rt: HostRuntime) -> Result<(), Fail> {
    let stream = DATA.get(..33).unwrap_or(&[]);
    for index in 6..27 {
        assert!(rt; skipped(rt.alloc(), stream, index, 100)?.as_str() == SKIPPED);
    }
    for calls in 1..10 {
        assert!(rt; skipped(rt.alloc(), stream, 33, calls)?.as_str() == SKIPPED);
    }
    Ok(())
}

/// A PDU whose head is unfinished is not skipped.
#[test]
fn no_pdu_is_skipped_before_its_head(rt: HostRuntime) -> Result<(), Fail> {
    let head = DATA.get(..6).unwrap_or(&[]);
    for index in 0..6 {
        assert!(rt; Deframer::new().next(head.get(..index).unwrap_or(&[])) == (index, None));
        let found = skipped(rt.alloc(), head, index, 1)?;
        assert!(rt; found.as_str() == "6 PduHead(PduHead { kind: 4, length: 21 })");
    }
    Ok(())
}
