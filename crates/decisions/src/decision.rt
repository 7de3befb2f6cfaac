//! What an association decided last.
ghost use Rattle.std.specs.Prelude.{◌≡◌};

use crate::head_fault::HeadFault;
use crate::value_end::ValueEnd;
use dimse::{Detail, DimseFault, Unfinished};
use negotiate::Answer;
use pdu::{PduFault, PduHead, PdvHead};

/// What an association decided last, since the head of the last PDU that it received (PS3.8 section
/// 9.2). It holds no text that the peer sent.
#[derive(Clone, Copy, Debug, PartialEq, Eq)]
pub enum Decision {
    /// Nothing was decided: the PDU is read further, or ignored.
    Nothing,
    /// The PDU with this head has this fault: it is answered with an A-ABORT, unless one was sent
    /// before.
    PduRefused(PduHead, HeadFault),
    /// The body of an A-ASSOCIATE-RQ, with this length in bytes, exceeds the limit: the request is
    /// rejected.
    RequestTooLong(u32),
    /// An A-ASSOCIATE-RQ is invalid, with this first fault: it is answered with an A-ABORT.
    RequestInvalid(PduFault),
    /// An A-ASSOCIATE-RQ is accepted or rejected.
    RequestJudged(Answer),
    /// The fragment after this head continues the message.
    Fragment(PdvHead),
    /// The presentation context of the fragment after this head was not accepted: an A-ABORT is
    /// sent.
    ContextRefused(PdvHead),
    /// The fragment after this head does not continue the message, of which this was received: the
    /// association is aborted.
    FragmentRefused(PdvHead, DimseFault, Unfinished),
    /// The head of a presentation data value has a length below 2 or beyond its PDU: an A-ABORT is
    /// sent.
    BadPdv,
    /// The bytes after the last presentation data value of a PDU are no head of another: an A-ABORT
    /// is sent. The field is what the end of that value decided, at the same byte.
    Leftover(ValueEnd),
    /// A command set is invalid, with this fault and its Command Field, if it has one: the
    /// association is aborted.
    CommandRefused(DimseFault, Option<u16>),
    /// A command set is complete, and its data set must follow.
    DataDue,
    /// A command, complete with its data set if it has one, is answered with this status, and with
    /// the cause of a C-STORE's failure if the response reports one.
    Replied(u16, Option<Detail>),
    /// The association is released.
    Released,
    /// The peer aborted the association.
    Aborted,
}

impl Decision {
    ghost use Rattle.decisions.specs.ValueEnds as ends;

    /// Returns what the end of a presentation data value decided, if this decision is due to one,
    /// even if the bytes after the value were no head of another (`Leftover`).
    pub fn value_end(self) -> ValueEnd
        ensures { result ≡ ends.value_end self }
    {
        match self {
            Decision::DataDue => ValueEnd::DataDue,
            Decision::Replied(status, detail) => ValueEnd::Replied(status, detail),
            Decision::Leftover(end) => end,
            _ => ValueEnd::Nothing,
        }
    }
}
