//! Lists the fields of an [`Association`] and of its parts with their types, to show that received
//! bytes are only in the deframer, in `body`, `caller`, `max_length` and `contexts`, in the join
//! and in the walker. A new field of any of these types does not compile until it is listed here.

use super::Association;
use crate::phase::{Message, Peer, Phase};
use crate::provider::Provider;
use crate::stores::Storing;
use arrayvec::ArrayVec;
use decisions::{Decision, HeadFault, ValueEnd};
use dimse::{Detail, Join, Unfinished};
use element::Tag;
use negotiate::{Answer, Config, ContextRow};
use pdu::{Deframer, PduHead, PdvHead};
use sequence::Walker;

fn fields<const A: usize, const C: usize, const V: usize, const D: usize>(
    association: &Association<A, C, V, D>,
) {
    let Association { deframer, provider } = association;
    let Provider {
        config,
        refused,
        decided,
        phase,
    } = provider;
    let _: &Deframer = deframer;
    let _: &&Config = config;
    let _: &bool = refused;
    decision(decided);
    match phase {
        Phase::AwaitingRequest { body } => {
            let _: &ArrayVec<u8, A> = body;
        }
        Phase::Established { peer, message } => {
            let Peer {
                caller,
                max_length,
                contexts,
            } = peer;
            let Message { join, storing } = message;
            let _: &[u8; 16] = caller;
            let _: &u32 = max_length;
            let _: &ArrayVec<ContextRow, 128> = contexts;
            let _: &Join<C> = join;
            match storing {
                Storing::Nothing => {}
                Storing::DataSet { drafting, walker } => {
                    let _: &bool = drafting;
                    let _: &Walker<V, D> = walker;
                }
            }
        }
        Phase::AwaitingClose | Phase::Ended => {}
    }
}

/// Lists the fields of a decision, which has no received text.
fn decision(decision: &Decision) {
    match decision {
        Decision::Nothing
        | Decision::BadPdv
        | Decision::DataDue
        | Decision::Released
        | Decision::Aborted => {}
        Decision::PduRefused(PduHead { kind, length }, fault) => {
            let _: &u8 = kind;
            let _: &u32 = length;
            head_fault(fault);
        }
        Decision::RequestTooLong(length) => {
            let _: &u32 = length;
        }
        Decision::RequestInvalid(fault) => {
            // A fault with fields could not be cast.
            let _ = *fault as u8;
        }
        Decision::RequestJudged(Answer::Accept) => {}
        Decision::RequestJudged(Answer::Reject(result, source, reason)) => {
            let _: &u8 = result;
            let _: &u8 = source;
            let _: &u8 = reason;
        }
        Decision::Fragment(head) | Decision::ContextRefused(head) => pdv_head(head),
        Decision::FragmentRefused(head, fault, before) => {
            pdv_head(head);
            let _ = *fault as u8;
            unfinished(before);
        }
        Decision::Leftover(end) => match end {
            ValueEnd::Nothing | ValueEnd::DataDue => {}
            ValueEnd::Replied(status, detail) => reply(status, detail),
        },
        Decision::CommandRefused(fault, field) => {
            let _ = *fault as u8;
            let _: &Option<u16> = field;
        }
        Decision::Replied(status, detail) => reply(status, detail),
    }
}

fn head_fault(fault: &HeadFault) {
    match fault {
        HeadFault::Unrecognized
        | HeadFault::Unexpected
        | HeadFault::OtherLength
        | HeadFault::ShortRequest
        | HeadFault::ShortData => {}
        HeadFault::LongData(most) => {
            let _: &u32 = most;
        }
    }
}

fn unfinished(unfinished: &Unfinished) {
    match unfinished {
        Unfinished::Nothing => {}
        Unfinished::Command(context, size) => {
            let _: &u8 = context;
            let _: &usize = size;
        }
        Unfinished::Set(context) => {
            let _: &u8 = context;
        }
    }
}

fn pdv_head(head: &PdvHead) {
    let PdvHead {
        length,
        context,
        command,
        last,
    } = head;
    let _: &u32 = length;
    let _: &u8 = context;
    let _: &bool = command;
    let _: &bool = last;
}

fn reply(status: &u16, detail: &Option<Detail>) {
    let _: &u16 = status;
    if let Some(Detail { number, tag }) = detail {
        let _: &u8 = number;
        let _: &Tag = tag;
    }
}
