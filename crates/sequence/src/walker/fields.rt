//! Lists the fields of a [`Walker`] and of all its parts with their types, to show that only
//! `header`, `kept` and `levels` contain received bytes. A field added to any of them does not
//! compile until it is listed here.

use super::Walker;
use crate::coding::Coding;
use crate::fault::Fault;
use crate::keep::Keep;
use crate::level::{Level, Scope};
use crate::stage::Stage;
use arrayvec::ArrayVec;
use element::Tag;

fn fields<const V: usize, const D: usize>(walker: &Walker<V, D>) {
    let Walker {
        root,
        limit,
        offset,
        header,
        kept,
        levels,
        stage,
    } = walker;
    let _: &u64 = limit;
    let _: &u64 = offset;
    let _: &ArrayVec<u8, 12> = header;
    let _: &Keep<V> = kept;
    let _: &ArrayVec<Level, D> = levels;
    scope_fields(root);
    stage_fields(stage);
}

/// Lists the fields of a `Level`: 16 bytes, of which the last two are padding.
fn level_fields(level: &Level) {
    let Level {
        end,
        last,
        kind,
        implicit,
    } = level;
    let _: &u64 = end;
    let _: &u32 = last;
    let _: &u8 = kind;
    let _: &u8 = implicit;
}

fn scope_fields(scope: &Scope) {
    let Scope {
        in_sequence,
        syntax,
        stop,
        last,
    } = scope;
    let _: &bool = in_sequence;
    let _: &Option<u64> = stop;
    let _: &u32 = last;
    match syntax {
        Coding::Implicit => {}
        Coding::Explicit => {}
        Coding::Encapsulated => {}
        Coding::Fragments => {}
    }
}

fn stage_fields(stage: &Stage) {
    match stage {
        Stage::Heading => {}
        Stage::Value {
            tag,
            remaining,
            kept,
        } => {
            let _: &u32 = remaining;
            let _: &bool = kept;
            tag_fields(tag);
        }
        Stage::Stopped(fault) => fault_fields(fault),
    }
}

fn fault_fields(fault: &Fault) {
    let Fault {
        number,
        offset,
        tag,
    } = fault;
    let _: &u8 = number;
    let _: &u64 = offset;
    tag_fields(tag);
}

fn tag_fields(tag: &Tag) {
    let Tag(group, element) = tag;
    let _: &u16 = group;
    let _: &u16 = element;
}
