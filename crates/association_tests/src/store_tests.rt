//! Test cases of stores, in memory and over a folder: the replies and the files, in one chunk, byte
//! by byte and at each cut in two.

use crate::row::{Levels, Row, Store};
use crate::sets::{OTHER_INSTANCE, STORES, STORES_OF_TWO_LEVELS};
use acceptor::State;
use dimse::status;
use fixtures::bytes::{front, within};
use fixtures::echo::{RELEASE, RELEASED};
use fixtures::stores::{
    CT_SET, EXPLICIT, IMPLICIT, INSTANCE, OTHER, data, file, reply, request, store, whole_store,
};
use std::alloc::{AllocError, Global};
use std::io;
use std::test::Fail;

/// Returns whether these stores have their expected outcomes in memory.
fn received(alloc: Global, stores: &[Store], levels: Levels) -> Result<bool, AllocError> {
    for store in stores {
        if !Row::of(alloc, store)?.arrives(alloc, levels) {
            return Ok(false);
        }
    }
    Ok(true)
}

#[test]
fn stores_over_memory(rt: HostRuntime) -> Result<(), AllocError> {
    assert!(rt; received(rt.alloc(), &STORES, Levels::OfTheProgram)?);
    assert!(rt; received(rt.alloc(), &STORES_OF_TWO_LEVELS, Levels::Two)?);
    Ok(())
}

/// Returns whether these stores have their expected outcomes over a folder.
fn are_received_in_folder(rt: &HostRuntime, stores: &[Store], levels: Levels) -> io::Result<bool> {
    for store in stores {
        let row = Row::of(rt.alloc(), store)?;
        if !row.arrives_in_folder(rt, "stores_over_a_folder", levels)? {
            return Ok(false);
        }
    }
    Ok(true)
}

#[test]
fn stores_over_a_folder(rt: HostRuntime) -> Result<(), Fail> {
    assert!(rt; are_received_in_folder(&rt, &STORES, Levels::OfTheProgram)?);
    assert!(rt; are_received_in_folder(&rt, &STORES_OF_TWO_LEVELS, Levels::Two)?);
    Ok(())
}

/// Returns whether a test case has its expected outcome in memory and over a folder with this name.
fn arrives(rt: &HostRuntime, dir: &str, row: &Row) -> io::Result<bool> {
    Ok(
        row.arrives(rt.alloc(), Levels::OfTheProgram)
            && row.arrives_in_folder(rt, dir, Levels::OfTheProgram)?,
    )
}

/// Returns the sizes of the messages of a CT store: the request, the command, the whole store and
/// the reply.
fn sizes(alloc: Global) -> Result<[usize; 4], AllocError> {
    Ok([
        request(alloc, EXPLICIT)?.len(),
        store(alloc, INSTANCE)?.len(),
        whole_store(alloc, INSTANCE, &CT_SET)?.len(),
        reply(alloc, INSTANCE, status::SUCCESS, None)?.len(),
    ])
}

#[test]
fn sizes_of_a_ct_store(rt: HostRuntime) -> Result<(), AllocError> {
    assert!(rt; sizes(rt.alloc())? == [180, 100, 172, 112]);
    let file = file(rt.alloc(), EXPLICIT, INSTANCE, &CT_SET)?;
    assert!(rt;
        file.len() == 336 && within(file.as_slice(), 140, 144) == [144, 0, 0, 0].as_slice()
    );
    Ok(())
}

/// Returns nested items in Implicit VR that open 64 levels, and a sequence that would open one
/// more.
fn too_deep(alloc: Global) -> Result<Vec<u8>, AllocError> {
    let mut set = Vec::new(alloc);
    for _ in 0..33u8 {
        set.extend_from_slice(&[0x40, 0, 0x30, 0xa7, 0xff, 0xff, 0xff, 0xff])?;
        set.extend_from_slice(&[0xfe, 0xff, 0, 0xe0, 0xff, 0xff, 0xff, 0xff])?;
    }
    set.truncate(520);
    Ok(set)
}

/// A data set with too many levels.
fn of_too_many_levels(alloc: Global) -> Result<Row, AllocError> {
    let set = too_deep(alloc)?;
    Row::of(
        alloc,
        &(
            IMPLICIT,
            INSTANCE,
            set.as_slice(),
            status::OUT_OF_RESOURCES,
            None,
        ),
    )
}

/// A release inside a data set.
fn of_release(alloc: Global) -> Result<Row, AllocError> {
    let command = data(alloc, 3, store(alloc, INSTANCE)?.as_slice())?;
    let part = data(alloc, 0, front(&CT_SET, 20))?;
    let messages = [command.as_slice(), part.as_slice(), RELEASE];
    Row::of_messages(alloc, &messages, &[RELEASED], &[], State::Sta13)
}

/// A PDU with the last fragment of a store and the head of a PDV that extends past the PDU.
fn of_bad_pdv(alloc: Global) -> Result<Row, AllocError> {
    let command = data(alloc, 3, store(alloc, INSTANCE)?.as_slice())?;
    let reply = reply(alloc, INSTANCE, status::SUCCESS, None)?;
    let heads = [4, 0, 0, 0, 0, 60, 0, 0, 0, 50, 1, 2];
    let messages = [command.as_slice(), &heads, &CT_SET, &[0, 0, 0, 1, 1, 3]];
    let replies: [&[u8]; 2] = [reply.as_slice(), &[7, 0, 0, 0, 0, 4, 0, 0, 2, 6]];
    Row::of_messages(alloc, &messages, &replies, &CT_SET, State::Sta13)
}

/// The offset of the last digit of the SOP Class UID in a command or a reply: after the heads of
/// its PDU and PDV, its first element and the header of its second.
const NAMED: usize = 12 + 12 + 8 + 24;

/// Returns a command or a reply with another SOP Class UID than the context's: MR images.
fn of_other_class(message: Vec<u8>) -> Vec<u8> {
    let mut message = message;
    if let Some(digit) = message.as_mut_slice().get_mut(NAMED) {
        *digit = b'4';
    }
    message
}

/// A store with another SOP Class UID than the context's.
fn of_another_class(alloc: Global) -> Result<Row, AllocError> {
    let store = of_other_class(whole_store(alloc, INSTANCE, &CT_SET)?);
    let reply = of_other_class(reply(alloc, INSTANCE, status::CLASS_NOT_SUPPORTED, None)?);
    Row::of_messages(
        alloc,
        &[store.as_slice()],
        &[reply.as_slice()],
        &[],
        State::Sta6,
    )
}

/// Two stores on one association.
fn of_two_stores(alloc: Global) -> Result<Row, AllocError> {
    let mut messages = whole_store(alloc, OTHER, &CT_SET)?;
    messages.extend_from_slice(whole_store(alloc, INSTANCE, &CT_SET)?.as_slice())?;
    let mut replies = reply(alloc, OTHER, status::DATA_SET_MISMATCH, OTHER_INSTANCE)?;
    replies.extend_from_slice(reply(alloc, INSTANCE, status::SUCCESS, None)?.as_slice())?;
    Row::of_messages(
        alloc,
        &[messages.as_slice()],
        &[replies.as_slice()],
        &CT_SET,
        State::Sta6,
    )
}

/// A store for a C-MOVE: its command ends with the originator's AE title and message ID.
fn of_a_move(alloc: Global) -> Result<Row, AllocError> {
    let mut command = store(alloc, INSTANCE)?;
    command.extend_from_slice(b"\0\0\x30\x10\x08\0\0\0SCANNER2\0\0\x31\x10\x02\0\0\0\x05\0")?;
    if let Some(count) = command.as_mut_slice().get_mut(8) {
        *count = 88 + 16 + 10;
    }
    let command = data(alloc, 3, command.as_slice())?;
    let set = data(alloc, 2, &CT_SET)?;
    let reply = reply(alloc, INSTANCE, status::SUCCESS, None)?;
    let messages = [command.as_slice(), set.as_slice()];
    Row::of_messages(alloc, &messages, &[reply.as_slice()], &CT_SET, State::Sta6)
}

#[test]
fn a_data_set_with_too_many_levels(rt: HostRuntime) -> Result<(), Fail> {
    assert!(rt; arrives(&rt, "too_many_levels", &of_too_many_levels(rt.alloc())?)?);
    Ok(())
}

#[test]
fn messages_of_an_association(rt: HostRuntime) -> Result<(), Fail> {
    let dir = "messages_of_an_association";
    assert!(rt; arrives(&rt, dir, &of_release(rt.alloc())?)?);
    assert!(rt; arrives(&rt, dir, &of_bad_pdv(rt.alloc())?)?);
    assert!(rt; arrives(&rt, dir, &of_another_class(rt.alloc())?)?);
    assert!(rt; arrives(&rt, dir, &of_two_stores(rt.alloc())?)?);
    assert!(rt; arrives(&rt, dir, &of_a_move(rt.alloc())?)?);
    Ok(())
}
