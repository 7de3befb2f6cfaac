//! Stores: their messages, replies and files.

use dimse::status;
use fixtures::bytes::{front, joined};
use fixtures::stores::{CT_SET, Cause, EXPLICIT, OTHER, file, reply, request, whole_store};
use std::alloc::{AllocError, Global};

/// A store.
#[derive(Drop)]
pub(crate) struct Store {
    message: Vec<u8>,
    /// The reply if no filing call of the store fails; empty if the store is cut off.
    reply: Vec<u8>,
    /// The reply if a filing call fails.
    failed_reply: Vec<u8>,
    /// The file; empty, if there is none.
    pub(crate) file: Vec<u8>,
}

/// Returns a store of a CT image with the SOP Instance UID `1.2.` and this digit.
fn good(alloc: Global, digit: u8) -> Result<Store, AllocError> {
    let instance = [b'1', b'.', b'2', b'.', digit, 0];
    let mut set = CT_SET;
    set[46] = digit;
    Ok(Store {
        message: whole_store(alloc, &instance, &set)?,
        reply: reply(alloc, &instance, status::SUCCESS, None)?,
        failed_reply: reply(alloc, &instance, status::OUT_OF_RESOURCES, None)?,
        file: file(alloc, EXPLICIT, &instance, &set)?,
    })
}

/// The cause in the reply for a data set with another SOP Instance UID.
const OTHER_INSTANCE: Option<Cause> = Some((&[8, 0, 0x18, 0], b"fault 46 InstanceMismatch "));

/// Returns a store whose data set has another SOP Instance UID than its command.
fn refused(alloc: Global) -> Result<Store, AllocError> {
    Ok(Store {
        message: whole_store(alloc, OTHER, &CT_SET)?,
        reply: reply(alloc, OTHER, status::DATA_SET_MISMATCH, OTHER_INSTANCE)?,
        failed_reply: reply(alloc, OTHER, status::DATA_SET_MISMATCH, OTHER_INSTANCE)?,
        file: Vec::new(alloc),
    })
}

/// Returns a store that ends within its data set.
fn cut_off(alloc: Global) -> Result<Store, AllocError> {
    let whole = whole_store(alloc, OTHER, &CT_SET)?;
    Ok(Store {
        message: Vec::from_slice(
            alloc,
            front(whole.as_slice(), whole.len().saturating_sub(20)),
        )?,
        reply: Vec::new(alloc),
        failed_reply: Vec::new(alloc),
        file: Vec::new(alloc),
    })
}

/// The stores of one association over a folder opened for it.
#[derive(Drop)]
pub(crate) struct Life {
    pub(crate) request: Vec<u8>,
    /// The messages of all stores.
    pub(crate) messages: Vec<u8>,
    pub(crate) stores: Vec<Store>,
}

fn in_life(alloc: Global, stores: Vec<Store>) -> Result<Life, AllocError> {
    let mut messages = Vec::new(alloc);
    for store in &stores {
        messages.extend_from_slice(store.message.as_slice())?;
    }
    Ok(Life {
        request: request(alloc, EXPLICIT)?,
        messages,
        stores,
    })
}

/// Returns three images, a rejected one among them, and one that is cut off.
pub(crate) fn first_life(alloc: Global) -> Result<Life, AllocError> {
    let mut stores = Vec::new(alloc);
    stores.push(good(alloc, b'3')?)?;
    stores.push(refused(alloc)?)?;
    stores.push(good(alloc, b'5')?)?;
    stores.push(good(alloc, b'6')?)?;
    stores.push(cut_off(alloc)?)?;
    in_life(alloc, stores)
}

/// Returns two images.
pub(crate) fn second_life(alloc: Global) -> Result<Life, AllocError> {
    let mut stores = Vec::new(alloc);
    stores.push(good(alloc, b'7')?)?;
    stores.push(good(alloc, b'8')?)?;
    in_life(alloc, stores)
}

impl Life {
    /// Returns the replies if a filing call of this store fails.
    pub(crate) fn replies(
        &self,
        alloc: Global,
        failed: Option<usize>,
    ) -> Result<Vec<u8>, AllocError> {
        let mut replies = Vec::new(alloc);
        for (at, store) in self.stores.iter().enumerate() {
            let reply = if failed == Some(at) {
                &store.failed_reply
            } else {
                &store.reply
            };
            replies.extend_from_slice(reply.as_slice())?;
        }
        Ok(replies)
    }

    /// Returns how many stores got their reply, if these are the first replies of a life without
    /// failed calls.
    pub(crate) fn answered(&self, replies: &[u8]) -> Option<usize> {
        let mut rest = replies;
        let mut answered = 0usize;
        for store in &self.stores {
            if rest.is_empty() {
                return Some(answered);
            }
            rest = rest.strip_prefix(store.reply.as_slice())?;
            answered = answered.saturating_add(1);
        }
        if rest.is_empty() {
            Some(answered)
        } else {
            None
        }
    }
}
