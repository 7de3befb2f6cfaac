//! Two stores on one association, and the expected outcomes.

use dimse::status;
use fixtures::Step;
use fixtures::bytes::{back, front, joined};
use fixtures::stores::{
    ACCEPT, CT_SET, EXPLICIT, INSTANCE, OTHER, file, reply, request, whole_store,
};
use std::alloc::{AllocError, Global};

/// The expected answer and files.
#[derive(Drop)]
pub(crate) struct Due {
    pub(crate) answer: Vec<u8>,
    pub(crate) files: Vec<Vec<u8>>,
}

/// How many bytes are sent after each send: none, the A-ASSOCIATE-AC, and the reply to each store.
pub(crate) const ENDS: [usize; 4] = [0, 171, 283, 395];

/// The expected outcomes if the filing fails in no store, in the first, and in the second.
#[derive(Drop)]
struct Dues {
    none_fails: Due,
    first_fails: Due,
    second_fails: Due,
}

/// A request, the messages of two stores with different SOP Instance UIDs, and the expected
/// outcomes.
#[derive(Drop)]
pub(crate) struct TwoStores {
    pub(crate) request: Vec<u8>,
    /// The messages of both stores, of the same size.
    pub(crate) messages: Vec<u8>,
    dues: Dues,
}

/// The data set of the second store.
fn second_set() -> [u8; 48] {
    let mut set = CT_SET;
    set[46] = b'4';
    set
}

fn make_files(alloc: Global, first: u16, second: u16) -> Result<Vec<Vec<u8>>, AllocError> {
    let mut files = Vec::new(alloc);
    if first == status::SUCCESS {
        files.push(file(alloc, EXPLICIT, INSTANCE, &CT_SET)?)?;
    }
    if second == status::SUCCESS {
        files.push(file(alloc, EXPLICIT, OTHER, &second_set())?)?;
    }
    Ok(files)
}

fn make_due(alloc: Global, first: u16, second: u16) -> Result<Due, AllocError> {
    let files = make_files(alloc, first, second)?;
    let first = reply(alloc, INSTANCE, first, None)?;
    let second = reply(alloc, OTHER, second, None)?;
    let answer = joined(alloc, &[ACCEPT, first.as_slice(), second.as_slice()])?;
    Ok(Due { answer, files })
}

fn make_dues(alloc: Global) -> Result<Dues, AllocError> {
    Ok(Dues {
        none_fails: make_due(alloc, status::SUCCESS, status::SUCCESS)?,
        first_fails: make_due(alloc, status::OUT_OF_RESOURCES, status::SUCCESS)?,
        second_fails: make_due(alloc, status::SUCCESS, status::OUT_OF_RESOURCES)?,
    })
}

impl TwoStores {
    pub(crate) fn new(alloc: Global) -> Result<TwoStores, AllocError> {
        let mut messages = whole_store(alloc, INSTANCE, &CT_SET)?;
        messages.extend_from_slice(whole_store(alloc, OTHER, &second_set())?.as_slice())?;
        Ok(TwoStores {
            request: request(alloc, EXPLICIT)?,
            messages,
            dues: make_dues(alloc)?,
        })
    }

    /// Returns the size of a store.
    pub(crate) fn size(&self) -> usize {
        self.messages.len() / 2
    }

    /// Returns the request and each store, each in one chunk.
    pub(crate) fn pieces(&self) -> [Step<'_>; 3] {
        let messages = self.messages.as_slice();
        [
            Step::Piece(self.request.as_slice()),
            Step::Piece(front(messages, self.size())),
            Step::Piece(back(messages, self.size())),
        ]
    }

    /// Returns the request, and both stores cut here.
    pub(crate) fn cut(&self, cut: usize) -> [Step<'_>; 2] {
        [
            Step::Piece(self.request.as_slice()),
            Step::Cut(self.messages.as_slice(), cut),
        ]
    }

    /// How many bytes are sent after each send: none, the A-ASSOCIATE-AC, and the reply to each
    /// store.
    pub(crate) const ENDS: [usize; 4] = [0, 171, 283, 395];

    /// Returns the expected outcome if the filing fails in this store, counted from 1, or in none
    /// for 0.
    pub(crate) fn due(&self, failed: usize) -> &Due {
        match failed {
            0 => &self.dues.none_fails,
            1 => &self.dues.first_fails,
            _ => &self.dues.second_fails,
        }
    }
}
