//! Test cases of stores: what a peer sends, and the outcome in chunks of any size, in memory and
//! over a folder.

use acceptor::State;
use dimse::status;
use fixtures::bytes::{after_first, joined};
use fixtures::folders::{are_in, fresh};
use fixtures::stores::{Cause, EXPLICIT, INSTANCE, file, reply, request, whole_store};
use fixtures::{OverMemory, Shown, Step, drive, over_memory};
use folder_filing::FolderFiling;
use part10::MemoryFiling;
use pdu::MemoryWire;
use std::alloc::{AllocError, Global};
use std::{fs, io};

/// A store: the transfer syntax of its context, its SOP Instance UID and its data set; the status
/// and the cause in its reply. It is filed if the status is success.
pub(crate) type Store<'a> = (&'a [u8], &'a [u8; 6], &'a [u8], u16, Option<Cause<'a>>);

/// How many levels of a data set may be open: as many as in the program, or two.
#[derive(Clone, Copy)]
pub(crate) enum Levels {
    OfTheProgram,
    Two,
}

/// The wire of an association over a folder, and its observable state.
#[derive(Drop)]
pub(crate) struct OverFolder {
    pub(crate) wire: MemoryWire<Global>,
    pub(crate) shown: Shown,
}

/// Opens an association over the filing of a folder and applies these steps.
pub(crate) fn over_folder(
    alloc: Global,
    filing: &mut FolderFiling<HostRuntime>,
    levels: Levels,
    steps: &[Step],
) -> OverFolder {
    let mut wire = MemoryWire::new(alloc);
    let shown = match levels {
        Levels::OfTheProgram => drive::<_, _, 64>(&mut wire, filing, steps),
        Levels::Two => drive::<_, _, 2>(&mut wire, filing, steps),
    };
    OverFolder { wire, shown }
}

/// Opens an association with two levels in memory and applies these steps.
fn over_memory_in_two_levels(alloc: Global, steps: &[Step]) -> OverMemory {
    let mut wire = MemoryWire::new(alloc);
    let mut filing = MemoryFiling::new(alloc);
    let shown = drive::<_, _, 2>(&mut wire, &mut filing, steps);
    OverMemory {
        wire,
        filing,
        shown,
    }
}

/// Recreates a folder and returns its filing.
pub(crate) fn fresh_folder(rt: &HostRuntime, dir: &str) -> io::Result<FolderFiling<HostRuntime>> {
    fresh(rt, dir)?;
    Ok(FolderFiling::open(*rt, dir)?.without_sync())
}

/// Returns the file of a store of this data set, or no file if it is empty.
fn one_file(
    alloc: Global,
    syntax: &[u8],
    instance: &[u8; 6],
    set: &[u8],
) -> Result<Vec<Vec<u8>>, AllocError> {
    let mut files = Vec::new(alloc);
    if !set.is_empty() {
        files.push(file(alloc, syntax, instance, set)?)?;
    }
    Ok(files)
}

/// A test case: a stream and its expected outcome. `answer` is what is sent after the
/// A-ASSOCIATE-AC.
#[derive(Drop)]
pub(crate) struct Row {
    pub(crate) stream: Vec<u8>,
    pub(crate) answer: Vec<u8>,
    pub(crate) files: Vec<Vec<u8>>,
    pub(crate) state: State,
}

impl Row {
    /// Returns the test case of an association with only this store.
    pub(crate) fn of(alloc: Global, store: &Store) -> Result<Row, AllocError> {
        let (syntax, instance, set, status, cause) = *store;
        let mut stream = request(alloc, syntax)?;
        stream.extend_from_slice(whole_store(alloc, instance, set)?.as_slice())?;
        let filed: &[u8] = if status == status::SUCCESS { set } else { &[] };
        Ok(Row {
            stream,
            answer: reply(alloc, instance, status, cause)?,
            files: one_file(alloc, syntax, instance, filed)?,
            state: State::Sta6,
        })
    }

    /// Returns the test case of an association that accepted Explicit VR Little Endian, with these
    /// messages and replies, and the file of a store of this data set, or no file if it is empty.
    pub(crate) fn of_messages(
        alloc: Global,
        messages: &[&[u8]],
        replies: &[&[u8]],
        set: &[u8],
        state: State,
    ) -> Result<Row, AllocError> {
        let mut stream = request(alloc, EXPLICIT)?;
        for message in messages {
            stream.extend_from_slice(message)?;
        }
        Ok(Row {
            stream,
            answer: joined(alloc, replies)?,
            files: one_file(alloc, EXPLICIT, INSTANCE, set)?,
            state,
        })
    }

    /// Returns whether an association with this state and wire is as expected. An open association
    /// buffers its accepted context and the calling title.
    pub(crate) fn is_shown(&self, shown: Shown, wire: &MemoryWire<Global>) -> bool {
        let due = if self.state == State::Sta6 { 24 } else { 0 };
        after_first(wire.sent()) == self.answer.as_slice()
            && !wire.failed()
            && shown.state == self.state
            && !shown.drafting
            && shown.held == due
    }

    /// Returns whether an association in memory is as expected and has the expected files.
    pub(crate) fn is_filed(&self, tried: &OverMemory) -> bool {
        self.is_shown(tried.shown, &tried.wire) && tried.filing.files() == self.files.as_slice()
    }

    /// Returns whether the outcome in memory is as expected in two chunks, the first of `cut`
    /// bytes; byte by byte if the stream has fewer.
    fn arrives_at(&self, alloc: Global, levels: Levels, cut: usize) -> bool {
        let steps = [Step::Cut(self.stream.as_slice(), cut)];
        let tried = match levels {
            Levels::OfTheProgram => over_memory(alloc, &steps),
            Levels::Two => over_memory_in_two_levels(alloc, &steps),
        };
        self.is_filed(&tried)
    }

    /// Returns whether the outcome in memory is as expected in one chunk, at each cut in two, and
    /// byte by byte.
    pub(crate) fn arrives(&self, alloc: Global, levels: Levels) -> bool {
        for cut in 0..self.stream.len() + 2 {
            if !self.arrives_at(alloc, levels, cut) {
                return false;
            }
        }
        true
    }

    /// Returns whether the answers over the filing of a folder are as expected in these steps.
    pub(crate) fn is_answered(
        &self,
        alloc: Global,
        filing: FolderFiling<HostRuntime>,
        levels: Levels,
        steps: &[Step],
    ) -> bool {
        let mut filing = filing;
        let tried = over_folder(alloc, &mut filing, levels, steps);
        self.is_shown(tried.shown, &tried.wire)
    }

    /// Returns whether the answers over the filing of a folder are as expected in two chunks.
    pub(crate) fn arrives_over(
        &self,
        rt: &HostRuntime,
        filing: FolderFiling<HostRuntime>,
        cut: usize,
    ) -> bool {
        let steps = [Step::Cut(self.stream.as_slice(), cut)];
        self.is_answered(rt.alloc(), filing, Levels::OfTheProgram, &steps)
    }

    /// Returns whether the outcome over a new folder with this name is as expected in two chunks.
    fn arrives_in_folder_at(
        &self,
        rt: &HostRuntime,
        dir: &str,
        levels: Levels,
        cut: usize,
    ) -> io::Result<bool> {
        let filing = fresh_folder(rt, dir)?;
        let steps = [Step::Cut(self.stream.as_slice(), cut)];
        Ok(
            self.is_answered(rt.alloc(), filing, levels, &steps)
                && are_in(rt, dir, self.files.as_slice())?,
        )
    }

    /// Returns whether the outcome over a new folder with this name is as expected in one chunk, at
    /// each cut in two, and byte by byte.
    pub(crate) fn arrives_in_folder(
        &self,
        rt: &HostRuntime,
        dir: &str,
        levels: Levels,
    ) -> io::Result<bool> {
        for cut in 0..self.stream.len() + 2 {
            if !self.arrives_in_folder_at(rt, dir, levels, cut)? {
                return Ok(false);
            }
        }
        fs::remove_dir_all(rt, dir)?;
        Ok(true)
    }
}
