//! Each allocation of a run is refused in turn, until a run meets no refusal.

use crate::two_stores::{ENDS, TwoStores};
use fixtures::bytes::front;
use fixtures::drive;
use fixtures::folders::is_filed;
use fixtures::refusing::Refusing;
use part10::MemoryFiling;
use pdu::{MemoryWire, Wire};
use std::alloc::{AllocError, Allocator, Global};

/// More allocations than any run makes.
const MOST: u64 = 100;

/// Returns whether exactly the vector after `passed` others, of four vectors of one byte, gets no
/// memory.
fn is_one_refused(alloc: Global, passed: usize) -> bool {
    let memory = Refusing::new(alloc, passed as u64);
    for at in 0..4usize {
        if memory.has_refused() != (passed < at) {
            return false;
        }
        if Vec::from_slice(&memory, &[1u8]).is_ok() != (at != passed) {
            return false;
        }
    }
    memory.has_refused() == (passed < 4)
}

#[test]
fn one_allocation_is_refused(rt: HostRuntime) {
    for passed in 0..5usize {
        assert!(rt; is_one_refused(rt.alloc(), passed));
    }
}

/// Returns whether these are the same files.
fn are_same<A: Allocator, B: Allocator>(found: &[Vec<u8, A>], due: &[Vec<u8, B>]) -> bool {
    for (file, other) in found.iter().zip(due) {
        if file.as_slice() != other.as_slice() {
            return false;
        }
    }
    found.len() == due.len()
}

/// The texts that are filed and sent, of several sizes.
static TEXTS: [&[u8]; 5] = [&[1; 300], &[2; 2], &[3; 5000], &[], &[4; 900]];

/// Files the texts. Returns whether the filing has exactly those that succeeded: all, or all but
/// one if an allocation is refused.
fn are_filed(alloc: Global, memory: &Refusing<Global>) -> Result<bool, AllocError> {
    let mut filing = MemoryFiling::new(memory);
    let mut received = Vec::new(alloc);
    for text in &TEXTS {
        if is_filed(&mut filing, text) {
            received.push(Vec::from_slice(alloc, text)?)?;
        }
    }
    let lost = usize::from(memory.has_refused());
    Ok(received.len() + lost == TEXTS.len() && are_same(filing.files(), received.as_slice()))
}

/// Sends the texts. Returns whether exactly those whose send succeeded are sent whole: all, or all
/// but one if an allocation is refused.
fn are_sent(alloc: Global, memory: &Refusing<Global>) -> Result<bool, AllocError> {
    let mut wire = MemoryWire::new(memory);
    let mut sent = Vec::new(alloc);
    let mut failed = 0u32;
    for text in &TEXTS {
        match wire.send(text) {
            Ok(()) => sent.extend_from_slice(text)?,
            Err(_) => failed = failed.saturating_add(1),
        }
    }
    Ok(
        failed == u32::from(memory.has_refused())
            && wire.failed() == memory.has_refused()
            && wire.sent() == sent.as_slice(),
    )
}

/// Files two stores with an association. Returns whether a store whose allocation is refused gets
/// status A700 and leaves no file, and the other is filed.
fn are_stored(alloc: Global, memory: &Refusing<Global>) -> Result<bool, AllocError> {
    let stores = TwoStores::new(alloc)?;
    let mut wire = MemoryWire::new(alloc);
    let mut filing = MemoryFiling::new(memory);
    let shown = drive::<_, _, 64>(&mut wire, &mut filing, &stores.pieces());
    let first = stores.due(2).files.as_slice();
    let lost = match (memory.has_refused(), are_same(filing.files(), first)) {
        (false, _) => 0,
        (true, false) => 1,
        (true, true) => 2,
    };
    let due = stores.due(lost);
    Ok(
        wire.sent() == due.answer.as_slice()
            && are_same(filing.files(), due.files.as_slice())
            && !shown.drafting,
    )
}

/// Answers two stores with an association. Returns whether a send whose allocation is refused sends
/// nothing and ends the association, and the stores up to that reply are filed.
fn are_answered(alloc: Global, memory: &Refusing<Global>) -> Result<bool, AllocError> {
    let stores = TwoStores::new(alloc)?;
    let mut wire = MemoryWire::new(memory);
    let mut filing = MemoryFiling::new(alloc);
    let shown = drive::<_, _, 64>(&mut wire, &mut filing, &stores.pieces());
    let sent = wire.sent().len();
    let Some(sends) = ENDS.iter().position(|end| *end == sent) else {
        return Ok(false);
    };
    let due = stores.due(0);
    let files = due.files.as_slice();
    Ok(
        wire.sent() == front(due.answer.as_slice(), sent)
            && (sends < 3) == memory.has_refused()
            && wire.failed() == memory.has_refused()
            && shown.is_ended() == memory.has_refused()
            && filing.files() == files.get(..sends).unwrap_or(files),
    )
}

/// A run over memory that is refused.
#[derive(Clone, Copy)]
enum Run {
    Filing,
    Wire,
    Stores,
    Replies,
}

fn is_right(alloc: Global, run: Run, memory: &Refusing<Global>) -> Result<bool, AllocError> {
    match run {
        Run::Filing => are_filed(alloc, memory),
        Run::Wire => are_sent(alloc, memory),
        Run::Stores => are_stored(alloc, memory),
        Run::Replies => are_answered(alloc, memory),
    }
}

/// Refuses each allocation of a run in turn. Returns how many there were, or `None` if a run fails
/// its check.
fn refused(alloc: Global, run: Run) -> Result<Option<u64>, AllocError> {
    for passed in 0..MOST {
        let memory = Refusing::new(alloc, passed);
        if !is_right(alloc, run, &memory)? {
            return Ok(None);
        }
        if !memory.has_refused() {
            return Ok(Some(passed));
        }
    }
    Ok(None)
}

#[test]
fn each_allocation_is_refused(rt: HostRuntime) -> Result<(), AllocError> {
    for run in [Run::Filing, Run::Wire, Run::Stores, Run::Replies] {
        assert!(rt; matches!(refused(rt.alloc(), run)?, Some(2..)));
    }
    Ok(())
}
