//! Power is lost before each call to the disk in turn, and each state that may remain is tried: a
//! file that was answered is there, any other is whole or gone, and the next start continues.
//!
//! That answered files survive follows from the system calls that a filing records (the laws of
//! `folder_filing`); here the disk sees the calls that are made.

use crate::power::disk::{Disk, Shared};
use crate::power::filed::{Due, Kept};
use crate::power::lives::{NEXT, add_due, open, replies_of, tried_states};
use crate::power::stores::{Life, first_life, second_life};
use crate::power::trouble::Trouble;
use std::alloc::Global;
use std::io;
use std::test::Fail;

/// Returns how many stores of a life got their reply; 0 if the folder could not be opened without
/// power, and `None` if the replies are not as expected.
fn answered_in(alloc: Global, disk: &Shared, kept: Kept, life: &Life) -> io::Result<Option<usize>> {
    match open(alloc, disk, kept) {
        Ok(filing) => {
            let replies = replies_of(alloc, disk, filing, life)?;
            Ok(life.answered(replies.as_slice()))
        }
        Err(error) if disk.try_borrow()?.has_power() => Err(error),
        Err(_) => Ok(Some(0)),
    }
}

/// Runs both lives and loses power at a call. Returns how many states were tried and whether power
/// lasted to the end, or `None` if anything is not as expected.
fn states_at(
    alloc: Global,
    lives: &[Life; 2],
    kept: Kept,
    trouble: Trouble,
) -> io::Result<Option<(u64, bool)>> {
    let disk = Disk::new(alloc, trouble)?.shared()?;
    let mut due = Vec::new(alloc);
    for life in lives {
        let Some(answered) = answered_in(alloc, &disk, kept, life)? else {
            return Ok(None);
        };
        add_due(&mut due, life, answered)?;
    }
    due.push(Due {
        file: NEXT,
        must: false,
        may: true,
    })?;
    let disk = disk.try_borrow()?;
    match tried_states(alloc, &disk, kept, due.as_slice())? {
        Some(tried) => Ok(Some((tried, disk.has_power()))),
        None => Ok(None),
    }
}

/// Loses power at each call in turn. Returns how many states were tried, or `None` if anything is
/// not as expected.
fn states(alloc: Global, kept: Kept) -> io::Result<Option<u64>> {
    let lives = [first_life(alloc)?, second_life(alloc)?];
    let mut states = 0u64;
    for at in 0..500usize {
        let trouble = Trouble {
            power_ends: Some(at),
            ..Trouble::NONE
        };
        match states_at(alloc, &lives, kept, trouble)? {
            Some((tried, false)) => states = states.saturating_add(tried),
            Some((_, true)) => return Ok(Some(states)),
            None => return Ok(None),
        }
    }
    Ok(None)
}

#[test]
fn answered_files_survive_in_one_folder(rt: HostRuntime) -> Result<(), Fail> {
    assert!(rt; states(rt.alloc(), Kept::Flat)? > Some(5000));
    Ok(())
}

#[test]
fn answered_files_survive_in_levels(rt: HostRuntime) -> Result<(), Fail> {
    assert!(rt; states(rt.alloc(), Kept::Levels)? > Some(5000));
    Ok(())
}
