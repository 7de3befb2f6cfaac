//! The file of numbers: in each state that may remain after a loss of power, it covers the numbers
//! of all files and subfolders.

use crate::power::disk::{Disk, Shared};
use crate::power::filed::Kept;
use crate::power::folder::Node;
use crate::power::lives::open_writer;
use crate::power::name::Name;
use crate::power::survivors::Tries;
use crate::power::trouble::Trouble;
use fixtures::folders::is_filed;
use std::alloc::Global;
use std::test::Fail;
use std::{io, str};

/// Files texts for two subfolders, with a file of numbers, until power is lost.
fn file_three(alloc: Global, disk: &Shared, kept: Kept) -> io::Result<()> {
    let mut writer = open_writer(alloc, disk, kept)?.with_numbers("disk/N")?;
    let mut filing = writer.filing()?;
    for text in [&b"first"[..], b"second", b"third"] {
        let _ = is_filed(&mut filing, text);
    }
    Ok(())
}

/// Returns the number with this letter at offset `from` of the line of the file of numbers.
fn number_in(line: &[u8], from: usize, letter: u8) -> Option<u32> {
    let name = line.get(from..from.saturating_add(8))?;
    Name::of(str::from_utf8(name).ok()?)?.number(letter)
}

/// Returns the greatest numbers of a file and of a subfolder in the file of numbers; 0 without the
/// file, or `None` if the file has no line of numbers.
fn kept_numbers(disk: &Disk) -> io::Result<Option<(u32, u32)>> {
    let Ok(Node::File(at)) = disk.node("disk/N") else {
        return Ok(Some((0, 0)));
    };
    let line = disk.file(at)?.bytes();
    Ok(match (number_in(line, 0, b'I'), number_in(line, 9, b'S')) {
        (Some(file), Some(folder)) if line.len() == 18 => Some((file, folder)),
        _ => None,
    })
}

/// Returns whether the file of numbers covers the numbers of all files and subfolders.
fn covers(disk: &Disk) -> io::Result<bool> {
    let Some((file, folder)) = kept_numbers(disk)? else {
        return Ok(false);
    };
    for entry in disk.folder(0)?.entries() {
        let number = match entry.node {
            Node::File(_) => entry.name.number(b'I').map(|number| number <= file),
            Node::Folder(_) => entry.name.number(b'S').map(|number| number <= folder),
        };
        if number == Some(false) {
            return Ok(false);
        }
    }
    Ok(true)
}

/// Loses power at this call. Returns how many states were tried and whether power lasted to the
/// end, or `None` if a number is not covered.
fn states_at(alloc: Global, kept: Kept, at: usize) -> io::Result<Option<(u64, bool)>> {
    let trouble = Trouble {
        power_ends: Some(at),
        ..Trouble::NONE
    };
    let disk = Disk::new(alloc, trouble)?.shared()?;
    let filed = file_three(alloc, &disk, kept);
    let disk = disk.try_borrow()?;
    let mut tries = Tries::new(disk.pending());
    for tried in 0..2000u64 {
        let Some(choices) = tries.next_choices() else {
            return Ok(Some((tried, filed.is_ok() && disk.has_power())));
        };
        if !covers(&disk.survivor(choices)?)? {
            return Ok(None);
        }
    }
    Ok(None)
}

/// Loses power at each call in turn. Returns how many states were tried, or `None` if a number is
/// not covered.
fn states(alloc: Global, kept: Kept) -> io::Result<Option<u64>> {
    let mut states = 0u64;
    for at in 0..500usize {
        match states_at(alloc, kept, at)? {
            Some((tried, false)) => states = states.saturating_add(tried),
            Some((_, true)) => return Ok(Some(states)),
            None => return Ok(None),
        }
    }
    Ok(None)
}

#[test]
fn numbers_that_were_given_survive(rt: HostRuntime) -> Result<(), Fail> {
    assert!(rt; states(rt.alloc(), Kept::Flat)? > Some(100));
    assert!(rt; states(rt.alloc(), Kept::Levels)? > Some(100));
    Ok(())
}
