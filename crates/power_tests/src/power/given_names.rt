//! How a file gets its name: by a link if the disk has links, else by a rename once the name was
//! seen to be free. No existing file is overwritten.

use crate::power::disk::{Disk, Shared};
use crate::power::filed::{Due, Kept};
use crate::power::lives::{NEXT, open, tried_states};
use crate::power::trouble::{Act, Trouble};
use fixtures::folders::is_filed;
use std::alloc::Global;
use std::io;
use std::io::ErrorKind;
use std::test::Fail;

/// Opens the disk's folder and files two texts, until a call fails.
fn file_two(alloc: Global, disk: &Shared, kept: Kept) {
    if let Ok(mut filing) = open(alloc, disk, kept) {
        if is_filed(&mut filing, b"first") {
            let _ = is_filed(&mut filing, b"second");
        }
    }
}

/// Returns the kind of the call with this index when two texts are filed, or `None` if there are
/// fewer calls.
fn act_at(alloc: Global, kept: Kept, has_links: bool, at: usize) -> io::Result<Option<Act>> {
    let trouble = Trouble {
        failure: Some((at, ErrorKind::StorageFull)),
        has_links,
        ..Trouble::NONE
    };
    let disk = Disk::new(alloc, trouble)?.shared()?;
    file_two(alloc, &disk, kept);
    Ok(disk.try_borrow()?.failed().map(|failed| failed.act))
}

/// Returns the kinds of the calls when two texts are filed, in order.
fn acts(alloc: Global, kept: Kept, has_links: bool) -> io::Result<Vec<Act>> {
    let mut acts = Vec::new(alloc);
    for at in 0..200usize {
        match act_at(alloc, kept, has_links, at)? {
            Some(act) => acts.push(act)?,
            None => return Ok(acts),
        }
    }
    Err(io::Error::from(ErrorKind::InvalidData))
}

/// Returns how often this sequence of calls occurs.
fn times(acts: &[Act], calls: &[Act]) -> usize {
    let mut times = 0usize;
    for from in 0..acts.len() {
        if acts[from..].starts_with(calls) {
            times = times.saturating_add(1);
        }
    }
    times
}

#[test]
fn a_file_is_linked_where_the_disk_has_links(rt: HostRuntime) -> Result<(), Fail> {
    for kept in [Kept::Flat, Kept::Levels] {
        let acts = acts(rt.alloc(), kept, true)?;
        let acts = acts.as_slice();
        assert!(rt; times(acts, &[Act::Link]) == 2 && times(acts, &[Act::Rename]) == 0);
    }
    Ok(())
}

#[test]
fn a_file_is_renamed_once_its_name_was_looked_at(rt: HostRuntime) -> Result<(), Fail> {
    for kept in [Kept::Flat, Kept::Levels] {
        let acts = acts(rt.alloc(), kept, false)?;
        let acts = acts.as_slice();
        assert!(rt; times(acts, &[Act::Rename]) == 2);
        assert!(rt; times(acts, &[Act::Link, Act::Look, Act::Rename]) == 2);
    }
    Ok(())
}

/// The folder's path is checked before a draft is started and before it is named; when the folder is
/// opened, both the path and the opened folder are checked.
#[test]
fn the_path_is_looked_at_first(rt: HostRuntime) -> Result<(), Fail> {
    for has_links in [true, false] {
        let acts = acts(rt.alloc(), Kept::Flat, has_links)?;
        let acts = acts.as_slice();
        let opens = [Act::LookAtFolder, Act::Lock, Act::LookAtFolder, Act::List];
        assert!(rt; times(acts, &opens) == 1);
        let starts = [Act::LookAtFolder, Act::Create, Act::Look, Act::Write];
        assert!(rt; times(acts, &starts) == 2);
        assert!(rt; times(acts, &[Act::Sync, Act::LookAtFolder, Act::Link]) == 2);
        assert!(rt; times(acts, &[Act::LookAtFolder]) == 6);
    }
    Ok(())
}

/// A draft that may remain is removed when the folder is opened, and each draft once it has its
/// name. Nothing is removed before a draft is started.
#[test]
fn no_draft_is_removed_that_is_not_there(rt: HostRuntime) -> Result<(), Fail> {
    let acts = acts(rt.alloc(), Kept::Flat, true)?;
    let acts = acts.as_slice();
    assert!(rt; times(acts, &[Act::Sync, Act::Remove]) == 2);
    assert!(rt; times(acts, &[Act::Remove]) == 3);
    Ok(())
}

/// The file that another program puts into the folder under the next name.
const OTHER: &[u8] = b"of another";

/// Puts the file of another program into the folder and makes it durable.
fn put_other(disk: &mut Disk, kept: Kept) -> io::Result<()> {
    let (folder, path) = match kept {
        Kept::Flat => ("disk", "disk/I0000002"),
        Kept::Levels => ("disk/S0000001", "disk/S0000001/I0000002"),
    };
    let node = disk.create(path)?;
    disk.write(node, OTHER)?;
    disk.sync(node)?;
    let folder = disk.node(folder)?;
    disk.sync(folder)
}

/// Returns the expected files: those that must exist, and the one that the next start files.
fn due_files<'a>(alloc: Global, files: &[&'a [u8]]) -> io::Result<Vec<Due<'a>>> {
    let mut due = Vec::new(alloc);
    for file in files {
        due.push(Due {
            file: *file,
            must: true,
            may: true,
        })?;
    }
    due.push(Due {
        file: NEXT,
        must: false,
        may: true,
    })?;
    Ok(due)
}

/// Returns whether a text is filed under the name after the next one if the next one is in use, and
/// all files exist after a loss of power, in each state that may remain.
fn spares_others(alloc: Global, kept: Kept, has_links: bool) -> io::Result<bool> {
    let trouble = Trouble {
        has_links,
        ..Trouble::NONE
    };
    let disk = Disk::new(alloc, trouble)?.shared()?;
    let mut filing = open(alloc, &disk, kept)?;
    let is_first = is_filed(&mut filing, b"first");
    put_other(&mut *disk.try_borrow_mut()?, kept)?;
    let is_next = is_filed(&mut filing, b"mine");
    let due = due_files(alloc, &[b"first", OTHER, b"mine"])?;
    let disk = disk.try_borrow()?;
    let tried = tried_states(alloc, &disk, kept, due.as_slice())?;
    Ok(is_first && is_next && tried.is_some())
}

#[test]
fn a_file_of_another_program_stays(rt: HostRuntime) -> Result<(), Fail> {
    for has_links in [true, false] {
        for kept in [Kept::Flat, Kept::Levels] {
            assert!(rt; spares_others(rt.alloc(), kept, has_links)?);
        }
    }
    Ok(())
}
