//! Each call to the disk fails in turn or is interrupted, and writes accept fewer bytes than given.

use crate::power::disk::{Disk, Failed, Shared};
use crate::power::filed::{Due, Filed, Kept};
use crate::power::lives::{NEXT, open, replies_of, tried_states};
use crate::power::mounted::Mounted;
use crate::power::stores::{Life, first_life, second_life};
use crate::power::trouble::{Act, Trouble};
use folder_filing::FolderFiling;
use std::alloc::Global;
use std::io;
use std::io::ErrorKind;
use std::test::Fail;

/// Opens the disk's folder, and again if a call fails. Returns `None` if it is opened although a
/// call fails, or fails although none does.
fn opened(alloc: Global, disk: &Shared, kept: Kept) -> io::Result<Option<FolderFiling<Mounted>>> {
    let had_failed = disk.try_borrow()?.failed().is_some();
    let filing = open(alloc, disk, kept);
    let fails = !had_failed && disk.try_borrow()?.failed().is_some();
    match filing {
        Ok(filing) if !fails => Ok(Some(filing)),
        Err(_) if fails => Ok(Some(open(alloc, disk, kept)?)),
        _ => Ok(None),
    }
}

/// The effect of a failed call on its store.
#[derive(Clone, Copy, PartialEq, Eq)]
enum Effect {
    /// The store fails.
    Fails,
    /// The store may fail.
    MayFail,
    /// The store succeeds: the call is repeated, or what it should have removed is removed when the
    /// next draft is started.
    Nothing,
}

fn effect_of(failed: Failed, kind: ErrorKind) -> Effect {
    match failed.act {
        Act::Write if kind == ErrorKind::Interrupted => Effect::Nothing,
        Act::Remove => Effect::Nothing,
        Act::LookAtFolder => Effect::MayFail,
        _ => Effect::Fails,
    }
}

/// The result of a life: which store failed.
#[derive(Clone, Copy, PartialEq, Eq)]
enum Outcome {
    NoneFails,
    Fails(usize),
    /// The replies are not as expected.
    Undue,
}

/// Returns which store of a life failed, by its replies, if a failed call had this effect on this
/// store.
fn outcome_of(
    alloc: Global,
    life: &Life,
    replies: &[u8],
    (store, effect): (usize, Effect),
) -> io::Result<Outcome> {
    let fails = replies == life.replies(alloc, Some(store))?.as_slice();
    if fails && effect != Effect::Nothing {
        return Ok(Outcome::Fails(store));
    }
    let none_fails = replies == life.replies(alloc, None)?.as_slice();
    if none_fails && effect != Effect::Fails {
        return Ok(Outcome::NoneFails);
    }
    Ok(Outcome::Undue)
}

/// Runs a life over this filing. Returns which store failed.
fn lived(
    alloc: Global,
    disk: &Shared,
    filing: FolderFiling<Mounted>,
    life: &Life,
    kind: ErrorKind,
) -> io::Result<Outcome> {
    let had_failed = disk.try_borrow()?.failed().is_some();
    let sends = disk.try_borrow()?.sent();
    let replies = replies_of(alloc, disk, filing, life)?;
    let here = match disk.try_borrow()?.failed() {
        // The first send is the A-ASSOCIATE-AC.
        Some(failed) if !had_failed => (
            failed.sends.saturating_sub(sends).saturating_sub(1),
            effect_of(failed, kind),
        ),
        _ => (usize::MAX, Effect::Nothing),
    };
    outcome_of(alloc, life, replies.as_slice(), here)
}

/// Adds the expected files of a life, without that of the store that failed.
fn add_due<'a>(due: &mut Vec<Due<'a>>, life: &'a Life, outcome: Outcome) -> io::Result<()> {
    for (at, store) in life.stores.iter().enumerate() {
        if !store.file.is_empty() {
            let must = outcome != Outcome::Fails(at);
            due.push(Due {
                file: store.file.as_slice(),
                must,
                may: must,
            })?;
        }
    }
    Ok(())
}

/// Returns whether a disk has the expected files, and still has them after a loss of power, when
/// the file that failed may exist.
fn has_due(alloc: Global, disk: &Disk, kept: Kept, due: &mut Vec<Due>) -> io::Result<bool> {
    let is_remaining = disk.has_draft()?;
    let may_be_remaining = matches!(disk.failed(), Some(failed) if failed.act.may_leave_draft());
    let filed = Filed::of(alloc, disk, kept)?;
    if !filed.is_due(disk, due.as_slice())? || is_remaining && !may_be_remaining {
        return Ok(false);
    }
    for due in due.iter_mut() {
        due.may = true;
    }
    due.push(Due {
        file: NEXT,
        must: false,
        may: true,
    })?;
    Ok(tried_states(alloc, disk, kept, due.as_slice())?.is_some())
}

/// Runs both lives over a disk with this trouble. Returns whether a call failed, or `None` if
/// anything is not as expected.
fn fails(
    alloc: Global,
    lives: &[Life; 2],
    kept: Kept,
    trouble: Trouble,
    kind: ErrorKind,
) -> io::Result<Option<bool>> {
    let disk = Disk::new(alloc, trouble)?.shared()?;
    let mut due = Vec::new(alloc);
    for life in lives {
        let Some(filing) = opened(alloc, &disk, kept)? else {
            return Ok(None);
        };
        let outcome = lived(alloc, &disk, filing, life, kind)?;
        if outcome == Outcome::Undue {
            return Ok(None);
        }
        add_due(&mut due, life, outcome)?;
    }
    let disk = disk.try_borrow()?;
    if !has_due(alloc, &disk, kept, &mut due)? {
        return Ok(None);
    }
    Ok(Some(disk.failed().is_some()))
}

/// Fails each call in turn with this kind of failure. Returns the index at which no call failed any
/// more, or `None` if anything is not as expected.
fn failed_calls(
    alloc: Global,
    kept: Kept,
    kind: ErrorKind,
    has_links: bool,
) -> io::Result<Option<usize>> {
    let lives = [first_life(alloc)?, second_life(alloc)?];
    for at in 0..500usize {
        let trouble = Trouble {
            failure: Some((at, kind)),
            has_links,
            ..Trouble::NONE
        };
        match fails(alloc, &lives, kept, trouble, kind)? {
            Some(true) => {}
            Some(false) => return Ok(Some(at)),
            None => return Ok(None),
        }
    }
    Ok(None)
}

/// Returns whether each call fails as expected in turn, and there are more than 60.
fn are_failed(alloc: Global, has_links: bool) -> io::Result<bool> {
    for kind in [ErrorKind::StorageFull, ErrorKind::Interrupted] {
        for kept in [Kept::Flat, Kept::Levels] {
            if failed_calls(alloc, kept, kind, has_links)? <= Some(60) {
                return Ok(false);
            }
        }
    }
    Ok(true)
}

#[test]
fn each_call_to_a_disk_fails_in_turn(rt: HostRuntime) -> Result<(), Fail> {
    assert!(rt; are_failed(rt.alloc(), true)?);
    Ok(())
}

/// Returns whether all stores are filed if a write accepts at most this many bytes.
fn is_filed_short(alloc: Global, kept: Kept, most: usize) -> io::Result<bool> {
    let lives = [first_life(alloc)?, second_life(alloc)?];
    let trouble = Trouble {
        most,
        ..Trouble::NONE
    };
    Ok(fails(alloc, &lives, kept, trouble, ErrorKind::Other)? == Some(false))
}

#[test]
fn writes_take_fewer_bytes(rt: HostRuntime) -> Result<(), Fail> {
    for most in [1, 47, 300] {
        assert!(rt; is_filed_short(rt.alloc(), Kept::Flat, most)?);
        assert!(rt; is_filed_short(rt.alloc(), Kept::Levels, most)?);
    }
    Ok(())
}

#[test]
fn each_call_to_a_disk_without_links_fails_in_turn(rt: HostRuntime) -> Result<(), Fail> {
    assert!(rt; are_failed(rt.alloc(), false)?);
    Ok(())
}
