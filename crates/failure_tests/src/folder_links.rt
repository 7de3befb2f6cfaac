//! A folder without hard links, and one that can't be listed.

use crate::links::{OF_ANOTHER, Refusing};
use crate::runtimes::Diverted;
use fixtures::folders::{fresh, holds, is_filed, put};
use fixtures::play;
use folder_filing::{FolderFiling, FolderWriter, NamesSynced};
use part10::Settling;
use std::cell::Cell;
use std::test::Fail;
use std::{fs, io};

/// Each error of a hard link, and whether it means that the file system has no hard links: EPERM,
/// ENOSYS and EOPNOTSUPP do; EIO, EACCES, EXDEV, ENOSPC, EROFS and EMLINK do not.
const LINK_ERRORS: [(i32, bool); 9] = [
    (1, true),
    (38, true),
    (95, true),
    (5, false),
    (13, false),
    (18, false),
    (28, false),
    (30, false),
    (31, false),
];

/// The operating system's number for an error of a device.
const EIO: i32 = 5;

/// Returns a runtime whose hard links fail with this error.
fn without_links<'a>(rt: HostRuntime, error: i32) -> Refusing<'a, HostRuntime> {
    Refusing {
        rt,
        links: Some(error),
        listed: "",
        opening: None,
        end: None,
        moved: None,
    }
}

/// Two texts are filed in the folder itself, synced, and then in subfolders of one file each.
static FILED: &str = "fresh
open 0
file 1 first
file 1 second
counted 1 2 0
holds I0000001 first
holds I0000002 second
count . 2
fresh
open 1
file 1 first
file 1 second
counted 1 2 0
holds S0000001/I0000001 first
holds S0000002/I0000001 second
count . 2";

/// Nothing is filed; only a subfolder is created.
static NOT_FILED: &str = "fresh
open 0
not file 1 first
not file 1 second
counted 1 0 2
not holds I0000001 first
not holds I0000002 second
count . 0
fresh
open 1
not file 1 first
not file 1 second
counted 1 0 2
not holds S0000001/I0000001 first
not holds S0000002/I0000001 second
count . 1";

#[test]
fn links_that_are_refused(rt: HostRuntime) -> Result<(), Fail> {
    for (error, is_due) in LINK_ERRORS {
        let script = if is_due { FILED } else { NOT_FILED };
        play(
            &rt,
            &without_links(rt, error),
            "links_that_are_refused",
            script,
        )?;
    }
    Ok(())
}

/// A file, or a link to nowhere, stays if it has the name that a draft would get without a hard
/// link: the draft gets the next name.
static NOT_RENAMED_OVER: &str = "fresh
open 0
put I0000001 of another
file 1 mine
holds I0000001 of another
link I0000003
file 1 mine
holds I0000002 mine
linked I0000003
holds I0000004 mine
count . 4";

#[test]
fn no_file_is_renamed_over(rt: HostRuntime) -> Result<(), Fail> {
    play(
        &rt,
        &without_links(rt, 1),
        "no_file_is_renamed_over",
        NOT_RENAMED_OVER,
    )
}

/// A draft was renamed to a subfolder that another program moves away then: its store fails, and
/// the file in its place remains, which is not the filing's.
static REPLACED: &str = "fresh
open 5
not file 1 mine
counted 1 0 1
holds S0000001/I0000001 of another
holds ../a_subfolder_that_is_replaced_moved/I0000001 mine
file 1 second
holds S0000001/I0000001 of another
holds S0000001/I0000002 second
count . 1";

/// The file of a link is named once more.
static LINKED_AGAIN: &str = "fresh
clear ../a_subfolder_that_is_replaced_moved
open 5
file 1 mine
holds S0000001/I0000001 of another
holds ../a_subfolder_that_is_replaced_moved/I0000001 mine
holds S0000001/I0000002 mine
count . 1
clear ../a_subfolder_that_is_replaced_moved";

#[test]
fn a_subfolder_that_is_replaced(rt: HostRuntime) -> Result<(), Fail> {
    let dir = "a_subfolder_that_is_replaced";
    for (links, script) in [(Some(1), REPLACED), (None, LINKED_AGAIN)] {
        let replacing = Refusing {
            rt,
            links,
            listed: "",
            opening: None,
            end: None,
            moved: Some("a_subfolder_that_is_replaced_moved"),
        };
        play(&rt, &replacing, dir, script)?;
    }
    Ok(())
}

/// A file whose name is not synced loses it; a file that another program has put in its place
/// remains.
#[test]
fn a_lost_file_that_was_replaced(rt: HostRuntime) -> Result<(), Fail> {
    let dir = "a_lost_file";
    for is_replaced in [false, true] {
        fresh(&rt, dir)?;
        let mut writer = FolderWriter::open(rt, dir)?.in_groups();
        let mut filing = writer.filing()?;
        assert!(rt; is_filed(&mut filing, b"mine"));
        filing.write_out();
        assert!(rt; holds(&rt, dir, "I0000001", b"mine")?);
        if is_replaced {
            fs::rename(&rt, "a_lost_file/I0000001", "a_lost_file/mine")?;
            put(&rt, dir, "I0000001", OF_ANOTHER)?;
        }
        assert!(rt; filing.settle(&NamesSynced::none(rt.alloc())).is_err());
        assert!(rt; holds(&rt, dir, "I0000001", OF_ANOTHER)? == is_replaced);
    }
    fs::remove_dir_all(&rt, dir)?;
    Ok(())
}

/// No text is filed in the first subfolder.
static NOT_NAMED: &str = "fresh
make S0000001
open 1
not file 1 file
counted 1 0 1
not holds S0000001/I0000001 file
count . 1";

/// Returns a runtime whose hard links are made or fail with this error, and whose files with this
/// name can't be synced.
fn unsynced<'a>(
    rt: &'a HostRuntime,
    links: Option<i32>,
    name: &'a str,
    times: &'a Cell<u32>,
) -> Refusing<'a, Diverted<'a>> {
    let unsynced = Diverted {
        rt,
        name,
        device: "/dev/null",
        times,
    };
    Refusing {
        rt: unsynced,
        links,
        listed: "",
        opening: None,
        end: None,
        moved: None,
    }
}

/// If either folder can't be synced, nothing is filed: after a rename, and after a link in a folder
/// that this writer has not synced before.
#[test]
fn names_that_can_not_be_synced(rt: HostRuntime) -> Result<(), Fail> {
    let dir = "names_that_can_not_be_synced";
    let times = Cell::new(u32::MAX);
    play(
        &rt,
        &unsynced(&rt, Some(1), "S0000001", &times),
        dir,
        NOT_NAMED,
    )?;
    play(&rt, &unsynced(&rt, Some(1), dir, &times), dir, NOT_NAMED)?;
    play(&rt, &unsynced(&rt, None, dir, &times), dir, NOT_NAMED)
}

/// Returns a runtime that can't open the listing of folders with this name, or fails at its end.
fn unlisted<'a>(rt: HostRuntime, listed: &'a str, is_opened: bool) -> Refusing<'a, HostRuntime> {
    Refusing {
        rt,
        links: None,
        listed,
        opening: if is_opened { None } else { Some(EIO) },
        end: Some(EIO),
        moved: None,
    }
}

/// Returns the system's error for a folder that can't be opened.
fn error_of(filing: io::Result<FolderFiling<Refusing<HostRuntime>>>) -> Option<i32> {
    match filing {
        Ok(_) => None,
        Err(error) => error.raw_os_error(),
    }
}

/// A folder is not opened if it, or its last subfolder, can't be listed to the end.
#[test]
fn a_folder_that_can_not_be_listed(rt: HostRuntime) -> Result<(), Fail> {
    let dir = "a_folder_that_can_not_be_listed";
    fresh(&rt, dir)?;
    fs::create_dir(&rt, "a_folder_that_can_not_be_listed/S0000001")?;
    put(&rt, dir, "I0000001", b"file")?;
    for is_opened in [false, true] {
        let flat = FolderFiling::open(unlisted(rt, "listed/", is_opened), dir);
        assert!(rt; error_of(flat) == Some(EIO));
        for listed in ["listed/", "S0000001/"] {
            let levels = FolderFiling::open_levels(unlisted(rt, listed, is_opened), dir, 1);
            assert!(rt; error_of(levels) == Some(EIO));
        }
    }
    assert!(rt; FolderFiling::open(unlisted(rt, "S0000001/", false), dir).is_ok());
    fs::remove_dir_all(&rt, dir)?;
    Ok(())
}
