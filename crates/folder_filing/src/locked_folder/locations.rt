//! Names a draft: it gets the name of the next free location.
ghost use Rattle.std.specs.Prelude.{◌≡◌, ◌≤◌, ◌<◌, ◌+◌, ◌∷◌, None, IfOk, OnOk, OnErr, true, false};
ghost use Rattle.folder_filing.specs.Naming.{AreOnDisk, Asks, IsAfterAll, IsKept, IsNameSynced, IsNewest, IsOrderly, IsWritten, KeepsAll, LeavesNames, LosesNone, WasRefused, is_unreported, refusals, standing};
ghost use Rattle.folder_filing.specs.Folders.{IsSwept};
ghost use Rattle.folder_filing.specs.Locations.{next_location, order};
ghost use Rattle.folder_filing.specs.Synced.{is_moved};
ghost use Rattle.folder_filing.specs.declared.call.Call.TheVariants as seen;
ghost use Rattle.folder_filing.specs.declared.location.Layout.TheVariants as layout;
ghost use Rattle.folder_filing.specs.declared.naming.Named.TheVariants as how;
ghost use Rattle.folder_filing.specs.machine.Naming.{NameLeaves, LocationLeaves, SameTerms, SyncsName};

use super::LockedFolder;
use crate::drafts::DraftPath;
use crate::entered_file::EnteredFile;
use crate::folder_calls::FolderCalls;
use crate::folder_identity::FolderIdentity;
use crate::given_names::GivenNames;
use crate::location::{GREATEST, Layout, Location};
use crate::named_file::NamedFile;
use crate::naming::{Attempt, Obstacle, Target, name_file};
use crate::open_folder::OpenFolder;
use crate::stored_file::StoredFile;
use std::io::{Error, ErrorKind};
use std::rt::Files;
use std::{fs, io};

/// In a folder without subfolders, about a million numbers remain from this one on: a warning is
/// logged.
const LOW: u32 = 9_000_000;

/// The greatest number of names that are tried for a file while its subfolder is moved or removed.
const TRIES: u64 = 100;

/// The error message if the greatest number is in use, with the remedy. The log accepts 80 bytes.
const NO_NUMBER: &str =
    "no number up to 9999999 is left: move the files and the file of numbers away";

/// Returns the error for a folder in which no location follows the last one, in either layout.
fn none_remaining(per: u32, folder: u32, file: u32) -> Error
    requires far { 18446744073709551615 ≤ order (record { folder = folder; file = file }) }
    ensures flat { next_location layout.Flat (record { folder = folder; file = file }) ≡ None }
    ensures levels { next_location (layout.Levels per) (record { folder = folder; file = file }) ≡ None }
{
    let _is_last = folder >= GREATEST && file >= per;
    Error::new(ErrorKind::StorageFull, NO_NUMBER)
}

impl<R: Files + Alloc + Clone + Drop> LockedFolder<R>
where
    R::File: StoredFile,
{
    /// Makes sure that the file of numbers, if there is one, covers the number of this location,
    /// with syncs on the disk.
    fn keep_number(&self, location: Location, names: &mut GivenNames<R::A>) -> io::Result<()>
        ensures kept { OnOk result (IsKept names.old.layout names.new.kept location) }
        ensures on_disk { OnOk result (names.new.has_sync ≡ true → AreOnDisk names.new.kept) }
        ensures keeps { KeepsAll names.old.kept names.new.kept }
        ensures same { (names.new.layout ≡ names.old.layout) × (names.new.last ≡ names.old.last) × (names.new.has_sync ≡ names.old.has_sync) × (names.new.own ≡ names.old.own) }
        ensures unchanged { OnOk result (names.new.calls ≡ names.old.calls) }
        ensures refused { OnErr result (names.new.calls ≡ seen.Refused ∷ names.old.calls) }
    {
        let (layout, has_sync) = (names.layout, names.has_sync);
        let Some(file) = &mut names.numbers else {
            return Ok(());
        };
        file.take_over(self.kept.get());
        names
            .calls
            .keep(&self.rt, file, layout, location, has_sync)?;
        self.kept.set(file.kept());
        Ok(())
    }

    /// Syncs the folder in which a file was just named and, after a rename, the folder of the
    /// draft, unless syncing is turned off. In a group the folders are only recorded, and
    /// [`sync_names`](LockedFolder::sync_names) syncs them.
    ///
    /// Returns `false` if the subfolder of a linked file was moved or removed meanwhile: then
    /// nothing is synced or recorded.
    fn sync_name(
        &self,
        file: NamedFile,
        in_group: bool,
        names: &mut GivenNames<R::A>,
    ) -> io::Result<bool>
        requires newest { IsNewest file.location (standing names.old.calls) }
        ensures same { (names.new.last ≡ names.old.last) × SameTerms names.old names.new }
        ensures names { standing names.new.calls ≡ standing names.old.calls }
        ensures unreported { is_unreported names.new.calls ≡ is_unreported names.old.calls }
        ensures loses { LosesNone names.old.has_sync names.old.own names.old.calls → LosesNone names.new.has_sync names.new.own names.new.calls }
        ensures settled { OnOk result (refusals names.new.calls ≡ refusals names.old.calls) }
        ensures refused { OnErr result (refusals names.old.calls < refusals names.new.calls) }
        ensures synced { names.old.has_sync ≡ true → in_group ≡ false → IfOk result (λ is_there. is_there ≡ true → IsNameSynced names.new.calls) }
        ensures moved { IfOk result (λ is_there. is_there ≡ false → (names.new.calls ≡ names.old.calls) × (file.how ≡ how.Linked)) }
    {
        if !names.has_sync {
            return Ok(true);
        }
        let calls = &mut names.calls;
        if file.location().folder == 0 {
            let file = EnteredFile::in_folder(file, &self.folder);
            if in_group {
                self.leave_unsynced(file, None, calls)?;
                return Ok(true);
            }
            self.sync_entered(file, &self.folder, calls)?;
            return Ok(true);
        }
        let Some(folder) = self.open_subfolder(file, calls)? else {
            return Ok(false);
        };
        let entry = self.synced_entry(&folder, calls)?;
        let file = EnteredFile::in_subfolder(file, &folder, entry);
        if in_group {
            self.leave_unsynced(file, Some(folder), calls)?;
            return Ok(true);
        }
        self.sync_entered(file, &folder, calls)?;
        Ok(true)
    }

    /// Syncs the open folder in which a file was just named and, after a rename, before that the
    /// folder of the draft.
    fn sync_entered(
        &self,
        file: EnteredFile,
        folder: &OpenFolder<R::File>,
        calls: &mut FolderCalls,
    ) -> io::Result<()>
        requires folder { file.folder ≡ folder.now }
        requires number { folder.now.number ≡ file.file.location.folder }
        requires newest { IsNewest file.file.location (standing calls.old) }
        ensures asked { OnOk result (Asks (standing calls.old) (refusals calls.old) calls.old calls.new) }
        ensures synced { OnOk result (IsNameSynced calls.new) }
        ensures swept { is_moved file.file ≡ true → OnOk result (IsSwept calls.new) }
        ensures refused { OnErr result (Asks (standing calls.old) (refusals calls.old + 1) calls.old calls.new) }
    {
        calls.enter(file);
        calls.sync_both(&self.folder, folder, file.has_remaining())
    }

    /// Gives a draft the target name. If its subfolder was moved or removed, creates it. A
    /// subfolder that is missing after that is an obstacle if the target allows it and the draft
    /// exists, else an error.
    fn link(
        &self,
        draft: &DraftPath<R::A>,
        target: Target<'_>,
        calls: &mut FolderCalls,
    ) -> io::Result<Attempt>
        ensures remaining { NameLeaves target.entry.has_sync draft.now target.entry.location result calls.old calls.new }
    {
        let first = Target {
            folder: self.folder_before(target, calls)?,
            may_miss: true,
            ..target
        };
        match name_file(&self.rt, draft, first, calls)? {
            Attempt::Met(Obstacle::Missing) => {}
            attempt => return Ok(attempt),
        }
        self.make_folder(target.location.folder, calls)?;
        let again = Target {
            folder: self.folder_before(target, calls)?,
            may_miss: target.may_miss && fs::symlink_metadata(&self.rt, draft.as_str()).is_ok(),
            ..target
        };
        name_file(&self.rt, draft, again, calls)
    }

    /// Sets the location of the last file, for this filing and the folder.
    fn continues(&self, location: Location, names: &mut GivenNames<R::A>)
        ensures last { names.new ≡ record names.old { last = location } }
    {
        self.last.set(location);
        names.last = location;
    }

    /// Gives the draft the name of this location, which the file of numbers covers, and syncs the
    /// folder as [`sync_name`](LockedFolder::sync_name) does. After an error or an obstacle the
    /// file has only its draft name, unless the new name could not be removed, as where another
    /// program has moved it away. A subfolder that is moved or removed meanwhile is an obstacle if
    /// `may_miss` is set, else an error.
    fn name_at(
        &self,
        location: Location,
        in_group: bool,
        may_miss: bool,
        names: &mut GivenNames<R::A>,
    ) -> io::Result<Attempt>
        requires kept { IsKept names.old.layout names.old.kept location }
        requires on_disk { names.old.has_sync ≡ true → AreOnDisk names.old.kept }
        requires behind { order names.old.last < order location }
        requires written { IsWritten names.old.has_sync names.old.calls }
        ensures remaining { LocationLeaves location result names.old names.new }
        ensures same { SameTerms names.old names.new }
        ensures synced { names.old.has_sync ≡ true → in_group ≡ false → SyncsName result names.new.calls }
        ensures loses { IsAfterAll location (standing names.old.calls) → LosesNone names.old.has_sync names.old.own names.old.calls → LosesNone names.new.has_sync names.new.own names.new.calls }
    {
        let path = names.calls.text(self.path_of(location))?;
        let target = Target {
            location,
            path: path.as_str(),
            layout: self.layout,
            has_sync: names.has_sync,
            folder: None,
            may_miss,
        };
        let file = match self.link(&names.draft, target, &mut names.calls)? {
            Attempt::Named(file) => file,
            attempt => return Ok(attempt),
        };
        let error = match self.sync_name(file, in_group, names) {
            Ok(true) => {
                self.continues(location, names);
                return Ok(Attempt::Named(file));
            }
            Ok(false) => match names.calls.remove_link(&self.rt, target) {
                Ok(_) if may_miss => return Ok(Attempt::Met(Obstacle::Missing)),
                Ok(_) => return names.calls.passed(Err(FolderIdentity::replaced())),
                Err(error) => error,
            },
            Err(error) => error,
        };
        if !self.is_there() || names.calls.remove(&self.rt, target).is_err() {
            self.continues(location, names);
        }
        Err(error)
    }

    /// Returns the location after that of the last file, and makes the file of numbers cover it.
    /// Creates its subfolder if it is the first one there.
    ///
    /// Fails with `StorageFull` if all numbers are in use.
    fn next_location(&self, names: &mut GivenNames<R::A>) -> io::Result<Location>
        ensures kept { IfOk result (λ location. IsKept names.new.layout names.new.kept location) }
        ensures on_disk { OnOk result (names.new.has_sync ≡ true → AreOnDisk names.new.kept) }
        ensures behind { IfOk result (λ location. order names.new.last < order location) }
        ensures rises { order names.old.last ≤ order names.new.last }
        ensures sync { names.new.has_sync ≡ names.old.has_sync }
        ensures own { names.new.own ≡ names.old.own }
        ensures calls { OnOk result (names.new.calls ≡ names.old.calls) }
        ensures names { standing names.new.calls ≡ standing names.old.calls }
        ensures refused { OnErr result (WasRefused names.old names.new) }
        ensures orderly { IsOrderly names.old → IsOrderly names.new }
    {
        let last = names.last;
        let Some(location) = last.next(names.layout) else {
            return Err(Error::new(ErrorKind::StorageFull, NO_NUMBER));
        };
        self.keep_number(location, names)?;
        if location.folder != last.folder {
            self.make_folder(location.folder, &mut names.calls)?;
            let before = Location {
                folder: location.folder,
                file: 0,
            };
            self.continues(before, names);
        }
        Ok(location)
    }

    /// Continues the numbering after a location or a subfolder that another program uses or has
    /// moved away.
    fn pass_over(&self, location: Location, obstacle: Obstacle, names: &mut GivenNames<R::A>)
        ensures behind { order location ≤ order names.new.last }
        ensures same { SameTerms names.old names.new }
        ensures calls { names.new.calls ≡ names.old.calls }
    {
        let last = match (obstacle, self.layout) {
            (Obstacle::Blocked, Layout::Levels { per }) => Location {
                folder: location.folder,
                file: location.file.max(per),
            },
            _ => location,
        };
        self.continues(last, names);
    }

    /// Returns whether few numbers remain after this location: `true` only once, for the first such
    /// location. With subfolders it is always `false`, since there are far more numbers.
    pub(crate) fn runs_low(&self, location: Location) -> bool {
        matches!(self.layout, Layout::Flat)
            && location.file >= LOW
            && !self.has_run_low.replace(true)
    }

    /// Gives the draft the next free name, after those that the filings of the folder gave, and
    /// returns the location of the file. In a group the name is not synced.
    ///
    /// Fails with `StorageFull` if all numbers are in use.
    pub(crate) fn name_draft(
        &self,
        in_group: bool,
        names: &mut GivenNames<R::A>,
    ) -> io::Result<Location>
        requires written { IsWritten names.old.has_sync names.old.calls }
        ensures sync { names.new.has_sync ≡ names.old.has_sync }
        ensures own { names.new.own ≡ names.old.own }
        ensures named { IfOk result (λ location. standing names.new.calls ≡ location ∷ standing names.old.calls) }
        ensures settled { OnOk result (refusals names.new.calls ≡ refusals names.old.calls) }
        ensures remaining { OnErr result (LeavesNames (standing names.old.calls) (standing names.new.calls)) }
        ensures refused { OnErr result (WasRefused names.old names.new) }
        ensures orderly { IsOrderly names.old → IsOrderly names.new }
        ensures synced { names.old.has_sync ≡ true → in_group ≡ false → OnOk result (IsNameSynced names.new.calls) }
        ensures unreported { OnOk result (is_unreported names.new.calls ≡ true) }
    {
        self.check_path(&mut names.calls)?;
        names.last = names.last.later(self.last.get());
        for turn in 0..u64::MAX {
            let location = self.next_location(names)?;
            match self.name_at(location, in_group, turn < TRIES, names)? {
                Attempt::Named(_) => return Ok(location),
                Attempt::Met(obstacle) => self.pass_over(location, obstacle, names),
            }
        }
        let per = match names.layout {
            Layout::Flat => GREATEST,
            Layout::Levels { per } => per,
        };
        Err(none_remaining(per, names.last.folder, names.last.file))
    }
}
