//! Commits of a filing that are settled in groups.
ghost use Rattle.std.specs.Prelude.{◌≡◌, ◌∷◌, ◌++◌, ◌<◌, ◌&&◌, [], None, IfOk, OnOk, OnErr, is_some, not, true, false};
ghost use Rattle.folder_filing.specs.Naming.{LeavesNames, WasRefused, is_unreported, is_written, refusals, standing};
ghost use Rattle.folder_filing.specs.Settling.{IsReported, SettlesNames, WritesOut, is_on_disk, is_unsettled, is_waiting, settled};
ghost use Rattle.folder_filing.specs.Synced.{is_synced};
ghost use Rattle.part10.specs.Store.{or_nothing, store_of};
ghost use Rattle.folder_filing.specs.declared.call.Call.TheVariants as seen;
ghost use Rattle.folder_filing.specs.declared.pending.Pending.TheVariants as pending;

use super::FolderFiling;
use crate::location::Location;
use crate::names_synced::NamesSynced;
use crate::pending::Pending;
use crate::stored_file::StoredFile;
use part10::{FilingFailed, Settling};
use std::io;
use std::io::{Error, ErrorKind};
use std::rt::Files;

impl<R: Files + Alloc + Clone + Drop> FolderFiling<R>
where
    R::File: StoredFile,
{
    /// Returns whether commits are settled in groups; without syncs they are not.
    pub(super) fn has_groups(&self) -> bool {
        self.names.has_sync && self.folder.has_groups()
    }

    /// Hands the draft over, to be settled later. For contracts it is a file from now on.
    pub(super) fn hand_over(&mut self)
        requires draft { is_some self.old.contents.draft ≡ true }
        requires none_waits { self.old.pending ≡ pending.Settled }
        ensures same_names { self.new.names ≡ self.old.names }
        ensures has_pending { self.new.pending ≡ pending.Unnamed }
        ensures committed { self.new.contents.files ≡ self.old.contents.files ++ or_nothing self.old.contents.draft ∷ [] }
        ensures draft { self.new.contents.draft ≡ None }
        ensures same_count { self.new.contents.failures ≡ self.old.contents.failures }
    {
        if let Some(draft) = self.draft.take() {
            self.kept.push(draft.trace());
            self.handed = Some(draft);
        }
        self.pending = Pending::Unnamed;
    }

    /// Syncs the file of the unsettled commit to the disk.
    fn sync_handed(&mut self) -> io::Result<()>
        ensures same { self.new.contents ≡ self.old.contents }
        ensures same_pending { self.new.pending ≡ self.old.pending }
        ensures sync { self.new.names.has_sync ≡ self.old.names.has_sync }
        ensures own { self.new.names.own ≡ self.old.names.own }
        ensures same_names { standing self.new.names.calls ≡ standing self.old.names.calls }
        ensures written { OnOk result (is_written self.new.names.calls ≡ true) }
        ensures unchanged { OnOk result (refusals self.new.names.calls ≡ refusals self.old.names.calls) }
        ensures refused { OnErr result (refusals self.old.names.calls < refusals self.new.names.calls) }
    {
        match &self.handed {
            Some(file) => self.names.calls.sync_draft(file),
            None => self
                .names
                .calls
                .passed(Err(Error::from(ErrorKind::NotFound))),
        }
    }

    /// Syncs the file of the unsettled commit to the disk, and names it. The name is not synced.
    fn name_handed(&mut self) -> io::Result<Location>
        requires unnamed { self.old.pending ≡ pending.Unnamed }
        ensures same { self.new.contents ≡ self.old.contents }
        ensures same_pending { self.new.pending ≡ self.old.pending }
        ensures sync { self.new.names.has_sync ≡ self.old.names.has_sync }
        ensures own { self.new.names.own ≡ self.old.names.own }
        ensures named { IfOk result (λ location. standing self.new.names.calls ≡ location ∷ standing self.old.names.calls) }
        ensures unreported { OnOk result (is_unreported self.new.names.calls ≡ true) }
        ensures settled { OnOk result (refusals self.new.names.calls ≡ refusals self.old.names.calls) }
        ensures remaining { OnErr result (LeavesNames (standing self.old.names.calls) (standing self.new.names.calls)) }
        ensures refused { OnErr result (WasRefused self.old.names self.new.names) }
    {
        self.sync_handed()?;
        self.folder.name_draft(true, &mut self.names)
    }

    /// Records that the file of the unsettled commit is lost, with the error, and removes its draft
    /// name.
    fn lose(&mut self, error: Error)
        requires has_pending { is_waiting self.old.pending ≡ true }
        ensures same { self.new.contents ≡ self.old.contents }
        ensures same_names { self.new.names ≡ self.old.names }
        ensures lost { self.new.pending ≡ pending.Lost }
    {
        self.notes.error.set(Some(error));
        self.handed = None;
        self.pending = Pending::Lost;
        self.dropped = self.dropped.saturating_add(1);
        self.folder.discard_draft(&self.names.draft);
    }

    /// Removes the file at this location, whose name could not be synced, and records that it is
    /// lost.
    fn take_back(&mut self, location: Location)
        requires named { self.old.pending ≡ pending.Named location }
        ensures same { self.new.contents ≡ self.old.contents }
        ensures names { SettlesNames false (pending.Named location) self.old.names self.new.names }
        ensures lost { self.new.pending ≡ pending.Lost }
    {
        self.pending = Pending::Lost;
        // A name that cannot be removed stays, as after a failed commit without groups.
        let _ = self.folder.remove_at(location, &mut self.names);
        self.lose(Error::other("the names of the group could not be synced"));
    }

    /// Reports the unsettled commit of the file at this location, if this sync of names has the
    /// file. Returns whether it has; otherwise nothing changes.
    fn report(&mut self, location: Location, synced: &NamesSynced<R::A>) -> bool
        requires named { self.old.pending ≡ pending.Named location }
        ensures covers { result ≡ is_synced location synced.now }
        ensures same { self.new.contents ≡ self.old.contents }
        ensures settled { result ≡ true → self.new.pending ≡ pending.Settled }
        ensures on_disk { result ≡ true → is_unsettled self.new ≡ false }
        ensures reported { result ≡ true → IsReported location self.old.names self.new.names }
        ensures has_pending { result ≡ false → self.new ≡ self.old }
    {
        let has = self.names.calls.has_synced(synced, location);
        if has {
            self.names.report(location);
            self.pending = Pending::Settled;
        }
        has
    }
}

impl<R: Files + Alloc + Clone + Drop> Settling for FolderFiling<R>
where
    R::File: StoredFile,
{
    type Synced = NamesSynced<R::A>;

    ghost has_pending = { is_unsettled };

    ghost covers = { λ f synced. is_on_disk f.pending synced };

    fn has_pending(&self) -> bool {
        self.pending.is_waiting()
    }

    fn start_writing(&self) {
        if matches!(self.pending, Pending::Unnamed) {
            self.writeback.start_rest();
        }
    }

    /// Syncs the file of the unsettled commit to the disk, and then names it. If either fails, the
    /// file is lost.
    fn write_out(&mut self)
        ensures store { store_of self.new.contents ≡ store_of self.old.contents }
        ensures has_pending { is_unsettled self.new ≡ is_unsettled self.old }
        ensures names { WritesOut self.old.pending self.new.pending self.old.names self.new.names }
    {
        if !matches!(self.pending, Pending::Unnamed) {
            return;
        }
        match self.name_handed() {
            Ok(location) => {
                self.handed = None;
                self.pending = Pending::Named(location);
            }
            Err(error) => self.lose(error),
        }
    }

    /// Settles the last commit. Fails, and loses the file, if this sync of names does not have it,
    /// because it could not be synced or was named later; fails also if the file was lost before or
    /// is not written out.
    fn settle(&mut self, synced: &NamesSynced<R::A>) -> Result<(), FilingFailed>
        ensures store { store_of self.new.contents ≡ store_of self.old.contents }
        ensures has_pending { is_unsettled self.new ≡ (is_unsettled self.old && not (is_on_disk self.old.pending synced.now)) }
        ensures settled { OnOk result (is_unsettled self.new ≡ false) }
        ensures lost { OnErr result (is_unsettled self.new ≡ true) }
        ensures pending { self.new.pending ≡ settled (is_on_disk self.old.pending synced.now) self.old.pending }
        ensures names { SettlesNames (is_on_disk self.old.pending synced.now) self.old.pending self.old.names self.new.names }
    {
        match self.pending {
            Pending::Settled => Ok(()),
            Pending::Named(location) => {
                if self.report(location, synced) {
                    self.remove_old_name();
                    self.note(location);
                    self.committed = self.committed.saturating_add(1);
                    return Ok(());
                }
                self.take_back(location);
                Err(FilingFailed)
            }
            Pending::Unnamed | Pending::Lost => Err(FilingFailed),
        }
    }
}
