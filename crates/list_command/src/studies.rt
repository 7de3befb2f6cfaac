//! Studies, their series and their files, with the values that are listed.
ghost use Rattle.std.specs.Prelude.{◌≡◌, ℕ, ◌+◌, ◌-◌, ◌^◌, List, ◌++◌, length, min, OnOk};
ghost use Rattle.list_command.specs.Tree.{files_in, one_or_none, shown_series};

use indexmap::IndexMap;
use std::alloc::{AllocError, Allocator};
use std::hash::{BuildHasherDefault, FoldHasher};
use values::Repertoire;

/// Studies or series by UID, in the order in which their UIDs are first seen.
pub(crate) type ByUid<T, A> = IndexMap<Vec<u8, A>, T, BuildHasherDefault<FoldHasher>, A>;

/// A file with its listed values, without padding; an absent value is empty.
#[derive(Drop)]
pub(crate) struct Instance<A: Allocator> {
    /// SOP Instance UID.
    pub uid: Vec<u8, A>,
    pub number: Vec<u8, A>,
    pub path: String<A>,
    /// The values of the further columns.
    pub columns: Vec<Vec<u8, A>, A>,
    /// The character repertoire of the further columns.
    pub repertoire: Repertoire,
}

/// A series with the values of its first file, without padding; an absent value is empty.
#[derive(Drop)]
pub(crate) struct Series<A: Allocator> {
    pub number: Vec<u8, A>,
    pub modality: Vec<u8, A>,
    pub description: Vec<u8, A>,
    /// The values of the further columns.
    pub columns: Vec<Vec<u8, A>, A>,
    /// The character repertoire of the description and the further columns.
    pub repertoire: Repertoire,
    /// The number of files.
    pub images: u64,
    /// The files, if files are listed; else empty.
    pub instances: Vec<Instance<A>, A>,
}

impl<A: Allocator> Series<A> {
    /// Counts a file, and keeps it if files are listed. Fails if memory runs out, and at 2^64
    /// files.
    pub(crate) fn add(&mut self, instance: Option<Instance<A>>) -> Result<(), AllocError>
        ensures counted { OnOk result (self.new.images ≡ self.old.images + 1) }
        ensures listed { OnOk result (self.new.instances.items ≡ self.old.instances.items ++ one_or_none instance) }
        ensures shown { OnOk result (shown_series self.new ≡ shown_series self.old) }
    {
        let images = self.images.checked_add(1).ok_or(AllocError)?;
        if let Some(instance) = instance {
            self.instances.push(instance)?;
        }
        self.images = images;
        Ok(())
    }
}

/// A study with the values of its first file, without padding; an absent value is empty.
#[derive(Drop)]
pub(crate) struct Study<A: Allocator> {
    pub date: Vec<u8, A>,
    pub patient_id: Vec<u8, A>,
    pub patient_name: Vec<u8, A>,
    /// The values of the further columns.
    pub columns: Vec<Vec<u8, A>, A>,
    /// The character repertoire of the patient's ID and name and of the further columns.
    pub repertoire: Repertoire,
    /// Whether another file of the study has another Patient ID.
    pub has_several_patients: bool,
    pub series: ByUid<Series<A>, A>,
}

impl<A: Allocator> Study<A> {
    /// Returns the number of the files of all its series.
    pub(crate) fn images(&self) -> u64
        ensures { (study : List ℕ) → result ≡ min (length (files_in study self.now.series.entries)) (2 ^ 64 - 1) }
    {
        let mut images = 0u64;
        for index in 0..self.series.len() {
            if let Some((_, series)) = self.series.get_index(index) {
                images = images.saturating_add(series.images);
            }
        }
        images
    }
}
