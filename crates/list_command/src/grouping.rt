//! Groups the files of a folder by study and series.
ghost use Rattle.std.specs.Prelude.{◌≡◌, ◌∷◌, [], ℕ, List, None, true, OnOk, IfOk, IfSome, IfNone, IsPermutation};
ghost use Rattle.indexmap.specs.IndexMap.{get_by};
ghost use Rattle.keyed_files.specs.Keys.{file_text};
ghost use Rattle.list_command.specs.Tree.{files_in, files_of, first_of_series, first_of_study, is_uid, listed_in, listed_of, or_new, repertoire_in, shown_series, shown_studies, shown_study, studies_with, with_file, with_series, HasUid, IsAdded, IsFiled, Listed, Lists, SameOptions};
ghost use Rattle.list_command.specs.Values.{columns_of as values_for};

use crate::columns::{Column, columns_of};
use crate::studies::{ByUid, Instance, Series, Study};
use element::Tag;
use failures::ProgramError;
use indexmap::IndexMap;
use keyed_files::{Consumer, FileKeys, FoundFile};
use std::alloc::{AllocError, Allocator};
use values::Repertoire;

const CHARACTER_SET: Tag = Tag(0x0008, 0x0005);

const INSTANCE_UID: Tag = Tag(0x0008, 0x0018);

const STUDY_DATE: Tag = Tag(0x0008, 0x0020);

const MODALITY: Tag = Tag(0x0008, 0x0060);

const SERIES_DESCRIPTION: Tag = Tag(0x0008, 0x103e);

const PATIENT_NAME: Tag = Tag(0x0010, 0x0010);

const PATIENT_ID: Tag = Tag(0x0010, 0x0020);

const STUDY_UID: Tag = Tag(0x0020, 0x000d);

const SERIES_UID: Tag = Tag(0x0020, 0x000e);

const SERIES_NUMBER: Tag = Tag(0x0020, 0x0011);

const INSTANCE_NUMBER: Tag = Tag(0x0020, 0x0013);

/// The tags of the values that are read from each file for the list.
pub(crate) const LISTED: [Tag; 11] = [
    CHARACTER_SET,
    INSTANCE_UID,
    STUDY_DATE,
    MODALITY,
    SERIES_DESCRIPTION,
    PATIENT_NAME,
    PATIENT_ID,
    STUDY_UID,
    SERIES_UID,
    SERIES_NUMBER,
    INSTANCE_NUMBER,
];

/// Returns a copy of the value with this tag, without padding. Fails if memory runs out.
fn text_of<A: Allocator>(alloc: A, keys: &FileKeys, tag: Tag) -> Result<Vec<u8, A>, AllocError>
    ensures { IfOk result (λ text. text.items ≡ file_text keys.now tag) }
{
    Vec::from_slice(alloc, keys.text(tag))
}

/// Returns the character repertoire of the texts of a file.
fn repertoire_of(keys: &FileKeys) -> Repertoire
    ensures { result ≡ repertoire_in keys.now }
{
    Repertoire::of_value(keys.text(CHARACTER_SET))
}

/// Returns a study with the values of this file and no series.
fn new_study<A: Allocator + Copy>(
    alloc: A,
    keys: &FileKeys,
    columns: &[Column<'_>],
) -> Result<Study<A>, AllocError>
    ensures empty { IfOk result (λ study. study.series.entries ≡ []) }
    ensures shown { IfOk result (λ study. shown_study study ≡ first_of_study keys.now columns.now) }
{
    Ok(Study {
        date: text_of(alloc, keys, STUDY_DATE)?,
        patient_id: text_of(alloc, keys, PATIENT_ID)?,
        patient_name: text_of(alloc, keys, PATIENT_NAME)?,
        columns: columns_of(alloc, keys, columns)?,
        repertoire: repertoire_of(keys),
        has_several_patients: false,
        series: IndexMap::new(alloc),
    })
}

/// Returns a series with the values of this file and no files.
fn new_series<A: Allocator + Copy>(
    alloc: A,
    keys: &FileKeys,
    columns: &[Column<'_>],
) -> Result<Series<A>, AllocError>
    ensures empty { IfOk result (λ series. (series.images ≡ 0) × (series.instances.items ≡ [])) }
    ensures shown { IfOk result (λ series. shown_series series ≡ first_of_series keys.now columns.now) }
{
    Ok(Series {
        number: text_of(alloc, keys, SERIES_NUMBER)?,
        modality: text_of(alloc, keys, MODALITY)?,
        description: text_of(alloc, keys, SERIES_DESCRIPTION)?,
        columns: columns_of(alloc, keys, columns)?,
        repertoire: repertoire_of(keys),
        images: 0,
        instances: Vec::new(alloc),
    })
}

/// Returns the index of the study or series with this UID, if there is one.
fn index_of<T, A: Allocator>(all: &ByUid<T, A>, uid: &[u8]) -> Option<usize>
    ensures at { IfSome result (λ index. HasUid uid.now index all.now.entries) }
    ensures absent { IfNone result (get_by (is_uid uid.now) all.now ≡ None) }
{
    all.get_index_of(uid)
}

/// Adds a study or series with this UID, which must be new, and returns its index. Fails if memory
/// runs out.
fn add_new<T: Drop, A: Allocator + Copy>(
    alloc: A,
    all: &mut ByUid<T, A>,
    uid: &[u8],
    new: T,
) -> Result<usize, AllocError>
    requires absent { get_by (is_uid uid.now) all.old ≡ None }
    ensures at { IfOk result (λ index. HasUid uid.now index all.new.entries) }
    ensures added { OnOk result (IsAdded uid.now new all.old.entries all.new.entries) }
{
    let (index, _) = all.insert_full(Vec::from_slice(alloc, uid)?, new)?;
    Ok(index)
}

impl<A: Allocator + Copy> Study<A> {
    /// Returns the index of the series with this UID, adding it if it is new. Fails if memory runs
    /// out.
    fn series_of(
        &mut self,
        alloc: A,
        uid: &[u8],
        keys: &FileKeys,
        columns: &[Column<'_>],
    ) -> Result<usize, AllocError>
        ensures at { IfOk result (λ index. HasUid uid.now index self.new.series.entries) }
        ensures same { OnOk result ((study : List ℕ) → files_in study self.new.series.entries ≡ files_in study self.old.series.entries) }
        ensures listed { OnOk result ((study : List ℕ) → listed_in study self.new.series.entries ≡ listed_in study self.old.series.entries) }
        ensures shown { OnOk result (shown_study self.new ≡ with_series uid.now (first_of_series keys.now columns.now) (shown_study self.old)) }
    {
        if let Some(index) = index_of(&self.series, uid) {
            return Ok(index);
        }
        let series = new_series(alloc, keys, columns)?;
        add_new(alloc, &mut self.series, uid, series)
    }

    /// Counts a file in its series. Fails if memory runs out.
    fn add(
        &mut self,
        alloc: A,
        uid: &[u8],
        file: FoundFile<'_>,
        columns: &[Column<'_>],
        instance: Option<Instance<A>>,
    ) -> Result<(), AllocError>
        ensures counted { OnOk result ((study : List ℕ) → IsPermutation ((study, uid.now) ∷ files_in study self.old.series.entries) (files_in study self.new.series.entries)) }
        ensures listed { OnOk result ((study : List ℕ) (listed : Listed) → Lists listed instance
            → IsPermutation ((study, (uid.now, listed)) ∷ listed_in study self.old.series.entries) (listed_in study self.new.series.entries)) }
        ensures shown { OnOk result (shown_study self.new ≡ with_file uid.now file.entry.keys.now columns.now (shown_study self.old)) }
    {
        let index = self.series_of(alloc, uid, file.keys, columns)?;
        self.series[index].add(instance)?;
        self.has_several_patients |= self.patient_id.as_slice() != file.keys.text(PATIENT_ID);
        Ok(())
    }
}

/// The studies and series of the files found so far.
#[derive(Drop)]
pub(crate) struct Grouping<'a, A: Allocator> {
    alloc: A,
    has_instances: bool,
    columns: &'a [Column<'a>],
    pub studies: ByUid<Study<A>, A>,
}

impl<'a, A: Allocator + Copy> Grouping<'a, A> {
    /// Creates an empty grouping. `has_instances` is whether files are listed, and so kept.
    pub fn new(alloc: A, has_instances: bool, columns: &'a [Column<'a>]) -> Grouping<'a, A> {
        Grouping {
            alloc,
            has_instances,
            columns,
            studies: IndexMap::new(alloc),
        }
    }

    /// Returns the index of the study with this UID, adding it if it is new. Fails if memory runs
    /// out.
    fn study_of(&mut self, uid: &[u8], keys: &FileKeys) -> Result<usize, AllocError>
        ensures at { IfOk result (λ index. HasUid uid.now index self.new.studies.entries) }
        ensures same { OnOk result (files_of self.new.studies.entries ≡ files_of self.old.studies.entries) }
        ensures listed { OnOk result (listed_of self.new.studies.entries ≡ listed_of self.old.studies.entries) }
        ensures shown { OnOk result (shown_studies self.new.studies.entries
            ≡ or_new uid.now (first_of_study keys.now self.old.columns.now) (shown_studies self.old.studies.entries)) }
        ensures options { SameOptions self.old self.new }
    {
        if let Some(index) = index_of(&self.studies, uid) {
            return Ok(index);
        }
        let study = new_study(self.alloc, keys, self.columns)?;
        add_new(self.alloc, &mut self.studies, uid, study)
    }

    /// Returns the listed values of a file if files are listed, else `None`. Fails if memory runs
    /// out.
    fn instance_of(&self, file: FoundFile<'_>) -> Result<Option<Instance<A>>, AllocError>
        ensures listed { self.now.has_instances ≡ true
            → IfOk result (Lists (file.entry.path.now, values_for file.entry.keys.now self.now.columns.now)) }
    {
        if !self.has_instances {
            return Ok(None);
        }
        Ok(Some(Instance {
            uid: text_of(self.alloc, file.keys, INSTANCE_UID)?,
            number: text_of(self.alloc, file.keys, INSTANCE_NUMBER)?,
            path: String::from_str(self.alloc, file.path)?,
            columns: columns_of(self.alloc, file.keys, self.columns)?,
            repertoire: repertoire_of(file.keys),
        }))
    }

    /// Counts a file in its study and series, and keeps it if files are listed. Fails if memory
    /// runs out.
    fn add(&mut self, study: &[u8], series: &[u8], file: FoundFile<'_>) -> Result<(), AllocError>
        ensures counted { OnOk result (IsPermutation ((study.now, series.now) ∷ files_of self.old.studies.entries) (files_of self.new.studies.entries)) }
        ensures listed { self.old.has_instances ≡ true
            → OnOk result (IsPermutation ((study.now, (series.now, (file.entry.path.now, values_for file.entry.keys.now self.old.columns.now))) ∷ listed_of self.old.studies.entries)
            (listed_of self.new.studies.entries)) }
        ensures shown { OnOk result (shown_studies self.new.studies.entries
            ≡ studies_with study.now series.now file.entry.keys.now self.old.columns.now (shown_studies self.old.studies.entries)) }
        ensures options { SameOptions self.old self.new }
    {
        let instance = self.instance_of(file)?;
        let index = self.study_of(study, file.keys)?;
        self.studies[index].add(self.alloc, series, file, self.columns, instance)?;
        Ok(())
    }
}

impl<A: Allocator + Copy> Consumer for Grouping<'_, A> {
    ghost consumed = { λ old path keys new. IsFiled path keys old new };

    fn take(&mut self, file: FoundFile<'_>) -> Result<(), ProgramError> {
        self.add(file.keys.text(STUDY_UID), file.keys.text(SERIES_UID), file)?;
        Ok(())
    }
}
