//! `dcmbox list`: lists the studies of the files in folders.
use crate::columns::Column;
use crate::conditions::{Condition, Selection, tags_of};
use crate::grouping::{Grouping, LISTED};
use crate::studies::{ByUid, Study};
use crate::texts::{ColumnTexts, Text};
use crate::writing::Writer;
use failures::{ProgramError, flushed};
use inspection::{Outcome, OutputForm};
use keyed_files::{Counter, Visitor};
use std::alloc::Allocator;
use std::io::{self, BufWriter, Write};
use std::rt::Files;
use values::Repertoire;

/// The options of `list`.
#[derive(Clone, Copy)]
pub struct ListOptions<'a> {
    /// Whether the series of each study are listed.
    pub series: bool,
    /// Whether the files of each series are listed, and with them the series.
    pub instances: bool,
    /// The conditions that a listed file must meet: at most
    /// [`MOST_CONDITIONS`](crate::MOST_CONDITIONS).
    pub conditions: &'a [Condition<'a>],
    /// The further columns of each study, series and file: at most
    /// [`MOST_COLUMNS`](crate::MOST_COLUMNS).
    pub columns: &'a [Column<'a>],
    /// Whether files that are no DICOM files are ignored.
    pub ignore_others: bool,
    /// Whether symbolic links are followed.
    pub follow: bool,
    pub form: OutputForm,
    /// Whether lines have characters beyond ASCII, in UTF-8. JSON always has them.
    pub unicode: bool,
}

impl ListOptions<'_> {
    /// Returns whether series are listed.
    pub(crate) fn has_series(self) -> bool {
        self.series || self.instances
    }

    /// Returns the repertoire in which texts of this repertoire are printed.
    fn printed(self, of_texts: Repertoire) -> Repertoire {
        if self.unicode || self.form == OutputForm::Json {
            of_texts
        } else {
            Repertoire::Ascii
        }
    }

    /// Returns the printed form of a text of this repertoire.
    pub(crate) fn text<'t>(self, text: &'t [u8], of_text: Repertoire) -> Text<'t> {
        Text {
            text,
            repertoire: self.printed(of_text),
            form: self.form,
        }
    }

    /// Returns the printed form of an ASCII text.
    pub(crate) fn ascii<'t>(self, text: &'t [u8]) -> Text<'t> {
        self.text(text, Repertoire::Ascii)
    }
}

impl<'a> ListOptions<'a> {
    /// Returns the printed form of the further columns, whose values have this repertoire.
    pub(crate) fn column_texts<A: Allocator>(
        self,
        values: &'a [Vec<u8, A>],
        of_texts: Repertoire,
    ) -> ColumnTexts<'a, A> {
        ColumnTexts {
            columns: self.columns,
            values,
            repertoire: self.printed(of_texts),
            form: self.form,
        }
    }
}

/// Reports each study whose files have several Patient IDs.
fn report_several_patients<A: Allocator, E: Write>(studies: &ByUid<Study<A>, A>, err: &mut E) {
    for (uid, study) in studies {
        if study.has_several_patients {
            let uid = Text {
                text: uid.as_slice(),
                repertoire: Repertoire::Ascii,
                form: OutputForm::Lines,
            };
            let _ = writeln!(
                err,
                "dcmbox: study {uid}: its files have several Patient IDs"
            );
        }
    }
}

/// Writes the studies of the files in folders and their subfolders, ordered by date and then by
/// UID, as a line each or as one JSON object. Files that are no DICOM files or have a fault before
/// the listed values are reported on `err`; the outcome is then `Faulty`. Files that cannot be read
/// are reported too; the error is then `Unread`. A study whose files have several Patient IDs is
/// reported, also in its JSON object.
///
/// Memory grows with the number of studies and series, and of files if these are listed.
///
/// Files that do not meet all conditions are omitted without a report.
///
/// With several folders, a folder that cannot be listed is reported as a file that cannot be read.
///
/// Fails also if the only folder cannot be listed, the output cannot be written, or memory runs
/// out.
pub fn list_folders<R: Files + Alloc + Clone + Drop, O: Write, E: Write + Drop>(
    rt: &R,
    dirs: &[&str],
    options: ListOptions<'_>,
    out: &mut O,
    (err, counter): (E, Counter),
) -> Result<Outcome, ProgramError>
where
    R::A: Copy,
{
    let mut selection = Selection {
        conditions: options.conditions,
        grouping: Grouping::new(rt.alloc(), options.instances, options.columns),
    };
    let tags = tags_of(rt.alloc(), &LISTED, options.conditions, options.columns)?;
    let mut err = err;
    let ignores_others = options.ignore_others;
    let mut visitor = Visitor::new(rt, tags.as_slice(), ignores_others, (&mut err, counter));
    visitor.follow(options.follow);
    let tally = visitor.visit_all(dirs, &mut selection)?;
    let grouping = selection.grouping;
    report_several_patients(&grouping.studies, &mut err);
    let alloc = rt.alloc();
    let mut writer = Writer {
        alloc,
        options,
        out,
    };
    writer
        .studies(&grouping.studies, tally.omitted)
        .map_err(ProgramError::of_output)?;
    tally.outcome()
}

/// Prints the studies of the files in folders, as [`list_folders`] writes them. Output written
/// before an error is printed as well.
pub fn list(
    rt: &HostRuntime,
    dirs: &[&str],
    options: ListOptions<'_>,
) -> Result<Outcome, ProgramError> {
    let mut out = BufWriter::new(rt.alloc(), io::writer(rt)).map_err(ProgramError::of_output)?;
    let reported = (rt.stderr(), Counter::new(rt));
    let listed = list_folders(rt, dirs, options, &mut out, reported);
    flushed(listed, &mut out)
}
