//! `dcmbox arrange`: links or copies the files in folders into a tree of folders by patient, study
//! and series.
use crate::copying::{locked, of_tree};
use crate::pattern::{Part, tags_of};
use crate::placing::Placer;
use failures::{ProgramError, WordsError, flushed};
use folder_filing::StoredFile;
use inspection::{Outcome, OutputForm};
use keyed_files::{Counter, NodeId, Visitor};
use std::fs;
use std::io::{self, BufWriter, ErrorKind, Write};
use std::rt::Files;

/// The options of `arrange`.
#[derive(Clone, Copy)]
pub struct ArrangeOptions<'a> {
    /// The path of the root folder of the tree.
    pub tree: &'a str,
    /// The pattern of the paths of files in the tree.
    pub pattern: &'a [Part<'a>],
    /// Whether files are copied rather than linked.
    pub copy: bool,
    /// Whether the actions are only printed, and nothing is written.
    pub dry_run: bool,
    /// Whether files that are no DICOM files are ignored.
    pub ignore_others: bool,
    /// Whether symbolic links are followed.
    pub follow: bool,
    pub form: OutputForm,
    /// Whether lines have characters beyond ASCII, in UTF-8. JSON always has them.
    pub unicode: bool,
}

/// Creates the folder of the tree, unless it is a dry run.
fn make_tree<R: Files>(rt: &R, options: ArrangeOptions<'_>) -> Result<(), ProgramError> {
    if options.dry_run {
        return Ok(());
    }
    fs::create_dir_all(rt, options.tree).map_err(of_tree)
}

/// Locks the folder of the tree if files are copied into it. Returns the open folder, which holds
/// the lock.
fn lock_for<R: Files>(rt: &R, options: ArrangeOptions<'_>) -> Result<Option<R::File>, ProgramError>
where
    R::File: StoredFile,
{
    if options.copy && !options.dry_run {
        return Ok(Some(locked(rt, options.tree)?));
    }
    Ok(None)
}

/// Gives each DICOM file in folders and their subfolders the path of the pattern in the tree, with
/// `.dcm` appended, by a hard link or a copy, and writes a line with the numbers of files, or one
/// JSON object. A tree inside one of the folders is not visited.
///
/// If the path already has the same file or the same bytes, nothing is done. If the path has
/// something else, `-2`, `-3` and so on is appended to the file's name. Nothing is overwritten. A
/// copy is synced to the disk before it gets its name.
///
/// Files that are no DICOM files, or have a fault before the values of the path, are reported on
/// `err`; the outcome is then `Faulty`. So are files whose path needs a folder where the tree has a
/// file. Files that cannot be read are reported too; the error is then `Unread`. Memory does not
/// grow with the number of files.
///
/// With several folders, a folder that cannot be listed is reported as a file that cannot be read.
///
/// Fails also if the only folder cannot be listed, a file cannot be linked, the tree or the output
/// cannot be written, or memory runs out. Files linked or copied before stay.
pub fn arrange_folders<R: Files + Alloc + Clone + Drop, O: Write, E: Write + Drop>(
    rt: &R,
    dirs: &[&str],
    options: ArrangeOptions<'_>,
    out: &mut O,
    (err, counter): (E, Counter),
) -> Result<Outcome, ProgramError>
where
    R::A: Copy,
    R::File: StoredFile,
{
    make_tree(rt, options)?;
    let _lock = lock_for(rt, options)?;
    let tags = tags_of(rt.alloc(), options.pattern)?;
    let ignores_others = options.ignore_others;
    let mut visitor = Visitor::new(rt, tags.as_slice(), ignores_others, (err, counter));
    visitor.follow(options.follow);
    match fs::metadata(rt, options.tree) {
        Ok(tree) => visitor.spare(NodeId::of(&tree)),
        Err(error) if error.kind() == ErrorKind::NotFound => {}
        Err(error) => return Err(of_tree(error)),
    }
    let mut placer = Placer::new(rt, options, out)?;
    let mut tally = visitor.visit_all(dirs, &mut placer)?;
    placer.finish(tally)?;
    tally.unread = tally.unread.saturating_sub(placer.blocked);
    tally.outcome()
}

/// Returns whether two paths are those of the same folder.
fn are_same(rt: &HostRuntime, one: &str, other: &str) -> bool {
    match (fs::metadata(rt, one), fs::metadata(rt, other)) {
        (Ok(one), Ok(other)) => NodeId::of(&one) == NodeId::of(&other),
        _ => false,
    }
}

/// Arranges the files in folders as [`arrange_folders`] does, and prints the numbers of files.
/// Output written before an error is printed as well.
///
/// Fails also if the tree is one of the folders.
pub fn arrange(
    rt: &HostRuntime,
    dirs: &[&str],
    options: ArrangeOptions<'_>,
) -> Result<Outcome, ProgramError> {
    if dirs.iter().any(|dir| are_same(rt, *dir, options.tree)) {
        let text = String::from_str(rt.alloc(), "error: --to takes another folder than DIR\n")?;
        return Err(ProgramError::Words(WordsError::Refused(text)));
    }
    let mut out = BufWriter::new(rt.alloc(), io::writer(rt)).map_err(ProgramError::of_output)?;
    let reported = (rt.stderr(), Counter::new(rt));
    let arranged = arrange_folders(rt, dirs, options, &mut out, reported);
    flushed(arranged, &mut out)
}
