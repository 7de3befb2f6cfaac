//! Follows the offsets between the records of a directory.
ghost use Rattle.std.specs.Prelude.{◌≡◌, ◌≤◌, ◌<◌, ◌+◌, ◌++◌, ◌∷◌, [], min, ◌&&◌, not, nat_eq, if◌then◌else◌, ℕ, List, length, map, reverse, replicate, IsOk, IfOk, IfErr, IfSome, IfNone, get_or, slice_index_or, true, false};
ghost use Rattle.sequence.specs.Rules.{no_tag};
ghost use Rattle.dicomdir.specs.Linked as linked;
ghost use Rattle.dicomdir.specs.NodesInUse.{node_of};
ghost use Rattle.dicomdir.specs.machine.Trail.{AreFollowed, FailsToFollow, carried_by, remaining_of, mark_of, own_node, path_along, reported_along, AreAllReached, Begins, Climbs, IsWrongOffset, LeadsTo, Continues, IsRemainder, IsNoOffset};
ghost use Rattle.dicomdir.specs.Paths.{line_of};
ghost use Rattle.dicomdir.specs.Linked.{is_one_of};

use crate::fault::DirFault;
use crate::level::Level;
use crate::records::{ReadRecord, is_text};
use crate::tree::TreeRecord;
use std::alloc::Allocator;

/// The offsets of the root, to its first and its last record (`first`, `last`), and the positions
/// in the file of the two elements that have them.
#[derive(Clone, Copy)]
pub(crate) struct Root {
    pub first: u32,
    pub first_position: u64,
    pub last: u32,
    pub last_position: u64,
}

/// A record that was reached, in a chain that has not ended. A chain is a list of sibling records,
/// each with the offset of the next.
#[derive(Clone, Copy)]
struct Mark {
    offset: u64,
    next: u32,
    /// Whether the record is the first of its chain.
    begins: bool,
    level: u8,
    /// Whether no record above the record is inactive.
    shown: bool,
}

/// An offset that is to be followed next: whether it starts a chain, the level of the record to
/// which it leads, and whether no record above that record is inactive.
#[derive(Clone, Copy)]
struct Step {
    link: u32,
    begins: bool,
    level: u8,
    shown: bool,
}

fn is_upper_kind(kind: &[u8]) -> bool
    ensures { result ≡ linked.is_upper_kind kind.now }
{
    is_text(kind, Level::Patient.kind())
        || is_text(kind, Level::Study.kind())
        || is_text(kind, Level::Series.kind())
}

fn fits_level(level: u8, kind: &[u8]) -> bool
    ensures { result ≡ linked.fits_level level kind.now }
{
    if level == 1 {
        is_text(kind, Level::Patient.kind())
    } else if level == 2 {
        is_text(kind, Level::Study.kind())
    } else if level == 3 {
        is_text(kind, Level::Series.kind())
    } else {
        level == 4 && !is_upper_kind(kind)
    }
}

/// Returns whether the type of a record fits a level, from 1 for patients to 4 for images. An
/// inactive record fits every level.
fn fits(level: u8, entry: &ReadRecord) -> bool
    ensures { result ≡ linked.fits level (carried_by entry.now) }
{
    !entry.in_use || fits_level(level, entry.kind)
}

/// Returns the next lower level: 5 stands for all levels below images.
fn below(level: u8) -> u8
    ensures { result ≡ min (level + 1) 5 }
{
    if level < 5 { level + 1 } else { 5 }
}

/// Returns the index of the record at a position of the file, by binary search, or `None` if no
/// record is there.
fn index_of(entries: &[ReadRecord], offset: u32) -> Option<usize>
    ensures within { IfSome result (λ at. at < length entries.now) }
    ensures found { IfSome result (λ at. (d : ReadRecord) → (slice_index_or entries.now at d).offset ≡ offset) }
    ensures absent { IfNone result (IsNoOffset entries.now offset) }
{
    let offset = u64::from(offset);
    match entries.binary_search_by_key(&offset, |entry| entry.offset) {
        Ok(at) => Some(at),
        Err(_) => None,
    }
}

/// Returns whether an offset leads back to a record of the last chain of the trail, or to one above
/// that chain. The trail has the records whose chains have not ended, in the order they were
/// reached.
fn leads_back(trail: &[Mark], link: u32) -> bool
    ensures { result ≡ is_one_of link (line_of (path_along true (reverse trail.now))) }
{
    let mut in_chain = true;
    let mut is_above = false;
    let mut at = trail.len();
    while at > 0 {
        at -= 1;
        let mark = trail[at];
        if (in_chain || is_above) && mark.offset == u64::from(link) {
            return true;
        }
        is_above = mark.begins;
        in_chain = in_chain && !mark.begins;
    }
    false
}

/// Removes the last chain from the trail.
fn leave_chain<A: Allocator + Copy>(trail: &mut Vec<Mark, A>)
    ensures remaining { reverse trail.new.items ≡ remaining_of (reverse trail.old.items) }
    ensures fewer { 0 < length trail.old.items → length trail.new.items < length trail.old.items }
{
    while let Some(mark) = trail.pop() {
        if mark.begins {
            return;
        }
    }
}

/// Removes the chains that have ended from the end of the trail, and returns the next offset to
/// follow, or `None` at the end of all chains.
fn climb<A: Allocator + Copy>(trail: &mut Vec<Mark, A>) -> Option<Step>
    ensures climbs { Climbs (reverse trail.old.items) (reverse trail.new.items) result }
{
    while let Some(mark) = trail.last() {
        if mark.next != 0 {
            return Some(Step {
                link: mark.next,
                begins: false,
                level: mark.level,
                shown: mark.shown,
            });
        }
        leave_chain(trail);
    }
    None
}

fn none_reached<A: Allocator + Copy>(alloc: A, count: usize) -> Result<Vec<bool, A>, DirFault>
    ensures flags { IfOk result (λ reached. reached.items ≡ replicate count false) }
    ensures memory { IfErr result (λ f. f ≡ record { number = 67; offset = 0; tag = no_tag }) }
{
    match vec![in alloc; false; count] {
        Ok(reached) => Ok(reached),
        Err(_) => Err(DirFault::out_of_memory()),
    }
}

/// Returns where a fault of the next offset is reported: the position of the record that has the
/// offset, or of the root's element.
fn reported_of(trail: &[Mark], root: &Root) -> u64
    ensures { result ≡ reported_along root.now.first_position (reverse trail.now) }
{
    match trail.last() {
        Some(mark) => mark.offset,
        None => root.first_position,
    }
}

/// Returns the index of the record to which an offset leads. Fails with 60 (no record there), 61
/// (cycle), 62 (reached before) or 64 (its type does not fit the level).
fn target(
    entries: &[ReadRecord],
    reached: &[bool],
    trail: &[Mark],
    root: &Root,
    step: &Step,
) -> Result<usize, DirFault>
    requires { length reached.now ≡ length entries.now }
    ensures within { IfOk result (λ at. at < length entries.now) }
    ensures first { IfOk result (λ at. get_or reached.now at true ≡ false) }
    ensures good { IfOk result (LeadsTo entries.now reached.now (reverse trail.now) step.now) }
    ensures fault { IfErr result (IsWrongOffset root.now.first_position entries.now reached.now (reverse trail.now) step.now) }
    ensures links { IfErr result (λ f. record { from : 60 ≤ f.number; to : f.number ≤ 64; tag : f.tag ≡ no_tag }) }
{
    let reported = reported_of(trail, root);
    let Some(at) = index_of(entries, step.link) else {
        return Err(DirFault::at(DirFault::BAD_OFFSET, reported));
    };
    if reached[at] {
        if leads_back(trail, step.link) {
            return Err(DirFault::at(DirFault::CYCLE, reported));
        }
        return Err(DirFault::at(DirFault::TWICE_REACHED, reported));
    }
    if !fits(step.level, &entries[at]) {
        return Err(DirFault::at(DirFault::WRONG_LEVEL, entries[at].offset));
    }
    Ok(at)
}

/// Appends a record to the trail and, if it is in use and no record above it is inactive, to the
/// tree. Fails with 67 if memory runs out.
fn reach<'a, A: Allocator + Copy>(
    entry: &ReadRecord<'a>,
    step: &Step,
    trail: &mut Vec<Mark, A>,
    tree: &mut Vec<TreeRecord<'a>, A>,
) -> Result<(), DirFault>
    ensures mark { IsOk result → trail.new.items ≡ trail.old.items ++ mark_of entry.now step.now ∷ [] }
    ensures node { IsOk result → map node_of tree.new.items ≡ map node_of tree.old.items ++ own_node step.now.shown step.now.level entry.now.offset (carried_by entry.now) }
    ensures memory { IfErr result (λ f. f ≡ record { number = 67; offset = 0; tag = no_tag }) }
{
    let mark = Mark {
        offset: entry.offset,
        next: entry.next,
        begins: step.begins,
        level: step.level,
        shown: step.shown,
    };
    if trail.push(mark).is_err() {
        return Err(DirFault::out_of_memory());
    }
    if step.shown && entry.in_use {
        let record = TreeRecord::new(entry.offset, step.level, entry.kind, entry.file_id);
        if tree.push(record).is_err() {
            return Err(DirFault::out_of_memory());
        }
    }
    Ok(())
}

/// Returns the offset to follow after a record: the one to its lower level, else the next one of
/// the trail.
fn step_after<A: Allocator + Copy>(
    entry: &ReadRecord,
    step: &Step,
    trail: &mut Vec<Mark, A>,
) -> Option<Step>
    ensures continues { Continues (reverse trail.old.items) (reverse trail.new.items) step.now result entry.now }
{
    if entry.lower != 0 {
        return Some(Step {
            link: entry.lower,
            begins: true,
            level: below(step.level),
            shown: step.shown && entry.in_use,
        });
    }
    climb(trail)
}

/// Returns the position of the last record of the root's chain, after this record was reached.
fn last_of_root(entry: &ReadRecord, step: &Step, last: u64) -> u64
    ensures { result ≡ (if nat_eq step.now.level 1 then entry.now.offset else last) }
{
    if step.level == 1 { entry.offset } else { last }
}

fn first_step(root: &Root) -> Option<Step>
    ensures { Begins root.now result }
{
    if root.first == 0 {
        return None;
    }
    Some(Step {
        link: root.first,
        begins: true,
        level: 1,
        shown: true,
    })
}

/// Follows the offsets from the root, depth first, lower level before next record. Appends the
/// records in use with no inactive record above them to the tree. Fails with the first fault of an
/// offset (60 to 64), or with 67 if memory runs out.
#[tactic(auto, using(crate::proofs::Trails::remaining_fewer))]
pub(crate) fn follow<'a, A: Allocator + Copy>(
    alloc: A,
    entries: &[ReadRecord<'a>],
    root: &Root,
    tree: &mut Vec<TreeRecord<'a>, A>,
) -> Result<(), DirFault>
    ensures good { IsOk result → AreFollowed root.now entries.now tree.old.items tree.new.items }
    ensures fails { IfErr result (FailsToFollow root.now entries.now) }
{
    let mut reached = none_reached(alloc, entries.len())?;
    let mut trail = Vec::new(alloc);
    let mut last = 0;
    let mut pending = first_step(root);
    while let Some(step) = pending {
        let at = target(entries, reached.as_slice(), trail.as_slice(), root, &step)?;
        let entry = &entries[at];
        reached[at] = true;
        reach(entry, &step, &mut trail, tree)?;
        last = last_of_root(entry, &step, last);
        pending = step_after(entry, &step, &mut trail);
    }
    if u64::from(root.last) != last {
        return Err(DirFault::at(DirFault::BAD_OFFSET, root.last_position));
    }
    all_reached(entries, reached.as_slice())
}

/// Fails with 63 (`Unreached`) at the first record in use that no offset reached.
fn all_reached(entries: &[ReadRecord], reached: &[bool]) -> Result<(), DirFault>
    requires { length reached.now ≡ length entries.now }
    ensures good { IsOk result → AreAllReached entries.now reached.now }
    ensures fault { IfErr result (IsRemainder entries.now reached.now) }
    ensures links { IfErr result (λ f. record { number : f.number ≡ 63; tag : f.tag ≡ no_tag }) }
{
    for (at, entry) in entries.iter().enumerate() {
        if entry.in_use && !reached[at] {
            return Err(DirFault::at(DirFault::UNREACHED, entry.offset));
        }
    }
    Ok(())
}
