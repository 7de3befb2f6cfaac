//! Checks a DICOMDIR.
ghost use Rattle.std.specs.Prelude.{◌≡◌, ◌≤◌, ◌<◌, ◌+◌, ◌^◌, ℕ, List, ◌≢◌, length, IsOk, IfOk, IfErr};
ghost use Rattle.sequence.specs.declared.coding.Coding.TheVariants.{Explicit};
ghost use Rattle.sequence.specs.Ending.{IsWholeDataSet, Fails};
ghost use Rattle.sequence.specs.Tree.{Elements, DataSet};
ghost use Rattle.dicomdir.specs.DirFault.{check_limits, CheckFault, HasHeader, HasDataSet, IsAtNone, offset_fault, directory_fault};
ghost use Rattle.dicomdir.specs.Directory.{Found};
ghost use Rattle.dicomdir.specs.NodesInUse.{HasNodes, tree_nodes};
ghost use Rattle.dicomdir.specs.machine.Trail.{FailsAs, IsRootOffset, ChecksAs};
ghost use Rattle.dicomdir.specs.machine.Faults.{header_fault_of};
ghost use Rattle.dicomdir.specs.machine.Texts.{Finds};

use crate::data_set::walk_piece;
use crate::fault::DirFault;
use crate::found::{Element, find};
use crate::links::{Root, follow};
use crate::records::read_records;
use crate::tree::Tree;
use element::{Syntax, Tag};
use part10::{MetaFault, read_meta};
use sequence::{Coding, Fault, Walker, Wanted};
use std::alloc::Allocator;

/// Returns the fault of a directory file for a fault of its File Meta Information. `ReadFailed`
/// does not occur, since reading from a slice never fails.
fn header_fault(fault: MetaFault) -> DirFault
    ensures { result ≡ header_fault_of fault }
{
    match fault {
        MetaFault::NotPart10 => DirFault::at(50, 128),
        MetaFault::BadMeta => DirFault::at(51, 132),
        MetaFault::OtherSyntax => DirFault::at(53, 132),
        MetaFault::ReadFailed => DirFault::out_of_memory(),
    }
}

/// Reads the File Meta Information, and returns the bytes after it. Fails with 50, 51 or 53; any
/// transfer syntax other than Explicit VR Little Endian is 53.
#[tactic(auto, using(crate::proofs::WalksEndOrFail::header_check, crate::proofs::WalksEndOrFail::header_at_none, crate::proofs::WalksEndOrFail::implicit_check, crate::proofs::WalksEndOrFail::explicit_check))]
fn after_header(bytes: &[u8]) -> Result<&[u8], DirFault>
    ensures read { IfOk result (λ rest. HasHeader bytes.now rest.now) }
    ensures memory { IfErr result IsAtNone }
    ensures fault { IfErr result (λ f. f.number ≢ 67 → CheckFault bytes.now f.number f.offset f.tag) }
{
    let mut rest = bytes;
    match read_meta(&mut rest) {
        Err(fault) => Err(header_fault(fault)),
        Ok(meta) => match meta.syntax.syntax() {
            Syntax::Explicit => Ok(rest),
            Syntax::Implicit => Err(DirFault::at(53, 132)),
        },
    }
}

/// Checks that the bytes are a complete data set in Explicit VR Little Endian, with at most 64 open
/// levels.
fn walk(text: &[u8]) -> Result<(), Fault>
    ensures good { IsOk result → IsWholeDataSet Explicit check_limits text.now }
    ensures fails { IfErr result (λ fault. Fails Explicit check_limits text.now fault) }
{
    let mut walker = Walker::<256, 64>::new(Syntax::Explicit, Wanted::none(), 1 << 48);
    if let Err(fault) = walk_piece(&mut walker, text) {
        return Err(fault);
    }
    walker.finish()
}

/// Returns the position and the value of an offset element, of four bytes. Fails with 68
/// (`BadRecord`), at `start` if the element is missing.
fn root_offset(element: &Element, start: u64) -> Result<(u64, u32), DirFault>
    ensures read { IfOk result (λ r. (f : Found) → Finds element.now f → IsRootOffset start f r.0 r.1) }
    ensures fails { IfErr result (λ fault. (f : Found) → Finds element.now f → FailsAs (offset_fault start f) fault) }
{
    match element {
        Element::Missing => Err(DirFault::at(DirFault::BAD_RECORD, start)),
        Element::Items { offset, .. } => Err(DirFault::at(DirFault::BAD_RECORD, *offset)),
        Element::Value { offset, .. } => match element.long() {
            Some(link) => Ok((*offset, link)),
            None => Err(DirFault::at(DirFault::BAD_RECORD, *offset)),
        },
    }
}

/// Checks the elements of a directory. `start` is the position of the first element in the file.
fn check_elements<'a, A: Allocator + Copy>(
    alloc: A,
    start: u64,
    text: &'a [u8],
) -> Result<Tree<'a, A>, DirFault>
    requires { start + length text.now < 2 ^ 64 }
    ensures whole { IfOk result (λ tree. (es : Elements) → DataSet Explicit 0 es text.now → ChecksAs start es (tree_nodes tree)) }
    ensures fails { IfErr result (λ f. (es : Elements) → DataSet Explicit 0 es text.now → FailsAs (directory_fault start es) f) }
{
    let (first_position, first) = root_offset(
        &find(Coding::Explicit, Tag(0x0004, 0x1200), start, text),
        start,
    )?;
    let (last_position, last) = root_offset(
        &find(Coding::Explicit, Tag(0x0004, 0x1202), start, text),
        start,
    )?;
    match find(Coding::Explicit, Tag(0x0004, 0x1220), start, text) {
        Element::Missing => Err(DirFault::at(DirFault::BAD_RECORD, start)),
        Element::Value { offset, .. } => Err(DirFault::at(DirFault::BAD_RECORD, offset)),
        Element::Items {
            first: records_offset,
            syntax,
            text,
            ..
        } => {
            let root = Root {
                first,
                first_position,
                last,
                last_position,
            };
            let mut records = Vec::new(alloc);
            read_records(syntax, records_offset, text, &mut records)?;
            let mut tree = Vec::new(alloc);
            follow(alloc, records.as_slice(), &root, &mut tree)?;
            Ok(Tree::new(tree))
        }
    }
}

/// Checks a directory file (PS3.3 annex F) in Explicit VR Little Endian, with defined or undefined
/// lengths. Returns its tree: the records in use that have no inactive record above them.
///
/// The error is the first fault in this order: of the File Meta Information (50, 51, 53); of the
/// data set (10 to 20), with at most 64 open levels and 2^48 bytes; a missing or wrong element of
/// the root (68); record by record, a missing or wrong element (68), or an invalid or missing file
/// ID of a record in use that needs one (65). Then the offsets are followed from the root, that to
/// the lower level before that to the next record: each must be the position of a record (60) that
/// was not reached before (61, 62) and whose type fits its level (64). Last, the root's offset of
/// its last record must be right (60), and every record in use must have been reached (63).
/// Inactive records are followed like others, but need not fit their level.
///
/// If memory runs out, the error is 67, with position 0 and no tag.
#[tactic(auto, using(crate::proofs::WalksEndOrFail::data_set_check, crate::proofs::WalksEndOrFail::header_before, crate::proofs::WalksEndOrFail::fault_within, crate::proofs::WalksEndOrFail::fault_at_none))]
pub fn check<'a, A: Allocator + Copy>(alloc: A, bytes: &'a [u8]) -> Result<Tree<'a, A>, DirFault>
    ensures whole { IsOk result → HasDataSet bytes.now }
    ensures nodes { IfOk result (λ tree. HasNodes bytes.now (tree_nodes tree)) }
    ensures fault { IfErr result (λ f. f.number ≢ 67 → CheckFault bytes.now f.number f.offset f.tag) }
    ensures memory { IfErr result IsAtNone }
{
    let text = match after_header(bytes) {
        Ok(text) => text,
        Err(fault) => return Err(fault),
    };
    let start = (bytes.len() - text.len()) as u64;
    if let Err(fault) = walk(text) {
        return Err(DirFault {
            number: fault.number,
            offset: start + fault.offset,
            tag: fault.tag,
        });
    }
    check_elements(alloc, start, text)
}
