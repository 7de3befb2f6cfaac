//! Builds a DICOMDIR from rows.
ghost use Rattle.std.specs.Prelude.{◌≡◌, true, false, IfOk, OnOk, IfErr, OnErr, IsErrAnd};
ghost use Rattle.std.specs.Io.KnownBytes.{Appends};
ghost use Rattle.dicomdir_writing.specs.Built.{file_is_too_large, IsNotBuilt, FailsAsTooLarge, directory_file, AppendsFront};
ghost use Rattle.dicomdir_writing.specs.Positions.{duplicates_of, greatest_size};
ghost use Rattle.dicomdir_writing.specs.TreeOf.{TreeOf};
ghost use Rattle.dicomdir.specs.Forest.{count_of};
ghost use Rattle.dicomdir_writing.specs.Laws.{IsDirectoryOf};

use crate::Row;
use crate::build_plan::{Chain, Plan, Stop, lay, sum_up_to};
use crate::duplicates::leave_out_duplicates;
use crate::record_writer::{offset_of, write_records};
use crate::root_bytes::{ROOT_SIZE, file_header, root_bytes};
use crate::writing::write_all;
use dicomdir::{DirFault, Level};
use element::Uid;
use std::alloc::Allocator;
use std::io;
use std::io::Write;
use std::marker::Model;

/// A directory that was planned from rows and that [`write_dir`] can write. It has the records and
/// their offsets, not the bytes of the file. Its value in contracts is the SOP Instance UID of the
/// file and the rows.
#[derive(Drop)]
pub struct Built<'r, A: Allocator> {
    uid: Uid,
    rows: &'r [Row<A>],
    duplicates: Vec<usize, A>,
    plan: Plan<'r, A>,
    chain: Chain,
    size: u32,
}

impl<'r, A: Allocator> Model for Built<'r, A> {
    ghost use Rattle.dicomdir_writing.specs.Built.{BuiltFrom};
    ghost use Rattle.dicomdir_writing.specs.machine.Building.{IsBuilt};

    ghost Value = { BuiltFrom };

    ghost view = { λ b. record { uid = b.uid; rows = b.rows.now } };

    ghost invariant = { λ b. IsBuilt b.uid b.rows.now b.plan.entries.items b.plan.size b.chain.first b.chain.last b.size b.duplicates.items };
}

impl<'r, A: Allocator> Built<'r, A> {
    /// Returns all rows from which the directory was built, also those that get no record because
    /// an earlier row has the same SOP Instance UID.
    pub fn rows(&self) -> &'r [Row<A>]
        ensures { result.now ≡ self.now.rows }
    {
        self.rows
    }

    /// Returns the indices, in ascending order, of the rows that get no record because an earlier
    /// row has the same SOP Instance UID.
    pub fn duplicates(&self) -> &[usize]
        ensures { result.now ≡ duplicates_of self.now.rows }
    {
        self.duplicates.as_slice()
    }

    /// Returns the number of directory records.
    pub fn records(&self) -> usize
        ensures { result ≡ count_of (TreeOf self.now.rows) }
    {
        self.plan.entries.len()
    }
}

/// Builds the directory of these rows: a record for each patient, study, series and image, in the
/// order in which their keys are first seen, each with the keys of its first row (PS3.3 section
/// F.4). A row with the SOP Instance UID of an earlier row gets no record. `uid` is the SOP
/// Instance UID of the directory file.
///
/// Fails with 66 (`TooLarge`) if the file would have 2^32 bytes or more, and with 67
/// (`OutOfMemory`) if memory runs out.
pub fn build<'r, A: Allocator + Copy>(
    alloc: A,
    rows: &'r [Row<A>],
    uid: Uid,
) -> Result<Built<'r, A>, DirFault>
    ensures uid { IfOk result (λ built. built.uid ≡ uid) }
    ensures rows { IfOk result (λ built. built.rows ≡ rows.now) }
    ensures fits { OnOk result (file_is_too_large greatest_size uid rows.now ≡ false) }
    ensures too_large { file_is_too_large greatest_size uid rows.now ≡ true → IsErrAnd result FailsAsTooLarge }
    ensures linked { IfOk result (λ built. IsDirectoryOf (directory_file built) rows.now) }
    ensures fault { IfErr result (IsNotBuilt greatest_size uid rows.now) }
{
    build_within(alloc, rows, uid, u32::MAX)
}

/// Builds the directory of these rows as [`build`] does, with a limit of `most` bytes for the file.
///
/// Fails with 66 (`TooLarge`) if the file would have more, and with 67 (`OutOfMemory`) if memory
/// runs out.
pub fn build_within<'r, A: Allocator + Copy>(
    alloc: A,
    rows: &'r [Row<A>],
    uid: Uid,
    most: u32,
) -> Result<Built<'r, A>, DirFault>
    ensures uid { IfOk result (λ built. built.uid ≡ uid) }
    ensures rows { IfOk result (λ built. built.rows ≡ rows.now) }
    ensures fits { OnOk result (file_is_too_large most uid rows.now ≡ false) }
    ensures too_large { file_is_too_large most uid rows.now ≡ true → IsErrAnd result FailsAsTooLarge }
    ensures linked { IfOk result (λ built. IsDirectoryOf (directory_file built) rows.now) }
    ensures fault { IfErr result (IsNotBuilt most uid rows.now) }
{
    let Ok(kept) = leave_out_duplicates(alloc, rows) else {
        return Err(Stop::OutOfMemory.fault());
    };
    let mut plan = Plan::new(alloc);
    let chain = match lay(alloc, &mut plan, kept.rows.as_slice(), Level::Patient, most) {
        Ok(chain) => chain,
        Err(stop) => return Err(stop.fault()),
    };
    let before = file_header(&uid).len() as u32 + ROOT_SIZE;
    let Some(size) = sum_up_to(most, plan.size, before) else {
        return Err(Stop::TooLarge.fault());
    };
    Ok(Built {
        uid,
        rows,
        duplicates: kept.duplicates,
        plan,
        chain,
        size,
    })
}

/// Writes the directory file: the File Meta Information (PS3.10 section 7.1), the elements before
/// the records, and the records, depth first (PS3.3 section F.3). Sequence and items have defined
/// lengths, and offsets count from the first byte of the file.
///
/// Fails as the writer does, or with `WriteZero` if the writer accepts no byte; part of the file
/// may have been written then. A write that a signal interrupts is repeated.
pub fn write_dir<A: Allocator, W: Write>(built: &Built<'_, A>, writer: &mut W) -> io::Result<()>
    ensures all { OnOk result (Appends (W.contents writer.old) (W.contents writer.new) (directory_file built.now)) }
    ensures front { OnErr result (AppendsFront (W.contents writer.old) (W.contents writer.new) (directory_file built.now)) }
{
    let header = file_header(&built.uid);
    write_all(writer, header.as_slice())?;
    let first = offset_of(built.size, built.chain.first);
    let last = offset_of(built.size, built.chain.last);
    let root = root_bytes(first, last, built.plan.size);
    write_all(writer, root.as_slice())?;
    write_records(writer, built.plan.entries.as_slice(), built.size)
}
