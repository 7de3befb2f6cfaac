//! Reads the File Meta Information of files that a directory accepts.
ghost use Rattle.std.specs.Prelude.{◌≡◌, true, IfOk, IfErr};
ghost use Rattle.std.specs.List.{list_any};
ghost use Rattle.dictionary.specs.Transfers.{is_text_of, transfer_uid};
ghost use Rattle.part10.specs.MetaText.{meta_values_of, ConsumesMeta};
ghost use Rattle.dicomdir_writing.specs.RowOf as rule;
ghost use Rattle.dicomdir_writing.specs.machine.RowReading.{FailsToTake};

use dictionary::Transfer;
use part10::{Meta, MetaFault, read_any_meta};
use std::io::Read;

/// Returns whether the list has this transfer syntax.
fn is_among(transfers: &[Transfer], transfer: Transfer) -> bool
    ensures { result ≡ list_any (is_text_of (transfer_uid transfer)) transfers.now }
{
    transfers.iter().any(|other| other.uid() == transfer.uid())
}

/// Returns whether a file in this transfer syntax is accepted: a native one, or one of
/// `additional`.
fn is_allowed(additional: &[Transfer], transfer: Transfer) -> bool
    ensures { result ≡ rule.is_allowed additional.now transfer }
{
    !transfer.is_encapsulated() || is_among(additional, transfer)
}

/// Reads the File Meta Information at the start of the input. Fails as [`read_any_meta`] does, and
/// with `OtherSyntax` if the transfer syntax is not accepted.
pub(crate) fn read_allowed<R: Read>(
    reader: &mut R,
    additional: &[Transfer],
) -> Result<Meta, MetaFault>
    ensures header { IfOk result (λ meta. ConsumesMeta (meta_values_of meta) (R.remaining reader.old) (R.remaining reader.new)) }
    ensures allowed { IfOk result (λ meta. rule.is_allowed additional.now meta.syntax ≡ true) }
    ensures fault { IfErr result (λ fault. FailsToTake additional.now fault (R.remaining reader.old)) }
{
    match read_any_meta(reader) {
        Ok(meta) => {
            if is_allowed(additional, meta.syntax) {
                return Ok(meta);
            }
            Err(MetaFault::OtherSyntax)
        }
        Err(fault) => Err(fault),
    }
}
