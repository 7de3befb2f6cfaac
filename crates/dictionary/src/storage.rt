//! The storage classes of the standard.
ghost use Rattle.std.specs.Prelude.{◌≡◌, map, option_map, slice_get};
ghost use Rattle.std.specs.List.{flat_map};
ghost use Rattle.dictionary.specs.StorageClasses.{storage_classes};
ghost use Rattle.dictionary.specs.StorageTable as table;

use crate::storage_table::table_parts;

/// A storage class of the standard (PS3.4 table B.5-1), or a retired one (PS3.6 annex A).
#[derive(Clone, Copy)]
pub struct StorageClass {
    /// The SOP Class UID.
    pub uid: &'static [u8],
    /// The keyword of the SOP class.
    pub keyword: &'static str,
    /// Whether a DICOMDIR describes its instances by IMAGE records (PS3.3 section F.5).
    pub is_image: bool,
}

/// Returns the row with index `index` in the concatenated `parts` of a table, or `None` past its
/// end.
fn class_in(parts: &[&'static [StorageClass]], index: usize) -> Option<StorageClass>
    ensures { option_map table.storage_row result ≡ slice_get (flat_map (λ rows. map table.storage_row rows.now) parts.now) index }
{
    let mut remaining = index;
    for rows in parts {
        if remaining < rows.len() {
            return Some(rows[remaining]);
        }
        remaining -= rows.len();
    }
    None
}

/// Returns the storage class with index `index` in the standard's table, ordered by the numbers of
/// the UIDs, or `None` past its end.
pub fn storage_class(index: usize) -> Option<StorageClass>
    ensures { option_map table.storage_row result ≡ slice_get storage_classes index }
{
    class_in(&table_parts(), index)
}
