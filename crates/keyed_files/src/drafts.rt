//! The names of files that are still being written.
ghost use Rattle.std.specs.Prelude.{◌≡◌};
ghost use Rattle.std.specs.List.{list_all};
ghost use Rattle.element.specs.Values.{is_digit};
ghost use Rattle.keyed_files.specs.DraftNames as draft_names;

/// The name of the draft of a copy in the tree of `arrange`. No value of a data set yields a name
/// that begins with a dot.
pub const TREE_DRAFT: &str = ".DRAFT";

/// Returns whether all of these bytes are decimal digits.
fn are_digits(bytes: &[u8]) -> bool
    ensures { result ≡ list_all is_digit bytes.now }
{
    bytes.iter().all(|byte| byte.is_ascii_digit())
}

/// Returns whether this is the name of the draft of a received file: `DRAFT`, and perhaps a number,
/// for parallel receptions.
fn is_received_draft(name: &[u8]) -> bool
    ensures { result ≡ draft_names.is_received_draft name.now }
{
    name.len() > 4 && name.starts_with(b"DRAFT") && are_digits(&name[5..])
}

/// Returns whether this is the name of a draft: a file that `serve`, `replay`, `index` or `arrange`
/// has not finished.
pub fn is_draft(name: &str) -> bool
    ensures { result ≡ draft_names.is_draft name.now }
{
    is_received_draft(name.as_bytes()) || name == "DIRDRAFT" || name == TREE_DRAFT
}
