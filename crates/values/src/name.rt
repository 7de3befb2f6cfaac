//! Person names (PS3.5 table 6.2-1, PN).
ghost use Rattle.std.specs.Prelude.{◌≡◌, length};
ghost use Rattle.std.specs.List.{list_all, slice_split};
ghost use Rattle.values.specs.Names as names;

/// Returns the number of components of a component group, which are separated by `^`.
fn components(group: &[u8]) -> usize
    ensures { result ≡ length (slice_split names.is_caret group.now) }
{
    group.split(|byte| *byte == b'^').count()
}

/// Returns the number of component groups of a person name, which are separated by `=`.
fn groups(text: &[u8]) -> usize
    ensures { result ≡ length (slice_split names.is_equals text.now) }
{
    text.split(|byte| *byte == b'=').count()
}

/// Returns whether each component group has at most five components.
fn has_components(text: &[u8]) -> bool
    ensures { result ≡ list_all names.is_group (slice_split names.is_equals text.now) }
{
    text.split(|byte| *byte == b'=')
        .all(|group| components(group) <= 5)
}

/// Returns whether a text has at most three component groups of at most five components each, as a
/// person name must.
pub fn is_name(text: &[u8]) -> bool
    ensures { result ≡ names.is_name text.now }
{
    groups(text) <= 3 && has_components(text)
}

/// Returns whether each component group has at most `most` characters.
pub(crate) fn groups_are_at_most(most: usize, text: &[u8]) -> bool
    ensures { result ≡ names.groups_are_at_most most text.now }
{
    text.split(|byte| *byte == b'=')
        .all(|group| group.len() <= most)
}
