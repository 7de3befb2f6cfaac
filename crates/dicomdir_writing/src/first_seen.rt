//! A set of keys in the order in which they are first seen.
ghost use Rattle.std.specs.Prelude.{◌<◌, IfOk, length};
ghost use Rattle.dicomdir_writing.specs.machine.FirstSeen.{Sees, texts};

use indexmap::IndexSet;
use std::alloc::{AllocError, Allocator};
use std::hash::{BuildHasherDefault, FoldHasher};

/// The keys seen so far, in order.
pub(crate) type SeenKeys<A> = IndexSet<Vec<u8, A>, BuildHasherDefault<FoldHasher>, A>;

/// Adds a key to the set. Returns its index, and whether it is new. Fails if memory runs out.
pub(crate) fn see<A: Allocator + Copy>(
    alloc: A,
    seen: &mut SeenKeys<A>,
    key: &[u8],
) -> Result<(usize, bool), AllocError>
    ensures sees { IfOk result (λ r. Sees key.now (texts seen.old.keys) (texts seen.new.keys) r.0 r.1) }
    ensures within { IfOk result (λ r. r.0 < length (texts seen.new.keys)) }
{
    let key = Vec::from_slice(alloc, key)?;
    let placed = seen.insert_full(key)?;
    Ok(placed)
}
