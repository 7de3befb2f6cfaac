//! The keys of directory records.
ghost use Rattle.std.specs.Prelude.{◌≡◌, ◌++◌, ◌∷◌, [], option_map, OnOk, OnErr};
ghost use Rattle.element.specs.Header.{number};
ghost use Rattle.sequence.specs.Wanted.{value_of};

use element::Tag;
use std::alloc::{AllocError, Allocator};

/// A key: a tag and its value.
#[derive(Drop)]
struct Entry<A: Allocator> {
    tag: Tag,
    value: Vec<u8, A>,
}

/// The keys of a file for its directory records: values of its data set, each with its tag and with
/// its padding.
#[derive(Drop)]
pub struct Keys<A: Allocator> {
    entries: Vec<Entry<A>, A>,
}

impl<A: Allocator> Keys<A> {
    ghost use Rattle.dicomdir_writing.specs.Keys.{key_values};

    /// Creates an empty list of keys. Allocates nothing.
    pub fn new(alloc: A) -> Keys<A>
        ensures { key_values result ≡ [] }
    {
        Keys {
            entries: Vec::new(alloc),
        }
    }

    /// Appends a value with its tag. Of several values with the same tag the first is used. Fails
    /// if memory runs out; the list is then unchanged.
    pub fn push(&mut self, tag: Tag, value: Vec<u8, A>) -> Result<(), AllocError>
        ensures added { OnOk result (key_values self.new ≡ key_values self.old ++ (number tag, value.items) ∷ []) }
        ensures kept { OnErr result (key_values self.new ≡ key_values self.old) }
    {
        self.entries.push(Entry { tag, value })?;
        Ok(())
    }

    /// Returns the first value with this tag, or `None` if there is none.
    pub fn value(&self, tag: Tag) -> Option<&[u8]>
        ensures { option_map (λ v. v.now) result ≡ value_of (key_values self.now) (number tag) }
    {
        let number = tag.number();
        for entry in self.entries.as_slice() {
            if entry.tag.number() == number {
                return Some(entry.value.as_slice());
            }
        }
        None
    }
}
