//! What a walker reports about the bytes that it has read.
ghost use Rattle.std.specs.Prelude.{◌≡◌};
ghost use Rattle.sequence.specs.Fields.{is_kept};

use super::Walker;
use crate::stage::Stage;
use element::Tag;

/// Returns whether the walker is inside a wanted value.
fn is_kept(stage: Stage) -> bool
    ensures { result ≡ is_kept stage }
{
    // One arm for each line of the definition: the proof goes through them one by one.
    match stage {
        Stage::Value { kept, .. } => kept,
        Stage::Heading => false,
        Stage::Stopped(_) => false,
    }
}

impl<const V: usize, const D: usize> Walker<V, D> {
    ghost use Rattle.std.specs.Prelude.{◌≡◌, ◌≤◌, ◌+◌, ◌*◌, option_map};
    ghost use Rattle.element.specs.Header.{number};
    ghost use Rattle.sequence.specs.Wanted.{value_of};
    ghost use Rattle.sequence.specs.Consumed.{reported_by};

    /// Returns the number of open levels: unfinished sequences and items.
    pub fn levels(&self) -> usize
        ensures { result ≡ (reported_by self.now).levels }
    {
        self.levels.as_slice().len()
    }

    /// Returns the number of bytes read; after a fault, up to and including the byte that showed
    /// it.
    pub fn offset(&self) -> u64
        ensures { result ≡ (reported_by self.now).offset }
    {
        self.offset
    }

    /// Returns the number of bytes held: those of an unfinished header and of the wanted values,
    /// and 16 for each open level.
    pub fn held(&self) -> usize
        ensures value { result ≡ (reported_by self.now).held }
        ensures bound { result ≤ V + 16 * D }
    {
        self.header.len() + self.kept.len() + 16 * self.levels.len()
    }

    /// Returns the value of this wanted tag, or `None` if it is not wanted, absent so far or
    /// unfinished. Elements inside sequences are ignored.
    pub fn kept(&self, tag: Tag) -> Option<&[u8]>
        ensures { option_map (λ bytes. bytes.now) result ≡ value_of (reported_by self.now).kept (number tag) }
    {
        self.kept.value(tag.number(), is_kept(self.stage))
    }
}
