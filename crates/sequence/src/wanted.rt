//! The tags whose values a walker keeps.
ghost use Rattle.std.specs.Prelude.{◌≡◌, ◌≤◌, ◌<◌, get_or, ◌∷◌, [], ◌↔◌, IsTrue, IsSome, IsNone, IfSome, ◌⊎◌, false, length};
ghost use Rattle.sequence.specs.Wanted as spelling;
ghost use Rattle.element.specs.Header.{number};
ghost use Rattle.sequence.specs.machine.Keeping.{offset_from};

use arrayvec::ArrayVec;
use element::Tag;

mod fields;

/// A tag whose value a walker keeps. `room` is the greatest length of the value in bytes; a longer
/// value breaks the rule `KeptTooLong`.
#[derive(Clone, Copy, Debug)]
pub struct Want {
    pub tag: Tag,
    pub room: u32,
}

impl Default for Want {
    fn default() -> Want {
        Want {
            tag: Tag(0, 0),
            room: 0,
        }
    }
}

/// Returns whether the tags are strictly ascending and none is (0000,0000).
fn are_rising(wants: &[Want]) -> bool
    ensures { result ≡ spelling.are_rising 0 wants.now }
{
    let mut last = 0;
    for want in wants {
        let number = want.tag.number();
        if number <= last {
            return false;
        }
        last = number;
    }
    true
}

/// The tags whose values a walker keeps: at most 16, strictly ascending, each with the greatest
/// length of its value in bytes. Only elements of the data set itself are kept, none inside
/// sequences.
#[derive(Drop)]
pub struct Wanted {
    list: ArrayVec<Want, 16>,
    ghost rising: { IsTrue (spelling.are_rising 0 list.items) },
    ghost few: { length list.items ≤ 16 },
}

impl Wanted {
    ghost use Rattle.sequence.specs.Stored.{wanted_tags};

    /// Returns the empty list.
    pub fn none() -> Wanted
        ensures { wanted_tags result ≡ [] }
    {
        Wanted {
            list: ArrayVec::new(),
        }
    }

    /// Returns the list of these tags, or `None` if they are more than 16, not strictly ascending,
    /// or include (0000,0000).
    pub fn of(wants: &[Want]) -> Option<Wanted>
        ensures some { IfSome result (λ wanted. wanted_tags wanted ≡ wants.now) }
        ensures none { IsNone result → (16 < length wants.now) ⊎ (spelling.are_rising 0 wants.now ≡ false) }
    {
        if !are_rising(wants) {
            return None;
        }
        let mut list = ArrayVec::new();
        match list.try_extend_from_slice(wants) {
            Ok(()) => Some(Wanted { list }),
            Err(_) => None,
        }
    }

    /// Returns the index in the list of the tag with this number, or `None` if it is not wanted.
    pub(crate) fn find(&self, number: u32) -> Option<usize>
        ensures { result ≡ offset_from 0 self.now.list.items number }
    {
        let list = self.as_slice();
        let mut at = 0;
        while at < list.len() {
            if list[at].tag.number() == number {
                return Some(at);
            }
            at += 1;
        }
        None
    }

    /// Returns the greatest length, in bytes, of the value of the tag with this number, or `None`
    /// if it is not wanted.
    pub(crate) fn room(&self, number: u32) -> Option<u64>
        ensures { result ≡ spelling.room_of self.now.list.items number }
    {
        for want in self.as_slice() {
            if want.tag.number() == number {
                return Some(u64::from(want.room));
            }
        }
        None
    }

    /// Returns the number of wanted tags.
    pub(crate) fn len(&self) -> usize
        ensures { result ≡ length self.now.list.items }
    {
        self.list.len()
    }

    /// Returns the wanted tags in ascending order.
    pub(crate) fn as_slice(&self) -> &[Want]
        ensures { result.now ≡ self.now.list.items }
    {
        self.list.as_slice()
    }
}
