//! The presentation contexts that a request proposes.
ghost use Rattle.std.specs.Prelude.{◌≡◌};
ghost use Rattle.std.specs.Iterator.{YieldsFirst, item_count};
ghost use Rattle.pdu.specs.Items.{items_of, proposals};

use crate::item::Items;
use crate::proposal::Proposal;

/// An iterator over the presentation contexts that a request proposes, in order.
#[derive(Clone, Copy)]
pub struct Contexts<'a> {
    items: Items<'a>,
}

impl<'a> Contexts<'a> {
    ghost use Rattle.pdu.specs.Remaining.{proposals_remaining};

    /// Returns an iterator over the proposed presentation contexts among the items in these bytes.
    pub(crate) fn of(text: &'a [u8]) -> Contexts<'a>
        ensures { proposals_remaining result ≡ proposals (items_of text.now) }
    {
        Contexts {
            items: Items::of(text),
        }
    }
}

impl<'a> Iterator for Contexts<'a> {
    type Item = Proposal<'a>;

    ghost use Rattle.pdu.specs.Remaining.{proposals_remaining};

    ghost next_gives = { YieldsFirst proposals_remaining };

    ghost remaining = { item_count proposals_remaining };

    fn next(&mut self) -> Option<Proposal<'a>> {
        while let Some(item) = self.items.next() {
            if item.is_context() {
                return Some(Proposal::of(item));
            }
        }
        None
    }
}
