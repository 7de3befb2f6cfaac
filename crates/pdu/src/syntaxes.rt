//! The transfer syntaxes of a proposed presentation context.
ghost use Rattle.std.specs.Prelude.{◌≡◌};
ghost use Rattle.std.specs.Iterator.{YieldsFirstRef, item_count};
ghost use Rattle.pdu.specs.Items.{items_of, syntaxes};

use crate::item::Items;
use crate::item_type;
use element::unpadded;

/// An iterator over the transfer syntaxes of a proposed presentation context, in order, without
/// trailing zero bytes and spaces.
#[derive(Clone, Copy)]
pub struct TransferSyntaxes<'a> {
    items: Items<'a>,
}

impl<'a> TransferSyntaxes<'a> {
    ghost use Rattle.pdu.specs.Remaining.{syntaxes_remaining};

    /// Returns an iterator over the transfer syntaxes among the sub-items in these bytes.
    pub(crate) fn of(text: &'a [u8]) -> TransferSyntaxes<'a>
        ensures { syntaxes_remaining result ≡ syntaxes (items_of text.now) }
    {
        TransferSyntaxes {
            items: Items::of(text),
        }
    }
}

impl<'a> Iterator for TransferSyntaxes<'a> {
    type Item = &'a [u8];

    ghost use Rattle.pdu.specs.Remaining.{syntaxes_remaining};

    ghost next_gives = { YieldsFirstRef syntaxes_remaining };

    ghost remaining = { item_count syntaxes_remaining };

    fn next(&mut self) -> Option<&'a [u8]> {
        while let Some(item) = self.items.next() {
            if item.kind() == item_type::TRANSFER_SYNTAX {
                return Some(unpadded(item.content()));
            }
        }
        None
    }
}
