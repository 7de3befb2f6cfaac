//! A proposed presentation context.
ghost use Rattle.std.specs.Prelude.{◌≡◌, true};
ghost use Rattle.pdu.specs.Items.{is_context, proposal_of};

use crate::item::{Item, content_in};
use crate::item_type;
use crate::syntaxes::TransferSyntaxes;
use element::unpadded;
use std::marker::Model;

/// A presentation context that a request proposes (PS3.8 section 9.3.2.2), which borrows from the
/// body of the request.
#[derive(Drop)]
pub struct Proposal<'a> {
    id: u8,
    abstract_name: &'a [u8],
    parts: &'a [u8],
}

impl<'a> Model for Proposal<'a> {
    ghost use Rattle.pdu.specs.Record as asked;
    ghost use Rattle.pdu.specs.Items.{items_of, syntaxes};

    ghost Value = { asked.Proposal };

    ghost view = { λ p. record { id = p.id; abstract_syntax = p.abstract_name.now; transfer_syntaxes = syntaxes (items_of p.parts.now) } };
}

impl<'a> Proposal<'a> {
    /// Returns the presentation context in an item of type 20H.
    pub(crate) fn of(item: Item<'a>) -> Proposal<'a>
        requires { is_context item.bytes.now ≡ true }
        ensures { result ≡ proposal_of item.entry.bytes.now }
    {
        let bytes = item.bytes();
        let parts = &bytes[8..];
        Proposal {
            id: bytes[4],
            abstract_name: unpadded(content_in(item_type::ABSTRACT_SYNTAX, parts)),
            parts,
        }
    }

    /// Returns the presentation context ID.
    pub fn id(&self) -> u8
        ensures { result ≡ self.now.id }
    {
        self.id
    }

    /// Returns the abstract syntax, without trailing zero bytes and spaces.
    pub fn abstract_syntax(&self) -> &'a [u8]
        ensures { result.now ≡ self.now.abstract_syntax }
    {
        self.abstract_name
    }

    ghost use Rattle.pdu.specs.Remaining.{syntaxes_remaining};

    /// Returns an iterator over the proposed transfer syntaxes, in order.
    pub fn transfer_syntaxes(&self) -> TransferSyntaxes<'a>
        ensures { syntaxes_remaining result ≡ self.now.transfer_syntaxes }
    {
        TransferSyntaxes::of(self.parts)
    }
}
