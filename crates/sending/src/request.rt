//! Writes A-ASSOCIATE-RQ (PS3.8 section 9.3.2).
ghost use Rattle.std.specs.Prelude.{◌≡◌, ◌+◌, ◌++◌, [], ◌∷◌, IfOk, IfSome};
ghost use Rattle.element.specs.Numbers.{be};
ghost use Rattle.pdu.specs.Types.{associate_rq};
ghost use Rattle.negotiate.specs.Accept.{item_text, user_text};
ghost use Rattle.sending.specs.Requesting.{proposal_text, request_items, request_text};

use crate::context::StorageContext;
use arrayvec::ArrayVec;
use byteorder::{BigEndian, ByteOrder};
use dictionary::{APPLICATION_CONTEXT, IMPLEMENTATION_CLASS_UID, IMPLEMENTATION_VERSION_NAME};
use element::AeTitle;
use negotiate::extend_by_item;
use pdu::{item_type, pdu_type};
use std::alloc::{AllocError, Allocator};

/// The AE titles of an association.
#[derive(Clone, Copy)]
pub struct Titles {
    pub called: AeTitle,
    pub calling: AeTitle,
}

/// The greatest length of a P-DATA-TF PDU that is received: responses are short.
const MAXIMUM: u32 = 16384;

/// The number of bytes in the body of an A-ASSOCIATE-RQ before its first item.
const BEFORE_ITEMS: usize = 68;

/// The contents of an item, at most 252 bytes: UIDs of at most 64 bytes each, with 12 bytes more.
type Content = ArrayVec<u8, 252>;

/// An item, with its head of four bytes.
type Item = ArrayVec<u8, 256>;

/// Returns the item of this type with this content.
fn item_with(kind: u8, content: &Content) -> Item
    ensures { result.items ≡ item_text kind content.now.items }
{
    let mut item = Item::new();
    extend_by_item(&mut item, kind, content.as_slice());
    item
}

/// Returns the item that proposes a presentation context (PS3.8 section 9.3.2.2).
#[tactic(auto, using(dictionary::proofs::Public::transfer_short))]
fn context_item(context: &StorageContext) -> Item
    ensures { result.items ≡ proposal_text context.now }
{
    // `len` ensures that it is a UID.
    context.class.len();
    let mut content = Content::new();
    let _id = content.try_extend_from_slice(&[context.id(), 0, 0, 0]);
    extend_by_item(
        &mut content,
        item_type::ABSTRACT_SYNTAX,
        context.class.as_bytes(),
    );
    extend_by_item(
        &mut content,
        item_type::TRANSFER_SYNTAX,
        context.syntax.uid(),
    );
    item_with(item_type::PROPOSED_CONTEXT, &content)
}

/// Returns the user information (PS3.8 section 9.3.2.3).
fn user_item() -> Item
    ensures { result.items ≡ user_text 16384 }
{
    let mut maximum = [0; 4];
    BigEndian::write_u32(&mut maximum, MAXIMUM);
    let mut content = Content::new();
    extend_by_item(&mut content, item_type::MAXIMUM_LENGTH, &maximum);
    extend_by_item(
        &mut content,
        item_type::IMPLEMENTATION_CLASS_UID,
        IMPLEMENTATION_CLASS_UID,
    );
    extend_by_item(
        &mut content,
        item_type::IMPLEMENTATION_VERSION_NAME,
        IMPLEMENTATION_VERSION_NAME,
    );
    item_with(item_type::USER_INFORMATION, &content)
}

/// Returns the items of an A-ASSOCIATE-RQ.
fn items_of<A: Allocator>(alloc: A, contexts: &[StorageContext]) -> Result<Vec<u8, A>, AllocError>
    ensures { IfOk result (λ items. items.items ≡ request_items contexts.now) }
{
    let mut items = Vec::new(alloc);
    let mut application = Item::new();
    extend_by_item(
        &mut application,
        item_type::APPLICATION_CONTEXT,
        APPLICATION_CONTEXT,
    );
    items.extend_from_slice(application.as_slice())?;
    for context in contexts {
        items.extend_from_slice(context_item(context).as_slice())?;
    }
    items.extend_from_slice(user_item().as_slice())?;
    Ok(items)
}

/// Returns the size in bytes of the body of an A-ASSOCIATE-RQ whose items have this size, or `None` if
/// its length field cannot have it.
fn body_size(items: usize) -> Option<u32>
    ensures { IfSome result (λ size. size ≡ items + 68) }
{
    u32::try_from(items.checked_add(BEFORE_ITEMS)?).ok()
}

/// Returns the head of an A-ASSOCIATE-RQ, and the first bytes of its body: protocol version 1, and two
/// reserved bytes.
fn request_head(size: u32) -> [u8; 10]
    ensures { result ≡ associate_rq ∷ 0 ∷ (be size 4 ++ 0 ∷ 1 ∷ 0 ∷ 0 ∷ []) }
{
    let mut head = [0u8; 10];
    head[0] = pdu_type::A_ASSOCIATE_RQ;
    BigEndian::write_u32(&mut head[2..6], size);
    head[7] = 1;
    head
}

/// Returns the A-ASSOCIATE-RQ with these presentation contexts. Fails if memory runs out.
pub fn request_pdu<A: Allocator + Copy>(
    alloc: A,
    titles: Titles,
    contexts: &[StorageContext],
) -> Result<Vec<u8, A>, AllocError>
    ensures { IfOk result (λ pdu. pdu.items ≡ request_text titles.called.0 titles.calling.0 contexts.now) }
{
    let items = items_of(alloc, contexts)?;
    let Some(size) = body_size(items.len()) else {
        return Err(AllocError);
    };
    let mut pdu = Vec::new(alloc);
    pdu.extend_from_slice(&request_head(size))?;
    pdu.extend_from_slice(&titles.called.0)?;
    pdu.extend_from_slice(&titles.calling.0)?;
    pdu.extend_from_slice(&[0; 32])?;
    pdu.extend_from_slice(items.as_slice())?;
    Ok(pdu)
}
