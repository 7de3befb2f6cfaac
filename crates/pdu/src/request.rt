//! Reads association requests.
ghost use Rattle.std.specs.Prelude.{◌≡◌, ◌≤◌, ◌<◌, ◌↔◌, ◌+◌, length, take, drop, List, ℕ, IfOk, IfErr, IfSome, OnErr, None};
ghost use Rattle.pdu.specs.Items.{request_record, maximum_in, items_of};
ghost use Rattle.pdu.specs.Record.{RequestRecord};
ghost use Rattle.pdu.specs.Request.{RequestText, IsRequest};
ghost use Rattle.pdu.specs.Refusal.{RequestFault, request_fault};

use crate::checking::check_items;
use crate::contexts::Contexts;
use crate::fault::PduFault;
use crate::item::content_in;
use crate::item_type;
use byteorder::{BigEndian, ByteOrder};
use element::{AeTitle, unpadded};
use std::marker::Model;

/// A valid A-ASSOCIATE-RQ (PS3.8 section 9.3.2), which borrows from the body of the PDU.
#[derive(Drop)]
pub struct Request<'a> {
    version: u16,
    called: AeTitle,
    calling: AeTitle,
    reserved: &'a [u8],
    application_context: &'a [u8],
    maximum: u32,
    items: &'a [u8],
}

impl<'a> Model for Request<'a> {
    ghost use Rattle.pdu.specs.Record.{RequestRecord};
    ghost use Rattle.pdu.specs.Request.{IsRequest};

    ghost Value = { RequestRecord };

    ghost use Rattle.pdu.specs.machine.View.{asked};

    ghost view = { asked };

    ghost invariant = { λ r. IsRequest (asked r) };
}

impl<'a> Request<'a> {
    /// Does nothing. Its contract states what the type guarantees: 32 reserved bytes, and
    /// presentation context IDs that are odd and distinct, hence at most 128 contexts.
    pub fn keeps(&self)
        ensures request { IsRequest self.now }
        ensures few { length self.now.contexts ≤ 128 }
    {
        // The prover uses the guarantee of a type where a field is named.
        let _ = &self.reserved;
    }

    /// Returns the protocol version, a bit field whose bit 0 means version 1.
    pub fn version(&self) -> u16
        ensures { result ≡ self.now.version }
    {
        self.version
    }

    /// Returns the called AE title.
    pub fn called(&self) -> AeTitle
        ensures { result.0 ≡ self.now.called }
    {
        self.called
    }

    /// Returns the calling AE title.
    pub fn calling(&self) -> AeTitle
        ensures { result.0 ≡ self.now.calling }
    {
        self.calling
    }

    /// Returns the 32 reserved bytes after the titles, which an A-ASSOCIATE-AC repeats.
    pub fn reserved(&self) -> &'a [u8]
        ensures value { result.now ≡ self.now.reserved }
        ensures size { length result.now ≡ 32 }
    {
        self.reserved
    }

    /// Returns the application context name, without trailing zero bytes and spaces.
    pub fn application_context(&self) -> &'a [u8]
        ensures { result.now ≡ self.now.application_context }
    {
        self.application_context
    }

    ghost use Rattle.pdu.specs.Remaining.{proposals_remaining};

    /// Returns an iterator over the proposed presentation contexts in their order, at most 128.
    pub fn contexts(&self) -> Contexts<'a>
        ensures value { proposals_remaining result ≡ self.now.contexts }
        ensures few { length self.now.contexts ≤ 128 }
    {
        Contexts::of(self.items)
    }

    /// Returns the greatest length of a P-DATA-TF PDU that the peer receives, in bytes. It is 0, no
    /// limit, if the request has no maximum length or one of 0.
    pub fn maximum(&self) -> u32
        ensures { result ≡ self.now.maximum }
    {
        self.maximum
    }
}

/// The AE titles of a request.
#[derive(Clone, Copy, Debug)]
pub struct Titles {
    pub called: AeTitle,
    pub calling: AeTitle,
}

/// The number of bytes in the body of an A-ASSOCIATE-RQ up to the end of its AE titles.
pub const TITLES_END: usize = 36;

/// The number of bytes in the body of an A-ASSOCIATE-RQ before its first item.
const BEFORE_ITEMS: usize = 68;

/// Returns the AE titles in the body of an A-ASSOCIATE-RQ, even if it is invalid or unfinished, or
/// `None` if it ends before they do.
pub fn read_titles(body: &[u8]) -> Option<Titles>
    ensures called { IfSome result (λ t. t.called.0 ≡ (request_record body.now).called) }
    ensures calling { IfSome result (λ t. t.calling.0 ≡ (request_record body.now).calling) }
    ensures none { (result ≡ None) ↔ (length body.now < 36) }
{
    if body.len() < TITLES_END {
        return None;
    }
    let (called, calling) = (title_at(body, 4), title_at(body, 20));
    Some(Titles { called, calling })
}

/// Reads the body of an A-ASSOCIATE-RQ (PS3.8 section 9.3.2), the bytes after the head of the PDU.
/// Allocates nothing and takes time linear in the body. If the body is invalid, the error is the
/// first fault, in the order of its items.
pub fn read_request(body: &[u8]) -> Result<Request<'_>, PduFault>
    ensures record { IfOk result (λ r. r ≡ request_record body.now) }
    ensures text { IfOk result (λ r. RequestText r body.now) }
    ensures fault { IfErr result (λ f. RequestFault body.now f) }
    ensures only { OnErr result ((r : RequestRecord) → RequestText r body.now → ⊥) }
{
    if body.len() < BEFORE_ITEMS {
        return Err(PduFault::BadLength);
    }
    let (_, items) = body.split_at(BEFORE_ITEMS);
    match check_items(items) {
        Ok(()) => Ok(view(body)),
        Err(fault) => Err(fault),
    }
}

/// Returns the request of a valid body.
fn view<'a>(body: &'a [u8]) -> Request<'a>
    requires { request_fault body.now ≡ None }
    ensures { result ≡ request_record body.now }
{
    let (_fixed, items) = body.split_at(BEFORE_ITEMS);
    Request {
        version: BigEndian::read_u16(body),
        called: title_at(body, 4),
        calling: title_at(body, 20),
        reserved: &body[TITLES_END..BEFORE_ITEMS],
        application_context: unpadded(content_in(item_type::APPLICATION_CONTEXT, items)),
        maximum: maximum_of(items),
        items,
    }
}

/// Returns the AE title in the 16 bytes at the offset `offset`.
fn title_at(body: &[u8], offset: usize) -> AeTitle
    requires { offset + 16 ≤ length body.now }
    ensures { result.0 ≡ take 16 (drop offset body.now) }
{
    let mut title = [0; 16];
    title.copy_from_slice(&body[offset..offset + 16]);
    AeTitle(title)
}

/// Returns the maximum length in the user information, in bytes, or 0 if it is absent.
fn maximum_of(items: &[u8]) -> u32
    ensures { result ≡ maximum_in (items_of items.now) }
{
    let value = content_in(
        item_type::MAXIMUM_LENGTH,
        content_in(item_type::USER_INFORMATION, items),
    );
    if value.len() == 4 {
        BigEndian::read_u32(value)
    } else {
        0
    }
}
