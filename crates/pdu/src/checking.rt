//! Checks the items of an association request.
ghost use Rattle.std.specs.Prelude.{◌≡◌, [], ◌∷◌, ℕ, List, true, OnOk, IfOk, Err};
ghost use Rattle.pdu.specs.Items.{kind, is_kind};
ghost use Rattle.pdu.specs.Types.{application_context_item, proposed_context_item, user_information_item};
ghost use Rattle.pdu.specs.Refusal.{id_of, as_result, application_fault, context_fault, context_part_fault, ending_fault, information_fault, information_part_fault, item_fault, items_fault};

use crate::fault::PduFault;
use crate::item::{Item, content_in, count_of, first_item, is_whole};
use crate::item_type;

/// The items of a request that were checked so far: whether there was an application context, user
/// information and a proposed presentation context, and the presentation context IDs.
#[derive(Drop)]
pub struct ItemsSoFar {
    application: bool,
    information: bool,
    context: bool,
    ids: [bool; 256],
}

impl ItemsSoFar {
    ghost use Rattle.pdu.specs.machine.SoFar.{Knows};

    /// Returns the state before the first item.
    pub fn new() -> ItemsSoFar
        ensures { Knows result [] }
    {
        ItemsSoFar {
            application: false,
            information: false,
            context: false,
            ids: [false; 256],
        }
    }

    /// Checks the next item and records it. If it has several faults, returns the one with the
    /// smallest number. Items other than application context, proposed presentation context and
    /// user information are ignored.
    #[tactic(auto, unfolding(crate::specs::Refusal::item_fault))]
    pub fn check_item(&mut self, item: Item<'_>) -> Result<(), PduFault>
        ensures fault { (before : List (List ℕ)) → Knows self.old before → result ≡ as_result (item_fault before item.entry.bytes.now) }
        ensures keeps { (before : List (List ℕ)) → Knows self.old before → OnOk result (Knows self.new (item.entry.bytes.now ∷ before)) }
    {
        match item.kind() {
            item_type::APPLICATION_CONTEXT => self.check_application(item),
            item_type::PROPOSED_CONTEXT => self.check_context(item),
            item_type::USER_INFORMATION => self.check_information(item),
            _ => Ok(()),
        }
    }

    /// Checks that this application context item is the first; a second one is `BadItem`.
    fn check_application(&mut self, item: Item<'_>) -> Result<(), PduFault>
        requires { kind item.bytes.now ≡ application_context_item }
        ensures fault { (before : List (List ℕ)) → Knows self.old before → result ≡ as_result (application_fault before) }
        ensures keeps { (before : List (List ℕ)) → Knows self.old before → OnOk result (Knows self.new (item.entry.bytes.now ∷ before)) }
    {
        if self.application {
            return Err(PduFault::BadItem);
        }
        self.application = true;
        Ok(())
    }

    /// Checks the sub-items of a user information item, and that it is the first; a second one is
    /// `BadItem`.
    fn check_information(&mut self, item: Item<'_>) -> Result<(), PduFault>
        requires { kind item.bytes.now ≡ user_information_item }
        ensures fault { (before : List (List ℕ)) → Knows self.old before → result ≡ as_result (information_fault before item.entry.bytes.now) }
        ensures keeps { (before : List (List ℕ)) → Knows self.old before → OnOk result (Knows self.new (item.entry.bytes.now ∷ before)) }
    {
        check_information_parts(item.content())?;
        if self.information {
            return Err(PduFault::BadItem);
        }
        self.information = true;
        Ok(())
    }

    /// Checks the contents of a proposed presentation context item, and that no earlier item has
    /// its ID, which is `DoubleContext`.
    fn check_context(&mut self, item: Item<'_>) -> Result<(), PduFault>
        requires { kind item.bytes.now ≡ proposed_context_item }
        ensures fault { (before : List (List ℕ)) → Knows self.old before → result ≡ as_result (context_fault before item.entry.bytes.now) }
        ensures keeps { (before : List (List ℕ)) → Knows self.old before → OnOk result (Knows self.new (item.entry.bytes.now ∷ before)) }
    {
        check_context_parts(item)?;
        let id = usize::from(item.bytes()[4]);
        if self.ids[id] {
            return Err(PduFault::DoubleContext);
        }
        self.context = true;
        self.ids[id] = true;
        Ok(())
    }

    /// Checks that the items are complete: bytes after the last whole item are `BadLength`; a
    /// missing application context, proposed presentation context or user information is `Missing`.
    pub fn check_end(&self, rest: &[u8]) -> Result<(), PduFault>
        ensures { (before : List (List ℕ)) → Knows self.now before → result ≡ as_result (ending_fault before rest.now) }
    {
        if !rest.is_empty() {
            Err(PduFault::BadLength)
        } else if self.application && self.context && self.information {
            Ok(())
        } else {
            Err(PduFault::Missing)
        }
    }
}

/// Checks the sub-items of user information (PS3.8 annex D.1). A sub-item that passes the end is
/// `BadLength`; a second maximum length, or one that is not of four bytes, is `BadItem`.
fn check_information_parts(parts: &[u8]) -> Result<(), PduFault>
    ensures { result ≡ as_result (information_part_fault parts.now) }
{
    if !is_whole(parts) {
        return Err(PduFault::BadLength);
    }
    let count = count_of(item_type::MAXIMUM_LENGTH, parts);
    if count == 0 || count == 1 && content_in(item_type::MAXIMUM_LENGTH, parts).len() == 4 {
        Ok(())
    } else {
        Err(PduFault::BadItem)
    }
}

/// Checks the contents of a proposed presentation context (PS3.8 section 9.3.2.2). Without its ID
/// and three reserved bytes, or with a sub-item that passes the end, it is `BadLength`; without
/// exactly one abstract syntax and at least one transfer syntax, `BadItem`; with an even ID,
/// `BadContextId`.
fn check_context_parts(item: Item<'_>) -> Result<(), PduFault>
    requires { kind item.bytes.now ≡ proposed_context_item }
    ensures { result ≡ as_result (context_part_fault item.entry.bytes.now) }
{
    if !item.is_context() {
        return Err(PduFault::BadLength);
    }
    let bytes = item.bytes();
    let (front, parts) = bytes.split_at(8);
    if !is_whole(parts) {
        return Err(PduFault::BadLength);
    }
    if count_of(item_type::ABSTRACT_SYNTAX, parts) != 1
        || count_of(item_type::TRANSFER_SYNTAX, parts) == 0
    {
        return Err(PduFault::BadItem);
    }
    if front[4] % 2 == 0 {
        return Err(PduFault::BadContextId);
    }
    Ok(())
}

/// Checks the items of a request in order, and then that none is missing. The error is the first
/// fault.
pub fn check_items(text: &[u8]) -> Result<(), PduFault>
    ensures { result ≡ as_result (items_fault text.now) }
{
    let mut so_far = ItemsSoFar::new();
    let mut rest = text;
    while let Some((item, more)) = first_item(rest) {
        so_far.check_item(item)?;
        rest = more;
    }
    so_far.check_end(rest)
}
