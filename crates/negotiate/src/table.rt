//! The table of accepted presentation contexts.
ghost use Rattle.std.specs.Prelude.{◌≡◌, [], ℕ};
ghost use Rattle.arrayvec.specs.ArrayVec.{array_vec_len};
ghost use Rattle.negotiate.specs.Contexts as spelling;
ghost use Rattle.negotiate.specs.ContextRows as rows;
ghost use Rattle.negotiate.specs.ContextRows.{accepted_count, context_in, context_rows};
ghost use Rattle.negotiate.specs.Settings.{settings_of};

use crate::config::Config;
use crate::proposals::{Context, Service, accepted};
use arrayvec::ArrayVec;
use dictionary::{Class, Transfer};
use element::Uid;
use pdu::Request;

/// The service of a row of the table, in two bytes.
#[derive(Clone, Copy, Debug, PartialEq, Eq)]
pub enum RowClass {
    /// A class of the dictionary.
    Known(Class),
    /// An additional storage class, by its index among those that the settings accept.
    Additional(u8),
}

/// An accepted presentation context, as a row of the table. It counts as 4 bytes of held memory.
#[derive(Clone, Copy, Debug, PartialEq, Eq)]
pub struct ContextRow {
    /// The presentation context ID.
    pub id: u8,
    /// The service, by its abstract syntax.
    pub class: RowClass,
    /// The transfer syntax of its data sets.
    pub syntax: Transfer,
}

impl Default for ContextRow {
    ghost use Rattle.negotiate.specs.ContextRows.{no_row};

    ghost is_default = { λ row. row ≡ no_row };

    /// Returns a row that matches no context: its ID is 0, and presentation context IDs are odd.
    fn default() -> ContextRow {
        ContextRow {
            id: 0,
            class: RowClass::Known(Class::Verification),
            syntax: Transfer::Implicit,
        }
    }
}

/// Returns the index, or 0 without one.
fn first(index: Option<u8>) -> u8
    ensures { result ≡ rows.or_first index }
{
    match index {
        Some(index) => index,
        None => 0,
    }
}

/// Returns the service as a row has it.
fn class_in_row(config: &Config, class: &Service) -> RowClass
    ensures { result ≡ rows.class_in_row (settings_of config.now).additional class.now }
{
    match class {
        Service::Known(class) => RowClass::Known(*class),
        Service::Additional(uid) => RowClass::Additional(first(config.class_index(uid))),
    }
}

/// Fills an empty table with a row for each accepted context of the request, in the request's
/// order. A request proposes at most 128 contexts, so they fit.
pub fn compact(config: &Config, request: &Request, table: &mut ArrayVec<ContextRow, 128>)
    requires { table.old.items ≡ [] }
    ensures rows { table.new.items ≡ context_rows (settings_of config.now).additional (spelling.offered (settings_of config.now).additional request.now) }
    ensures count { array_vec_len table.new ≡ accepted_count (spelling.offered (settings_of config.now).additional request.now) }
    ensures contexts { (id : ℕ) → context_in (settings_of config.now).additional table.new.items id ≡ spelling.context_of (spelling.offered (settings_of config.now).additional request.now) id }
{
    request.keeps();
    for proposal in request.contexts() {
        if let Some(Context { class, syntax }) = accepted(config, &proposal) {
            table.push(ContextRow {
                id: proposal.id(),
                class: class_in_row(config, &class),
                syntax,
            });
        }
    }
}

/// Returns the service of a row, or `None` if its index is invalid.
fn service_in(config: &Config, class: RowClass) -> Option<Service>
    ensures { result ≡ rows.service_in (settings_of config.now).additional class }
{
    match class {
        RowClass::Known(class) => Some(Service::Known(class)),
        RowClass::Additional(index) => match config.additional(index as usize) {
            Some(text) => match Uid::read(text) {
                Some(uid) => Some(Service::Additional(uid)),
                None => None,
            },
            None => None,
        },
    }
}

/// Returns the context with this ID in a table, or `None` if the table has none. For a table that
/// `compact` filled with the same settings, this is what `context` returns for the request.
pub fn context_of(config: &Config, table: &[ContextRow], id: u8) -> Option<Context>
    ensures { result ≡ context_in (settings_of config.now).additional table.now id }
{
    for row in table {
        if row.id == id {
            return match service_in(config, row.class) {
                Some(class) => Some(Context {
                    class,
                    syntax: row.syntax,
                }),
                None => None,
            };
        }
    }
    None
}
