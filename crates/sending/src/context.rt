//! Presentation contexts of an association for storage.
ghost use Rattle.std.specs.Prelude.{◌≡◌, ◌+◌, ◌*◌, ◌<◌, true};
ghost use Rattle.element.specs.Uid.{is_uid};
ghost use Rattle.dictionary.specs.Classes.{class_uid};
ghost use Rattle.dictionary.specs.declared.class.Class.TheVariants.{Verification};

use dictionary::{Class, Transfer};
use element::Uid;

/// The most presentation contexts of an association: their IDs are odd and below 256 (PS3.8 section
/// 9.3.2.2).
pub const MOST_CONTEXTS: usize = 128;

/// A presentation context that proposes an SOP class in one transfer syntax, so that a data set is
/// sent as it is in its file.
#[derive(Drop)]
pub struct StorageContext {
    /// Which of the proposed presentation contexts of an association this is, from 0 to 127.
    index: u8,
    pub class: Uid,
    pub syntax: Transfer,
    ghost few: { index < 128 },
}

/// Returns the UID of the Verification SOP Class.
pub(crate) fn verification() -> Uid
    ensures value { result ≡ class_uid Verification }
    ensures valid { is_uid result ≡ true }
{
    match Uid::read(Class::Verification.uid()) {
        Some(uid) => uid,
        None => unreachable!(),
    }
}

impl StorageContext {
    /// Creates the presentation context with this index.
    pub fn new(index: u8, class: Uid, syntax: Transfer) -> StorageContext
        requires { index < 128 }
    {
        StorageContext {
            index,
            class,
            syntax,
        }
    }

    /// Creates the presentation context of the Verification SOP Class, in the default transfer syntax.
    pub fn of_verification() -> StorageContext {
        StorageContext::new(0, verification(), Transfer::Implicit)
    }

    /// Returns which of the proposed presentation contexts this is, from 0.
    pub(crate) fn index(&self) -> usize
        ensures same { result ≡ self.now.index }
        ensures few { result < 128 }
    {
        usize::from(self.index)
    }

    /// Returns the presentation context ID.
    pub(crate) fn id(&self) -> u8
        ensures { result ≡ 2 * self.now.index + 1 }
    {
        2 * self.index + 1
    }
}
