//! Lemmas on the tables, each stated as the contract of a function with an empty body.
ghost use Rattle.std.specs.Prelude.{◌≡◌, ◌≢◌, ◌≤◌, ℕ, List, Some, None, length, option_and_then};
ghost use Rattle.element.specs.declared.syntax.Syntax as element;
ghost use Rattle.dictionary.specs.Classes.{class_of, class_uid};
ghost use Rattle.dictionary.specs.Implementation.{implementation_class_uid, implementation_version_name};
ghost use Rattle.dictionary.specs.StorageClasses.{storage_classes};
ghost use Rattle.dictionary.specs.Syntaxes.{application_context, syntax_of, syntax_uid};
ghost use Rattle.dictionary.specs.Transfers.{all_transfers, native, native_of, syntax_in, transfer_named, transfer_of, transfer_uid};
ghost use Rattle.dictionary.specs.declared.class.Class as class;
ghost use Rattle.dictionary.specs.declared.transfer.Transfer.{Transfer};

use crate::{APPLICATION_CONTEXT, IMPLEMENTATION_CLASS_UID, IMPLEMENTATION_VERSION_NAME};

/// The UID of each `Class` and of each native transfer syntax is read back as that class or syntax.
pub fn identifiers_name_one()
    ensures classes { (c : class.Class) → class_of (class_uid c) ≡ Some c }
    ensures syntaxes { (s : element.Syntax) → syntax_of (syntax_uid s) ≡ Some s }
{}

/// `APPLICATION_CONTEXT` equals the application context name in the definitions.
pub fn application_context_is_named()
    ensures { APPLICATION_CONTEXT.now ≡ application_context }
{}

/// The names of this implementation equal those in the definitions.
pub fn implementation_is_named()
    ensures class { IMPLEMENTATION_CLASS_UID.now ≡ implementation_class_uid }
    ensures version { IMPLEMENTATION_VERSION_NAME.now ≡ implementation_version_name }
{}

/// The table of storage classes has 177 rows.
pub fn storage_classes_are_few()
    ensures { length storage_classes ≡ 177 }
{}

/// The UID of each transfer syntax is read back as that syntax, and no other text is. The native
/// ones are the two of `syntax_of`, with the same UIDs and layouts.
pub fn transfers_name_one()
    ensures names { (t : Transfer) → transfer_of (transfer_uid t) ≡ Some t }
    ensures texts { (text : List ℕ) (t : Transfer) → transfer_named text ≡ Some t → text ≡ transfer_uid t }
    ensures others { (text : List ℕ) → transfer_named text ≡ None → (t : Transfer) → text ≢ transfer_uid t }
    ensures native { (bytes : List ℕ) → option_and_then native_of (transfer_of bytes) ≡ syntax_of bytes }
    ensures uids { (s : element.Syntax) → transfer_uid (native s) ≡ syntax_uid s }
    ensures layouts { (s : element.Syntax) → syntax_in (native s) ≡ s }
{}

/// The table of transfer syntaxes has 26 rows, with UIDs of at most 23 bytes.
pub fn transfers_are_few()
    ensures rows { length all_transfers ≡ 26 }
    ensures short { (t : Transfer) → length (transfer_uid t) ≤ 23 }
{}
