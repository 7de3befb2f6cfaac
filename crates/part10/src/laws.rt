//! Lemmas on the definitions of this crate, and examples, each stated as the contract of a function
//! with an empty body.
ghost use Rattle.std.specs.Prelude.{◌≡◌, ◌^◌, ◌<◌, ◌≤◌, ℕ, List, length, true};
ghost use Rattle.element.specs.Uid.{is_uid};
ghost use Rattle.part10.specs.declared.meta.Meta as meta;
ghost use Rattle.part10.specs.File.{head, meta_group};
ghost use Rattle.part10.specs.MetaText.{OneHeader, OneVerdict, SpellsMeta, ConsumedOrFaulty, meta_values_of};
ghost use Rattle.part10.specs.Examples.{OneCtStore, NoHeaders, SyntaxIsSaid, least_group, least_header, least_said};

/// Example: the file of a CT image has the lengths that PS3.10 section 7.1 gives its parts.
pub fn one_ct_store()
    ensures { OneCtStore }
{}

/// Examples: files without `DICM` after the preamble, and files that end right after it, have no
/// File Meta Information.
pub fn no_headers()
    ensures { NoHeaders }
{}

/// The bytes that `meta_bytes` returns are valid File Meta Information with the contents from which
/// they were made.
pub fn written_headers_are_read()
    ensures { (m : meta.Meta) → is_uid m.class ≡ true → is_uid m.instance ≡ true → length m.calling.0 ≡ 16 → length (meta_group m) ≤ 360
        → SpellsMeta (meta_values_of m) (head m) }
{}

/// File Meta Information with only the required elements is valid, for each transfer syntax UID.
pub fn least_headers_are_read()
    ensures { (syntax : List ℕ) → is_uid syntax ≡ true → length (least_group syntax) < 2 ^ 32 → SpellsMeta (least_said syntax) (least_header syntax) }
{}

/// Example: for a reader of the native transfer syntaxes, File Meta Information with only the
/// required elements is accepted with Explicit VR Little Endian, and has the fault `OtherSyntax`
/// with JPEG Baseline.
pub fn other_syntax_is_a_fault()
    ensures { SyntaxIsSaid }
{}

/// A file determines the contents and the length of its File Meta Information.
pub fn one_header()
    ensures { OneHeader }
{}

/// The File Meta Information of every file is accepted or has a fault.
pub fn consumed_or_faulty()
    ensures { ConsumedOrFaulty }
{}

/// No file with a fault is accepted, and no file has two faults.
pub fn one_verdict()
    ensures { OneVerdict }
{}
