//! The native transfer syntaxes and the application context.
ghost use Rattle.std.specs.Prelude.{◌≡◌};
ghost use Rattle.std.specs.List.{find};
ghost use Rattle.dictionary.specs.Syntaxes as table;

use element::{Syntax, unpadded};

/// The DICOM application context name (PS3.7 annex A).
pub const APPLICATION_CONTEXT: &[u8] = b"1.2.840.10008.3.1.1.1";

/// Returns the UID of a native transfer syntax (PS3.5 annex A).
pub fn syntax_uid(syntax: Syntax) -> &'static [u8]
    ensures { result.now ≡ table.syntax_uid syntax }
{
    match syntax {
        Syntax::Implicit => b"1.2.840.10008.1.2",
        Syntax::Explicit => b"1.2.840.10008.1.2.1",
    }
}

fn first_named(syntaxes: &[Syntax], text: &[u8]) -> Option<Syntax>
    ensures { result ≡ find (table.is_named text.now) syntaxes.now }
{
    syntaxes
        .iter()
        .copied()
        .find(|syntax| syntax_uid(*syntax) == text)
}

/// Returns the native transfer syntax with this UID, or `None` for any other UID. Ignores trailing
/// spaces and zero bytes.
#[tactic(auto, unfolding(crate::specs::Syntaxes::syntax_named))]
pub fn syntax_of(bytes: &[u8]) -> Option<Syntax>
    ensures { result ≡ table.syntax_of bytes.now }
{
    first_named(&[Syntax::Implicit, Syntax::Explicit], unpadded(bytes))
}
