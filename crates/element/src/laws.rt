//! Lemmas on the constants of `Tag` and `Vr`, each stated as the contract of a function without
//! effect.
ghost use Rattle.std.specs.Prelude.{◌≡◌, [], ◌∷◌, codes};
ghost use Rattle.element.specs.Header.{item_end_tag, item_tag, sequence_end_tag};

use crate::{Tag, Vr};

/// The constants of [`Tag`] equal the tags of items and delimitations in the definitions.
pub fn tags_are_those_of_items()
    ensures item { Tag.ITEM ≡ item_tag }
    ensures item_end { Tag.ITEM_DELIMITATION ≡ item_end_tag }
    ensures sequence_end { Tag.SEQUENCE_DELIMITATION ≡ sequence_end_tag }
{}

/// Returns the constants [`Vr::AE`], CS, LO, PN, SH and UI: each has the two letters of its name.
pub fn text_vrs() -> [Vr; 6]
    ensures { result ≡ codes "AE" ∷ codes "CS" ∷ codes "LO" ∷ codes "PN" ∷ codes "SH" ∷ codes "UI" ∷ [] }
{
    [Vr::AE, Vr::CS, Vr::LO, Vr::PN, Vr::SH, Vr::UI]
}

/// Returns the constants [`Vr::AS`], DA, DS, IS and TM: each has the two letters of its name.
pub fn date_vrs() -> [Vr; 5]
    ensures { result ≡ codes "AS" ∷ codes "DA" ∷ codes "DS" ∷ codes "IS" ∷ codes "TM" ∷ [] }
{
    [Vr::AS, Vr::DA, Vr::DS, Vr::IS, Vr::TM]
}

/// Returns the constants [`Vr::AT`], FD, FL, SL, SS, SV, UL, US and UV: each has the two letters of
/// its name.
pub fn number_vrs() -> [Vr; 9]
    ensures { result ≡ codes "AT" ∷ codes "FD" ∷ codes "FL" ∷ codes "SL" ∷ codes "SS" ∷ codes "SV" ∷ codes "UL" ∷ codes "US" ∷ codes "UV" ∷ [] }
{
    [
        Vr::AT,
        Vr::FD,
        Vr::FL,
        Vr::SL,
        Vr::SS,
        Vr::SV,
        Vr::UL,
        Vr::US,
        Vr::UV,
    ]
}

/// Returns the constants [`Vr::OB`], OD, OF, OL, OV, OW and SQ: each has the two letters of its
/// name.
pub fn other_vrs() -> [Vr; 7]
    ensures { result ≡ codes "OB" ∷ codes "OD" ∷ codes "OF" ∷ codes "OL" ∷ codes "OV" ∷ codes "OW" ∷ codes "SQ" ∷ [] }
{
    [Vr::OB, Vr::OD, Vr::OF, Vr::OL, Vr::OV, Vr::OW, Vr::SQ]
}
