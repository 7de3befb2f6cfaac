//! Groups the VRs by the rules for their values.
ghost use Rattle.std.specs.Prelude.{◌≡◌, nat_eq};
ghost use Rattle.std.specs.List.{list_any};
ghost use Rattle.std.specs.Cmp.Lexicographic.{pointwise};
ghost use Rattle.element.specs.Kinds as rules;

use crate::Vr;

/// A group of VRs whose values obey the same rules (PS3.5 section 6.2).
#[derive(Clone, Copy)]
pub(crate) enum Kind {
    /// Binary values of two bytes each: US, SS, OW.
    Words,
    /// Binary values of four bytes each: UL, SL, FL, AT, OL, OF.
    Longs,
    /// Binary values of eight bytes each: FD, SV, UV, OD, OV.
    Duplicates,
    Title,
    Code,
    Date,
    Time,
    Age,
    Integer,
    Decimal,
    Identifier,
    /// Every other VR. Its values are not checked.
    Free,
}

fn is_one_of(vr: Vr, names: &[Vr]) -> bool
    ensures { result ≡ list_any (pointwise nat_eq vr) names.now }
{
    names.iter().any(|name| vr == *name)
}

/// Returns the group of a VR other than those of `Words`, `Longs` and `Duplicates`.
fn kind_of_text(vr: Vr) -> Kind
    ensures { result ≡ rules.kind_of_text vr }
{
    if vr == Vr::AE {
        Kind::Title
    } else if vr == Vr::CS {
        Kind::Code
    } else if vr == Vr::DA {
        Kind::Date
    } else if vr == Vr::TM {
        Kind::Time
    } else if vr == Vr::AS {
        Kind::Age
    } else if vr == Vr::IS {
        Kind::Integer
    } else if vr == Vr::DS {
        Kind::Decimal
    } else if vr == Vr::UI {
        Kind::Identifier
    } else {
        Kind::Free
    }
}

/// Returns whether a VR has binary values of two bytes each.
fn is_words(vr: Vr) -> bool
    ensures { result ≡ rules.is_words vr }
{
    is_one_of(vr, &[Vr::US, Vr::SS, Vr::OW])
}

/// Returns whether a VR has binary values of four bytes each.
fn is_longs(vr: Vr) -> bool
    ensures { result ≡ rules.is_longs vr }
{
    is_one_of(vr, &[Vr::UL, Vr::SL, Vr::FL, Vr::AT, Vr::OL, Vr::OF])
}

/// Returns whether a VR has binary values of eight bytes each.
fn is_duplicates(vr: Vr) -> bool
    ensures { result ≡ rules.is_duplicates vr }
{
    is_one_of(vr, &[Vr::FD, Vr::SV, Vr::UV, Vr::OD, Vr::OV])
}

/// Returns the group that a VR belongs to.
pub(crate) fn kind_of(vr: Vr) -> Kind
    ensures { result ≡ rules.kind_of vr }
{
    if is_words(vr) {
        Kind::Words
    } else if is_longs(vr) {
        Kind::Longs
    } else if is_duplicates(vr) {
        Kind::Duplicates
    } else {
        kind_of_text(vr)
    }
}
