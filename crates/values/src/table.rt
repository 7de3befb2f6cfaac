//! The rules of each VR (PS3.5 table 6.2-1), and the check of values against them.
ghost use Rattle.std.specs.Prelude.{◌≡◌, ◌≤◌, Some, None, MatchResult};
ghost use Rattle.std.specs.List.{list_all, slice_split};
ghost use Rattle.element.specs.Kinds as kinds;
ghost use Rattle.element.specs.Values.{is_backslash};
ghost use Rattle.values.specs.Forms as forms;

use crate::fault::FormFault;
use crate::rule::{FormRule, obeys};
use element::Vr;

/// Returns the rules of a VR with numbers, dates or times in text: DA, DS, DT, IS or TM; none for
/// any other VR.
fn rules_of_spelled(letters: [u8; 2]) -> &'static [FormRule]
    ensures { result.now ≡ forms.rules_of_spelled letters }
{
    if letters == *b"DA" {
        &[FormRule::AtMost(8), FormRule::Day]
    } else if letters == *b"DS" {
        &[FormRule::AtMost(16), FormRule::Decimal]
    } else if letters == *b"DT" {
        &[
            FormRule::AtMost(26),
            FormRule::DayOfMoment,
            FormRule::ClockOfMoment,
            FormRule::OffsetOfMoment,
        ]
    } else if letters == *b"IS" {
        &[FormRule::AtMost(12), FormRule::Integer, FormRule::Range]
    } else if letters == *b"TM" {
        &[FormRule::AtMost(14), FormRule::Clock]
    } else {
        &[]
    }
}

/// Returns the rules of a VR whose elements may have several values, separated by backslash.
fn rules_of_string(letters: [u8; 2]) -> &'static [FormRule]
    ensures { result.now ≡ forms.rules_of_string letters }
{
    if letters == *b"AE" {
        &[FormRule::AtMost(16), FormRule::Title]
    } else if letters == *b"CS" {
        &[FormRule::AtMost(16)]
    } else if letters == *b"LO" {
        &[FormRule::AtMost(64), FormRule::String]
    } else if letters == *b"PN" {
        &[FormRule::GroupsAtMost(64), FormRule::String, FormRule::Name]
    } else if letters == *b"SH" {
        &[FormRule::AtMost(16), FormRule::String]
    } else if letters == *b"UC" {
        &[FormRule::String]
    } else {
        rules_of_spelled(letters)
    }
}

/// Returns the rules of the VR with these two letters; none for a VR that is not checked.
fn rules_of(letters: [u8; 2]) -> &'static [FormRule]
    ensures { result.now ≡ forms.rules_of letters }
{
    if letters == *b"LT" {
        &[FormRule::AtMost(10240), FormRule::Lines]
    } else if letters == *b"ST" {
        &[FormRule::AtMost(1024), FormRule::Lines]
    } else if letters == *b"UT" {
        &[FormRule::Lines]
    } else if letters == *b"UR" {
        &[FormRule::Locator]
    } else {
        rules_of_string(letters)
    }
}

/// Returns whether elements of this VR have a single value, in which a backslash is an ordinary
/// character.
fn is_single(letters: [u8; 2]) -> bool
    ensures { result ≡ forms.is_single letters }
{
    letters == *b"LT" || letters == *b"ST" || letters == *b"UT" || letters == *b"UR"
}

/// Returns the value without one trailing space, which may be padding.
fn without_last_space(value: &[u8]) -> &[u8]
    ensures { result.now ≡ forms.without_last_space value.now }
{
    let size = value.len();
    if size >= 1 && value[size - 1] == b' ' {
        &value[..size - 1]
    } else {
        value
    }
}

fn each_part_obeys(rule: FormRule, text: &[u8]) -> bool
    ensures { result ≡ list_all (forms.obeys rule) (slice_split is_backslash text.now) }
{
    text.split(|byte| *byte == b'\\')
        .all(|part| obeys(rule, part))
}

/// Returns whether each value of an element of this VR obeys a rule.
fn value_obeys(letters: [u8; 2], rule: FormRule, text: &[u8]) -> bool
    ensures { result ≡ forms.value_obeys letters rule text.now }
{
    if is_single(letters) {
        obeys(rule, text)
    } else {
        each_part_obeys(rule, text)
    }
}

/// Returns the fault of the first of these rules that a value of the element breaks, or `None`.
fn first_broken(letters: [u8; 2], rules: &[FormRule], text: &[u8]) -> Option<FormFault>
    ensures { result ≡ forms.first_broken letters rules.now text.now }
{
    for rule in rules {
        if !value_obeys(letters, *rule, text) {
            return Some(rule.fault());
        }
    }
    None
}

/// Checks the values of an element by the rules of its VR (PS3.5 table 6.2-1). The text must have
/// one byte for each character, as [`Reading`](crate::Reading) returns it. The error is the fault
/// of the first rule that any of the values breaks.
#[tactic(auto, unfolding(crate::specs::Forms::form_fault))]
pub fn check_form(vr: Vr, text: &[u8]) -> Result<(), FormFault>
    ensures { MatchResult result (λ _. forms.form_fault vr text.now ≡ None) (λ fault. forms.form_fault vr text.now ≡ Some fault) }
{
    let letters = vr.letters();
    match first_broken(letters, rules_of(letters), without_last_space(text)) {
        None => Ok(()),
        Some(fault) => Err(fault),
    }
}

fn is_among(names: &[Vr], vr: Vr) -> bool
    ensures { result ≡ kinds.is_one_of names.now vr }
{
    names.iter().any(|name| vr == *name)
}

/// Returns the size in bytes of one value of a binary VR, 2, 4 or 8, or 1 for any other VR.
pub fn number_size(vr: Vr) -> usize
    ensures size { result ≡ forms.number_size vr }
    ensures some { 1 ≤ result }
{
    if is_among(&[Vr::US, Vr::SS, Vr::OW], vr) {
        2
    } else if is_among(&[Vr::UL, Vr::SL, Vr::FL, Vr::AT, Vr::OL, Vr::OF], vr) {
        4
    } else if is_among(&[Vr::FD, Vr::SV, Vr::UV, Vr::OD, Vr::OV], vr) {
        8
    } else {
        1
    }
}
