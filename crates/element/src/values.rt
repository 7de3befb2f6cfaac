//! Checks values against their VR.
ghost use Rattle.std.specs.Prelude.{◌≡◌, Some, None, MatchResult};
ghost use Rattle.std.specs.List.{list_all, slice_split};
ghost use Rattle.element.specs.Values as rules;

use crate::Vr;
use crate::kinds::{Kind, kind_of};
use crate::padding::trimmed;
use crate::parts::{PartRule, obeys};
use std::fmt;

/// The rule of its VR that a value breaks. In a value field of several values, separated by
/// backslash, at least one value breaks the rule.
#[derive(Clone, Copy, Debug, PartialEq, Eq)]
pub enum ValueFault {
    /// 1: a value has a character that its VR does not allow.
    BadCharacter,
    /// 2: the length of a binary value field is not a multiple of its value size, or a date (DA)
    /// does not have 8 bytes, or an age (AS) 4.
    WrongSize,
    /// 3: a value is longer than its VR allows.
    TooLongValue,
    /// 4: a component of a unique identifier is empty, or begins with 0 and is not `0`.
    BadUid,
}

impl ValueFault {
    /// Returns the number of the fault, from 1 to 4.
    pub fn number(self) -> u8
        ensures { result ≡ rules.fault_number self }
    {
        match self {
            ValueFault::BadCharacter => 1,
            ValueFault::WrongSize => 2,
            ValueFault::TooLongValue => 3,
            ValueFault::BadUid => 4,
        }
    }

    /// Returns the printed name of the fault, which is that of the variant.
    pub fn name(self) -> &'static str
        ensures { result.now ≡ rules.fault_name self }
    {
        match self {
            ValueFault::BadCharacter => "BadCharacter",
            ValueFault::WrongSize => "WrongSize",
            ValueFault::TooLongValue => "TooLongValue",
            ValueFault::BadUid => "BadUid",
        }
    }
}

impl fmt::Display for ValueFault {
    fn fmt<W: fmt::Write>(&self, f: &mut fmt::Formatter<W>) -> fmt::Result {
        f.write_str(self.name())
    }
}

fn without_last_zero(value: &[u8]) -> &[u8]
    ensures { result.now ≡ rules.without_last_zero value.now }
{
    let size = value.len();
    if size > 0 && value[size - 1] == 0 {
        &value[..size - 1]
    } else {
        value
    }
}

fn content(kind: Kind, value: &[u8]) -> &[u8]
    ensures { result.now ≡ rules.content kind value.now }
{
    match kind {
        Kind::Identifier => without_last_zero(value),
        _ => value,
    }
}

fn part_text(kind: Kind, part: &[u8]) -> &[u8]
    ensures { result.now ≡ rules.part_text kind part.now }
{
    match kind {
        Kind::Identifier => part,
        _ => trimmed(part),
    }
}

fn each_part_obeys(rule: PartRule, kind: Kind, text: &[u8]) -> bool
    ensures { result ≡ list_all (λ part. rules.obeys rule kind (rules.part_text kind part)) (slice_split rules.is_backslash text.now) }
{
    text.split(|byte| *byte == b'\\')
        .all(|part| obeys(rule, kind, part_text(kind, part)))
}

fn parts_obey(rule: PartRule, kind: Kind, value: &[u8]) -> bool
    ensures { result ≡ rules.parts_obey rule kind value.now }
{
    match kind {
        Kind::Words | Kind::Longs | Kind::Duplicates | Kind::Free => true,
        _ => each_part_obeys(rule, kind, content(kind, value)),
    }
}

fn is_whole_words(kind: Kind, value: &[u8]) -> bool
    ensures { result ≡ rules.is_whole_words kind value.now }
{
    match kind {
        Kind::Words => value.len() % 2 == 0,
        Kind::Longs => value.len() % 4 == 0,
        Kind::Duplicates => value.len() % 8 == 0,
        _ => true,
    }
}

/// Checks the value field of an element against its VR (PS3.5 section 6.2).
///
/// Text is split at each backslash into single values. Spaces at both ends of each value are
/// ignored, except in a unique identifier, where one zero byte at the end of the field is ignored
/// instead. An empty value is valid, as is every value of a VR without a rule here (LO, PN, OB and
/// others).
///
/// The error is the first of these that any of the values has: `WrongSize`, `TooLongValue`,
/// `BadCharacter`, `BadUid`.
#[tactic(auto, unfolding(crate::specs::Values::value_fault))]
pub fn check_value(vr: Vr, value: &[u8]) -> Result<(), ValueFault>
    ensures { MatchResult result (λ _. rules.value_fault vr value.now ≡ None) (λ fault. rules.value_fault vr value.now ≡ Some fault) }
{
    let kind = kind_of(vr);
    if !is_whole_words(kind, value) || !parts_obey(PartRule::Size, kind, value) {
        Err(ValueFault::WrongSize)
    } else if !parts_obey(PartRule::Longest, kind, value) {
        Err(ValueFault::TooLongValue)
    } else if !parts_obey(PartRule::Characters, kind, value) {
        Err(ValueFault::BadCharacter)
    } else if !parts_obey(PartRule::Form, kind, value) {
        Err(ValueFault::BadUid)
    } else {
        Ok(())
    }
}
