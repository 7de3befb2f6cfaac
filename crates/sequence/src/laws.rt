//! Lemmas on the definitions of this crate, and examples of them, each stated as the contract of a
//! function with an empty body. A text is the bytes of a data set, or of the front of one.
ghost use Rattle.std.specs.Prelude.{◌≡◌, ◌∷◌, []};
ghost use Rattle.sequence.specs.Rules.{bad_vr, odd_length, not_rising, bad_group, undefined_not_allowed, unexpected_tag, delimiter_length, overrun, too_deep, too_long, truncated, kept_too_long};
ghost use Rattle.sequence.specs.Ending.{WholeBreaksNoRule, WholeHasNoFault, FaultIsFinal};
ghost use Rattle.sequence.specs.Laws.{FaultStays, RefusalStays, RefusedStands, OneTree, OnePath, EndsAreNested, WholeHasOpenInside, OneFault};
ghost use Rattle.sequence.specs.Laws.{OneTelling, OneHolding, SomeTelling, HeldHasABound, NothingIsUnbroken, NoHeader, LeastHeader, BytesAreJoined, NativeInside, NativeHasNone, SyntaxesAreNative, ExplicitIsEncapsulated};
ghost use Rattle.sequence.specs.Examples.{TwoOpenLevels, FourLevels, PastItsItem, TooDeep, UnknownContent, OneStore, AlongOneStore, AlongFourLevels};
ghost use Rattle.sequence.specs.Examples.{OneFrame, TwoFrames, AnIcon, NoFragment, AlongOneFrame};

use crate::fault::Fault;

/// Returns the numbers of the rules that [`Fault`] names, which equal those of the definitions.
pub fn rule_numbers() -> [u8; 12]
    ensures { result ≡ bad_vr ∷ odd_length ∷ not_rising ∷ bad_group ∷ undefined_not_allowed ∷ unexpected_tag ∷ delimiter_length ∷ overrun ∷ too_deep ∷ too_long ∷ truncated ∷ kept_too_long ∷ [] }
{
    [
        Fault::BAD_VR,
        Fault::ODD_LENGTH,
        Fault::NOT_RISING,
        Fault::BAD_GROUP,
        Fault::UNDEFINED_NOT_ALLOWED,
        Fault::UNEXPECTED_TAG,
        Fault::DELIMITER_LENGTH,
        Fault::OVERRUN,
        Fault::TOO_DEEP,
        Fault::TOO_LONG,
        Fault::TRUNCATED,
        Fault::KEPT_TOO_LONG,
    ]
}

/// Example: after three bytes of a header inside a sequence and an item of undefined length, two
/// levels are open, and `Walker::held` is 35: 3, and 16 for each level.
pub fn two_open_levels()
    ensures { TwoOpenLevels }
{}

/// Example: three of four nested levels have defined length and end at the same byte, which closes
/// all three. The fourth ends with its delimitation.
pub fn four_levels_that_end_together()
    ensures { FourLevels }
{}

/// Example: a header that passes the end of its item breaks the rule `Overrun` at the first byte
/// that leaves too little space for a header.
pub fn a_header_past_its_item()
    ensures { PastItsItem }
{}

/// Example: one level more than the limit breaks the rule `TooDeep`. An empty sequence or item
/// opens no level.
pub fn deeper_than_the_limit()
    ensures { TooDeep }
{}

/// Example: an element of VR UN and undefined length contains items in Implicit VR (PS3.5 section
/// 6.2.2). Native Pixel Data may not have undefined length.
pub fn unknown_content()
    ensures { UnknownContent }
{}

/// Example: the levels, the offset and the wanted values after the data set of a CT image.
pub fn one_store()
    ensures { OneStore }
{}

/// Example: what [`Walker::step`](crate::Walker::step) returns at each step of the data set of a CT
/// image.
pub fn along_one_store()
    ensures { AlongOneStore }
{}

/// Example: what [`Walker::step`](crate::Walker::step) returns at each step of four nested levels.
pub fn along_four_levels()
    ensures { AlongFourLevels }
{}

/// Example: encapsulated Pixel Data opens one level. It breaks a rule in a native transfer syntax.
pub fn one_frame()
    ensures { OneFrame }
{}

/// Example: encapsulated Pixel Data with a Basic Offset Table in its first item, which is read as
/// any fragment.
pub fn two_frames()
    ensures { TwoFrames }
{}

/// Example: encapsulated Pixel Data in an item of Icon Image Sequence.
pub fn an_icon()
    ensures { AnIcon }
{}

/// Examples: headers that break a rule where a fragment is required.
pub fn no_fragment()
    ensures { NoFragment }
{}

/// Example: what [`Walker::step`](crate::Walker::step) returns at each step of encapsulated Pixel
/// Data.
pub fn along_one_frame()
    ensures { AlongOneFrame }
{}

/// The first fault of a text is also the first fault of every text that extends it.
pub fn a_fault_stays()
    ensures { FaultStays }
{}

/// What a walker reports after a fault stays the same, whatever bytes follow.
pub fn a_refusal_stays()
    ensures { RefusalStays }
{}

/// A text encodes at most one data set.
pub fn one_tree()
    ensures { OneTree }
{}

/// A sequence inside a data set in Implicit or Explicit VR Little Endian is itself encoded in one
/// of the two.
pub fn native_inside()
    ensures { NativeInside }
{}

/// A data set in Implicit or Explicit VR Little Endian contains no fragments.
pub fn native_has_none()
    ensures { NativeHasNone }
{}

/// In Implicit and Explicit VR Little Endian Pixel Data is always native.
pub fn syntaxes_are_native()
    ensures { SyntaxesAreNative }
{}

/// A data set in Explicit VR Little Endian is also valid, with the same elements, in the encoding
/// in which Pixel Data may be encapsulated.
pub fn explicit_is_encapsulated()
    ensures { ExplicitIsEncapsulated }
{}

/// A text determines its whole elements, its open levels, the last tag of the innermost level and
/// its unfinished header or value.
pub fn one_path()
    ensures { OnePath }
{}

/// A level of defined length lacks at least as many bytes as any such level inside it.
pub fn ends_are_nested()
    ensures { EndsAreNested }
{}

/// A level of defined length that lacks no byte is still open only if a level of undefined length
/// inside it is.
pub fn a_whole_level_has_an_open_one_inside()
    ensures { WholeHasOpenInside }
{}

/// A text has at most one first fault.
pub fn one_fault()
    ensures { OneFault }
{}

/// A text determines what a walker reports after it.
pub fn one_telling()
    ensures { OneTelling }
{}

/// A text determines the state of a walker after it: its open levels, its unfinished header or
/// value, and the wanted values.
pub fn one_holding()
    ensures { OneHolding }
{}

/// The definition of a walker's report covers every text.
pub fn some_telling()
    ensures { SomeTelling }
{}

/// After any text a walker holds at most one unfinished header, the greatest sizes of the wanted
/// values, and 16 bytes for each level of the limit.
pub fn held_has_a_bound()
    ensures { HeldHasABound }
{}

/// A whole data set within its limits breaks no rule.
pub fn whole_breaks_no_rule()
    ensures { WholeBreaksNoRule }
{}

/// A whole data set within its limits has no fault.
pub fn whole_has_no_fault()
    ensures { WholeHasNoFault }
{}

/// A text has a fault only if no text that extends it is a data set within its limits.
pub fn a_fault_is_final()
    ensures { FaultIsFinal }
{}

/// The empty text breaks no rule.
pub fn nothing_is_unbroken()
    ensures { NothingIsUnbroken }
{}

/// The empty text is an unfinished header.
pub fn no_header()
    ensures { NoHeader }
{}

/// A header has at least eight bytes.
pub fn a_header_consumes_eight_bytes()
    ensures { LeastHeader }
{}

/// The concatenation of two texts of bytes is a text of bytes.
pub fn bytes_are_joined()
    ensures { BytesAreJoined }
{}

/// After a fault the state of a walker stays the same, whatever bytes follow.
pub fn a_refused_walker_stands()
    ensures { RefusedStands }
{}
