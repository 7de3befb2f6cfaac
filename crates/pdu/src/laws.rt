//! Lemmas on the definitions of this crate, each stated as the contract of a function with an empty
//! body. A mark is what a byte of a stream completes: the head or the end of a PDU or of a
//! presentation data value. A frame is a PDU as a part of the stream.
ghost use Rattle.std.specs.Prelude.{◌≡◌, eqb, ◌≤◌, ◌++◌, [], ◌∷◌, ℕ, List, length, take, drop, Option, Result, Ok, Err};
ghost use Rattle.std.specs.List.{AllByRecursion, IsDistinct};
ghost use Rattle.std.specs.Io.KnownBytes.{append_known};
ghost use Rattle.element.specs.Numbers.{IsBytes};
ghost use Rattle.pdu.specs.declared.wire.WireFailed as wire;
ghost use Rattle.pdu.specs.Sent.{Line, Sends, sent_all};
ghost use Rattle.pdu.specs.Types.{associate_rq, associate_ac, associate_rj, p_data_tf, release_rq, release_rp, abort};
ghost use Rattle.pdu.specs.Types.{application_context_item, proposed_context_item, answered_context_item, abstract_syntax_item, transfer_syntax_item};
ghost use Rattle.pdu.specs.Types.{user_information_item, maximum_length_item, implementation_class_item, implementation_version_item};
ghost use Rattle.pdu.specs.Record.{RequestRecord};
ghost use Rattle.pdu.specs.Request.{RequestText, IsContextId, IsRequest};
ghost use Rattle.pdu.specs.Items.{request_record};
ghost use Rattle.pdu.specs.Refusal.{request_fault};
ghost use Rattle.pdu.specs.Pieces.{joined};
ghost use Rattle.pdu.specs.Frames.{IsRest, Splits, frames_of, rest_of};
ghost use Rattle.pdu.specs.Pdvs.{DataSpot, Marked, data_spot};
ghost use Rattle.pdu.specs.Marks.{Mark, Head, PdvHead, Pdv, BadPdv, Leftover, End, IsPdv, marks, marks_by, marks_of_values, new_marks, pdv_marks};
ghost use Rattle.pdu.specs.Examples.{no_pdu, good_then_bad, good_marks, good_then_bad_marks, empty_pdv, past_the_end, release_twice};

use crate::item_type::{
    ABSTRACT_SYNTAX, ANSWERED_CONTEXT, APPLICATION_CONTEXT, IMPLEMENTATION_CLASS_UID,
    IMPLEMENTATION_VERSION_NAME, MAXIMUM_LENGTH, PROPOSED_CONTEXT, TRANSFER_SYNTAX,
    USER_INFORMATION,
};
use crate::pdu_type::{
    A_ABORT, A_ASSOCIATE_AC, A_ASSOCIATE_RJ, A_ASSOCIATE_RQ, A_RELEASE_RP, A_RELEASE_RQ, P_DATA_TF,
};

/// The constants of [`pdu_type`](crate::pdu_type) equal the types in the definitions.
pub fn pdu_types()
    ensures associate_rq { A_ASSOCIATE_RQ ≡ associate_rq }
    ensures associate_ac { A_ASSOCIATE_AC ≡ associate_ac }
    ensures associate_rj { A_ASSOCIATE_RJ ≡ associate_rj }
    ensures p_data_tf { P_DATA_TF ≡ p_data_tf }
    ensures release_rq { A_RELEASE_RQ ≡ release_rq }
    ensures release_rp { A_RELEASE_RP ≡ release_rp }
    ensures abort { A_ABORT ≡ abort }
{}

/// The constants of [`item_type`](crate::item_type) equal the types in the definitions.
pub fn item_types()
    ensures application_context { APPLICATION_CONTEXT ≡ application_context_item }
    ensures proposed_context { PROPOSED_CONTEXT ≡ proposed_context_item }
    ensures answered_context { ANSWERED_CONTEXT ≡ answered_context_item }
    ensures abstract_syntax { ABSTRACT_SYNTAX ≡ abstract_syntax_item }
    ensures transfer_syntax { TRANSFER_SYNTAX ≡ transfer_syntax_item }
    ensures user_information { USER_INFORMATION ≡ user_information_item }
    ensures maximum_length { MAXIMUM_LENGTH ≡ maximum_length_item }
    ensures implementation_class { IMPLEMENTATION_CLASS_UID ≡ implementation_class_item }
    ensures implementation_version { IMPLEMENTATION_VERSION_NAME ≡ implementation_version_item }
{}

/// A body is the encoding of at most one association request (PS3.8 section 9.3.2).
pub fn body_has_one_request()
    ensures { (r q : RequestRecord) (b : List ℕ) → RequestText r b → RequestText q b → r ≡ q }
{}

/// Each association request has 32 reserved bytes, and presentation context IDs that are odd and
/// distinct.
pub fn requests_keep_their_form()
    ensures { (r : RequestRecord) (b : List ℕ) → IsBytes b → RequestText r b → IsRequest r }
{}

/// A request proposes at most 128 presentation contexts, as there are 128 odd numbers of one byte.
pub fn ids_are_few()
    ensures { (ns : List ℕ) → AllByRecursion IsContextId ns → IsDistinct eqb ns → length ns ≤ 128 }
{}

/// A body without a fault is the encoding of a request, the one that `read_request` returns; and an
/// encoding of a request has no fault.
pub fn body_without_fault_is_a_request()
    ensures text { (b : List ℕ) → request_fault b ≡ None → RequestText (request_record b) b }
    ensures none { (r : RequestRecord) (b : List ℕ) → RequestText r b → request_fault b ≡ None }
{}

/// Two sends have the same effect as one send of the concatenated bytes. Sending no bytes changes
/// nothing, and if the first send fails, so does the whole.
pub fn sends_are_joined()
    ensures known_nothing { (old : Option (List ℕ)) → append_known old [] ≡ old }
    ensures known { (old : Option (List ℕ)) (a b : List ℕ) → append_known (append_known old a) b ≡ append_known old (a ++ b) }
    ensures nothing { (old : Line) → sent_all [] old ≡ old }
    ensures all { (a b : List ℕ) (old : Line) → sent_all b (sent_all a old) ≡ sent_all (a ++ b) old }
    ensures failed { (a b : List ℕ) (f : wire.WireFailed) (old new : Line) → Sends a (Err f) old new → Sends (a ++ b) (Err f) old new }
    ensures both { (a b : List ℕ) (result : Result (Unit {0}) wire.WireFailed) (old now new : Line) → Sends a (Ok tt) old now → Sends b result now new → Sends (a ++ b) result old new }
{}

/// Every stream of bytes is a list of whole PDUs and a rest that is shorter than a PDU (PS3.8
/// section 9.3.1).
pub fn stream_has_frames()
    ensures { (s : List ℕ) → Splits s (frames_of s) (rest_of s) }
{}

/// A stream determines its list of whole PDUs and its rest.
pub fn stream_has_one_list_of_frames()
    ensures { (s : List ℕ) (fs gs : List (List ℕ)) (r t : List ℕ) → Splits s fs r → Splits s gs t → (fs ≡ gs) × (r ≡ t) }
{}

/// The marks of a stream never change: further bytes only append marks.
pub fn marks_only_grow()
    ensures { (s p : List ℕ) → marks (s ++ p) ≡ marks s ++ new_marks s p }
{}

/// The marks of a stream do not depend on how it is divided into chunks.
pub fn marks_do_not_show_the_cut()
    ensures { (s : List ℕ) (ps qs : List (List ℕ)) → joined ps ≡ joined qs → marks_by s ps ≡ marks_by s qs }
{}

/// The rest of a stream is shorter than a PDU, and a stream shorter than a PDU is its own rest.
pub fn rests_are_unfinished()
    ensures rest { (s : List ℕ) → IsRest (rest_of s) }
    ensures alone { (r : List ℕ) → IsRest r → rest_of r ≡ r }
{}

/// An empty chunk has no marks. Two chunks together have the marks of the first, followed by those
/// of the second.
pub fn pieces_mark_one_after_another()
    ensures nothing { (s : List ℕ) → new_marks s [] ≡ [] }
    ensures both { (s p q : List ℕ) → new_marks s (p ++ q) ≡ new_marks s p ++ new_marks (s ++ p) q }
{}

/// The marks of further bytes depend only on the unfinished PDU before them.
pub fn marks_depend_on_the_rest()
    ensures marks { (s p : List ℕ) → new_marks s p ≡ new_marks (rest_of s) p }
    ensures rest { (s p : List ℕ) → rest_of (s ++ p) ≡ rest_of (rest_of s ++ p) }
{}

/// The bytes of a P-DATA-TF PDU after its head determine their marks and the position inside the
/// PDU after them, which `pdv_marks` and `data_spot` compute (PS3.8 section 9.3.5 and annex E.2).
pub fn marks_of_data_are_one()
    ensures some { (room : ℕ) (bytes : List ℕ) → Marked room bytes (pdv_marks room bytes) (data_spot room bytes) }
    ensures marks { (room : ℕ) (bytes : List ℕ) (ms : List Mark) (s : DataSpot) → Marked room bytes ms s → pdv_marks room bytes ≡ ms }
    ensures spot { (room : ℕ) (bytes : List ℕ) (ms : List Mark) (s : DataSpot) → Marked room bytes ms s → data_spot room bytes ≡ s }
{}

/// In a P-DATA-TF PDU that consists of whole presentation data values, each value has two marks,
/// its head and its end (PS3.8 section 9.3.5).
pub fn whole_values_are_marked()
    ensures { (vs : List (List ℕ)) → AllByRecursion IsPdv vs → pdv_marks (length (joined vs)) (joined vs) ≡ marks_of_values vs }
{}

/// Example: the first mark of an HTTP request is the head of a PDU of unrecognized type, at its
/// sixth byte.
pub fn bytes_that_are_no_pdu()
    ensures sixth { marks no_pdu ≡ Head 0x47 0x54202F20 ∷ [] }
    ensures fifth { marks (take 5 no_pdu) ≡ [] }
{}

/// Example: a valid presentation data value has its mark at its last byte, though the next value in
/// the same PDU is invalid. A receiver that waits for the whole PDU would have other marks.
pub fn a_good_value_before_a_bad_one()
    ensures whole { marks good_then_bad ≡ good_then_bad_marks }
    ensures at_once { marks (take 14 good_then_bad) ≡ good_marks }
    ensures no_waiting { marks good_then_bad ≡ Head 4 14 ∷ End 4 (drop 6 good_then_bad) ∷ [] → ⊥ }
{}

/// Examples: one to five bytes after a presentation data value have the mark `Leftover` and are
/// dropped; six bytes may be the head of another value.
pub fn bytes_that_remain()
    ensures one { marks (empty_pdv 7) ≡ Head 4 7 ∷ PdvHead 2 1 2 ∷ Pdv 1 2 [] ∷ Leftover ∷ [] }
    ensures five { marks (empty_pdv 11) ≡ Head 4 11 ∷ PdvHead 2 1 2 ∷ Pdv 1 2 [] ∷ Leftover ∷ [] }
    ensures dropped { marks (empty_pdv 11 ++ 1 ∷ 2 ∷ 3 ∷ 4 ∷ 5 ∷ []) ≡ Head 4 11 ∷ PdvHead 2 1 2 ∷ Pdv 1 2 [] ∷ Leftover ∷ End 4 (drop 6 (empty_pdv 11) ++ 1 ∷ 2 ∷ 3 ∷ 4 ∷ 5 ∷ []) ∷ [] }
    ensures six { marks (empty_pdv 12) ≡ Head 4 12 ∷ PdvHead 2 1 2 ∷ Pdv 1 2 [] ∷ [] }
{}

/// Example: a presentation data value that passes the end of its PDU is invalid.
pub fn a_value_past_its_frame()
    ensures { marks past_the_end ≡ Head 4 6 ∷ BadPdv ∷ End 4 (drop 6 past_the_end) ∷ [] }
{}

/// Example: the marks of a whole PDU and the head of a second one are a head, an end and a head.
pub fn two_frames()
    ensures { marks release_twice ≡ Head 5 4 ∷ End 5 (0 ∷ 0 ∷ 0 ∷ 0 ∷ []) ∷ Head 5 4 ∷ [] }
{}
