//! Lemmas on the events of a stream of PDUs and on successive calls of a deframer, each stated as
//! the contract of a function with an empty body.
//!
//! A mark is what a byte of the stream completes: the head or the end of a PDU or of a presentation
//! data value. A token is a mark, or one byte of a body or of a fragment. A mark is due when the
//! bytes that complete it were read and no event has reported it.
ghost use Rattle.std.specs.Prelude.{◌≡◌, ◌++◌, [], ◌∷◌, ℕ, List, Option, Some, map};
ghost use Rattle.pdu.specs.declared.position.Position.{Position};
ghost use Rattle.pdu.specs.declared.event.Event.{Event};
ghost use Rattle.pdu.specs.Frames.{rest_of};
ghost use Rattle.pdu.specs.Marks.{Mark, new_marks};
ghost use Rattle.pdu.specs.Events.{Token, OfBody, OfFragment, ReportsMark, tokens, marks_among};
ghost use Rattle.pdu.specs.Deframing.{At, Consumed, Skip};
ghost use Rattle.pdu.specs.Steps.{skip_of};
ghost use Rattle.pdu.specs.Calls.{Calls, CallsReportAll};
ghost use Rattle.pdu.specs.Examples.{release_twice, release_twice_tokens, one_value, one_value_tokens};

/// The tokens of a stream contain its marks, each once and in order.
pub fn tokens_have_the_marks()
    ensures { (s p : List ℕ) → marks_among (tokens s p) ≡ new_marks s p }
{}

/// The tokens of a stream do not depend on how it is divided into chunks. Those of a chunk depend
/// only on the unfinished PDU before it.
pub fn tokens_do_not_show_the_cut()
    ensures both { (s p q : List ℕ) → tokens s (p ++ q) ≡ tokens s p ++ tokens (s ++ p) q }
    ensures rest { (s p : List ℕ) → tokens s p ≡ tokens (rest_of s) p }
{}

/// Examples: the bytes of a body are between the head and the end of its PDU, and those of a
/// fragment between the head and the end of its presentation data value.
pub fn bytes_are_lent_between_marks()
    ensures bodies { tokens [] release_twice ≡ release_twice_tokens }
    ensures fragments { tokens [] one_value ≡ one_value_tokens }
{}

/// The calls of a deframer that read a chunk, however they divide it, report the marks that were
/// due before and the tokens of the chunk, except the marks that are due afterwards. If no mark is
/// due before or after, they report exactly the tokens of the chunk.
pub fn calls_report_the_stream()
    ensures all { CallsReportAll }
    ensures tokens { (r piece : List ℕ) (reported : List Token) → Calls r [] piece reported [] → reported ≡ tokens r piece }
    ensures marks { (r piece : List ℕ) (reported : List Token) → Calls r [] piece reported [] → marks_among reported ≡ new_marks r piece }
{}

/// The marks due before a call and those that its bytes complete are the marks that the call
/// reports and those due after it. A call reports one mark, or none if its event has bytes of a
/// body or a fragment.
pub fn a_call_reports_marks()
    ensures consumed { (new : Position) (r : List ℕ) (due : List Mark) (c : List ℕ) (e : Option Event) → (t : Consumed new r due c e) → due ++ new_marks r c ≡ marks_among t.reported ++ t.later }
    ensures one { (new : Position) (r : List ℕ) (due : List Mark) (c : List ℕ) (e : Event) → (t : Consumed new r due c (Some e)) → (m : ReportsMark e t.reported) → due ++ new_marks r c ≡ m.mark ∷ t.later }
    ensures bodies { (bytes : List ℕ) → marks_among (map OfBody bytes) ≡ [] }
    ensures fragments { (bytes : List ℕ) → marks_among (map OfFragment bytes) ≡ [] }
{}

/// After [`Deframer::skip_frame`](crate::Deframer::skip_frame) only the end of the PDU is still
/// reported. The other marks that were due are those of presentation data values inside the PDU.
pub fn a_skipped_pdu_has_its_end()
    ensures { (q : Position) (r : List ℕ) (due : List Mark) → At q r due → Skip (skip_of q) r due }
{}
