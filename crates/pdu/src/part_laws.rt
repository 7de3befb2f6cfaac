//! Lemmas on the marks of further bytes `c` of a PDU whose first bytes are `r`, by the position
//! inside the PDU (`Spot`), each stated as the contract of a function with an empty body. A mark is
//! what a byte completes: the head or the end of a PDU or of a presentation data value. After `c`
//! the PDU is still unfinished, or ends with `c`: `Arrives` has both cases.
ghost use Rattle.std.specs.Prelude.{◌≡◌, ◌≤◌, ◌<◌, ◌+◌, ◌-◌, ◌⊎◌, ◌++◌, [], ◌∷◌, ℕ, List, length};
ghost use Rattle.byteorder.specs.Endian.{big_number};
ghost use Rattle.pdu.specs.Frames.{IsRest};
ghost use Rattle.pdu.specs.Marks.{Head, BadPdv, pdv_size, head_mark, pdv_mark, frame_kind, frame_length};
ghost use Rattle.pdu.specs.Spot.{Opening, Plain, InPdv, spot, room_remaining};
ghost use Rattle.pdu.specs.Parts.{IsInData, IsUnfinishedPdv, SameFrame, SameHead, Continues, Arrives, leftover_marks, leftover_spot, body_spot};
ghost use Rattle.pdu.specs.Deframing.{MarksWithin};
ghost use Rattle.pdu.specs.PartLaws.{BadPdvHeads, PdvHeads, EmptyPdvs, WholePdvs};

/// The fields in the head of a PDU or of a presentation data value do not depend on the bytes after
/// it.
pub fn heads_are_final()
    ensures frame { (f more : List ℕ) → 6 ≤ length f → SameFrame f more }
    ensures value { (b more : List ℕ) → 6 ≤ length b → SameHead b more }
{}

/// After its head, a PDU has no marks before its last byte but those of presentation data values.
/// The last mark of that byte is the end of the PDU.
pub fn a_part_of_a_pdu()
    ensures { (r c : List ℕ) → IsRest r → 6 ≤ length r → MarksWithin r c }
{}

/// A PDU of fewer than six bytes is inside its head. A PDU that is inside a presentation data value
/// has its head, with the type of P-DATA-TF.
pub fn heads_are_first()
    ensures head { (r : List ℕ) → length r < 6 → spot r ≡ Opening }
    ensures value { (r b : List ℕ) → IsRest r → spot r ≡ InPdv b → IsInData r }
{}

/// The first five bytes of a PDU complete no mark.
pub fn a_part_of_a_head()
    ensures { (r c : List ℕ) → length (r ++ c) < 6 → Continues r c [] Opening }
{}

/// The sixth byte of a PDU completes the mark of its head, and that of its end if it has no body.
pub fn a_head_is_whole()
    ensures { (r c : List ℕ) → length r < 6 → length (r ++ c) ≡ 6
        → Arrives r c (Head (frame_kind (r ++ c)) (frame_length (r ++ c)) ∷ []) (body_spot (frame_kind (r ++ c))) }
{}

/// In the body of a PDU other than P-DATA-TF, or after an invalid presentation data value, the only
/// mark is the end.
pub fn a_part_of_a_body()
    ensures { (r c : List ℕ) → IsRest r → spot r ≡ Plain → Arrives r c [] Plain }
{}

/// An unfinished presentation data value has fewer bytes than its length says, and the whole value
/// does not pass the end of the PDU.
pub fn an_unfinished_pdv()
    ensures { (r b : List ℕ) → IsRest r → spot r ≡ InPdv b → IsUnfinishedPdv (room_remaining r + length b) b }
{}

/// The first five bytes of a presentation data value complete no mark.
pub fn a_part_of_a_pdv_head()
    ensures { (r c b : List ℕ) → IsRest r → spot r ≡ InPdv b → length (b ++ c) < 6 → Arrives r c [] (InPdv (b ++ c)) }
{}

/// The sixth byte of a presentation data value completes the mark of an invalid head if its length
/// is below 2 or passes the end of the PDU, otherwise of a valid head. If the fragment is empty,
/// the marks of the value's end and of leftover bytes, if any, follow.
pub fn a_pdv_head_is_whole()
    ensures bad { BadPdvHeads }
    ensures more { PdvHeads }
    ensures none { EmptyPdvs }
{}

/// The last byte of a fragment completes the marks of the value's end and of leftover bytes, if
/// any. Its other bytes complete no mark.
pub fn a_part_of_a_fragment()
    ensures more { (r c b : List ℕ) → IsRest r → spot r ≡ InPdv b → 6 ≤ length b → length (b ++ c) < pdv_size b → Arrives r c [] (InPdv (b ++ c)) }
    ensures whole { WholePdvs }
{}
