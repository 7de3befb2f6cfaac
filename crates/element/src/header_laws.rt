//! Lemmas on headers of data elements, each stated as the contract of a function with an empty
//! body.
ghost use Rattle.std.specs.Prelude.{◌≡◌, ℕ, ◌+◌, ◌*◌, ◌^◌, ◌<◌, ◌≤◌, true, false, List, [], ◌∷◌, ◌++◌, length, take, IsTrue};
ghost use Rattle.element.specs.declared.header.Header.{Header};
ghost use Rattle.element.specs.declared.size.Need.{Need};
ghost use Rattle.element.specs.declared.size.Need.TheVariants.{More, Size, BadVr};
ghost use Rattle.element.specs.declared.syntax.Syntax.{Syntax};
ghost use Rattle.element.specs.Header.{IsTag, SpellsHeader, header_at, header_bytes, header_fits, is_plain, is_whole, need, tag_at};
ghost use Rattle.element.specs.Needs.{NeedIs};
ghost use Rattle.element.specs.Numbers.{IsBytes, le};
ghost use Rattle.element.specs.Vr.{IsVrOrNone};

/// The function `need` (the size of the header that begins with some bytes) and the relation
/// `NeedIs`, which lists its cases, agree.
pub fn a_size_has_its_case()
    ensures cases { (s : Syntax) (b : List ℕ) → NeedIs s b (need s b) }
    ensures back { (s : Syntax) (b : List ℕ) (n : Need) → NeedIs s b n → need s b ≡ n }
    ensures least { (s : Syntax) (b : List ℕ) (k : ℕ) → NeedIs s b (Size k) → 8 ≤ k }
    ensures more { (s : Syntax) (b : List ℕ) → NeedIs s b More → length b < 6 }
    ensures refused { (s : Syntax) (b : List ℕ) → need s b ≡ BadVr → (6 ≤ length b) × (is_plain s (tag_at b) ≡ false) }
{}

/// The tag, the size and the fields that the first bytes of a header determine stay the same when
/// more bytes follow.
pub fn more_bytes_change_nothing()
    ensures tag { (u v : List ℕ) → 4 ≤ length u → tag_at (u ++ v) ≡ tag_at u }
    ensures size { (s : Syntax) (u v : List ℕ) (k : ℕ) → need s u ≡ Size k → need s (u ++ v) ≡ Size k }
    ensures refused { (s : Syntax) (u v : List ℕ) → need s u ≡ BadVr → need s (u ++ v) ≡ BadVr }
    ensures header { (s : Syntax) (u v : List ℕ) (k : ℕ) → k ≤ length u → NeedIs s u (Size k) → header_at s (u ++ v) ≡ header_at s u }
{}

/// The size of a header depends on its first six bytes alone, and on no byte after the header.
pub fn fewer_bytes_say_the_size()
    ensures all { (s : Syntax) (u v : List ℕ) (k : ℕ) → k ≤ length u → NeedIs s (u ++ v) (Size k) → NeedIs s u (Size k) }
    ensures six { (s : Syntax) (u v : List ℕ) (k : ℕ) → 6 ≤ length u → NeedIs s (u ++ v) (Size k) → NeedIs s u (Size k) }
{}

/// The bytes of a whole header are an encoding of the header that is read from them, with the same
/// tag.
pub fn a_read_header_is_spelled()
    ensures tag { (s : Syntax) (b : List ℕ) → (header_at s b).tag ≡ tag_at b }
    ensures least { (s : Syntax) (b : List ℕ) → IsTrue (is_whole s b) → 8 ≤ length b }
    ensures exact { (s : Syntax) (b : List ℕ) (k : ℕ) → NeedIs s b (Size k) → length b ≡ k → IsBytes b → SpellsHeader s (header_at s b) b }
    ensures front { (s : Syntax) (b : List ℕ) (n : ℕ) → IsBytes b → is_whole s b ≡ true → need s b ≡ Size n → SpellsHeader s (header_at s b) (take n b) }
{}

/// Each encoding of a header is one whole header, is read back as that header, and no proper prefix
/// of it is whole.
pub fn a_spelling_is_read()
    ensures size { (s : Syntax) (h : Header) (b : List ℕ) → SpellsHeader s h b → need s b ≡ Size (length b) }
    ensures least { (s : Syntax) (h : Header) (b : List ℕ) → SpellsHeader s h b → 8 ≤ length b }
    ensures whole { (s : Syntax) (h : Header) (b : List ℕ) → SpellsHeader s h b → is_whole s b ≡ true }
    ensures read { (s : Syntax) (h : Header) (b : List ℕ) → SpellsHeader s h b → header_at s b ≡ h }
    ensures part { (s : Syntax) (h : Header) (u : List ℕ) (x : ℕ) (v : List ℕ) → SpellsHeader s h (u ++ x ∷ v) → is_whole s u ≡ false }
{}

/// No encoding of a header is a proper prefix of another: a byte string begins with at most one
/// header.
pub fn one_spelling()
    ensures size { (s : Syntax) (h : Header) (front rest b : List ℕ) → SpellsHeader s h front → b ≡ front ++ rest → need s b ≡ Size (length front) }
    ensures header { (s : Syntax) (h : Header) (front rest b : List ℕ) → SpellsHeader s h front → b ≡ front ++ rest → h ≡ header_at s b }
    ensures one { (s : Syntax) (h k : Header) (u v rest more : List ℕ) → SpellsHeader s h u → SpellsHeader s k v → u ++ rest ≡ v ++ more → (h ≡ k) × (length u ≡ length v) }
{}

/// The bytes that `write_header` writes for a header are an encoding of it.
pub fn a_written_header_is_spelled()
    ensures { (s : Syntax) (h : Header) → IsTag h.tag → h.length < 2 ^ 32 → IsVrOrNone h.vr → header_fits s h ≡ true → SpellsHeader s h (header_bytes h) }
{}

/// A little endian number of two or four bytes is written as the same bytes from which it was read.
pub fn numbers_have_their_bytes()
    ensures two { (x y : ℕ) (rest : List ℕ) → x < 256 → y < 256 → le (x + 256 * y) 2 ++ rest ≡ x ∷ y ∷ rest }
    ensures four { (x y z w : ℕ) → x < 256 → y < 256 → z < 256 → w < 256 → le ((x + 256 * y) + 65536 * (z + 256 * w)) 4 ≡ x ∷ y ∷ z ∷ w ∷ [] }
{}
