//! What the definitions say together.

ghost use Rattle.std.specs.Prelude.{◌≡◌, ◌≢◌, ◌⊎◌, ℕ, ◌≤◌, List, [], ◌∷◌, ◌++◌, length, Ok, Err};
ghost use Rattle.lx_bytes.specs.Cursor.{Cursor};
ghost use Rattle.lx_bytes.specs.LittleEndian.{AreBytes};
ghost use Rattle.obj_types.specs.declared.refusal.OmfRefusal.{OmfRefusal};
ghost use Rattle.omf_fields.specs.Fields.{Reading, item_and_others, byte_at, number_at, name_at, index_at, index_below, index_or_zero, length_at, list_within, list_at};
ghost use Rattle.omf_fields.specs.Forms.{byte, number, name, index, length_form};
ghost use Rattle.omf_fields.specs.Faults.{PassesEnd, IsNoIndex};
ghost use Rattle.omf_fields.specs.Spans.{IsReadAs, Free};
ghost use Rattle.omf_fields.specs.Taking.{TakesBytes};
ghost use Rattle.omf_fields.specs.Onto.{onto};

use crate::lengths::{LENGTH_16, LENGTH_24, LENGTH_32, MAX_SHORT_LENGTH};

/// A field is read exactly where its form stands.
pub fn field_is_read()
    ensures bytes { IsReadAs byte_at byte Free }
    ensures numbers { (n : ℕ) → IsReadAs (number_at n) (number n) Free }
    ensures names { IsReadAs name_at name Free }
    ensures indices { IsReadAs index_at index Free }
    ensures below { (have : ℕ) → IsReadAs (index_below have) index (λ i. (1 ≤ i) × (i ≤ have)) }
    ensures or_zero { (have : ℕ) → IsReadAs (index_or_zero have) index (λ i. i ≤ have) }
    ensures lengths { IsReadAs length_at length_form Free }
{}

/// What a field's refusal means: `Short` at the cursor where the field that begins there passes the end, and
/// `BadIndex` there where an index is spelled that is not allowed.
pub fn field_is_refused()
    ensures bytes { (c : Cursor) (f : OmfRefusal) → byte_at c ≡ Err f → PassesEnd byte c f }
    ensures numbers { (n : ℕ) (c : Cursor) (f : OmfRefusal) → AreBytes c.left → number_at n c ≡ Err f → PassesEnd (number n) c f }
    ensures names { (c : Cursor) (f : OmfRefusal) → AreBytes c.left → name_at c ≡ Err f → PassesEnd name c f }
    ensures indices { (c : Cursor) (f : OmfRefusal) → AreBytes c.left → index_at c ≡ Err f → PassesEnd index c f }
    ensures below { (have : ℕ) (c : Cursor) (f : OmfRefusal) → AreBytes c.left → index_below have c ≡ Err f → PassesEnd index c f
        ⊎ IsNoIndex (λ i. (1 ≤ i) × (i ≤ have)) have c f }
    ensures or_zero { (have : ℕ) (c : Cursor) (f : OmfRefusal) → AreBytes c.left → index_or_zero have c ≡ Err f → PassesEnd index c f
        ⊎ IsNoIndex (λ i. i ≤ have) have c f }
{}

/// A list up to the end is its first item and then the list of what is after it: `more` turns than bytes change
/// nothing.
pub fn list_of_items<A>()
    ensures none { (one : Cursor → Reading A) (c : Cursor) → c.left ≡ [] → list_at one c ≡ Ok [] }
    ensures first { (one : Cursor → Reading A) (c : Cursor) → TakesBytes one → AreBytes c.left → c.left ≢ [] →
        list_at one c ≡ item_and_others one (list_at one) c }
    ensures more { (one : Cursor → Reading A) (most : ℕ) (c : Cursor) → TakesBytes one → AreBytes c.left → length c.left ≤ most →
        list_within one most c ≡ list_at one c }
{}

/// A list that is read item after item, as a loop does: the items so far and what is still to be read are what was
/// to be read before.
pub fn list_item_by_item<A>()
    ensures item { (one : Cursor → Reading A) (items : List A) (c : Cursor) (x : A) (d : Cursor) → TakesBytes one → AreBytes c.left → c.left ≢ [] →
        one c ≡ Ok (x, d) → onto items (list_at one c) ≡ onto (items ++ x ∷ []) (list_at one d) }
    ensures refused { (one : Cursor → Reading A) (items : List A) (c : Cursor) (refusal : OmfRefusal) → TakesBytes one → AreBytes c.left → c.left ≢ [] →
        one c ≡ Err refusal → onto items (list_at one c) ≡ Err refusal }
    ensures done { (one : Cursor → Reading A) (items : List A) (c : Cursor) → c.left ≡ [] → onto items (list_at one c) ≡ Ok items }
{}

/// The first bytes of a length of COMDEF, in numbers.
pub fn length_numbers()
    ensures short { MAX_SHORT_LENGTH ≡ 0x80 }
    ensures two_bytes { LENGTH_16 ≡ 0x81 }
    ensures three_bytes { LENGTH_24 ≡ 0x84 }
    ensures four_bytes { LENGTH_32 ≡ 0x88 }
{}
