//! What the iterated data of "A2h LIDATA" comes to, without expanding it: what a reader stands on that measures
//! blocks and keeps a mark for each byte of the record, in place of comparing fixups pair by pair.

ghost use Rattle.std.specs.Prelude.{◌≡◌, ◌≤◌, [], ℕ, Bool, Ok, length};
ghost use Rattle.lx_bytes.specs.Cursor.{Cursor};
ghost use Rattle.lx_bytes.specs.LittleEndian.{AreBytes};
ghost use Rattle.obj_types.specs.declared.limits.TheConstants.{MAX_DEPTH};
ghost use Rattle.omf_model.specs.Blocks.{Blocks, expanded, expanded_len, depth_of, origins};
ghost use Rattle.omf_model.specs.Copies.{block_copies, copy_count, capped_len, IsInBlock, ShareByte, HasCopy, CopiesMeet};
ghost use Rattle.omf_model.specs.Fixups.{places_of};
ghost use Rattle.omf_model.specs.ReadBlocks.{blocks_at};
ghost use Rattle.omf_model.specs.ReadData.{counted_len};

/// The length of the expanded data, also with a cap at every step. Blocks that hold nothing, however often and deep
/// they repeat, expand to nothing. Blocks that are read are nested at most 16 deep.
pub fn blocks_are_measured()
    ensures length { (b : Blocks) → length (expanded b) ≡ expanded_len b }
    ensures capped { (b : Blocks) → capped_len b ≡ counted_len b }
    ensures nothing { (b : Blocks) → expanded_len b ≡ 0 → expanded b ≡ [] }
    ensures depth { (wide : Bool) (c : Cursor) (b : Blocks) → AreBytes c.left → blocks_at wide c ≡ Ok b → depth_of b ≤ MAX_DEPTH }
{}

/// The copies of an offset, by recursion over the blocks; and how many they are.
pub fn copies_are_computed()
    ensures found { (wide : Bool) (at : ℕ) (b : Blocks) (offset : ℕ) → places_of offset (origins wide at b) ≡ block_copies wide at b offset }
    ensures counted { (wide : Bool) (at : ℕ) (b : Blocks) (offset : ℕ) → length (block_copies wide at b offset) ≡ copy_count wide at b offset }
{}

/// Two locations on the same blocks meet exactly where they share a byte before expansion and have copies.
pub fn locations_on_blocks()
    ensures meet { (wide : Bool) (b : Blocks) (o la p lb : ℕ) → 1 ≤ la → 1 ≤ lb → IsInBlock wide b o la → IsInBlock wide b p lb → ShareByte o la p lb →
        HasCopy wide b o → HasCopy wide b p → CopiesMeet wide b o la p lb }
    ensures share { (wide : Bool) (b : Blocks) (o la p lb : ℕ) → 1 ≤ la → 1 ≤ lb → IsInBlock wide b o la → IsInBlock wide b p lb →
        CopiesMeet wide b o la p lb → ShareByte o la p lb }
{}
