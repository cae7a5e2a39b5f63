//! What the definitions say together.

ghost use Rattle.std.specs.Prelude.{◌≡◌, ◌<◌, ◌^◌, ℕ, List, length};
ghost use Rattle.lx_bytes.specs.LittleEndian.{AreBytes, little, little_bytes};

/// The numbers below 256 ^ n and the lists of n bytes stand for one another.
pub fn numbers_are_bytes()
    ensures length { (n x : ℕ) → length (little_bytes n x) ≡ n }
    ensures read_back { (n x : ℕ) → x < 256 ^ n → little (little_bytes n x) ≡ x }
    ensures written_back { (bs : List ℕ) → AreBytes bs → little_bytes (length bs) (little bs) ≡ bs }
{}
