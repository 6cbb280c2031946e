ghost use Rattle.std.specs.Prelude.{◌≡◌, ◌+◌, ◌*◌, ◌<◌, ◌↔◌, ℕ, length, slice_index, OnOk};

use crate::fault::TargetFault;

/// Takes bytes one after another.
pub trait Target {
    /// The bytes that it was given.
    ghost byte: { Self → ℕ → ℕ };

    /// How many bytes it was given.
    ghost count: { Self → ℕ };

    /// That it keeps what it is given. If that doesn't hold, clauses on bytes say nothing.
    ghost honest: { Self → Type 0 };

    /// Takes bytes.
    fn write(&mut self, bytes: &[u8]) -> Result<(), TargetFault>
        ensures honest { honest self.new ↔ honest self.old }
        ensures count { honest self.old → OnOk result (count self.new ≡ count self.old + length bytes.now) }
        ensures written { honest self.old → OnOk result
            ((k : ℕ) → k < length bytes.now → byte self.new (count self.old + k) ≡ slice_index bytes.now k) }
        ensures others { honest self.old → OnOk result ((place : ℕ) → place < count self.old → byte self.new place ≡ byte self.old place) };

    /// Takes this many blocks of zeroes, each of 4,096 bytes.
    fn write_zeroes(&mut self, blocks: u64) -> Result<(), TargetFault>
        ensures honest { honest self.new ↔ honest self.old }
        ensures count { honest self.old → OnOk result (count self.new ≡ count self.old + 4096 * blocks) }
        ensures written { honest self.old → OnOk result ((k : ℕ) → k < 4096 * blocks → byte self.new (count self.old + k) ≡ 0) }
        ensures others { honest self.old → OnOk result ((place : ℕ) → place < count self.old → byte self.new place ≡ byte self.old place) };
}
