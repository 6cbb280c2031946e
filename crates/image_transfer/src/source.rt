ghost use Rattle.std.specs.Prelude.{◌≡◌, ◌+◌, ◌*◌, ◌/◌, ◌%◌, ◌^◌, ◌<◌, ◌≤◌, ◌↔◌, ℕ, length, slice_index, OnOk, IfOk};

use crate::fault::SourceFault;

/// Bytes in blocks of 4,096, which are read one after another. After its last byte a source has zeroes without end.
pub trait Source {
    /// Its bytes.
    ghost byte: { Self → ℕ → ℕ };

    /// The next block.
    ghost block: { Self → ℕ };

    /// That what is read is what it has. If that doesn't hold, clauses on bytes say nothing.
    ghost honest: { Self → Type 0 };

    /// Passes over the next blocks, at most `most`, of which it knows that they are zeroes, and answers how many it passed.
    fn pass_zeroes(&mut self, most: u64) -> Result<u64, SourceFault>
        requires { block self.old + most < 2 ^ 64 }
        ensures within { IfOk result (λ passed. passed ≤ most) }
        ensures byte { honest self.old → byte self.new ≡ byte self.old }
        ensures honest { honest self.new ↔ honest self.old }
        ensures block { IfOk result (λ passed. block self.new ≡ block self.old + passed) }
        ensures zeroes { honest self.old → IfOk result (λ passed. (k : ℕ) → k < 4096 * passed → byte self.old (4096 * block self.old + k) ≡ 0) };

    /// Reads the next blocks.
    fn read(&mut self, into: &mut [u8]) -> Result<(), SourceFault>
        requires whole { length into.old % 4096 ≡ 0 }
        requires few { block self.old + length into.old / 4096 < 2 ^ 64 }
        ensures byte { honest self.old → byte self.new ≡ byte self.old }
        ensures honest { honest self.new ↔ honest self.old }
        ensures block { OnOk result (block self.new ≡ block self.old + length into.old / 4096) }
        ensures bytes { honest self.old → OnOk result
            ((k : ℕ) → k < length into.new → slice_index into.new k ≡ byte self.old (4096 * block self.old + k)) };
}
