ghost use Rattle.std.specs.Prelude.{◌≡◌, ◌+◌, ◌*◌, ◌≤◌, ◌↔◌, length, MatchBool};
ghost use Rattle.image_transfer.specs.inner.Zeroes.{AreAllZero, AreZeroes};

/// The bytes of a block.
pub const BLOCK: usize = 4096;

/// Whether all bytes of a block in a buffer are zero.
pub fn is_zero_block(bytes: &[u8], block: usize) -> bool
    requires { 4096 * block + 4096 ≤ length bytes.now }
    ensures { MatchBool result (AreZeroes bytes.now (4096 * block) 4096) (AreZeroes bytes.now (4096 * block) 4096 → ⊥) }
{
    let first = BLOCK * block;
    bytes[first] == 0 && greatest(&bytes[first..first + BLOCK]) == 0
}

// The greatest of these bytes. It looks at all of them, which lets the compiler look at many at once.
fn greatest(bytes: &[u8]) -> u8
    ensures { (result ≡ 0) ↔ AreAllZero bytes.now (length bytes.now) }
{
    let mut greatest = 0;
    for byte in bytes {
        greatest = greatest.max(*byte);
    }
    greatest
}
