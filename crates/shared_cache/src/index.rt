ghost use Rattle.std.specs.Prelude.{◌≡◌, ◌==◌, ◌+◌, ◌<◌, ◌≤◌, ℕ, Some, None, if◌then◌else◌, nat_eq};
ghost use Rattle.std.specs.HashMap as hash;

use std::collections::HashMap;

// Has the index give this frame for the block; there is room for it.
pub fn set(index: &mut HashMap<u64, u32>, block: u64, frame: u32)
    requires { 0 < hash.spare index.old }
    ensures found { (q : ℕ) → hash.get nat_eq index.new q ≡ (if q == block then Some frame else hash.get nat_eq index.old q) }
    ensures spare { hash.spare index.old ≤ hash.spare index.new + 1 }
{
    let Ok(_) = index.insert(block, frame) else {
        unreachable!();
    };
}

// Takes a block out of the index.
pub fn unset(index: &mut HashMap<u64, u32>, block: u64)
    ensures found { (q : ℕ) → hash.get nat_eq index.new q ≡ (if q == block then None else hash.get nat_eq index.old q) }
    ensures spare { hash.spare index.old ≤ hash.spare index.new }
{
    index.remove(&block);
}
