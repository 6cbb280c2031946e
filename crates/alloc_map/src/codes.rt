ghost use Rattle.std.specs.Prelude.{◌≡◌, ◌≢◌, ◌+◌, ◌-◌, ◌*◌, ◌/◌, ◌%◌, ◌^◌, ◌<◌, ◌≤◌, ℕ, length, nat_eq, if◌then◌else◌, IsTrue, slice_index, replicate, MatchBool};
ghost use Rattle.alloc_map.specs.Codes.{code_at, code_of};
ghost use Rattle.alloc_map.specs.Map.{IsMap, IsBadMap};
ghost use Rattle.image_model.specs.Geometry.{map_bytes_of};
ghost use Rattle.image_model.specs.Image.{covers};
ghost use Rattle.image_model.specs.Patched.{patched};

use byteorder::{ByteOrder, LittleEndian};
use image_model::Kind;

// The blocks of a byte, and of a 64-bit word.
const BYTE_BLOCKS: u64 = 4;

const WORD_BLOCKS: u64 = 32;

// A byte, and a word, whose blocks all have code 1.
const ONES_BYTE: u8 = 0x55;

const ONES_WORD: u64 = 0x5555_5555_5555_5555;

// The code of a state.
pub fn code_of(kind: Kind) -> u8
    ensures code { result ≡ code_of kind }
    ensures small { result < 3 }
{
    match kind {
        Kind::Hole => 0,
        Kind::Zero => 1,
        Kind::Data => 2,
    }
}

// The code of a block.
pub fn code_in(bytes: &[u8], block: u64) -> u8
    requires { block < 4 * length bytes.now }
    ensures { result ≡ code_at bytes.now block }
{
    (bytes[(block / 4) as usize] >> (2 * (block % 4))) % 4
}

// Whether the codes are those of a map of this many blocks.
pub fn has_good_codes(blocks: u64, bytes: &[u8]) -> bool
    requires few { blocks ≤ 16777216 }
    requires size { length bytes.now ≡ map_bytes_of blocks }
    ensures { MatchBool result (IsMap blocks bytes.now) (IsBadMap blocks bytes.now) }
{
    let all = 4 * bytes.len() as u64;
    let mut block = 0;
    while block < all {
        let code = code_in(bytes, block);
        if code == 3 || (block >= blocks && code > 0) {
            return false;
        }
        let end = if block < blocks { blocks } else { all };
        block += same_ahead(bytes, block, end, code);
    }
    true
}

// The byte with this code at one of its four blocks.
fn with_code(byte: u8, place: u64, code: u8) -> u8
    requires place { place < 4 }
    requires code { code < 3 }
    ensures { (j : ℕ) → j < 4 → result / 2 ^ (2 * j) % 4 ≡ (if nat_eq j place then code else byte / 2 ^ (2 * j) % 4) }
{
    match place {
        0 => byte - byte % 4 + code,
        1 => byte - byte / 4 % 4 * 4 + code * 4,
        2 => byte - byte / 16 % 4 * 16 + code * 16,
        _ => byte % 64 + code * 64,
    }
}

// Gives the blocks of the range this code, one by one.
fn set_each(bytes: &mut Vec<u8>, from: u64, to: u64, code: u8)
    requires order { from ≤ to }
    requires inside { to ≤ 4 * length bytes.old.items }
    requires code { code < 3 }
    ensures size { length bytes.new.items ≡ length bytes.old.items }
    ensures codes { (block : ℕ) → code_at bytes.new.items block ≡ (if covers from (to - from) block then code else code_at bytes.old.items block) }
{
    for block in from..to {
        let at = (block / 4) as usize;
        bytes[at] = with_code(bytes[at], block % 4, code);
    }
}

// Gives the blocks of the range, which are those of whole bytes, this code.
fn set_bytes(bytes: &mut Vec<u8>, from: u64, to: u64, code: u8)
    requires order { from ≤ to }
    requires inside { to ≤ 4 * length bytes.old.items }
    requires whole { from < to → (from % 4 ≡ 0) × (to % 4 ≡ 0) }
    requires code { code < 3 }
    ensures size { length bytes.new.items ≡ length bytes.old.items }
    ensures codes { (block : ℕ) → code_at bytes.new.items block ≡ (if covers from (to - from) block then code else code_at bytes.old.items block) }
{
    let at = (from / 4) as usize;
    fill(bytes, at, (to / 4) as usize - at, ONES_BYTE * code);
}

// Makes this many bytes from `at` on this one.
fn fill(bytes: &mut Vec<u8>, at: usize, count: usize, byte: u8)
    requires { at + count ≤ length bytes.old.items }
    ensures { bytes.new.items ≡ patched bytes.old.items at (replicate count byte) }
{
    bytes[at..at + count].fill(byte);
}

// Gives the blocks of the range this code: those of whole bytes at once, and those at the edges one by one.
pub fn set_codes(bytes: &mut Vec<u8>, from: u64, to: u64, code: u8)
    requires order { from ≤ to }
    requires inside { to ≤ 4 * length bytes.old.items }
    requires few { to ≤ 16777216 }
    requires code { code < 3 }
    ensures size { length bytes.new.items ≡ length bytes.old.items }
    ensures codes { (block : ℕ) → code_at bytes.new.items block ≡ (if covers from (to - from) block then code else code_at bytes.old.items block) }
{
    let low = to.min((from + 3) / 4 * 4);
    let high = low.max(to / 4 * 4);
    set_each(bytes, from, low, code);
    set_bytes(bytes, low, high, code);
    set_each(bytes, high, to, code);
}

// Whether the blocks of a word all have this code.
fn is_word_of(bytes: &[u8], at: usize, code: u8) -> bool
    requires inside { at + 8 ≤ length bytes.now }
    requires code { code < 3 }
    ensures { IsTrue result → (k : ℕ) → k < 8 → slice_index bytes.now (at + k) ≡ 85 * code }
{
    LittleEndian::read_u64(&bytes[at..]) == ONES_WORD * code as u64
}

// How many blocks from this one on are seen at once to have this code: those of a word, those of a byte, or it alone,
// and none where it has another.
fn same_ahead(bytes: &[u8], block: u64, to: u64, code: u8) -> u64
    requires inside { to ≤ 4 * length bytes.now }
    requires before { block ≤ to }
    requires code { code < 3 }
    ensures within { block + result ≤ to }
    ensures same { (k : ℕ) → block ≤ k → k < block + result → code_at bytes.now k ≡ code }
    ensures none { result ≡ 0 → block < to → code_at bytes.now block ≢ code }
{
    let at = (block / BYTE_BLOCKS) as usize;
    if block % WORD_BLOCKS == 0 && to - block >= WORD_BLOCKS && is_word_of(bytes, at, code) {
        return WORD_BLOCKS;
    }
    if block % BYTE_BLOCKS == 0 && to - block >= BYTE_BLOCKS && bytes[at] == ONES_BYTE * code {
        return BYTE_BLOCKS;
    }
    if block < to && code_in(bytes, block) == code {
        return 1;
    }
    0
}

// The end of the longest run that begins with this block, `to` at most.
pub fn run_end(bytes: &[u8], block: u64, to: u64) -> u64
    requires inside { to ≤ 4 * length bytes.now }
    requires before { block < to }
    requires small { code_at bytes.now block < 3 }
    ensures some { block < result }
    ensures within { result ≤ to }
    ensures same { (k : ℕ) → block ≤ k → k < result → code_at bytes.now k ≡ code_at bytes.now block }
    ensures longest { result < to → code_at bytes.now result ≢ code_at bytes.now block }
{
    let code = code_in(bytes, block);
    let mut end = block;
    let mut ahead = 1;
    while ahead > 0 {
        end += ahead;
        ahead = same_ahead(bytes, end, to, code);
    }
    end
}
