ghost use Rattle.std.specs.Prelude.{◌≡◌, ◌+◌, ◌/◌, ◌%◌, ◌^◌, ◌<◌, ◌≤◌, length, OnOk};

use crate::fault::{TargetFault, TransferFault};
use crate::importing::{data_end, zeroes_end};
use crate::source::Source;
use crate::target::Target;
use crate::zeroes::BLOCK;
use std::alloc::Global;

// The most blocks that are read and given at once: 1 MiB.
const MOST_BLOCKS: u64 = 256;

/// Gives the target the next blocks of the source. It takes memory for 1 MiB.
pub fn export<S: Source, T: Target>(
    alloc: Global,
    source: &mut S,
    blocks: u64,
    target: &mut T,
) -> Result<(), TransferFault>
    requires first { S.block source.old ≡ 0 }
    requires few { blocks ≤ 16777216 }
    ensures given { OnOk result (S.block source.new ≡ blocks) }
{
    let mut buffer = vec![in alloc; 0; BLOCK * MOST_BLOCKS as usize]?;
    let mut block = 0;
    while block < blocks {
        let passed = source.pass_zeroes(blocks - block)?;
        target.write_zeroes(passed)?;
        block += passed;
        let count = (blocks - block).min(MOST_BLOCKS);
        pass_on(source, &mut buffer[..BLOCK * count as usize], target)?;
        block += count;
    }
    Ok(())
}

// Reads the blocks that the buffer takes, and gives them to the target.
fn pass_on<S: Source, T: Target>(
    source: &mut S,
    buffer: &mut [u8],
    target: &mut T,
) -> Result<(), TransferFault>
    requires whole { length buffer.old % 4096 ≡ 0 }
    requires few { S.block source.old + length buffer.old / 4096 < 2 ^ 64 }
    ensures block { OnOk result (S.block source.new ≡ S.block source.old + length buffer.old / 4096) }
    ensures buffer { length buffer.new ≡ length buffer.old }
{
    source.read(buffer)?;
    give(target, buffer)?;
    Ok(())
}

// Gives the target the bytes of whole blocks: those that are all zero as such.
fn give<T: Target>(target: &mut T, bytes: &[u8]) -> Result<(), TargetFault> {
    let count = bytes.len() / BLOCK;
    let mut at = 0;
    while at < count {
        let end = zeroes_end(bytes, at, count);
        target.write_zeroes((end - at) as u64)?;
        at = data_end(bytes, end, count);
        target.write(&bytes[BLOCK * end..BLOCK * at])?;
    }
    Ok(())
}
