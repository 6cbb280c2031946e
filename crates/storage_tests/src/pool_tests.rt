//! Calls in any order on a pool and on plain lists: each answer, and in the end all lists and bytes, are the same.
ghost use Rattle.std.specs.Prelude.{◌<◌};

use crate::both::Both;
use std::alloc::{AllocError, Global};
use std::test::Fail;

// The next number, as good as random.
fn next(seed: u64) -> u64 {
    let stirred = seed ^ (seed << 13);
    let turned = stirred ^ (stirred >> 7);
    turned ^ (turned << 17)
}

// One call, and whether both answer it alike and agree on a frame thereafter.
fn call(both: &mut Both, seed: u64, frames: u32) -> Result<bool, AllocError> {
    let frame = (seed >> 40) as u32 % frames.max(1);
    let other = (seed >> 34) as u32 % frames.max(1);
    let above = (seed >> 8) % 3;
    let same = match seed % 8 {
        0 => both.evict()?,
        1 => both.pop((seed >> 12) % 16)?,
        2 => {
            both.release(frame)?;
            true
        }
        3 => {
            both.write_clean(frame, seed)?;
            true
        }
        4 => {
            both.write_dirty(frame, above, seed)?;
            true
        }
        _ => {
            both.take(above, seed)?;
            true
        }
    };
    Ok(same && both.agree_on(frame) && both.agree_on(other))
}

// Empties the lists of dirty and of clean frames from their fronts, and then takes each frame: whether both have the same lists.
fn same_lists(both: &mut Both, frames: u32) -> Result<bool, AllocError> {
    let mut same = true;
    for _ in 0..frames {
        same = both.pop(0)? && same;
    }
    for _ in 0..frames {
        same = both.evict()? && same;
    }
    for frame in 0..frames {
        same = both.agree_on(frame) && same;
        both.take(0, 0)?;
    }
    Ok(same && both.agree_on(0))
}

// This many calls on a pool of this many frames: whether all answers and the lists in the end are the same.
fn round(alloc: Global, mut seed: u64, frames: u32, calls: u32) -> Result<bool, AllocError>
    requires { frames < 1000 }
{
    let mut both = Both::new(alloc, frames)?;
    for _ in 0..calls {
        seed = next(seed);
        if !call(&mut both, seed, frames)? {
            return Ok(false);
        }
    }
    same_lists(&mut both, frames)
}

#[test]
fn a_hundred_thousand_calls(rt: HostRuntime) -> Result<(), Fail> {
    for turn in 0..100 {
        let seed = 0x9e37_79b9_7f4a_7c15 ^ (turn << 32);
        assert!(rt; round(rt.alloc(), seed, turn as u32 % 50, 1_000)?);
    }
    Ok(())
}
