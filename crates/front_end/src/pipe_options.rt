ghost use Rattle.std.specs.Prelude.{◌≡◌, ◌≤◌, MatchOption};

use crate::limits::{LEAST_FRAMES, MOST_FRAMES};
use export_model::Mode;

/// How one connection is served over a pair of streams.
#[derive(Clone, Copy)]
pub struct PipeOptions {
    /// The most blocks that may wait for the checkpoint.
    pub frames: u32,
    pub mode: Mode,
    ghost frames_enough: { 512 ≤ frames },
    ghost frames_few: { frames ≤ 65536 },
}

impl PipeOptions {
    /// These options; none where the frames aren't 512 to 65,536.
    pub fn new(frames: u64, mode: Mode) -> Option<PipeOptions>
        ensures { MatchOption result ((512 ≤ frames) × (frames ≤ 65536) → ⊥) (λ options. (options.frames ≡ frames) × (options.mode ≡ mode)) }
    {
        if !(LEAST_FRAMES..=MOST_FRAMES).contains(&frames) {
            return None;
        }
        Some(PipeOptions {
            frames: frames as u32,
            mode,
        })
    }
}
