//! What a READ and a BLOCK_STATUS are answered, of the image that an order holds.

ghost use Rattle.std.specs.Prelude.{◌≡◌, ◌≢◌, ◌+◌, ◌*◌, ◌/◌, ◌<◌, ◌≤◌, ℕ, IfOk, length, slice_index, vec_len};
ghost use Rattle.alloc_map.specs.Codes.{state_at};
ghost use Rattle.image_model.specs.Image.{Image};
ghost use Rattle.image_model.specs.declared.command.Kind.TheVariants.{Data};
ghost use Rattle.export_model.specs.Shown.{cut_to, most_runs, read_status_of, runs_met, shown_by};

use crate::runs::status_runs;
use bitflags::Flags;
use marks::BoardName;
use nbd_wire::{Answer, CommandFlags, ReadBytes, RequestHead, Run, States};
use order_book::Order;
use std::alloc::{AllocError, Global};

// The most runs that a BLOCK_STATUS is answered.
const MOST_RUNS: usize = 1_024;

// The answer to a READ of these bytes, in these runs.
pub(crate) fn bytes_answer<B: BoardName>(
    head: &RequestHead,
    order: &Order<B>,
    bytes: Vec<u8>,
    runs: Vec<Run>,
) -> Answer
    requires kind { head.now.kind ≡ 0 }
    requires some { 0 < head.now.length }
    requires most { head.now.length ≤ 1048576 }
    requires few { length order.now.cache.states ≤ 16777216 }
    requires inside { head.now.offset + head.now.length ≤ 4096 * length order.now.cache.states }
    requires size { vec_len bytes ≡ head.now.length }
    requires runs { runs.items ≡ cut_to head.now.offset head.now.length (runs_met (λ block. read_status_of (state_at order.now.cache.states block)) head.now.offset head.now.length) }

    // What isn't data is zero.
    requires zero { (k : ℕ) → k < vec_len bytes → state_at order.now.cache.states ((head.now.offset + k) / 4096) ≢ Data
        → slice_index bytes.items k ≡ 0 }
    ensures { (image : Image) → ((block : ℕ) → image.kind block ≡ state_at order.now.cache.states block)
        → ((k : ℕ) → k < head.now.length → slice_index bytes.items k ≡ image.byte (head.now.offset + k)) → result ≡ shown_by image head.now }
{
    Answer::Bytes(ReadBytes::new(head.offset, bytes, runs))
}

// The answer to a BLOCK_STATUS.
pub(crate) fn status_answer<B: BoardName>(
    alloc: Global,
    head: &RequestHead,
    order: &Order<B>,
) -> Result<Answer, AllocError>
    requires kind { head.now.kind ≢ 0 }
    requires some { 0 < head.now.length }
    requires few { length order.now.cache.states ≤ 16777216 }
    requires inside { head.now.offset + head.now.length ≤ 4096 * length order.now.cache.states }
    ensures { IfOk result (λ answer. (image : Image) → ((block : ℕ) → image.kind block ≡ state_at order.now.cache.states block) → answer ≡ shown_by image head.now) }
{
    let runs = status_runs(alloc, order, head.offset, head.length, most_runs(head))?;
    Ok(Answer::States(States::new(runs)))
}

// How many runs are answered at most.
fn most_runs(head: &RequestHead) -> usize
    ensures { result ≡ most_runs head.now }
{
    let one = CommandFlags::REQ_ONE.bits();
    if head.flags & one == one {
        1
    } else {
        MOST_RUNS
    }
}
