ghost use Rattle.std.specs.Prelude.{◌≡◌, ◌+◌, ◌<◌, ◌≤◌, length, IfOk, IfSome, IfNone, count_by, sum_by};
ghost use Rattle.std.specs.List.{AllWithin, range_with_len};
ghost use Rattle.std.specs.List.Sorted.{IsNonDecreasingBy};
ghost use Rattle.journal_format.specs.Touches.{AreWithin};
ghost use Rattle.latest_writes.specs.Puts.{HasNoPut, IsNextPut, is_put, puts_of};
ghost use Rattle.latest_writes.specs.inner.Puts.{EndsBehind, EndsBy};
ghost use Rattle.latest_writes.specs.inner.Ranges.{RangeEndsBehind, RangeEndsBy};
ghost use Rattle.latest_writes.specs.Ranges.{AreLastTouches, AreRanges, touch_at};

use crate::overlay::overlay;
use crate::range::{LastRange, PutRange, clip};
use crate::touch::LastTouch;
use journal_format::TouchedRange;
use std::alloc::{AllocError, Global};
use std::marker::Model;

/// The last touch of each block of an image by the commands of an area, as ranges in ascending order.
///
/// Of n touched ranges, of which a command has one and with edges up to three, there are at most 2n ranges. They take at
/// most 80 bytes a touched range while they are made, and then 28 bytes a range that is a put and 16 another one: of puts to
/// blocks apart, 28 bytes a command.
#[derive(Drop)]
pub struct LastTouches {
    blocks: u32,
    ranges: Vec<LastRange>,
    puts: Vec<PutRange>,
    blocks_to_copy: u32,
}

impl Model for LastTouches {
    ghost use Rattle.latest_writes.specs.Resolved.{ResolvedTouches, IsResolved};

    ghost Value = { ResolvedTouches };

    ghost view = { λ touches. record { blocks = touches.blocks; ranges = touches.ranges.items } };

    ghost invariant = { λ touches. IsResolved touches.blocks touches.ranges.items touches.puts.items touches.blocks_to_copy };
}

impl LastTouches {
    /// The last touches of the blocks before `blocks` by an area that begins at byte `from` of the device, where the
    /// ranges stand in the order of their commands.
    ///
    /// The time it takes goes with the number n of touched ranges, as n log n, and not with that of blocks. Refusal 0 (no
    /// memory).
    pub fn resolve(
        alloc: Global,
        from: u64,
        touched: &[TouchedRange],
        blocks: u32,
    ) -> Result<LastTouches, AllocError>
        requires { AreWithin from (from + 4294967295) touched.now }
        ensures blocks { IfOk result (λ touches. touches.blocks ≡ blocks) }
        ensures exact { IfOk result (λ touches. AreLastTouches from blocks touched.now touches.ranges) }
    {
        let mut ranges = resolved(alloc, from, touched, blocks)?;
        ranges.shrink_to_fit();
        let mut puts = puts(alloc, &ranges)?;
        puts.shrink_to_fit();
        let blocks_to_copy = sum_of_blocks(&puts);
        Ok(LastTouches {
            blocks,
            ranges,
            puts,
            blocks_to_copy,
        })
    }

    /// The ranges, ascending and apart.
    pub fn ranges(&self) -> &[LastRange]
        ensures value { result.now ≡ self.now.ranges }
        ensures apart { AreRanges 0 self.now.blocks self.now.ranges }
    {
        &self.ranges
    }

    /// How many blocks have a put as their last touch.
    pub fn blocks_to_copy(&self) -> u32
        ensures { result ≡ count_by (λ block. is_put (touch_at block self.now.ranges)) (range_with_len 0 self.now.blocks) }
    {
        self.blocks_to_copy
    }

    /// The last touch of a block. The time it takes goes with the logarithm of the number of ranges.
    pub fn touch_of(&self, block: u32) -> Option<LastTouch>
        ensures { result ≡ touch_at block self.now.ranges }
    {
        let index = range_after(&self.ranges, block);
        if index < self.ranges.len() {
            self.ranges[index].touch_of(block)
        } else {
            None
        }
    }

    /// The first block from `from` on whose last touch is a put, with the blocks after it that follow it in the image
    /// and in the area. The time it takes goes with the logarithm of the number of ranges.
    pub fn next_put(&self, from: u32) -> Option<PutRange>
        ensures some { IfSome result (IsNextPut from self.now.ranges) }
        ensures none { IfNone result (HasNoPut from self.now.ranges) }
    {
        let index = first_after(&self.puts, from);
        if index < self.puts.len() {
            Some(self.puts[index].from_block(from))
        } else {
            None
        }
    }
}

// The last touches as ranges, by halves: the later half is laid over the earlier one.
fn resolved(
    alloc: Global,
    from: u64,
    touched: &[TouchedRange],
    blocks: u32,
) -> Result<Vec<LastRange>, AllocError>
    requires { AreWithin from (from + 4294967295) touched.now }
    ensures { IfOk result (λ ranges. AreLastTouches from blocks touched.now ranges.items) }
{
    if touched.len() < 2 {
        return one(alloc, from, touched, blocks);
    }
    let (earlier, later) = touched.split_at(touched.len() / 2);
    let older = resolved(alloc, from, earlier, blocks)?;
    let newer = resolved(alloc, from, later, blocks)?;
    overlay(
        alloc,
        most_ranges(touched.len(), older.len(), newer.len()),
        &older,
        &newer,
    )
}

// The most ranges of this many touched ones: each adds at most one, and leaves at most two parts of another; so of a newer
// range with the older ones.
fn most_ranges(touched: usize, older: usize, newer: usize) -> usize
    ensures { result ≤ touched + touched }
{
    let laid = older.saturating_add(newer).saturating_add(newer);
    laid.min(touched.saturating_mul(2))
}

// What one range touched, or none.
fn one(
    alloc: Global,
    from: u64,
    touched: &[TouchedRange],
    blocks: u32,
) -> Result<Vec<LastRange>, AllocError>
    requires some { length touched.now < 2 }
    requires within { AreWithin from (from + 4294967295) touched.now }
    ensures { IfOk result (λ ranges. AreLastTouches from blocks touched.now ranges.items) }
{
    let mut ranges = Vec::new(alloc);
    if let [range] = touched
        && let Some(clipped) = clip(from, *range, blocks)
    {
        ranges.reserve_exact(1)?;
        ranges.push(clipped)?;
    }
    Ok(ranges)
}

// The puts among the ranges.
fn puts(alloc: Global, ranges: &[LastRange]) -> Result<Vec<PutRange>, AllocError>
    ensures { IfOk result (λ puts. puts.items ≡ puts_of ranges.now) }
{
    let mut puts = Vec::with_capacity(alloc, ranges.len())?;
    for range in ranges {
        if let LastTouch::Put(place) = range.touch {
            puts.push(PutRange {
                first: range.first,
                blocks: range.blocks,
                place,
            })?;
        }
    }
    Ok(puts)
}

// The index of the first put that ends after the block.
fn first_after(puts: &[PutRange], block: u32) -> usize
    requires { IsNonDecreasingBy (λ put. put.first + put.blocks) puts.now }
    ensures before { AllWithin (EndsBy block) puts.now 0 result }
    ensures behind { AllWithin (EndsBehind block) puts.now result (length puts.now) }
{
    puts.partition_point(|put| put.ends_by(block))
}

// The index of the first range that ends after the block.
fn range_after(ranges: &[LastRange], block: u32) -> usize
    requires { IsNonDecreasingBy (λ range. range.first + range.blocks) ranges.now }
    ensures before { AllWithin (RangeEndsBy block) ranges.now 0 result }
    ensures behind { AllWithin (RangeEndsBehind block) ranges.now result (length ranges.now) }
{
    ranges.partition_point(|range| range.ends_by(block))
}

// The number of blocks of the puts.
#[tactic(auto, using(std::proofs::lemmas::List::Sums::sum_by_more, std::proofs::lemmas::List::Sums::sum_by_more_le))]
fn sum_of_blocks(puts: &[PutRange]) -> u32
    requires { sum_by (λ put. put.blocks) puts.now ≤ 4294967295 }
    ensures { result ≡ sum_by (λ put. put.blocks) puts.now }
{
    let mut sum = 0;
    for put in puts {
        sum += put.blocks;
    }
    sum
}
