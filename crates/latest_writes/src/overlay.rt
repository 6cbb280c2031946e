ghost use Rattle.std.specs.Prelude.{◌≡◌, ◌+◌, ◌<◌, ◌≤◌, ℕ, List, [], ◌∷◌, length, drop, IfOk, IfSome, IfNone, OnSome, OnOk};
ghost use Rattle.std.specs.Option.{option_map_or};
ghost use Rattle.latest_writes.specs.declared.range.LastRange.{LastRange};
ghost use Rattle.latest_writes.specs.Ranges.{AreLongest, AreRanges, IsRange, touch_at};
ghost use Rattle.latest_writes.specs.inner.Ranges.{AreLaidOver, AreLeft, IsNextLaid, IsPartOf, left_at};
ghost use Rattle.latest_writes.specs.Touches.{later, said_by};

use crate::range::LastRange;
use std::alloc::{AllocError, Global};

// How far newer ranges are laid over older ones: up to the block `done`. The indices are those of the ranges that come next.
#[derive(Clone, Copy)]
struct Laid {
    older: usize,
    newer: usize,
    done: u32,
}

// The newer ranges laid over the older ones, with room for this many. It takes a step for each range and each part of one.
pub fn overlay(
    alloc: Global,
    most: usize,
    older: &[LastRange],
    newer: &[LastRange],
) -> Result<Vec<LastRange>, AllocError>
    requires older { AreRanges 0 4294967295 older.now }
    requires newer { AreRanges 0 4294967295 newer.now }
    ensures { IfOk result (λ ranges. AreLaidOver older.now newer.now ranges.items) }
{
    let mut ranges = Vec::with_capacity(alloc, most)?;
    let mut laid = Laid {
        older: 0,
        newer: 0,
        done: 0,
    };
    while let Some(range) = next_range(older, newer, &mut laid) {
        join(&mut ranges, range)?;
    }
    Ok(ranges)
}

// The next range of the newer ones laid over the older ones; none where all are laid.
fn next_range(older: &[LastRange], newer: &[LastRange], laid: &mut Laid) -> Option<LastRange>
    requires { AreLeft (drop laid.old.older older.now) (drop laid.old.newer newer.now) laid.old.done }
    ensures left { AreLeft (drop laid.new.older older.now) (drop laid.new.newer newer.now) laid.new.done }
    ensures next { IfSome result (λ range. IsNextLaid (drop laid.old.older older.now) (drop laid.old.newer newer.now) laid.old.done
        range (drop laid.new.older older.now) (drop laid.new.newer newer.now) laid.new.done) }
    ensures none { IfNone result
        ((block : ℕ) → left_at (drop laid.old.older older.now) (drop laid.old.newer newer.now) laid.old.done block ≡ None) }
{
    laid.older = first_after(older, laid.older, laid.done);
    let new = range_at(newer, laid.newer);
    if let Some(part) = part_of(older, laid.older, laid.done, first_of(new)) {
        laid.done = part.end();
        return Some(part);
    }
    let range = new?;
    laid.newer += 1;
    laid.done = range.end();
    Some(range)
}

// The first block of the range, where there is one, else the greatest number.
fn first_of(range: Option<LastRange>) -> u32
    ensures { result ≡ option_map_or (λ range. range.first) range 4294967295 }
{
    match range {
        Some(range) => range.first,
        None => u32::MAX,
    }
}

// The range at the index.
fn range_at(ranges: &[LastRange], index: usize) -> Option<LastRange>
    ensures some { IfSome result (λ range. drop index ranges.now ≡ range ∷ drop (index + 1) ranges.now) }
    ensures inside { OnSome result (index < length ranges.now) }
    ensures none { IfNone result (drop index ranges.now ≡ []) }
{
    if index < ranges.len() {
        Some(ranges[index])
    } else {
        None
    }
}

// The index of the first range from one index on that ends after the block.
fn first_after(ranges: &[LastRange], index: usize, block: u32) -> usize
    requires { AreRanges 0 4294967295 (drop index ranges.now) }
    ensures left { AreRanges 0 4294967295 (drop result ranges.now) }
    ensures same { (place : ℕ) → block ≤ place → touch_at place (drop result ranges.now) ≡ touch_at place (drop index ranges.now) }
    ensures behind { (range : LastRange) (ranges_behind : List LastRange) → drop result ranges.now ≡ range ∷ ranges_behind
        → block < range.first + range.blocks }
{
    let mut index = index;
    while let Some(range) = range_at(ranges, index) {
        if block < range.end() {
            return index;
        }
        index += 1;
    }
    index
}

// The blocks of the range at the index that are from one block on and before another one.
fn part_of(ranges: &[LastRange], index: usize, from: u32, to: u32) -> Option<LastRange>
    requires apart { AreRanges 0 4294967295 (drop index ranges.now) }
    requires behind { (range : LastRange) (ranges_behind : List LastRange) → drop index ranges.now ≡ range ∷ ranges_behind
        → from < range.first + range.blocks }
    ensures part { IfSome result (IsPartOf (drop index ranges.now) from to) }
    ensures none { IfNone result ((block : ℕ) → from ≤ block → block < to → touch_at block (drop index ranges.now) ≡ None) }
{
    let range = range_at(ranges, index)?;
    let first = range.first.max(from);
    if to <= first {
        return None;
    }
    Some(range.from_block(first).before(to))
}

// One more range after the others; it is joined to the last one where it goes on from it.
fn join(ranges: &mut Vec<LastRange>, range: LastRange) -> Result<(), AllocError>
    requires apart { AreRanges 0 range.first ranges.old.items }
    requires longest { AreLongest ranges.old.items }
    requires range { IsRange range }
    ensures apart { OnOk result (AreRanges 0 (range.first + range.blocks) ranges.new.items) }
    ensures longest { OnOk result (AreLongest ranges.new.items) }
    ensures exact { OnOk result ((block : ℕ) → touch_at block ranges.new.items
        ≡ later (touch_at block ranges.old.items) (said_by range.first range.blocks range.touch block)) }
{
    let Some(last) = ranges.pop() else {
        ranges.push(range)?;
        return Ok(());
    };
    if last.goes_on(range) {
        ranges.push(LastRange {
            blocks: last.blocks + range.blocks,
            ..last
        })?;
        return Ok(());
    }
    ranges.push(last)?;
    ranges.push(range)?;
    Ok(())
}
