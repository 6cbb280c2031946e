ghost use Rattle.std.specs.Prelude.{◌≡◌, ℕ, ◌+◌, ◌-◌, ◌^◌, ◌<◌, ◌≤◌, List, length, is_some, IfNone, IfOk, IfSome, None, Some};
ghost use Rattle.device_image.specs.Plan.{IsNextCopy};
ghost use Rattle.device_image.specs.inner.Plan.{kind_given};
ghost use Rattle.device_image.specs.Keeper.{AreStatesAfter, IsPlanOf};
ghost use Rattle.journal_format.specs.Touches.{AreWithin, last_touch};
ghost use Rattle.journal_format.specs.declared.touch.TouchedRange.{TouchedRange};
ghost use Rattle.latest_writes.specs.Ranges.{AreLastTouches};

use alloc_map::AllocMap;
use image_model::Kind;
use journal::Area;
use journal_format::Touch;
use latest_writes::{LastTouch, LastTouches, PutRange};
use std::alloc::{AllocError, Global};
use std::marker::Model;

/// A checkpoint of an area in use before the last: what is left to copy of it, and the map after it, once that is
/// written. Of the area it keeps where it stands, the number after its list, and the last touches of its blocks.
#[derive(Drop)]
pub struct CopyPlan {
    start: u64,
    bytes: u32,
    next: u64,
    touches: LastTouches,
    copied: u32,
    left: u32,
    map: Option<AllocMap>,
}

impl Model for CopyPlan {
    ghost use Rattle.device_image.specs.Plan.{IsPlan, remembered};
    ghost use Rattle.device_image.specs.Keeper.{PlanState};

    ghost Value = { PlanState };

    ghost view = { λ plan. record { first = remembered plan.start plan.bytes plan.next plan.touches; copied = plan.copied; left = plan.left; mapped = plan.map } };

    ghost invariant = { λ plan. IsPlan (remembered plan.start plan.bytes plan.next plan.touches) plan.touches plan.copied plan.left plan.map };
}

/// The last touches of the blocks of an area. Refusal 0 (no memory).
pub fn latest_writes(alloc: Global, area: &Area, blocks: u32) -> Result<LastTouches, AllocError>
    requires bytes { area.now.bytes ≤ 1073741824 }
    requires blocks { blocks ≡ area.now.blocks }
    ensures blocks { IfOk result (λ touches. touches.blocks ≡ area.now.blocks) }
    ensures last { IfOk result (λ touches. AreLastTouches area.now.from area.now.blocks area.now.touched touches.ranges) }
    ensures within { AreWithin area.now.from (area.now.from + area.now.bytes) area.now.touched }
{
    LastTouches::resolve(alloc, area.start(), area.touched(), blocks)
}

// The state that a touch gives to its blocks.
fn kind_given(touch: LastTouch) -> Kind
    ensures { result ≡ kind_given touch }
{
    match touch {
        LastTouch::Put(_) => Kind::Data,
        LastTouch::Clear(kind) => kind,
    }
}

/// The map after an area of an image of `blocks` blocks, from the map before it. It takes memory for one map and for the
/// last touches. Refusal 0 (no memory).
pub fn map_after_area(
    alloc: Global,
    area: &Area,
    blocks: u32,
    map: &AllocMap,
) -> Result<AllocMap, AllocError>
    requires bytes { area.now.bytes ≤ 1073741824 }
    requires blocks { blocks ≡ area.now.blocks }
    requires count { length map.now ≡ area.now.blocks }
    ensures { IfOk result (λ after. AreStatesAfter area.now.touched map.now after) }
{
    let touches = latest_writes(alloc, area, blocks)?;
    apply_touches(alloc, &touches, map)
}

// The map with the states that these last touches give to their blocks.
fn apply_touches(
    alloc: Global,
    touches: &LastTouches,
    map: &AllocMap,
) -> Result<AllocMap, AllocError>
    requires { length map.now ≡ touches.now.blocks }
    ensures { IfOk result (λ after. (from : ℕ) (touched : List TouchedRange) → AreLastTouches from (length map.now) touched touches.now.ranges
        → AreStatesAfter touched map.now after) }
{
    let mut after = map.copy(alloc)?;
    for range in touches.ranges() {
        after.set_range(
            range.first as u64,
            range.blocks as u64,
            kind_given(range.touch),
        );
    }
    Ok(after)
}

impl CopyPlan {
    /// A checkpoint of this area, with its last touches, of which nothing is copied.
    pub fn new(area: &Area, touches: LastTouches) -> CopyPlan
        requires blocks { touches.blocks ≡ area.now.blocks }
        requires few { area.now.blocks ≤ 16777216 }
        requires last { AreLastTouches area.now.from area.now.blocks area.now.touched touches.ranges }
        requires within { AreWithin area.now.from (area.now.from + area.now.bytes) area.now.touched }
        ensures { IsPlanOf area.now result }
    {
        let left = touches.blocks_to_copy();
        CopyPlan {
            start: area.start(),
            bytes: area.bytes(),
            next: area.next(),
            touches,
            copied: 0,
            left,
            map: None,
        }
    }

    /// How many blocks are left to copy.
    pub fn left(&self) -> u32
        ensures { result ≡ self.now.left }
    {
        self.left
    }

    /// The first byte of the area that is copied.
    pub fn start(&self) -> u64
        ensures { result ≡ self.now.first.from }
    {
        self.start
    }

    /// The number after the area's list; 0 where no number is left.
    pub fn next(&self) -> u64
        ensures { result ≡ self.now.first.next }
    {
        self.next
    }

    /// The last touch of a block by the area.
    pub fn touch_of(&self, block: u32) -> Option<Touch>
        ensures { block < self.now.first.blocks → self.now.first.from + self.now.first.bytes < 2 ^ 64
            → result ≡ last_touch block self.now.first.touched }
    {
        match self.touches.touch_of(block)? {
            LastTouch::Put(place) => Some(Touch::Put(self.start.saturating_add(place as u64))),
            LastTouch::Clear(kind) => Some(Touch::Clear(kind)),
        }
    }

    /// Whether the map is written.
    pub fn is_mapped(&self) -> bool
        ensures { result ≡ is_some self.now.mapped }
    {
        self.map.is_some()
    }

    /// The next blocks to copy, at most `most`.
    pub fn next_copy(&self, most: u32) -> Option<PutRange>
        requires { 1 ≤ most }
        ensures some { IfSome result (IsNextCopy self.now most) }
        ensures unmapped { IfSome result (λ put. self.now.mapped ≡ None) }
        ensures none { IfNone result (self.now.left ≡ 0) }
    {
        let put = self.touches.next_put(self.copied)?;
        Some(PutRange {
            blocks: put.blocks.min(most),
            ..put
        })
    }

    /// These blocks are copied.
    pub fn advance(&mut self, put: PutRange)
        requires next { IsNextCopy self.old put.blocks put }
        requires unmapped { self.old.mapped ≡ None }
        ensures { self.new ≡ record self.old { copied = put.first + put.blocks; left = self.old.left - put.blocks } }
    {
        self.copied = put.first + put.blocks;
        self.left -= put.blocks;
    }

    /// The map is written.
    pub fn set_map(&mut self, map: AllocMap)
        requires none_left { self.old.left ≡ 0 }
        requires count { length map ≡ self.old.first.blocks }
        ensures { self.new ≡ record self.old { mapped = Some map } }
    {
        self.map = Some(map);
    }

    /// The map, where it is written.
    pub fn into_map(self) -> Option<AllocMap>
        ensures map { result ≡ self.mapped }
        ensures count { IfSome result (λ map. length map ≡ self.first.blocks) }
    {
        let CopyPlan {
            start: _,
            bytes: _,
            next: _,
            touches: _,
            copied: _,
            left: _,
            map,
        } = self;
        map
    }

    /// The map after the area, where this is the one before. It takes memory for one map. Refusal 0 (no memory).
    pub fn map_after(&self, alloc: Global, map: &AllocMap) -> Result<AllocMap, AllocError>
        requires { length map.now ≡ self.now.first.blocks }
        ensures { IfOk result (λ after. AreStatesAfter self.now.first.touched map.now after) }
    {
        apply_touches(alloc, &self.touches, map)
    }
}
