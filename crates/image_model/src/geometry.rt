ghost use Rattle.std.specs.Prelude.{◌≡◌, ◌+◌, ◌*◌, ◌%◌, ◌≤◌, ◌<◌, ◌↔◌, IsSome, IfSome};
ghost use Rattle.image_model.specs.Geometry.{device_bytes_of, map_bytes_of};
ghost use Rattle.image_model.specs.Layout.{AreSizesOf, area_size_of, areas_of};

use crate::layout::Layout;

/// The bytes of a block.
pub const BLOCK_BYTES: u64 = 4096;

/// The most blocks of an image.
pub const MOST_BLOCKS: u64 = 1 << 24;

/// The fewest bytes of a journal area; that of a geometry has a multiple of 8,192 bytes.
pub const LEAST_AREA_BYTES: u32 = 2_097_152;

/// The most bytes of a journal area.
pub const MOST_AREA_BYTES: u32 = 1_073_741_824;

/// The size of an image in blocks, and of a journal area in bytes, within their limits, and how its areas lie.
#[derive(Clone, Copy, Debug, PartialEq, Eq)]
pub struct Geometry {
    pub blocks: u64,
    pub area: u32,
    pub layout: Layout,
    pub ghost some_blocks: { 1 ≤ blocks },
    pub ghost not_too_many: { blocks ≤ 16777216 },
    pub ghost area_not_too_small: { 2097152 ≤ area },
    pub ghost areas_not_too_small: { 2097152 ≤ area_size_of layout area },
    pub ghost area_not_too_large: { area ≤ 1073741824 },
    pub ghost area_whole: { area % 8192 ≡ 0 },
}

impl Geometry {
    /// The geometry of these sizes, of layout 1; none where one of them is outside its limits.
    pub fn new(blocks: u64, area: u32) -> Option<Geometry>
        ensures given { IfSome result (λ geometry. (geometry.blocks ≡ blocks) × (geometry.area ≡ area) × (geometry.layout ≡ Layout.One)) }
        ensures within { IsSome result ↔
            ((1 ≤ blocks) × (blocks ≤ 16777216) × (2097152 ≤ area) × (area ≤ 1073741824) × (area % 8192 ≡ 0)) }
    {
        if blocks < 1 || blocks > MOST_BLOCKS {
            return None;
        }
        if area < LEAST_AREA_BYTES || area > MOST_AREA_BYTES || area % 8192 != 0 {
            return None;
        }
        Some(Geometry {
            blocks,
            area,
            layout: Layout::One,
        })
    }

    /// The same sizes in layout 2; none where each of its areas would be too small: refusal 22 (area too small).
    pub fn with_layout_two(&self) -> Option<Geometry>
        ensures given { IfSome result (λ geometry. (geometry.blocks ≡ self.now.blocks) × (geometry.area ≡ self.now.area) × (geometry.layout ≡ Layout.Two)) }
        ensures within { IsSome result ↔ (4194304 ≤ self.now.area) }
    {
        if self.area < 2 * LEAST_AREA_BYTES {
            return None;
        }
        Some(Geometry {
            blocks: self.blocks,
            area: self.area,
            layout: Layout::Two,
        })
    }

    /// The geometry of this layout with `blocks` blocks, and areas of `size` bytes each; none if one of these is outside its
    /// limits.
    pub fn with_areas(layout: Layout, blocks: u64, size: u32) -> Option<Geometry>
        ensures given { IfSome result (λ geometry. (geometry.blocks ≡ blocks) × (area_size_of layout geometry.area ≡ size) × (geometry.layout ≡ layout)) }
        ensures within { IsSome result ↔ AreSizesOf layout blocks size }
    {
        match layout {
            Layout::One => Geometry::new(blocks, size),
            Layout::Two => {
                let area = size.checked_mul(2)?;
                Geometry::new(blocks, area)?.with_layout_two()
            }
        }
    }

    /// The journal areas of the device.
    pub fn areas(&self) -> u8
        ensures { result ≡ areas_of self.now.layout }
    {
        self.layout.areas()
    }

    /// The bytes of each of them.
    pub fn area_size(&self) -> u32
        ensures { result ≡ area_size_of self.now.layout self.now.area }
    {
        self.layout.area_size(self.area)
    }

    /// The bytes of a map slot.
    pub fn map_bytes(&self) -> u64
        ensures { result ≡ map_bytes_of self.now.blocks }
    {
        self.blocks.div_ceil(16384) * 4096
    }

    /// The bytes of the whole device.
    pub fn device_bytes(&self) -> u64
        ensures { result ≡ device_bytes_of self.now.blocks self.now.area }
    {
        8192 + 2 * self.area as u64 + 2 * self.map_bytes() + BLOCK_BYTES * self.blocks
    }
}
