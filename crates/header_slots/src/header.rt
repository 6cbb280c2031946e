ghost use Rattle.std.specs.Prelude.{ℕ, ◌≡◌, ◌≢◌, ◌+◌, ◌<◌, ◌≤◌, length, MatchOption};
ghost use Rattle.header_slots.specs.Number.{number_at};
ghost use Rattle.image_model.specs.Layout.{areas_of};

use byteorder::{BigEndian, ByteOrder};
use image_model::{Geometry, Layout, Side};

/// What a header slot says, but for its gate.
#[derive(Clone, Copy, Debug, PartialEq, Eq)]
pub struct Header {
    /// Of two headers the one with the greater generation is in force.
    pub generation: u64,
    pub geometry: Geometry,
    /// How many areas are in use before the last.
    pub before_last: u8,
    /// The area that holds the first commands above the base; those after it in the ring are in use too.
    pub first_area: u8,
    pub map_slot: Side,
    /// The number of the last command that map and data hold.
    pub base: u64,
    pub ghost few_areas: { before_last < areas_of geometry.layout },
    pub ghost first_inside: { first_area < areas_of geometry.layout },
}

// The bytes of a header after its gate.
pub const HEADER_BYTES: usize = 39;

// `NBDJRNL1` and `NBDJRNL2` as numbers.
const MAGIC_ONE: u64 = 0x4e42_444a_524e_4c31;

const MAGIC_TWO: u64 = 0x4e42_444a_524e_4c32;

impl Header {
    ghost use Rattle.header_slots.specs.Header.{IsBadAt, SpellsAt, magic_of, mode_of};

    // The bytes after the gate.
    pub fn encode(&self) -> [u8; HEADER_BYTES]
        ensures { SpellsAt result 0 self.now }
    {
        let Header {
            generation,
            geometry,
            before_last,
            first_area,
            map_slot,
            base,
        } = *self;
        let mut bytes = [0u8; HEADER_BYTES];
        BigEndian::write_u64(&mut bytes, Self::magic(geometry.layout));
        BigEndian::write_u64(&mut bytes[8..], generation);
        BigEndian::write_u64(&mut bytes[16..], geometry.blocks);
        BigEndian::write_u32(&mut bytes[24..], geometry.area_size());
        bytes[28] = Self::mode(geometry.layout, before_last);
        bytes[29] = first_area;
        bytes[30] = map_slot.index();
        BigEndian::write_u64(&mut bytes[31..], base);
        bytes
    }

    // What a header of this layout begins with.
    fn magic(layout: Layout) -> u64
        ensures { result ≡ magic_of layout }
    {
        match layout {
            Layout::One => MAGIC_ONE,
            Layout::Two => MAGIC_TWO,
        }
    }

    // The byte that tells how many areas are in use.
    fn mode(layout: Layout, before_last: u8) -> u8
        requires { before_last < areas_of layout }
        ensures { result ≡ mode_of layout before_last }
    {
        match layout {
            Layout::One => before_last,
            Layout::Two => before_last + 1,
        }
    }

    // The layout whose headers begin with this.
    fn layout(magic: u64) -> Option<Layout>
        ensures { MatchOption result ((layout : Layout) → magic ≢ magic_of layout) (λ layout. magic ≡ magic_of layout) }
    {
        match magic {
            MAGIC_ONE => Some(Layout::One),
            MAGIC_TWO => Some(Layout::Two),
            _ => None,
        }
    }

    // How many areas are in use before the last, by the byte that tells it.
    fn before_last(layout: Layout, mode: u8) -> Option<u8>
        ensures { MatchOption result ((before_last : ℕ) → before_last < areas_of layout → mode ≢ mode_of layout before_last)
            (λ before_last. (mode ≡ mode_of layout before_last) × (before_last < areas_of layout)) }
    {
        let before_last = match layout {
            Layout::One => mode,
            Layout::Two => mode.checked_sub(1)?,
        };
        if before_last >= layout.areas() {
            return None;
        }
        Some(before_last)
    }

    /// The header that these 39 bytes after a gate spell; none where a field is outside its limits ("Header slot" of docs/FORMATS.md).
    pub fn decode(bytes: &[u8]) -> Option<Header>
        requires { length bytes.now ≡ 39 }
        ensures { MatchOption result (IsBadAt bytes.now 0) (SpellsAt bytes.now 0) }
    {
        let layout = Self::layout(u64_at(bytes, 0))?;
        let geometry = Geometry::with_areas(layout, u64_at(bytes, 16), u32_at(bytes, 24))?;
        let before_last = Self::before_last(layout, bytes[28])?;
        let first_area = bytes[29];
        if first_area >= geometry.areas() {
            return None;
        }
        Some(Header {
            generation: u64_at(bytes, 8),
            geometry,
            before_last,
            first_area,
            map_slot: Side::from_index(bytes[30])?,
            base: u64_at(bytes, 31),
        })
    }
}

// The number in the eight bytes from a place on.
pub fn u64_at(bytes: &[u8], place: usize) -> u64
    requires { place + 8 ≤ length bytes.now }
    ensures { result ≡ number_at place 8 bytes.now }
{
    BigEndian::read_u64(&bytes[place..])
}

// The number in the four bytes from a place on.
fn u32_at(bytes: &[u8], place: usize) -> u32
    requires { place + 4 ≤ length bytes.now }
    ensures { result ≡ number_at place 4 bytes.now }
{
    BigEndian::read_u32(&bytes[place..])
}
