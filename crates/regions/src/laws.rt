ghost use Rattle.std.specs.Prelude.{◌≡◌, ◌≢◌, ◌+◌, ◌<◌, ◌≤◌, ℕ};
ghost use Rattle.disk_model.specs.Disk.{InRange};
ghost use Rattle.image_model.specs.declared.side.Side.TheVariants as Side;
ghost use Rattle.image_model.specs.Geometry.{device_bytes_of, map_bytes_of};
ghost use Rattle.image_model.specs.declared.geometry.Geometry.{Geometry};
ghost use Rattle.regions.specs.Layout.{area_at, area_size, areas_in, behind, block_at, map_at};

/// How a device is laid out: its parts follow one another, with no gap and no overlap, up to its last byte. A ring of areas
/// goes through each of them once.
pub fn layout_laws()
    ensures first_area { (geometry : Geometry) → area_at geometry 0 ≡ 8192 }
    ensures next_area { (geometry : Geometry) (area : ℕ) → area_at geometry (area + 1) ≡ area_at geometry area + area_size geometry }
    ensures first_map { (geometry : Geometry) → map_at geometry Side.Zero ≡ area_at geometry (areas_in geometry) }
    ensures second_map { (geometry : Geometry) → map_at geometry Side.One ≡ map_at geometry Side.Zero + map_bytes_of geometry.blocks }
    ensures first_block { (geometry : Geometry) → block_at geometry 0 ≡ map_at geometry Side.One + map_bytes_of geometry.blocks }
    ensures next_block { (geometry : Geometry) (block : ℕ) → block_at geometry (block + 1) ≡ block_at geometry block + 4096 }
    ensures inside { (geometry : Geometry) (area : ℕ) → area < areas_in geometry →
        area_at geometry area + area_size geometry ≤ map_at geometry Side.Zero }
    ensures apart { (geometry : Geometry) (area other place : ℕ) → area ≢ other → InRange (area_at geometry area) (area_size geometry) place →
        InRange (area_at geometry other) (area_size geometry) place → ⊥ }
    ensures once { (geometry : Geometry) (area places more : ℕ) → area < areas_in geometry → places < more → more < areas_in geometry →
        behind (areas_in geometry) places area ≢ behind (areas_in geometry) more area }
    ensures end { (geometry : Geometry) → block_at geometry geometry.blocks ≡ device_bytes_of geometry.blocks geometry.area }
{}
