ghost use Rattle.std.specs.Prelude.{◌≡◌, ◌<◌, ◌≤◌, ◌+◌, ◌*◌, ◌↔◌, ℕ, [], length, slice_index, IfOk, IsTrue, OnOk};
ghost use Rattle.device_image.specs.Holds.{Holds};
ghost use Rattle.image_model.specs.Image.{Image};
ghost use Rattle.nbdj_sweep.specs.Plain.{IsPlain, IsPlainBlock};

use checkpoint::{Keeper, KeeperFault};
use disk_model::Disk;
use image_model::{BLOCK_BYTES, Kind};
use plain_image::PlainImage;
use std::alloc::Global;

/// Whether the image of a keeper whose journal is empty is the plain one: as many blocks, and each of them with the same
/// state and the same bytes.
pub fn is_plain<D: Disk>(
    alloc: Global,
    keeper: &mut Keeper<D>,
    plain: &PlainImage,
) -> Result<bool, KeeperFault>
    ensures extent { D.extent keeper.new.disk ≡ D.extent keeper.old.disk }
    ensures exact { D.honest keeper.old.disk → (image : Image) → Holds keeper.old (D.state keeper.old.disk) image [] []
        → IfOk result (λ same. IsTrue same ↔ IsPlain plain.now image) }
{
    let map = keeper.map(alloc)?;
    let blocks = keeper.geometry().blocks;
    if plain.kinds().len() as u64 != blocks || plain.bytes().len() as u64 != blocks * BLOCK_BYTES {
        return Ok(false);
    }
    for block in 0..blocks {
        if !is_plain_block(keeper, block, map.state(block), plain)? {
            return Ok(false);
        }
    }
    Ok(true)
}

// Whether a block that has this state in the keeper's image is the same in the plain one.
fn is_plain_block<D: Disk>(
    keeper: &mut Keeper<D>,
    block: u64,
    kind: Kind,
    plain: &PlainImage,
) -> Result<bool, KeeperFault>
    requires inside { block < keeper.old.geometry.blocks }
    requires kinds { length plain.now.kinds ≡ keeper.old.geometry.blocks }
    requires bytes { length plain.now.bytes ≡ 4096 * keeper.old.geometry.blocks }
    ensures ok { OnOk result (keeper.new ≡ record keeper.old { disk = keeper.new.disk }) }
    ensures extent { D.extent keeper.new.disk ≡ D.extent keeper.old.disk }
    ensures honest { D.honest keeper.new.disk ↔ D.honest keeper.old.disk }
    ensures held { D.honest keeper.old.disk → (image : Image) → Holds keeper.old (D.state keeper.old.disk) image [] []
        → OnOk result (Holds keeper.new (D.state keeper.new.disk) image [] []) }
    ensures exact { D.honest keeper.old.disk → (image : Image) → Holds keeper.old (D.state keeper.old.disk) image [] []
        → kind ≡ image.kind block → IfOk result (λ same. IsTrue same ↔ IsPlainBlock plain.now image block) }
{
    let mut bytes = [0u8; BLOCK_BYTES as usize];
    block_bytes(keeper, block, kind, &mut bytes)?;
    let same_kind = is_same(plain.kinds()[block as usize], kind);
    let from = (BLOCK_BYTES * block) as usize;
    Ok(same_kind && has_bytes(plain.bytes(), from, &bytes))
}

// Reads a block of this state, where it is data; what isn't data is zero, as `into` is already.
fn block_bytes<D: Disk>(
    keeper: &mut Keeper<D>,
    block: u64,
    kind: Kind,
    into: &mut [u8],
) -> Result<(), KeeperFault>
    requires inside { block < keeper.old.geometry.blocks }
    requires size { length into.old ≡ 4096 }
    requires zero { (k : ℕ) → k < 4096 → slice_index into.old k ≡ 0 }
    ensures ok { OnOk result (keeper.new ≡ record keeper.old { disk = keeper.new.disk }) }
    ensures extent { D.extent keeper.new.disk ≡ D.extent keeper.old.disk }
    ensures honest { D.honest keeper.new.disk ↔ D.honest keeper.old.disk }
    ensures held { D.honest keeper.old.disk → (image : Image) → Holds keeper.old (D.state keeper.old.disk) image [] []
        → OnOk result (Holds keeper.new (D.state keeper.new.disk) image [] []) }
    ensures bytes { D.honest keeper.old.disk → (image : Image) → Holds keeper.old (D.state keeper.old.disk) image [] []
        → kind ≡ image.kind block → OnOk result ((k : ℕ) → k < 4096 → slice_index into.new k ≡ image.byte (4096 * block + k)) }
{
    match kind {
        Kind::Data => keeper.read_base(block, into),
        Kind::Zero | Kind::Hole => Ok(()),
    }
}

fn is_same(one: Kind, other: Kind) -> bool
    ensures { IsTrue result ↔ (one ≡ other) }
{
    one == other
}

// Whether these bytes stand in the others from a place on.
fn has_bytes(all: &[u8], from: usize, bytes: &[u8]) -> bool
    requires { from + length bytes.now ≤ length all.now }
    ensures { IsTrue result ↔ ((k : ℕ) → k < length bytes.now → slice_index all.now (from + k) ≡ slice_index bytes.now k) }
{
    for k in 0..bytes.len() {
        if all[from + k] != bytes[k] {
            return false;
        }
    }
    true
}
