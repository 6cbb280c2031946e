ghost use Rattle.std.specs.Prelude.{◌≡◌, ◌≤◌, ◌<◌, [], IfOk, List, OnOk, length};
ghost use Rattle.device_image.specs.Holds.{Holds};
ghost use Rattle.image_model.specs.Image.{Image};
ghost use Rattle.image_model.specs.Layout.{area_size_of};
ghost use Rattle.image_model.specs.declared.command.Kind.{Kind};
ghost use Rattle.order_book.specs.Order.{new_order};
ghost use Rattle.order_book.specs.Shown.{ShowsImage};

use checkpoint::Keeper;
use disk_model::Disk;
use marks::{BoardName, OrderSeat};
use order_book::Order;
use std::alloc::{AllocError, Global};

/// The order of a device that was just opened: over its map, with `frames` frames. Its numbers go on from the last command that the
/// device holds, with which its board has opened. Refusal 0 (no memory).
pub fn fresh_order<B: BoardName, D: Disk>(
    alloc: Global,
    keeper: &Keeper<D>,
    frames: u32,
    seat: OrderSeat<B>,
) -> Result<Order<B>, AllocError>
    requires frames { frames ≤ 65536 }
    requires named { keeper.now.count ≡ B.opening }
    requires seat { seat ≡ record { history = []; accepted = keeper.now.count; base = keeper.now.count } }
    ensures order { IfOk result (λ order. (states : List Kind) × (length states ≡ keeper.now.geometry.blocks)
        × (order ≡ new_order states keeper.now.count frames (area_size_of keeper.now.geometry.layout keeper.now.geometry.area))) }
    ensures few { OnOk result (keeper.now.count < 18446744073709551616) }

    // If map and data hold all of an image, the order shows it.
    ensures image { (image : Image) → Holds keeper.now (D.state keeper.now.disk) image [] [] → IfOk result (λ order. ShowsImage image order.cache) }
{
    let map = keeper.map(alloc)?;
    Order::new(
        alloc,
        map,
        keeper.count(),
        frames,
        keeper.geometry().area_size(),
        seat,
    )
}
