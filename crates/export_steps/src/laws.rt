ghost use Rattle.std.specs.Prelude.{◌≡◌, ◌<◌, ℕ, Bool, List, length, true};
ghost use Rattle.checkpoint.specs.Recovery.{IsRecovered};
ghost use Rattle.image_model.specs.declared.command.Kind.{Kind};
ghost use Rattle.image_model.specs.Layout.{area_size_of};
ghost use Rattle.device_image.specs.Keeper.{KeeperState};
ghost use Rattle.device_image.specs.Keeps.{Keeps};
ghost use Rattle.device_image.specs.Stands.{StandsFor};
ghost use Rattle.disk_model.specs.Disk.{MayLeave};
ghost use Rattle.image_model.specs.Image.{Image};
ghost use Rattle.nbd_wire.specs.declared.message.SessionFlags.{SessionFlags};
ghost use Rattle.order_book.specs.Shown.{ShowsImage};
ghost use Rattle.order_book.specs.Order.{OrderState, new_order};
ghost use Rattle.export_steps.specs.Bench.{ConnectionsState, new_connections};
ghost use Rattle.export_steps.specs.Life.{IsNextLife, LeadsLaw, Trusts, first_world};
ghost use Rattle.export_steps.specs.Parts.{IsExportOf};
ghost use Rattle.export_model.specs.World.{World};
ghost use Rattle.export_model.specs.declared.step.Mode.{Mode};

use device_image::{keeper_laws, stands_laws};
use disk_model::Disk;
use export_model::schedule_law;

/// A life begins with a world: the parts that are fresh from `Keeper::open`, `Order::new` over its map and
/// `Connections::new` are of one, whose opening image is the one that the keeper keeps.
pub fn fresh_parts_law<D: Disk>()
    ensures { (trusted : Bool) (keeper : KeeperState D) (found : Image) (states : List Kind) (frames connections : ℕ) (flags : SessionFlags) (mode : Mode) → IsRecovered keeper → length states ≡ keeper.geometry.blocks
        → keeper.count < 18446744073709551616 → (Trusts trusted (D.honest keeper.disk) → Keeps keeper (D.state keeper.disk) found keeper.count)
        → (Trusts trusted (D.honest keeper.disk) → ShowsImage found (new_order states keeper.count frames (area_size_of keeper.geometry.layout keeper.geometry.area)).cache) → (trusted ≡ true → D.honest keeper.disk)
        → IsExportOf (first_world trusted keeper found (D.faults keeper.disk) frames connections flags mode) (new_order states keeper.count frames (area_size_of keeper.geometry.layout keeper.geometry.area))
        keeper (D.faults keeper.disk) (new_connections connections flags mode) (Trusts trusted (D.honest keeper.disk)) (D.state keeper.disk) }
{
    keeper_laws::<D>();
}

/// Steps go together into runs: no step leads from a world to itself, one step leads as it does, a request that is sent
/// leads too, and where one run leads to a world from which another leads on, both together lead. What the log of a world
/// covers is not lost on the way.
pub fn leads_law<D: Disk>()
    ensures { LeadsLaw D.state D.faults D.honest }
{
    schedule_law();
}

/// One life follows another: what a crash may leave of the device of an export stands for the image after some first
/// commands of the order, and for the number of the last of these; all that the log covers is among them. The keeper that
/// finds it is, with `Order::new` and `Connections::new`, of a next world ([`fresh_parts_law`]).
pub fn next_life_law<D: Disk>()
    ensures { (world : World) (order : OrderState) (keeper : KeeperState D) (connections : ConnectionsState) (content : List ℕ) (found : Image) (number : ℕ) → D.honest keeper.disk
        → IsExportOf world order keeper (D.faults keeper.disk) connections (D.honest keeper.disk) (D.state keeper.disk)
        → MayLeave (D.state keeper.disk) content → StandsFor content found number → IsNextLife world found number }
{
    leads_law::<D>();
    stands_laws();
}
