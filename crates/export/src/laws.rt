ghost use Rattle.std.specs.Prelude.{◌≡◌, ◌≤◌, ◌++◌, ◌∷◌, [], ℕ, List, true};
ghost use mathlib.Core.List.{IsPrefix};
ghost use Rattle.checkpoint.specs.Recovery.{IsRecovered};
ghost use Rattle.device_image.specs.Keeper.{KeeperState};
ghost use Rattle.device_image.specs.Stands.{StandsFor};
ghost use Rattle.disk_model.specs.Disk.{LeavesOnly};
ghost use Rattle.export.specs.Left.{HasStored, LeavesHistory};
ghost use Rattle.export.specs.Submits.{IsAccepted, IsSubmitted};
ghost use Rattle.export.specs.Trusted.{IsTrusted};
ghost use Rattle.export_model.specs.Log.{edit_asked, flush_waits, is_flush, is_write, waits_for_store};
ghost use Rattle.export_model.specs.declared.step.Mode.{Mode};
ghost use Rattle.image_model.specs.Change.{Change};
ghost use Rattle.image_model.specs.Edit.{becomes};
ghost use Rattle.image_model.specs.Image.{Image};
ghost use Rattle.marks.specs.Known.{PassState};
ghost use Rattle.nbd_wire.specs.Request.{Message};
ghost use Rattle.nbd_wire.specs.declared.message.Answer.{Answer};
ghost use Rattle.nbd_wire.specs.declared.message.Answer.TheVariants as Answer;
ghost use Rattle.shared_store.specs.Orders.{Trusting};
ghost use Rattle.shared_store.specs.Parts.{StandsWithin};

use crate::name::ExportName;
use device_image::keeper_laws;
use disk_model::Disk;

/// Whatever a crash may leave of a trusted device that was just opened stands for the image that was found, after a history of no
/// commands.
pub fn opened_device_law<D: Disk>()
    ensures left { (keeper : KeeperState D) (image : Image) → IsTrusted D.state D.honest keeper image → IsRecovered keeper
        → LeavesOnly (D.state keeper.disk) (D.state keeper.disk) (λ content. StandsFor content image keeper.count) }
    ensures history { (keeper : KeeperState D) (image : Image) → IsTrusted D.state D.honest keeper image → IsRecovered keeper
        → LeavesHistory (D.state keeper.disk) (D.state keeper.disk) keeper.count image [] keeper.count }
{
    keeper_laws::<D>();
}

/// What an answer means for the device. Let the history that a pass knew once it had the answer begin another one, as it does where the
/// export ends with a pass that it has joined, and let a content stand for the image after a beginning of that which has all that the
/// pass knew to be durable, as whatever a crash leaves of the device that is handed back. Then that beginning has all that the pass
/// knew before a FLUSH that was answered Ok in a mode in which a FLUSH waits, and the command of a write that was answered Ok and had to be stored first.
pub fn answer_law<B: ExportName>()
    ensures flushed { (request : Message) (kept : Mode) (old new : PassState) (answer : Answer) (history : List Change) (least : ℕ) (content : List ℕ)
        → IsSubmitted B.opening B.image (Trusting B.opening B.image B.vouches B.trusted) request kept old new answer → answer ≡ Answer.Done → is_flush request ≡ true
        → flush_waits kept ≡ true
        → IsPrefix new.history history → new.durable ≤ least → StandsWithin B.opening B.image history least content
        → HasStored B.opening B.image history old.history content }
    ensures forced { (request : Message) (kept : Mode) (old new : PassState) (answer : Answer) (history : List Change) (least : ℕ) (content : List ℕ)
        → IsSubmitted B.opening B.image (Trusting B.opening B.image B.vouches B.trusted) request kept old new answer → answer ≡ Answer.Done → is_write request ≡ true
        → waits_for_store kept request ≡ true
        → IsPrefix new.history history → new.durable ≤ least → StandsWithin B.opening B.image history least content
        → (number : ℕ) × (own : IsAccepted B.opening B.image (Trusting B.opening B.image B.vouches B.trusted) request number old new)
        × HasStored B.opening B.image history (own.earlier ++ becomes (edit_asked request) own.image ∷ []) content }
{}
