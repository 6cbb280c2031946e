//! The law of an export's world under every schedule.

ghost use Rattle.std.specs.Prelude.{◌≡◌, ◌≤◌, ℕ, true, List};
ghost use Rattle.export_model.specs.Covered.{Covers};
ghost use Rattle.export_model.specs.Fits.{EditsFit, ReadsFit};
ghost use Rattle.export_model.specs.Log.{IsLegal};
ghost use Rattle.export_model.specs.Run.{IsReached, IsRun};
ghost use Rattle.export_model.specs.World.{World, last_number};
ghost use Rattle.export_model.specs.declared.connection.Connection.TheVariants as Connection;
ghost use Rattle.export_model.specs.declared.step.Step.{Step};
ghost use Rattle.export_model.specs.Law.{Grows, IsWithin, TellsTruth};

/// Whatever the schedule, and whatever its steps meet: the log is legal, the reads of a trusted device fit, and on one each
/// command is what its request's edit becomes over the image after those before it; all that the log covers is durable, what
/// is durable is stored and what is stored is ordered; what map and data hold is stored, and what was let go of the frames
/// map and data hold; the log, the order and the numbers only grow; a fault of the device is told only
/// where the device has counted one, and that no generation is left only where none is; and a connection waits only for a
/// number of the order.
pub fn schedule_law()
    ensures legal { (world : World) → IsReached world → IsLegal world.log world.stage.order world.paired }
    ensures fits { (world : World) → IsReached world → world.stage.setting.trusted ≡ true
        → ReadsFit world.log world.stage.order world.paired world.shown world.stage.setting.image }
    ensures edits { (world : World) → IsReached world → world.stage.setting.trusted ≡ true
        → EditsFit world.log world.stage.order world.paired world.stage.setting.image }
    ensures covered { (world : World) → IsReached world → Covers world world.stage.durable }
    ensures within { (world : World) → IsReached world → IsWithin world }
    ensures truth { (world : World) → IsReached world → TellsTruth world }
    ensures grows { (world last : World) (steps : List Step) → IsRun world steps last → Grows world last }
    ensures reached { (world last : World) (steps : List Step) → IsRun world steps last → IsReached world → IsReached last }
    ensures waiting { (world : World) → IsReached world → (connection number : ℕ) → world.connections connection ≡ Connection.Waiting number → number ≤ last_number world }
{}
