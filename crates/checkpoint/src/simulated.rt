ghost use Rattle.std.specs.Prelude.{◌≡◌};
ghost use Rattle.disk_model.specs.FaultPlan.{armed};
ghost use Rattle.disk_model.specs.SimDisk.{plan_of, with_plan};

use crate::keeper::Keeper;
use disk_model::{CallKind, SimDisk};

impl Keeper<SimDisk> {
    /// Lets the `k`-th call of a kind to the device from now on fail, as [`SimDisk::fail`] does.
    pub fn fail(&mut self, kind: CallKind, k: u64)
        ensures { self.new ≡ record self.old { disk = with_plan self.old.disk (armed kind k (plan_of self.old.disk)) } }
    {
        self.disk.fail(kind, k);
    }

    /// Stops the device at the `k`-th call to it from now on, as [`SimDisk::stop_at`] does.
    pub fn stop_at(&mut self, k: u64)
        ensures { self.new ≡ record self.old { disk = with_plan self.old.disk (record (plan_of self.old.disk) { stop = k }) } }
    {
        self.disk.stop_at(k);
    }

    /// Whether a stop of the device was met.
    pub fn is_stopped(&self) -> bool
        ensures { result ≡ (plan_of self.now.disk).stopped }
    {
        self.disk.is_stopped()
    }
}
