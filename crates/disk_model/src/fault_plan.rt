ghost use Rattle.std.specs.Prelude.{◌≡◌, ◌-◌, ◌==◌, false};
ghost use Rattle.disk_model.specs.FaultPlan.{armed, is_due, after_call, no_faults};

/// The kinds of device call.
#[derive(Clone, Copy, PartialEq, Eq)]
pub enum CallKind {
    Read,
    Write,
    Sync,
}

/// Which of the coming calls of a simulated device fail. Each number says in how many calls, 0 that none is armed.
#[derive(Drop)]
pub struct FaultPlan {
    reads: u64,
    writes: u64,
    syncs: u64,
    stop: u64,
    stopped: bool,
}

// Counts one call. Whether it is the one that was armed.
fn count_down(calls_left: &mut u64) -> bool
    ensures met { result ≡ (calls_left.old == 1) }
    ensures after { calls_left.new ≡ calls_left.old - 1 }
{
    let met = *calls_left == 1;
    *calls_left = calls_left.saturating_sub(1);
    met
}

impl FaultPlan {
    /// Nothing armed.
    pub fn new() -> FaultPlan
        ensures { result ≡ no_faults }
    {
        FaultPlan {
            reads: 0,
            writes: 0,
            syncs: 0,
            stop: 0,
            stopped: false,
        }
    }

    /// Arms the `k`-th coming call of a kind.
    pub fn fail(&mut self, kind: CallKind, k: u64)
        ensures { self.new ≡ armed kind k self.old }
    {
        match kind {
            CallKind::Read => self.reads = k,
            CallKind::Write => self.writes = k,
            CallKind::Sync => self.syncs = k,
        }
    }

    /// Arms a stop at the `k`-th coming call of any kind.
    pub fn stop_at(&mut self, k: u64)
        ensures { self.new ≡ record self.old { stop = k } }
    {
        self.stop = k;
    }

    /// Whether a stop was met and no crash came since.
    pub fn is_stopped(&self) -> bool
        ensures { result ≡ self.now.stopped }
    {
        self.stopped
    }

    /// Counts one call of a kind. Whether it fails.
    pub fn count_call(&mut self, kind: CallKind) -> bool
        ensures due { result ≡ is_due kind self.old }
        ensures after { self.new ≡ after_call kind self.old }
    {
        let stops = count_down(&mut self.stop);
        self.stopped = self.stopped || stops;
        let fails = match kind {
            CallKind::Read => count_down(&mut self.reads),
            CallKind::Write => count_down(&mut self.writes),
            CallKind::Sync => count_down(&mut self.syncs),
        };
        fails || self.stopped
    }

    /// Starts anew after a stop; what is armed stays armed.
    pub fn restart(&mut self)
        ensures { self.new ≡ record self.old { stopped = false } }
    {
        self.stopped = false;
    }
}
