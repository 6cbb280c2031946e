ghost use Rattle.std.specs.Prelude.{◌≡◌, ◌≢◌, ◌==◌, ℕ, ◌+◌, ◌<◌, ◌↔◌, List, [], length, false, IfErr, IfOk, IsTrue, OnOk, Err, Ok};
ghost use Rattle.checkpoint.specs.Headers.{HasHeader, HasHeaderOrNext, HeadersFollow, HeadersFollowUpTo};
ghost use Rattle.checkpoint.specs.Keeper.{faults_by};
ghost use Rattle.checkpoint.specs.Opening.{IsAtRest, IsOpening, IsPassing, disk_after, faults_after_opening};
ghost use Rattle.checkpoint.specs.Recovery.{IsRecovered};
ghost use Rattle.checkpoint.specs.inner.Recovery.{IsBegun, IsRecoveryFault, headers_at};
ghost use Rattle.checkpoint.specs.Steps.{copied_by, finished_by, left_in};
ghost use Rattle.checkpoint.specs.declared.fault.KeeperFault.TheVariants as KeeperFault;
ghost use Rattle.device_image.specs.Keeps.{Keeps};
ghost use Rattle.device_image.specs.Remembers.{Remembers};
ghost use Rattle.image_model.specs.Change.{Change};
ghost use Rattle.device_image.specs.Keeper.{Copying, One, last_turned};
ghost use Rattle.device_image.specs.Stands.{StandsFor};
ghost use Rattle.disk_model.specs.Disk.{IsAllSynced, LeavesOnly};
ghost use Rattle.image_model.specs.Image.{Image};

use crate::fault::KeeperFault;
use crate::keeper::Keeper;
use crate::opening::load;
use disk_model::Disk;
use std::alloc::Global;

// The most blocks that are copied in one read and one write: 1 MiB.
const MOST_COPIED: u32 = 256;

impl<D: Disk> Keeper<D> {
    /// Opens the device, and recovers it: the checkpoints of the areas before the last are completed one after another. If
    /// groups are left in the journal, one more checkpoint empties it.
    ///
    /// It syncs and reads the device. If one area is in use and its list is empty, nothing is written; otherwise blocks are
    /// copied, up to 256 in one read and one write. It takes memory for two maps, because each new one is made while the old one
    /// is in force, for what each command of the journal touched and the last touches of the blocks, for 1 MiB while an area is
    /// scanned, and for one copy of at most 1 MiB.
    ///
    /// A refusal hands the device back: 7 (no header), 8 (bad header), 6 (bad map) and 12 (damaged group, in an area in
    /// use), the first of these that applies; 9 (numbers full), if fewer generations are left than the recovery writes headers;
    /// 0 (no memory) and 1 (device fault).
    pub fn open(alloc: Global, disk: D) -> Result<Keeper<D>, (KeeperFault, D)>
        ensures extent { D.extent (disk_after result) ≡ D.extent disk }
        ensures faults { D.faults (disk_after result) ≡ faults_after_opening result (D.faults disk) }
        ensures honest { D.honest (disk_after result) ↔ D.honest disk }
        ensures recovered { IfOk result IsRecovered }

        // On an honest device there is a content, one that a crash at the start may leave, that is found: at `Ok` it stands
        // for an image, which the keeper keeps with an empty journal, and each header that was written has the generation after
        // the one before it; a refusal says what is bad of it. Until a sync is good, and if none is, a crash leaves what it could
        // leave at the start; from then on, at every moment and after every refusal, the content found or what stands for the same,
        // in the same sizes and layout, with a header that is one of those.
        ensures found { D.honest disk → (content : List ℕ) × IsOpening (D.state disk) D.state result content }

        // If nothing is unsynced at the start and the content stands for an image, the keeper keeps that image. Only lack of
        // memory, a device fault or the last generation refuses it, and a crash at any moment leaves what stands for it.
        ensures same { D.honest disk → IsAllSynced (D.state disk) → (image : Image) (number : ℕ) → StandsFor (D.state disk).seen image number
            → IfOk result (λ keeper. Keeps keeper (D.state keeper.disk) image number × (keeper.base ≡ number)) }
        ensures passing { D.honest disk → IsAllSynced (D.state disk) → (image : Image) (number : ℕ) → StandsFor (D.state disk).seen image number
            → IfErr result (λ refused. IsPassing refused.0) }
        ensures any_moment { D.honest disk → IsAllSynced (D.state disk) → (image : Image) (number : ℕ) → StandsFor (D.state disk).seen image number
            → LeavesOnly (D.state disk) (D.state (disk_after result)) (λ content. StandsFor content image number) }

        // If one area is in use and its list is empty, nothing is written.
        ensures at_rest { D.honest disk → IsAllSynced (D.state disk) → IsAtRest (D.state disk).seen
            → LeavesOnly (D.state disk) (D.state (disk_after result)) (λ content. content ≡ (D.state disk).seen) }
    {
        match load(alloc, disk) {
            Ok(mut keeper) => match keeper.recover() {
                Ok(()) => Ok(keeper),
                Err(fault) => Err((fault, keeper.into_disk())),
            },
            Err(refused) => Err(refused),
        }
    }
}

impl<D: Disk> Keeper<D> {
    // Ends the checkpoints that are under way, and empties the journal by another one where groups are left.
    pub(crate) fn recover(&mut self) -> Result<(), KeeperFault>
        requires works { self.old.failed ≡ false }
        requires begun { IsBegun self.old.phase }
        ensures ok { OnOk result (IsRecovered self.new) }
        ensures sizes { OnOk result (self.new.geometry ≡ self.old.geometry) }
        ensures generation { OnOk result (self.new.generation ≡ self.old.generation + length self.old.turned + headers_at self.old.used) }
        ensures idle { self.old.phase ≡ One → self.old.used ≡ 0 → (self.new ≡ self.old) × (result ≡ Ok tt) }
        ensures only { IfErr result IsRecoveryFault }
        ensures full { result ≡ Err KeeperFault.NumbersFull → self.new.generation ≡ 18446744073709551615 }
        ensures lacks { result ≡ Err KeeperFault.NumbersFull → 18446744073709551615 < self.old.generation + length self.old.turned + headers_at self.old.used }
        ensures wanted { result ≡ Err KeeperFault.NumbersFull → self.new.phase ≡ One → self.new.used ≡ 0 → ⊥ }
        ensures extent { D.extent self.new.disk ≡ D.extent self.old.disk }
        ensures faults_ok { OnOk result (D.faults self.new.disk ≡ D.faults self.old.disk) }
        ensures faults_err { IfErr result (λ fault. D.faults self.new.disk ≡ faults_by fault (D.faults self.old.disk)) }
        ensures honest { D.honest self.new.disk ↔ D.honest self.old.disk }

        ensures kept { D.honest self.old.disk → (image : Image) (number : ℕ) → Keeps self.old (D.state self.old.disk) image number
            → OnOk result (Keeps self.new (D.state self.new.disk) image number) }
        ensures kept_still { D.honest self.old.disk → (image : Image) (number : ℕ) → Keeps self.old (D.state self.old.disk) image number
            → IfErr result (λ fault. fault ≢ KeeperFault.DeviceFault → Keeps self.new (D.state self.new.disk) image number) }
        ensures any_moment { D.honest self.old.disk → (image : Image) (number : ℕ) → Keeps self.old (D.state self.old.disk) image number
            → LeavesOnly (D.state self.old.disk) (D.state self.new.disk) (λ content. StandsFor content image number) }
        ensures headers { D.honest self.old.disk → (image : Image) (number : ℕ) → Keeps self.old (D.state self.old.disk) image number
            → HeadersFollowUpTo D.state self.old.geometry self.old.generation (length self.old.turned + headers_at self.old.used) (D.state self.old.disk) (D.state self.new.disk) }
    {
        self.complete_begun()?;
        if self.is_empty() {
            return Ok(());
        }
        self.rotate()?;
        self.complete_checkpoint()
    }

    // Ends the checkpoints that are under way, one after another.
    fn complete_begun(&mut self) -> Result<(), KeeperFault>
        requires works { self.old.failed ≡ false }
        requires begun { IsBegun self.old.phase }
        ensures ok { OnOk result ((self.new.failed ≡ false) × (self.new.phase ≡ One) × (self.new.turned ≡ []) × (self.new.lefts ≡ [])) }
        ensures sizes { OnOk result (self.new.geometry ≡ self.old.geometry) }
        ensures used { OnOk result (self.new.used ≡ self.old.used) }
        ensures generation { OnOk result (self.new.generation ≡ self.old.generation + length self.old.turned) }
        ensures idle { self.old.phase ≡ One → (self.new ≡ self.old) × (result ≡ Ok tt) }
        ensures only { IfErr result IsRecoveryFault }
        ensures full { result ≡ Err KeeperFault.NumbersFull → self.new.generation ≡ 18446744073709551615 }
        ensures lacks { result ≡ Err KeeperFault.NumbersFull → 18446744073709551615 < self.old.generation + length self.old.turned }
        ensures wanted { result ≡ Err KeeperFault.NumbersFull → self.new.phase ≡ One → ⊥ }
        ensures extent { D.extent self.new.disk ≡ D.extent self.old.disk }
        ensures faults_ok { OnOk result (D.faults self.new.disk ≡ D.faults self.old.disk) }
        ensures faults_err { IfErr result (λ fault. D.faults self.new.disk ≡ faults_by fault (D.faults self.old.disk)) }
        ensures honest { D.honest self.new.disk ↔ D.honest self.old.disk }

        ensures kept { D.honest self.old.disk → (image : Image) (number : ℕ) → Keeps self.old (D.state self.old.disk) image number
            → OnOk result (Keeps self.new (D.state self.new.disk) image number) }
        ensures kept_still { D.honest self.old.disk → (image : Image) (number : ℕ) → Keeps self.old (D.state self.old.disk) image number
            → IfErr result (λ fault. fault ≢ KeeperFault.DeviceFault → Keeps self.new (D.state self.new.disk) image number) }
        ensures any_moment { D.honest self.old.disk → (image : Image) (number : ℕ) → Keeps self.old (D.state self.old.disk) image number
            → LeavesOnly (D.state self.old.disk) (D.state self.new.disk) (λ content. StandsFor content image number) }
        ensures headers_ok { D.honest self.old.disk → (image : Image) (number : ℕ) → Keeps self.old (D.state self.old.disk) image number
            → OnOk result (HeadersFollow D.state self.old.geometry self.old.generation (length self.old.turned) (D.state self.old.disk) (D.state self.new.disk)) }
        ensures headers_err { D.honest self.old.disk → (image : Image) (number : ℕ) → Keeps self.old (D.state self.old.disk) image number
            → IfErr result (λ fault. HeadersFollowUpTo D.state self.old.geometry self.old.generation (length self.old.turned) (D.state self.old.disk) (D.state self.new.disk)) }
    {
        while self.has_checkpoint_begun() {
            self.complete_checkpoint()?;
        }
        Ok(())
    }

    // Carries the checkpoint of the first area to its end.
    fn complete_checkpoint(&mut self) -> Result<(), KeeperFault>
        requires works { self.old.failed ≡ false }
        requires begun { self.old.phase ≡ Copying (left_in self.old.phase) }
        ensures ok { OnOk result (self.new ≡ finished_by self.old self.new.disk self.new.memory) }
        ensures only { IfErr result IsRecoveryFault }
        ensures full { result ≡ Err KeeperFault.NumbersFull → self.new.generation ≡ 18446744073709551615 }
        ensures last { result ≡ Err KeeperFault.NumbersFull → self.old.generation ≡ 18446744073709551615 }
        ensures wanted { result ≡ Err KeeperFault.NumbersFull → self.new.phase ≡ One → ⊥ }
        ensures extent { D.extent self.new.disk ≡ D.extent self.old.disk }
        ensures faults_ok { OnOk result (D.faults self.new.disk ≡ D.faults self.old.disk) }
        ensures faults_err { IfErr result (λ fault. D.faults self.new.disk ≡ faults_by fault (D.faults self.old.disk)) }
        ensures honest { D.honest self.new.disk ↔ D.honest self.old.disk }
        ensures remembered { (commands : List Change) → Remembers self.old commands → OnOk result (Remembers self.new commands) }

        ensures kept { D.honest self.old.disk → (image : Image) (number : ℕ) → Keeps self.old (D.state self.old.disk) image number
            → OnOk result (Keeps self.new (D.state self.new.disk) image number) }
        ensures kept_still { D.honest self.old.disk → (image : Image) (number : ℕ) → Keeps self.old (D.state self.old.disk) image number
            → IfErr result (λ fault. fault ≢ KeeperFault.DeviceFault → Keeps self.new (D.state self.new.disk) image number) }
        ensures any_moment { D.honest self.old.disk → (image : Image) (number : ℕ) → Keeps self.old (D.state self.old.disk) image number
            → LeavesOnly (D.state self.old.disk) (D.state self.new.disk) (λ content. StandsFor content image number) }
        ensures header { D.honest self.old.disk → (image : Image) (number : ℕ) → Keeps self.old (D.state self.old.disk) image number
            → LeavesOnly (D.state self.old.disk) (D.state self.new.disk) (HasHeaderOrNext self.old.geometry self.old.generation) }
    {
        self.copy_all()?;
        self.write_map()?;
        self.finish()
    }

    // Copies all that is left to copy.
    fn copy_all(&mut self) -> Result<(), KeeperFault>
        requires works { self.old.failed ≡ false }
        requires begun { self.old.phase ≡ Copying (left_in self.old.phase) }
        ensures ok { OnOk result (self.new ≡ copied_by self.old (left_in self.old.phase) self.new.disk self.new.memory) }
        ensures only { IfErr result IsRecoveryFault }
        ensures not_full { result ≢ Err KeeperFault.NumbersFull }
        ensures extent { D.extent self.new.disk ≡ D.extent self.old.disk }
        ensures faults_ok { OnOk result (D.faults self.new.disk ≡ D.faults self.old.disk) }
        ensures faults_err { IfErr result (λ fault. D.faults self.new.disk ≡ faults_by fault (D.faults self.old.disk)) }
        ensures honest { D.honest self.new.disk ↔ D.honest self.old.disk }
        ensures remembered { (commands : List Change) → Remembers self.old commands → OnOk result (Remembers self.new commands) }

        ensures kept { D.honest self.old.disk → (image : Image) (number : ℕ) → Keeps self.old (D.state self.old.disk) image number
            → OnOk result (Keeps self.new (D.state self.new.disk) image number) }
        ensures kept_still { D.honest self.old.disk → (image : Image) (number : ℕ) → Keeps self.old (D.state self.old.disk) image number
            → IfErr result (λ fault. fault ≢ KeeperFault.DeviceFault → Keeps self.new (D.state self.new.disk) image number) }
        ensures any_moment { D.honest self.old.disk → (image : Image) (number : ℕ) → Keeps self.old (D.state self.old.disk) image number
            → LeavesOnly (D.state self.old.disk) (D.state self.new.disk) (λ content. StandsFor content image number) }
        ensures header { D.honest self.old.disk → (image : Image) (number : ℕ) → Keeps self.old (D.state self.old.disk) image number
            → LeavesOnly (D.state self.old.disk) (D.state self.new.disk) (HasHeader self.old.geometry self.old.generation) }
    {
        while self.left() > 0 {
            let _blocks = self.copy_some(MOST_COPIED)?;
        }
        Ok(())
    }

    // Whether a checkpoint is under way.
    fn has_checkpoint_begun(&self) -> bool
        ensures turning { IsTrue result → (self.now.phase ≡ One → ⊥) × (0 < length self.now.turned) }
        ensures resting { result ≡ false → (self.now.phase ≡ One) × (self.now.turned ≡ []) × (self.now.lefts ≡ []) }
    {
        self.plan.is_some()
    }

    // How many blocks are left to copy.
    fn left(&self) -> u32
        ensures { result ≡ left_in self.now.phase }
    {
        match &self.plan {
            Some(plan) if !plan.is_mapped() => plan.left(),
            _ => 0,
        }
    }

    // Whether the list of the area that groups go to is empty.
    fn is_empty(&self) -> bool
        ensures empty { result ≡ (self.now.used == 0) }
        ensures untouched { self.now.used ≡ 0 → self.now.memory.area.touched ≡ [] }
        ensures counted { self.now.used ≡ 0 → self.now.count ≡ last_turned self.now.base self.now.turned }
    {
        self.area.is_empty()
    }
}
