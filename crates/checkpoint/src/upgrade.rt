ghost use Rattle.std.specs.Prelude.{◌≡◌, ◌⊎◌, ℕ, ◌≤◌, ◌<◌, ◌↔◌, IfErr, IfOk, OnOk, Err, Ok};
ghost use Rattle.checkpoint.specs.Keeper.{faults_by};
ghost use Rattle.checkpoint.specs.Opening.{disk_after, faults_after_opening};
ghost use Rattle.checkpoint.specs.Recovery.{IsRecovered};
ghost use Rattle.checkpoint.specs.Upgrade.{HasEitherLayout, IsChanged, IsOpenedAndUpgraded, IsUpgradePassing};
ghost use Rattle.checkpoint.specs.inner.Upgrade.{IsLayoutFault};
ghost use Rattle.checkpoint.specs.declared.fault.KeeperFault.TheVariants as KeeperFault;
ghost use Rattle.device_image.specs.Keeps.{Keeps};
ghost use Rattle.device_image.specs.Stands.{StandsFor};
ghost use Rattle.disk_model.specs.Disk.{IsAllSynced, LeavesOnly};
ghost use Rattle.image_model.specs.Image.{Image};
ghost use Rattle.image_model.specs.declared.layout.Layout.TheVariants as Layout;

use crate::fault::KeeperFault;
use crate::keeper::Keeper;
use disk_model::Disk;
use header_slots::change_header;
use image_model::Layout;
use journal::Area;
use regions::Regions;
use std::alloc::Global;

impl<D: Disk> Keeper<D> {
    /// Opens the device as [`Keeper::open`] does, and makes layout 2 of layout 1: four areas in the place of two, each of half
    /// the bytes.
    ///
    /// The journal is then empty, so one change of the header is enough: the area in use keeps its beginning, and map slot and
    /// base stay. A device of layout 2 is only opened.
    ///
    /// A refusal hands the device back: those of [`Keeper::open`]; 22 (area too small), if its areas would be too small; 9
    /// (numbers full), if they would not and no generation is left for the header. What the opening did stays done.
    pub fn upgrade(alloc: Global, disk: D) -> Result<Keeper<D>, (KeeperFault, D)>
        ensures extent { D.extent (disk_after result) ≡ D.extent disk }
        ensures faults { D.faults (disk_after result) ≡ faults_after_opening result (D.faults disk) }
        ensures honest { D.honest (disk_after result) ↔ D.honest disk }
        ensures recovered { IfOk result IsRecovered }
        ensures layout { IfOk result (λ keeper. keeper.geometry.layout ≡ Layout.Two) }

        // There is an opening that it goes on from, and of the content found is said what `open` says; once it is opened, a crash
        // leaves its header in force, or the one that makes layout 2 of it.
        ensures steps { IsOpenedAndUpgraded D.state D.faults D.honest disk result }

        // If nothing is unsynced at the start and the content stands for an image, the keeper keeps that image. Only lack of
        // memory, a device fault, the last generation or small areas refuse it, and what a crash at any moment leaves stands
        // for it, in layout 1 or 2.
        ensures same { D.honest disk → IsAllSynced (D.state disk) → (image : Image) (number : ℕ) → StandsFor (D.state disk).seen image number
            → IfOk result (λ keeper. Keeps keeper (D.state keeper.disk) image number × (keeper.base ≡ number)) }
        ensures passing { D.honest disk → IsAllSynced (D.state disk) → (image : Image) (number : ℕ) → StandsFor (D.state disk).seen image number
            → IfErr result (λ refused. IsUpgradePassing refused.0) }
        ensures any_moment { D.honest disk → IsAllSynced (D.state disk) → (image : Image) (number : ℕ) → StandsFor (D.state disk).seen image number
            → LeavesOnly (D.state disk) (D.state (disk_after result)) (λ content. StandsFor content image number) }
    {
        match Keeper::open(alloc, disk) {
            Ok(mut keeper) => match keeper.change_layout() {
                Ok(()) => Ok(keeper),
                Err(fault) => Err((fault, keeper.into_disk())),
            },
            Err(refused) => Err(refused),
        }
    }
}

impl<D: Disk> Keeper<D> {
    // Makes layout 2 of layout 1, where the journal is empty.
    fn change_layout(&mut self) -> Result<(), KeeperFault>
        requires { IsRecovered self.old }
        ensures ok { OnOk result (IsRecovered self.new) }
        ensures layout { OnOk result (self.new.geometry.layout ≡ Layout.Two) }
        ensures idle { self.old.geometry.layout ≡ Layout.Two → (self.new ≡ self.old) × (result ≡ Ok tt) }
        ensures only { IfErr result IsLayoutFault }
        ensures changed { self.old.geometry.layout ≡ Layout.One → OnOk result (IsChanged self.old self.new) }
        ensures small { (result ≡ Err KeeperFault.AreaSmall) ↔ ((self.old.geometry.layout ≡ Layout.One) × (self.old.geometry.area < 4194304)) }
        ensures full { (result ≡ Err KeeperFault.NumbersFull)
            ↔ ((self.old.geometry.layout ≡ Layout.One) × (4194304 ≤ self.old.geometry.area) × (self.old.generation ≡ 18446744073709551615)) }
        ensures unchanged { IfErr result (λ fault. (fault ≡ KeeperFault.DeviceFault) ⊎ (self.new ≡ self.old)) }
        ensures extent { D.extent self.new.disk ≡ D.extent self.old.disk }
        ensures faults_ok { OnOk result (D.faults self.new.disk ≡ D.faults self.old.disk) }
        ensures faults_err { IfErr result (λ fault. D.faults self.new.disk ≡ faults_by fault (D.faults self.old.disk)) }
        ensures honest { D.honest self.new.disk ↔ D.honest self.old.disk }

        ensures kept { D.honest self.old.disk → (image : Image) (number : ℕ) → Keeps self.old (D.state self.old.disk) image number
            → OnOk result (Keeps self.new (D.state self.new.disk) image number) }
        ensures any_moment { D.honest self.old.disk → (image : Image) (number : ℕ) → Keeps self.old (D.state self.old.disk) image number
            → LeavesOnly (D.state self.old.disk) (D.state self.new.disk) (λ content. StandsFor content image number) }
        ensures header { D.honest self.old.disk → (image : Image) (number : ℕ) → Keeps self.old (D.state self.old.disk) image number
            → LeavesOnly (D.state self.old.disk) (D.state self.new.disk) (HasEitherLayout self.old) }
    {
        let geometry = self.header.geometry;
        match geometry.layout {
            Layout::Two => return Ok(()),
            Layout::One => {}
        }
        let Some(geometry) = geometry.with_layout_two() else {
            return Err(KeeperFault::AreaSmall);
        };
        let Some(header) = self.header.upgraded(geometry) else {
            return Err(KeeperFault::NumbersFull);
        };
        match change_header(&mut self.disk, self.slot, &header) {
            Ok(()) => {
                let from = Regions::from_geometry(&geometry).area_from(header.first_area);
                self.area = Area::new(
                    self.alloc,
                    from,
                    geometry.area_size(),
                    geometry.blocks,
                    self.area.next(),
                );
                self.header = header;
                self.slot = self.slot.other();
                Ok(())
            }
            Err(fault) => {
                self.failed = true;
                Err(KeeperFault::from(fault))
            }
        }
    }
}
