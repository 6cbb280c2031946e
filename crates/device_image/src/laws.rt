ghost use Rattle.std.specs.Prelude.{◌≡◌, ℕ, List, []};
ghost use Rattle.device_image.specs.Damage.{HasBadMap, HasDamagedGroup};
ghost use Rattle.device_image.specs.Holds.{Holds, HoldsAs};
ghost use Rattle.device_image.specs.Keeper.{KeeperState, One};
ghost use Rattle.device_image.specs.Keeps.{Keeps};
ghost use Rattle.device_image.specs.Stands.{StandsFor};
ghost use Rattle.disk_model.specs.Disk.{MayLeave};
ghost use Rattle.image_model.specs.Image.{Image};

use disk_model::Disk;

/// What a content stands for: one image with one number at most, and none where its map is bad or an area in use damaged.
pub fn stands_laws()
    ensures one_image { (content : List ℕ) (image other : Image) (number next : ℕ) → StandsFor content image number →
        StandsFor content other next → image ≡ other }
    ensures one_number { (content : List ℕ) (image other : Image) (number next : ℕ) → StandsFor content image number →
        StandsFor content other next → number ≡ next }
    ensures good_map { (content : List ℕ) (image : Image) (number : ℕ) → StandsFor content image number → HasBadMap content → ⊥ }
    ensures good_groups { (content : List ℕ) (image : Image) (number : ℕ) → StandsFor content image number → HasDamagedGroup content → ⊥ }
{}

/// The image that a keeper keeps has the blocks of its geometry, and a crash leaves it. What it holds makes that image: an
/// empty journal holds nothing over it.
pub fn keeper_laws<D: Disk>()
    ensures size { (keeper : KeeperState D) (image : Image) (number : ℕ) → Keeps keeper (D.state keeper.disk) image number →
        image.blocks ≡ keeper.geometry.blocks }
    ensures left { (keeper : KeeperState D) (image : Image) (number : ℕ) (content : List ℕ) →
        Keeps keeper (D.state keeper.disk) image number → MayLeave (D.state keeper.disk) content → StandsFor content image number }
    ensures held { (keeper : KeeperState D) (image : Image) (number : ℕ) → Keeps keeper (D.state keeper.disk) image number →
        HoldsAs keeper (D.state keeper.disk) image number }
    ensures empty { (keeper : KeeperState D) (image : Image) (number : ℕ) → Keeps keeper (D.state keeper.disk) image number →
        keeper.phase ≡ One → keeper.used ≡ 0 → Holds keeper (D.state keeper.disk) image [] [] }
{}
