ghost use Rattle.std.specs.Prelude.{ℕ, List};
ghost use Rattle.checkpoint.specs.Opening.{IsPassing, IsRefused};
ghost use Rattle.checkpoint.specs.declared.fault.KeeperFault.{KeeperFault};
ghost use Rattle.device_image.specs.Stands.{StandsFor};
ghost use Rattle.image_model.specs.Image.{Image};

/// A content that an opening refuses stands for no image; want of memory and a device fault say nothing of it.
pub fn refusal_law()
    ensures { (content : List ℕ) (image : Image) (number : ℕ) (fault : KeeperFault) → IsRefused fault content →
        (IsPassing fault → ⊥) → StandsFor content image number → ⊥ }
{}
