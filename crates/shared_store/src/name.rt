use marks::BoardName;
use std::marker::Brand;

/// Which image it is that an order and a keeper share: what it was at the opening, and what is trusted of its device.
///
/// What lies under a lock can name neither, because no contract knows what a lock holds. They are picked where the board is.
pub trait ImageName: BoardName {
    ghost use Rattle.disk_model.specs.Disk.{State};
    ghost use Rattle.image_model.specs.Image.{Image};
    ghost use Rattle.shared_store.specs.Orders.{SpanRead};

    /// The image as the opening found it.
    ghost image: { Image };

    /// The device at a moment since which a crash leaves only what stands for that image, or for it after commands of the export.
    ghost start: { State };

    /// What is trusted of the device: that it is honest, and holds the image.
    ghost trusted: { Type 0 };

    /// What a second handle vouches for, by which blocks are read with no lock held.
    ghost vouches: { SpanRead → Type 0 };
}

/// The members that stand here are the ones that nobody picked.
impl ImageName for Brand {
    ghost use Rattle.device_image.specs.Stands.{holes};
    ghost use Rattle.shared_store.specs.Keepers.{empty_device};

    ghost image = { holes 1 };

    ghost start = { empty_device };

    ghost trusted = { ⊥ };

    ghost vouches = { λ read. ⊥ };
}
