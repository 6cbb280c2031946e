ghost use Rattle.std.specs.Prelude.{◌≡◌, ◌≤◌, ◌^◌, ◌%◌, ◌/◌, ◌++◌, ℕ, List, length};
ghost use Rattle.image_model.specs.Change.{Written, Cleared, IsChange};
ghost use Rattle.image_model.specs.Edit.{ByteEdit, BytesPut, BytesTrimmed, BytesZeroed, IsEdit, IsZeroElsewhere, apply_edit, becomes};
ghost use Rattle.image_model.specs.Image.{Image, apply};
ghost use Rattle.image_model.specs.declared.command.Kind.{Kind};
ghost use Rattle.image_model.specs.declared.command.Kind.TheVariants as Kind;
ghost use Rattle.image_model.specs.laws.WholeEdits.{back_bytes, front_bytes};

/// A law: carrying out the command that an edit becomes over an image is carrying out the edit. The image takes the
/// command, and blocks that aren't data stay zero.
pub fn edits_become_commands()
    ensures same { (edit : ByteEdit) (image : Image) → IsEdit image.blocks edit → IsZeroElsewhere image
        → apply (becomes edit image) image ≡ apply_edit edit image }
    ensures taken { (edit : ByteEdit) (image : Image) → image.blocks ≤ 2 ^ 64 → IsEdit image.blocks edit
        → IsChange image.blocks (becomes edit image) }
    ensures zero { (edit : ByteEdit) (image : Image) → IsZeroElsewhere image → IsZeroElsewhere (apply_edit edit image) }
{}

/// A law: an edit of whole blocks becomes the same command over every image, and takes no byte of it.
pub fn whole_edits_become_commands()
    ensures put { (offset : ℕ) (bytes : List ℕ) (image : Image) → IsEdit image.blocks (BytesPut offset bytes) → offset % 4096 ≡ 0 → length bytes % 4096 ≡ 0
        → becomes (BytesPut offset bytes) image ≡ Written (offset / 4096) bytes }
    ensures zeroes { (offset count : ℕ) (kind : Kind) (image : Image) → IsEdit image.blocks (BytesZeroed offset count kind) → offset % 4096 ≡ 0 → count % 4096 ≡ 0
        → becomes (BytesZeroed offset count kind) image ≡ Cleared (offset / 4096) (count / 4096) kind }
    ensures trim { (offset count : ℕ) (image : Image) → IsEdit image.blocks (BytesTrimmed offset count) → offset % 4096 ≡ 0 → count % 4096 ≡ 0
        → becomes (BytesTrimmed offset count) image ≡ Cleared (offset / 4096) (count / 4096) Kind.Hole }
{}

/// A law: a put becomes the put of the blocks that it touches, whose bytes are the image's before it, its own, and the
/// image's after it up to the end of its last block.
pub fn puts_become_commands()
    ensures parts { (offset : ℕ) (bytes : List ℕ) (image : Image)
        → becomes (BytesPut offset bytes) image ≡ Written (offset / 4096) (front_bytes offset bytes image ++ (bytes ++ back_bytes offset bytes image)) }
{}
