use shared_store::ImageName;
use std::marker::Brand;

/// Which export it is: its board and image, the sizes of that, so that what lies under its two locks is of one size, and how many bytes
/// of commands may be pending in it.
///
/// A program opens an export in a function that is generic over its name, with what it opens as a premise. A caller of
/// that function passes `Brand`, and says in the file of its invariants that the name's board, sizes and bound are these.
pub trait ExportName: ImageName {
    ghost use Rattle.std.specs.Prelude.{ℕ};
    ghost use Rattle.image_model.specs.declared.geometry.Geometry.{Geometry};

    ghost geometry: { Geometry };

    ghost most_pending: { ℕ };
}

/// The member that stands here is the one that nobody picked.
impl ExportName for Brand {
    ghost use Rattle.std.proofs.Common.{lit≤, refl};
    ghost use Rattle.image_model.specs.declared.layout.Layout.TheVariants as Layout;

    ghost geometry = { record {
      blocks = 1;
      area = 2097152;
      layout = Layout.One;
      some_blocks = lit≤ tt;
      not_too_many = lit≤ tt;
      area_not_too_small = lit≤ tt;
      areas_not_too_small = lit≤ tt;
      area_not_too_large = lit≤ tt;
      area_whole = refl;
    } };

    ghost most_pending = { 0 };
}
