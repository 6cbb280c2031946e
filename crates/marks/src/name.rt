use std::marker::Brand;

/// Which board it is, and with which number it opened: a board and its seats that meet in a call have one name.
///
/// A program opens a board in a function that is generic over its name, with `BlankBoard::board` and `BlankBoard::opening` for it
/// as premises. A caller of that function passes `Brand`, and says in the file of its invariants that the name's board and
/// number are these.
pub trait BoardName {
    ghost use Rattle.std.specs.Prelude.{ℕ};
    ghost use Rattle.atomic_table.specs.Seated.{TableId};

    ghost board: { TableId };

    ghost opening: { ℕ };
}

/// The member that stands here is the one that nobody picked.
impl BoardName for Brand {
    ghost use Rattle.std.specs.Prelude.{[]};

    ghost board = { record { words = 528; slots = 0; views_name = 0; atom = 0; block = 0; offset = 0; slot_names = [] } };

    ghost opening = { 0 };
}

/// Whether a board keeps a log of what clients send and are answered, and of what: whether the device is trusted, the mode, and the
/// image with which the board opened. A table's rule can't read what is picked once the table is there, so the name that is picked then
/// doesn't have these.
pub trait Trust {
    ghost use Rattle.image_model.specs.Image.{Image};
    ghost use Rattle.export_model.specs.declared.step.Mode.{Mode};

    /// Holds where the board keeps a log.
    ghost logs: { Type 0 };

    /// Holds where the device is trusted.
    ghost trusted: { Type 0 };

    ghost mode: { Mode };

    ghost image: { Image };
}

/// No log is kept, and a caller with such a board owes nothing to one.
pub struct NoLog;

impl Trust for NoLog {
    ghost use Rattle.export_model.specs.declared.step.Mode.TheVariants.{Writeback};
    ghost use Rattle.image_model.specs.declared.command.Kind.TheVariants.{Hole};

    ghost logs = { ⊥ };

    ghost trusted = { ⊥ };

    ghost mode = { Writeback };

    ghost image = { record { blocks = 0; byte = λ place. 0; kind = λ block. Hole } };
}

/// The members that stand here are the ones that nobody picked: no log is kept.
impl Trust for Brand {
    ghost use Rattle.export_model.specs.declared.step.Mode.TheVariants.{Writeback};
    ghost use Rattle.image_model.specs.declared.command.Kind.TheVariants.{Hole};

    ghost logs = { ⊥ };

    ghost trusted = { ⊥ };

    ghost mode = { Writeback };

    ghost image = { record { blocks = 0; byte = λ place. 0; kind = λ block. Hole } };
}
