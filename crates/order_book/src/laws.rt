ghost use Rattle.std.specs.Prelude.{◌≡◌, ℕ, List, fold, map as mapped};
ghost use Rattle.std.specs.FinMap as map;
ghost use Rattle.image_model.specs.declared.command.Command.{Command};
ghost use Rattle.image_model.specs.declared.command.Kind.{Kind};
ghost use Rattle.image_model.specs.Change.{Change, change_of};
ghost use Rattle.image_model.specs.Dirty.{dirty_blocks, last_write};
ghost use Rattle.order_book.specs.Order.{new_order, with_command};

/// Which blocks are dirty once an order has accepted any commands: those where the last command that touches them is a
/// `Put`, each with the number of that one.
pub fn dirty_blocks_law()
    ensures accepted { (states : List Kind) (opening frames area : ℕ) (commands : List Command) →
        (fold with_command (new_order states opening frames area) commands).dirty ≡ dirty_blocks opening (mapped change_of commands) }
    ensures last_touch { (opening : ℕ) (changes : List Change) (block : ℕ) →
        map.get (dirty_blocks opening changes) block ≡ last_write block opening changes }
{}
