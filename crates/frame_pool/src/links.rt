ghost use Rattle.std.specs.Prelude.{◌≡◌, ◌<◌, length, slice_index, slice_set};
ghost use Rattle.frame_pool.specs.Ring.{AreLinks};

use crate::nodes::Nodes;

// Takes a node out of the ring: its neighbours are linked to each other.
pub fn unlink(nodes: &mut Nodes, node: u32)
    requires next { AreLinks (length nodes.old.next) nodes.old.next }
    requires previous { AreLinks (length nodes.old.next) nodes.old.previous }
    requires node { node < length nodes.old.next }
    ensures next { nodes.new.next ≡ slice_set nodes.old.next (slice_index nodes.old.previous node) (slice_index nodes.old.next node) }
    ensures previous { nodes.new.previous ≡ slice_set nodes.old.previous (slice_index nodes.old.next node) (slice_index nodes.old.previous node) }
    ensures numbers { nodes.new.numbers ≡ nodes.old.numbers }
{
    let before = nodes.previous(node);
    let after = nodes.next(node);
    nodes.set_next(before, after);
    nodes.set_previous(after, before);
}

// Puts a node that is out of the ring before another one.
pub fn link_before(nodes: &mut Nodes, node: u32, after: u32)
    requires next { AreLinks (length nodes.old.next) nodes.old.next }
    requires previous { AreLinks (length nodes.old.next) nodes.old.previous }
    requires node { node < length nodes.old.next }
    requires after { after < length nodes.old.next }
    ensures next { nodes.new.next ≡ slice_set (slice_set nodes.old.next node after) (slice_index nodes.old.previous after) node }
    ensures previous { nodes.new.previous ≡ slice_set (slice_set nodes.old.previous node (slice_index nodes.old.previous after)) after node }
    ensures numbers { nodes.new.numbers ≡ nodes.old.numbers }
{
    let before = nodes.previous(after);
    nodes.set_next(node, after);
    nodes.set_previous(node, before);
    nodes.set_next(before, node);
    nodes.set_previous(after, node);
}
