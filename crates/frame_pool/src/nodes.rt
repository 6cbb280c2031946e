ghost use Rattle.std.specs.Prelude.{◌≡◌, ◌+◌, ◌-◌, ◌%◌, ◌<◌, ◌^◌, length, replicate, slice_index, map, IfOk, IfSome, None};
ghost use Rattle.std.specs.List.{range_with_len};
ghost use Rattle.frame_pool.specs.Numbers.{kept_at};
ghost use Rattle.frame_pool.specs.inner.Nodes.{with_next, with_number, with_previous};

use crate::region::Region;
use std::alloc::{AllocError, Global};
use std::marker::Model;

// A node of the ring: the ones next to it, and the number of its frame. A number is at least 1, so that 0 stands for
// none and a node takes 16 bytes, where an `Option` would take 24.
#[derive(Clone, Copy)]
pub struct Node {
    next: u32,
    previous: u32,
    number: u64,
}

// The nodes of the ring, in one block.
#[derive(Drop)]
pub struct Nodes {
    region: Region<Node>,
}

// In contracts these are the links of each node either way, and its number or none.
impl Model for Nodes {
    ghost use Rattle.frame_pool.specs.Nodes.{AreWritten, NodesState, nodes_of};

    ghost Value = { NodesState };

    ghost view = { λ nodes. nodes_of nodes.region };

    ghost invariant = { λ nodes. AreWritten nodes.region };
}

impl Nodes {
    // This many nodes in a ring in ascending order, with no numbers.
    pub fn ring(alloc: Global, count: u32) -> Result<Nodes, AllocError>
        requires some { 0 < count }
        requires few { count < 2 ^ 31 }
        ensures { IfOk result (λ nodes. nodes ≡ record {
          next = map (λ node. (node + 1) % count) (range_with_len 0 count);
          previous = map (λ node. (node + (count - 1)) % count) (range_with_len 0 count);
          numbers = replicate count None;
        }) }
    {
        let mut region = Region::new(alloc, count as usize)?;
        for node in 0..count {
            let next = (node + 1) % count;
            let previous = (node + (count - 1)) % count;
            region.write(
                node as usize,
                Node {
                    next,
                    previous,
                    number: 0,
                },
            );
        }
        Ok(Nodes { region })
    }

    // The node after one.
    pub fn next(&self, node: u32) -> u32
        requires { node < length self.now.next }
        ensures { result ≡ slice_index self.now.next node }
    {
        self.region.get(node as usize).next
    }

    // The node before one.
    pub fn previous(&self, node: u32) -> u32
        requires { node < length self.now.next }
        ensures { result ≡ slice_index self.now.previous node }
    {
        self.region.get(node as usize).previous
    }

    // The number of a node.
    pub fn number(&self, node: u32) -> Option<u64>
        requires { node < length self.now.next }
        ensures { result ≡ kept_at self.now.numbers node }
    {
        match self.region.get(node as usize).number {
            0 => None,
            number => Some(number),
        }
    }

    // Links a node to the one after it.
    pub fn set_next(&mut self, node: u32, next: u32)
        requires { node < length self.old.next }
        ensures { self.new ≡ with_next node next self.old }
    {
        let kept = *self.region.get(node as usize);
        self.region.write(node as usize, Node { next, ..kept });
    }

    // Links a node to the one before it.
    pub fn set_previous(&mut self, node: u32, previous: u32)
        requires { node < length self.old.next }
        ensures { self.new ≡ with_previous node previous self.old }
    {
        let kept = *self.region.get(node as usize);
        self.region.write(node as usize, Node { previous, ..kept });
    }

    // Gives a node this number, or none.
    pub fn set_number(&mut self, node: u32, number: Option<u64>)
        requires node { node < length self.old.next }
        requires some { IfSome number (λ n. 0 < n) }
        ensures { self.new ≡ with_number node number self.old }
    {
        let kept = *self.region.get(node as usize);
        let number = number.unwrap_or(0);
        self.region.write(node as usize, Node { number, ..kept });
    }
}
