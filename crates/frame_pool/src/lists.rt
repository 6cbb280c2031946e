ghost use Rattle.std.specs.Prelude.{◌≡◌, ◌+◌, ◌<◌, ◌^◌, [], replicate, slice_get, slice_set, IfOk, IfSome, None};
ghost use Rattle.std.specs.List.{range_with_len};
ghost use Rattle.frame_pool.specs.Lists.{HoldEach, moved, total};
ghost use Rattle.frame_pool.specs.inner.Lists.{list_at};
ghost use Rattle.frame_pool.specs.Numbers.{kept_at};
ghost use Rattle.frame_pool.specs.Ring.{end_of, start_of};

use crate::links::{link_before, unlink};
use crate::nodes::Nodes;
use crate::place::Place;
use std::alloc::{AllocError, Global};
use std::marker::Model;

// The frames in three lists, by links: one ring goes through all frames, with a node after the last frame of each
// list, so that no list is ever empty and a frame has a node on either side. A frame's node also has its number.
#[derive(Drop)]
pub struct FrameLists {
    frames: u32,
    nodes: Nodes,
}

// In contracts these are the three lists, and the numbers of the frames, each of them one or none.
impl Model for FrameLists {
    ghost use Rattle.frame_pool.specs.Linked.{LinkedState};
    ghost use Rattle.frame_pool.specs.Ring.{AreLinked, lists_of};

    ghost Value = { LinkedState };

    ghost view = { λ lists. record { linked = lists_of lists.frames lists.nodes.next; numbers = lists.nodes.numbers } };

    ghost invariant = { λ lists. AreLinked lists.frames lists.nodes.next lists.nodes.previous (lists_of lists.frames lists.nodes.next) };
}

// The node after a list's last frame.
fn end(frames: u32, place: Place) -> u32
    requires { frames + 3 < 2 ^ 32 }
    ensures { result ≡ end_of frames place }
{
    match place {
        Place::Free => frames,
        Place::Clean => frames + 1,
        Place::Dirty => frames + 2,
    }
}

// The node before a list's first frame.
fn start(frames: u32, place: Place) -> u32
    requires { frames + 3 < 2 ^ 32 }
    ensures { result ≡ start_of frames place }
{
    match place {
        Place::Free => frames + 2,
        Place::Clean => frames,
        Place::Dirty => frames + 1,
    }
}

impl FrameLists {
    // This many frames, which are free, in ascending order.
    pub fn new(alloc: Global, frames: u32) -> Result<FrameLists, AllocError>
        requires { frames + 3 < 2 ^ 31 }
        ensures { IfOk result (λ lists. lists ≡ record {
          linked = record { free = range_with_len 0 frames; clean = []; dirty = [] };
          numbers = replicate (frames + 3) None;
        }) }
    {
        Ok(FrameLists {
            frames,
            nodes: Nodes::ring(alloc, frames + 3)?,
        })
    }

    // How many frames there are.
    pub fn total(&self) -> u32
        ensures total { result ≡ total self.now.linked }
        ensures each { HoldEach self.now.linked }
    {
        self.frames
    }

    // The number of a frame.
    pub fn number(&self, frame: u32) -> Option<u64>
        requires { frame < total self.now.linked }
        ensures { result ≡ kept_at self.now.numbers frame }
    {
        self.nodes.number(frame)
    }

    // Gives a frame this number, or none.
    pub fn set_number(&mut self, frame: u32, number: Option<u64>)
        requires frame { frame < total self.old.linked }
        requires some { IfSome number (λ n. 0 < n) }
        ensures { self.new ≡ record { linked = self.old.linked; numbers = slice_set self.old.numbers frame number } }
    {
        self.nodes.set_number(frame, number);
    }

    // The first frame of a list.
    pub fn front(&self, place: Place) -> Option<u32>
        ensures front { result ≡ slice_get (list_at self.now.linked place) 0 }
        ensures inside { IfSome result (λ frame. frame < total self.now.linked) }
    {
        let before = start(self.frames, place);
        let after = end(self.frames, place);
        let first = self.nodes.next(before);
        if first == after { None } else { Some(first) }
    }

    // Takes a frame from where it is to the back of a list.
    pub fn move_to(&mut self, frame: u32, place: Place)
        requires { frame < total self.old.linked }
        ensures moved { self.new ≡ record { linked = moved self.old.linked frame place; numbers = self.old.numbers } }
        ensures each { HoldEach self.new.linked }
    {
        let after = end(self.frames, place);
        unlink(&mut self.nodes, frame);
        link_before(&mut self.nodes, frame, after);
    }
}
