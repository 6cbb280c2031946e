ghost use Rattle.std.specs.Prelude.{◌≡◌, ◌+◌, ◌<◌, ◌≤◌, ◌^◌, ◌++◌, [], ◌∷◌, sum, drop, OnOk};

use std::alloc::{AllocError, Global};
use std::collections::VecDeque;
use std::marker::Model;

/// The bytes that the commands which aren't durable take in groups, one number a command, with places kept free for more.
#[derive(Drop)]
pub(crate) struct Backlog {
    bodies: VecDeque<u32>,
    total: u64,
}

impl Model for Backlog {
    ghost use Rattle.std.specs.Prelude.{◌≡◌, ◌-◌, sum};
    ghost use Rattle.std.specs.VecDeque.{deque_len, deque_capacity};
    ghost use Rattle.order_book.specs.Backlog.{Tally};

    ghost Value = { Tally };

    ghost view = { λ backlog. record {
      bodies = backlog.bodies.items;
      spare = deque_capacity backlog.bodies - deque_len backlog.bodies;
    } };

    ghost invariant = { λ backlog. backlog.total ≡ sum backlog.bodies.items };
}

impl Backlog {
    pub(crate) fn new(alloc: Global) -> Backlog
        ensures { result.bodies ≡ [] }
    {
        Backlog {
            bodies: VecDeque::new(alloc),
            total: 0,
        }
    }

    /// The bytes of all of them.
    pub(crate) fn total(&self) -> u64
        ensures { result ≡ sum self.now.bodies }
    {
        self.total
    }

    /// Makes room for one command more.
    pub(crate) fn reserve(&mut self) -> Result<(), AllocError>
        ensures bodies { self.new.bodies ≡ self.old.bodies }
        ensures ok { OnOk result (1 ≤ self.new.spare) }
    {
        self.bodies.reserve(1)
    }

    /// Adds the bytes of one command more.
    pub(crate) fn push(&mut self, body: u32)
        requires room { 1 ≤ self.old.spare }
        requires fits { sum self.old.bodies + body < 2 ^ 64 }
        ensures { self.new.bodies ≡ self.old.bodies ++ body ∷ [] }
    {
        self.bodies.push_back_reserved(body);
        self.total += body as u64;
    }

    /// Forgets the first `count` commands.
    pub(crate) fn forget(&mut self, count: u64)
        ensures { self.new.bodies ≡ drop count self.old.bodies }
    {
        for _ in 0..count {
            if let Some(body) = self.bodies.pop_front() {
                self.total -= body as u64;
            }
        }
    }
}
