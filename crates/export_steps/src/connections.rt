ghost use Rattle.std.specs.Prelude.{◌≡◌, IfOk, IfSome, MatchOption, replicate, vec_len};
ghost use Rattle.order_book.specs.Order.{IsInHand, with_group};
ghost use Rattle.export_steps.specs.Bench.{new_connections};
ghost use Rattle.export_model.specs.declared.connection.Connection.TheVariants as Connection;

use export_model::{Connection, Mode};
use journal::Group;
use marks::{BoardName, Pass};
use nbd_wire::SessionFlags;
use order_book::Order;
use std::alloc::{AllocError, Global};
use std::marker::Model;

/// The connections of an export, each with a pass of its board, what they agreed on, and the group in hand.
///
/// They can't be let go, because a group may be in hand: they are spent by `close`.
pub struct Connections<B: BoardName> {
    pub(crate) flags: SessionFlags,
    pub(crate) mode: Mode,
    pub(crate) states: Vec<Connection>,
    pub(crate) passes: Vec<Pass<B>>,
    pub(crate) group: Option<Group>,
}

impl<B: BoardName> Model for Connections<B> {
    ghost use Rattle.std.specs.Prelude.{◌≡◌, vec_len};
    ghost use Rattle.export_steps.specs.Bench.{ConnectionsState};

    ghost Value = { ConnectionsState };

    ghost view = { λ connections. record {
      flags = connections.flags;
      mode = connections.mode;
      states = connections.states.items;
      group = connections.group;
    } };

    ghost invariant = { λ connections. vec_len connections.passes ≡ vec_len connections.states };
}

// This many connections that have no request open.
fn idle(alloc: Global, count: usize) -> Result<Vec<Connection>, AllocError>
    ensures states { IfOk result (λ states. states.items ≡ replicate count Connection.Idle) }
    ensures size { IfOk result (λ states. vec_len states ≡ count) }
{
    let mut states = Vec::with_capacity(alloc, count)?;
    for place in 0..count {
        states.push(Connection::Idle)?;
    }
    Ok(states)
}

impl<B: BoardName> Connections<B> {
    /// A connection for each pass, none of which has sent a request. Refusal 0 (no memory).
    pub fn new(
        alloc: Global,
        passes: Vec<Pass<B>>,
        flags: SessionFlags,
        mode: Mode,
    ) -> Result<Connections<B>, AllocError>
        ensures { IfOk result (λ connections. connections ≡ new_connections (vec_len passes) flags mode) }
    {
        Ok(Connections {
            flags,
            mode,
            states: idle(alloc, passes.len())?,
            passes,
            group: None,
        })
    }

    /// Puts a group in hand back into the order.
    pub fn close(self, order: &mut Order<B>)
        requires { IfSome self.group (IsInHand order.old) }
        ensures { MatchOption self.group (order.new ≡ order.old) (λ group. order.new ≡ with_group order.old group) }
    {
        let Connections {
            flags: _,
            mode: _,
            states: _,
            passes: _,
            group,
        } = self;
        if let Some(group) = group {
            order.put_back(group);
        }
    }
}
