use crate::name::BoardName;
use crate::said::Said;
use crate::view::View;
use atomic_table::Seat;
use std::marker::{Model, PhantomData};

/// The only seat that raises the accepted number. It knows the whole history, and a base.
#[derive(Drop)]
pub struct OrderSeat<B: BoardName> {
    pub(crate) seat: Seat<Said, View>,
    pub(crate) of: PhantomData<B>,
}

impl<B: BoardName> Model for OrderSeat<B> {
    ghost use Rattle.marks.specs.Known.{OrderKnows};
    ghost use Rattle.marks.specs.Seats.{IsOrderSeat, order_of};

    ghost Value = { OrderKnows };

    ghost view = { λ order. order_of order.seat.me.0 };

    ghost invariant = { λ order. IsOrderSeat B.board B.opening order.seat };
}

/// The only seat that raises the durable number and the base, which it knows. It also knows a prefix of the history.
#[derive(Drop)]
pub struct KeeperSeat<B: BoardName> {
    pub(crate) seat: Seat<Said, View>,
    pub(crate) of: PhantomData<B>,
}

impl<B: BoardName> Model for KeeperSeat<B> {
    ghost use Rattle.marks.specs.Known.{KeeperKnows};
    ghost use Rattle.marks.specs.Seats.{IsKeeperSeat, keeper_of};

    ghost Value = { KeeperKnows };

    ghost view = { λ keeper. keeper_of keeper.seat.me.0 };

    ghost invariant = { λ keeper. IsKeeperSeat B.board B.opening keeper.seat };
}

/// What a worker knows of the board, and the last number accepted for it with that command. If it is a client's, it also knows what
/// the client sent and was answered, and its state. It has no bytes but the number of the word that its own steps exchange.
#[derive(Drop)]
pub struct Pass<B: BoardName> {
    pub(crate) seat: Seat<Said, View>,
    // Any number: `quiet_word` makes a word of it.
    pub(crate) line: usize,
    pub(crate) of: PhantomData<B>,
}

impl<B: BoardName> Model for Pass<B> {
    ghost use Rattle.marks.specs.Known.{PassState};
    ghost use Rattle.marks.specs.Seats.{IsPass, pass_of};

    ghost Value = { PassState };

    ghost view = { λ pass. pass_of pass.seat.me.0 };

    ghost invariant = { λ pass. IsPass B.board B.opening pass.seat };
}

/// What a seat knew of the history and of the durable number when it was asked, for another seat to learn. It has no bytes.
#[derive(Drop)]
pub struct Told<B: BoardName> {
    pub(crate) seat: Seat<Said, View>,
    pub(crate) of: PhantomData<B>,
}

impl<B: BoardName> Model for Told<B> {
    ghost use Rattle.marks.specs.Known.{Marks};
    ghost use Rattle.marks.specs.Seats.{IsTold, marks_of};

    ghost Value = { Marks };

    ghost view = { λ told. marks_of told.seat.me.0 };

    ghost invariant = { λ told. IsTold B.board B.opening told.seat };
}

/// The only right to make clients. It knows what clients that are gone sent and were answered.
#[derive(Drop)]
pub struct Roster<B: BoardName> {
    pub(crate) seat: Seat<Said, View>,
    // The line of the next pass that it makes.
    pub(crate) line: usize,
    pub(crate) of: PhantomData<B>,
}

impl<B: BoardName> Model for Roster<B> {
    ghost use Rattle.export_model.specs.OneLog.{RosterState};
    ghost use Rattle.marks.specs.Seats.{IsRoster, roster_of};

    ghost Value = { RosterState };

    ghost view = { λ roster. roster_of roster.seat.me.0 };

    ghost invariant = { λ roster. IsRoster B.board B.opening roster.seat };
}
