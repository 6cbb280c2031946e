ghost use Rattle.std.specs.Prelude.{◌≡◌, [], replicate, IfOk};
ghost use Rattle.marks.specs.Known.{new_pass};

use crate::board::{Board, WORDS};
use crate::name::{BoardName, NoLog, Trust};
use crate::rule::{GiveKeeper, GiveOrder, Law};
use crate::said::Said;
use crate::seats::{KeeperSeat, OrderSeat, Pass, Roster};
use crate::view::View;
use atomic_table::{Seat, Table};
use std::alloc::{AllocError, Global};
use std::marker::{Model, PhantomData};

/// A board that has no name yet.
#[derive(Drop)]
pub struct BlankBoard<T: Trust = NoLog> {
    table: Table<Said, View, u64, Law<T>, Global>,
    seat: Seat<Said, View>,
}

impl<T: Trust> Model for BlankBoard<T> {
    ghost use Rattle.std.specs.Prelude.{◌≡◌, []};
    ghost use Rattle.marks.specs.Known.{BlankState};
    ghost use Rattle.marks.specs.Rule.{first_view};

    ghost Value = { BlankState };

    ghost view = { λ blank. record { board = blank.table.shared.table_id; opening = blank.seat.me.0.opening } };

    ghost invariant = { λ blank. (blank.table.shared.table_id.words ≡ 528)
        × (blank.table.shared.table_id.slots ≡ 0)
        × (blank.seat.table_id ≡ blank.table.shared.table_id)
        × (blank.seat.me ≡ (first_view blank.seat.me.0.opening, [])) };
}

/// A board with its seats, and passes that know the number with which it opened and have none of their own.
#[derive(Drop)]
pub struct Opened<B: BoardName, T: Trust = NoLog> {
    pub board: Board<B, T>,
    pub order: OrderSeat<B>,
    pub keeper: KeeperSeat<B>,
    pub roster: Roster<B>,
    pub passes: Vec<Pass<B>>,
}

impl<T: Trust> BlankBoard<T> {
    /// A board with an empty history and both numbers at `opening`. Refusal 0 (no memory).
    pub fn new(alloc: Global, opening: u64) -> Result<BlankBoard<T>, AllocError>
        ensures { IfOk result (λ blank. blank.opening ≡ opening) }
    {
        let mut words = [0; WORDS];
        words[0] = opening;
        words[1] = opening;
        let (table, seat) = Table::of_words(alloc, &words, &opening)?;
        Ok(BlankBoard { table, seat })
    }

    /// The board under the name that its caller picks, with `passes` passes. Refusal 0 (no memory).
    pub fn open<B: BoardName>(
        self,
        alloc: Global,
        passes: usize,
    ) -> Result<Opened<B, T>, AllocError>
        requires board { self.board ≡ B.board }
        requires opening { self.opening ≡ B.opening }
        ensures order { IfOk result (λ opened. opened.order ≡ record { history = []; accepted = self.opening; base = self.opening }) }
        ensures keeper { IfOk result (λ opened. opened.keeper
            ≡ record { history = []; accepted = self.opening; durable = self.opening; base = self.opening }) }
        ensures roster { IfOk result (λ opened. opened.roster ≡ record { made = 0; calls = [] }) }
        ensures passes { IfOk result (λ opened. opened.passes.items ≡ replicate passes (new_pass self.opening)) }
    {
        let (board, order, mut keeper, roster) = self.named::<B>();
        let passes = board.new_passes(alloc, &mut keeper, passes)?;
        Ok(Opened {
            board,
            order,
            keeper,
            roster,
            passes,
        })
    }

    // The board under its name with the two seats that raise its numbers, and the one that makes clients.
    fn named<B: BoardName>(self) -> (Board<B, T>, OrderSeat<B>, KeeperSeat<B>, Roster<B>)
        requires board { self.board ≡ B.board }
        requires opening { self.opening ≡ B.opening }
        ensures order { result.1 ≡ record { history = []; accepted = self.opening; base = self.opening } }
        ensures keeper { result.2 ≡ record { history = []; accepted = self.opening; durable = self.opening; base = self.opening } }
        ensures roster { result.3 ≡ record { made = 0; calls = [] } }
    {
        let BlankBoard { table, mut seat } = self;
        let order = table.shared.split_seat::<GiveOrder>(&mut seat);
        let keeper = table.shared.split_seat::<GiveKeeper>(&mut seat);
        (
            Board {
                table,
                of: PhantomData,
            },
            OrderSeat {
                seat: order,
                of: PhantomData,
            },
            KeeperSeat {
                seat: keeper,
                of: PhantomData,
            },
            Roster {
                seat,
                line: 0,
                of: PhantomData,
            },
        )
    }
}
