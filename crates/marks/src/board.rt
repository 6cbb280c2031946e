ghost use Rattle.std.specs.Prelude.{ℕ, true, ◌≡◌, ◌+◌, ◌<◌, ◌≤◌, ◌^◌, ◌++◌, ◌∷◌, [], max, nat_le, if◌then◌else◌, length, replicate, Some, None, IfOk};
ghost use mathlib.Core.List.{IsPrefix};
ghost use Rattle.image_model.specs.Change.{change_of};
ghost use Rattle.export_model.specs.Answers.{MayAnswer};
ghost use Rattle.export_model.specs.OneLog.{IsOneLog};
ghost use Rattle.export_model.specs.declared.connection.Connection.TheVariants as Connection;
ghost use Rattle.marks.specs.Client.{HasAsked, HasFlushed, accepting, answering, flushing, new_client, sending};
ghost use Rattle.marks.specs.Known.{known, knowing, new_pass};

use crate::name::{BoardName, NoLog, Trust};
use crate::rule::Law;
use crate::said::Said;
use crate::seats::{KeeperSeat, OrderSeat, Pass, Roster, Told};
use crate::view::View;
use atomic_table::Table;
use checkpoint::Keeper;
use disk_model::Disk;
use image_model::Command;
use nbd_wire::{Answer, Request};
use std::alloc::{AllocError, Global};
use std::marker::PhantomData;

/// The words of a board: the two numbers, and those after them, which are always 0. A step that changes no number is an exchange on one
/// of these. Each of the first 32 clients has its own, with 128 bytes from one to the next, so that no two of them wait for the same
/// piece of a cache; the next ones share these.
pub(crate) const WORDS: usize = 528;

/// Two watermarks that only grow: the number of the last command accepted, and of the last one durable, which is no greater. In the
/// proofs alone it also has the history, the list of all commands accepted.
///
/// No call waits, takes a lock or takes memory. Each is a few loads of a word; a number is raised by one atomic instruction.
#[derive(Drop)]
pub struct Board<B: BoardName, T: Trust = NoLog> {
    pub(crate) table: Table<Said, View, u64, Law<T>, Global>,
    pub(crate) of: PhantomData<B>,
    ghost named: { table.shared.table_id ≡ B.board },
    ghost word_count: { table.shared.table_id.words ≡ 528 },
    ghost no_slots: { table.shared.table_id.slots ≡ 0 },
}

impl<B: BoardName, T: Trust> Board<B, T> {
    /// The accepted number. The pass knows it from then on, with the history up to there.
    pub fn look_accepted(&self, pass: &mut Pass<B>) -> u64
        ensures known { known pass.old ≤ result }
        ensures seen { IsPrefix pass.old.history pass.new.history }
        ensures number { result ≡ B.opening + length pass.new.history }
        ensures pass { pass.new ≡ record pass.old { history = pass.new.history; accepted = result } }
    {
        self.see_accepted(&mut pass.seat)
    }

    /// The durable number. What is durable was accepted.
    pub fn look_durable(&self, pass: &mut Pass<B>) -> u64
        ensures known { pass.old.durable ≤ result }
        ensures seen { IsPrefix pass.old.history pass.new.history }
        ensures number { max pass.old.accepted result ≡ B.opening + length pass.new.history }
        ensures pass { pass.new ≡ record pass.old { history = pass.new.history; accepted = max pass.old.accepted result; durable = result } }
    {
        self.see_durable(&mut pass.seat)
    }

    /// What the pass knows once it has looked at the accepted number, for another pass to learn.
    pub fn tell(&self, pass: &mut Pass<B>) -> Told<B>
        ensures told { result ≡ record { history = pass.new.history; accepted = pass.new.accepted; durable = pass.new.durable } }
        ensures known { known pass.old ≤ pass.new.accepted }
        ensures seen { IsPrefix pass.old.history pass.new.history }
        ensures number { pass.new.accepted ≡ B.opening + length pass.new.history }
        ensures pass { pass.new ≡ record pass.old { history = pass.new.history; accepted = pass.new.accepted } }
    {
        self.look_accepted(pass);
        let seat = self.cut(&mut pass.seat);
        Told {
            seat,
            of: PhantomData,
        }
    }

    /// The pass learns what it is told: of each number it then knows the greater value, with the history up to there.
    pub fn learn(&self, pass: &mut Pass<B>, told: Told<B>)
        ensures seen { IsPrefix pass.old.history pass.new.history }
        ensures told { IsPrefix told.history pass.new.history }
        ensures number { pass.new.accepted ≡ B.opening + length pass.new.history }
        ensures pass { pass.new ≡ record pass.old { history = pass.new.history; accepted = max pass.old.accepted told.accepted; durable = max pass.old.durable told.durable } }
    {
        let Told { seat, of: _ } = told;
        self.hear(&mut pass.seat, seat);
        self.take_in(&mut pass.seat);
    }

    /// The order shows its number and the whole history to a pass. What the pass knew is a prefix of it.
    pub fn show_accepted(&self, order: &mut OrderSeat<B>, pass: &mut Pass<B>) -> u64
        ensures number { result ≡ order.old.accepted }
        ensures place { result ≡ B.opening + length order.old.history }
        ensures same { order.new ≡ order.old }
        ensures known { known pass.old ≤ result }
        ensures seen { IsPrefix pass.old.history order.old.history }
        ensures pass { pass.new ≡ record pass.old { history = order.old.history; accepted = result } }
    {
        let shown = self.lend(&mut order.seat, &mut pass.seat);
        self.give_back(&mut pass.seat, &mut order.seat);
        shown
    }

    /// The order shows its number and the whole history to a client that has sent a FLUSH. The FLUSH then waits for that number, or is done
    /// in a mode in which none waits. What the client's pass knew is a prefix of the history.
    pub fn await_accepted(&self, order: &mut OrderSeat<B>, pass: &mut Pass<B>) -> u64
        requires asked { T.logs → pass.old.client.speaks ≡ true → HasFlushed pass.old.client }
        ensures number { result ≡ order.old.accepted }
        ensures place { result ≡ B.opening + length order.old.history }
        ensures same { order.new ≡ order.old }
        ensures known { known pass.old ≤ result }
        ensures seen { IsPrefix pass.old.history order.old.history }
        ensures pass { pass.new
            ≡ record pass.old { history = order.old.history; accepted = result; client = flushing T.mode result pass.old.client } }
    {
        let awaited = self.lend(&mut order.seat, &mut pass.seat);
        self.await_all(&mut pass.seat);
        self.give_back(&mut pass.seat, &mut order.seat);
        awaited
    }

    /// The order accepts a command for a pass under the next number, and raises the accepted number to it. The command is then the last
    /// of the history. If there is a log, the pass is of a client that has asked for the command, and then waits for the number or is
    /// done. The command comes back, because only proofs keep it.
    pub fn raise_accepted(
        &self,
        order: &mut OrderSeat<B>,
        pass: &mut Pass<B>,
        command: Command,
    ) -> (u64, Command)
        requires room { order.old.accepted + 1 < 2 ^ 64 }
        requires asked { T.logs → HasAsked T.trusted T.image order.old.history (change_of command) pass.old.client }
        ensures same { result.1 ≡ command }
        ensures number { result.0 ≡ order.old.accepted + 1 }
        ensures place { result.0 ≡ B.opening + length order.old.history + 1 }
        ensures order { order.new ≡ record order.old { history = order.old.history ++ change_of command ∷ []; accepted = result.0 } }
        ensures known { known pass.old < result.0 }
        ensures seen { IsPrefix pass.old.history order.old.history }
        ensures pass { pass.new
            ≡ record pass.old {
              history = order.new.history;
              accepted = result.0;
              own = record { count = pass.old.own.count + 1; last = Some (record { number = result.0; change = change_of command }) };
              client = accepting T.mode result.0 pass.old.client;
            } }
    {
        let last = self.lend(&mut order.seat, &mut pass.seat);
        let command = self.raise(&mut pass.seat, last, command);
        self.give_back(&mut pass.seat, &mut order.seat);
        (last + 1, command)
    }

    /// A client sends a request, which comes back. That is the log's last event, and its pass then knows all that was accepted.
    pub fn begin(&self, pass: &mut Pass<B>, request: Request) -> Request
        requires speaks { pass.old.client.speaks ≡ true }
        requires idle { pass.old.client.state ≡ Connection.Idle }
        ensures same { result ≡ request }
        ensures known { known pass.old ≤ pass.new.accepted }
        ensures seen { IsPrefix pass.old.history pass.new.history }
        ensures number { pass.new.accepted ≡ B.opening + length pass.new.history }
        ensures pass { pass.new ≡ record pass.old { history = pass.new.history; accepted = pass.new.accepted; client = sending pass.old.client request } }
    {
        self.send(&mut pass.seat, pass.line, request)
    }

    /// A client gets an answer that it may be given, and the answer comes back. That is the log's last event.
    pub fn answer(&self, pass: &mut Pass<B>, outcome: Answer) -> Answer
        requires speaks { pass.old.client.speaks ≡ true }
        requires may { T.logs → MayAnswer T.trusted T.image pass.old.durable pass.old.history pass.old.client.state outcome }
        ensures same { result ≡ outcome }
        ensures pass { pass.new ≡ record pass.old { client = answering pass.old.client outcome } }
    {
        self.reply(&mut pass.seat, pass.line, outcome)
    }

    /// Makes a pass for a new client, which has sent nothing. The pass knows the number with which the board opened.
    pub fn enroll(&self, roster: &mut Roster<B>) -> Pass<B>
        ensures roster { roster.new ≡ record roster.old { made = roster.old.made + 1 } }
        ensures pass { result ≡ record (new_pass B.opening) { client = new_client roster.old.made } }
    {
        let seat = self.make(&mut roster.seat);
        let line = roster.line;
        roster.line = line.wrapping_add(1);
        Pass {
            seat,
            line,
            of: PhantomData,
        }
    }

    /// Takes the pass of a client that is gone: the roster keeps what it sent and was answered.
    pub fn gather(&self, roster: &mut Roster<B>, pass: Pass<B>)
        requires speaks { pass.client.speaks ≡ true }
        ensures { roster.new ≡ record roster.old { calls = roster.old.calls ++ record { by = pass.client.by; events = pass.client.mine } ∷ [] } }
    {
        let Pass {
            seat,
            line: _,
            of: _,
        } = pass;
        self.take_client(&mut roster.seat, seat);
    }

    /// The end. If there was a log, it is one log of all that clients sent and were answered, it agrees with the order's history, and
    /// what it covers is durable.
    pub fn close(self, order: OrderSeat<B>, keeper: KeeperSeat<B>, roster: Roster<B>)
        ensures { T.logs → (durable : ℕ) × (keeper.durable ≡ B.opening + durable) × IsOneLog T.trusted T.mode T.image order.history durable roster }
    {
        let OrderSeat {
            seat: raises,
            of: _,
        } = order;
        let KeeperSeat {
            seat: stores,
            of: _,
        } = keeper;
        let Roster {
            mut seat,
            line: _,
            of: _,
        } = roster;
        self.take_order(&mut seat, raises);
        self.take_keeper(&mut seat, stores);
        let Board { table, of: _ } = self;
        let closed = table.close_with(seat);
        closed.free();
    }

    /// The order tells the keeper's seat all that was accepted so far. What that seat knew is a prefix of it.
    pub fn brief(&self, order: &mut OrderSeat<B>, keeper: &mut KeeperSeat<B>)
        ensures same { order.new ≡ order.old }
        ensures seen { IsPrefix keeper.old.history order.old.history }
        ensures known { keeper.old.accepted ≤ order.old.accepted }
        ensures base { order.old.base ≤ keeper.old.base }
        ensures keeper { keeper.new ≡ record keeper.old { history = order.old.history; accepted = order.old.accepted } }
    {
        self.hear_out(&mut order.seat, &mut keeper.seat);
        let told = self.cut(&mut order.seat);
        self.hear(&mut keeper.seat, told);
        self.take_in(&mut keeper.seat);
    }

    /// The history as it is, to be told to the keeper's seat.
    pub fn note(&self, order: &mut OrderSeat<B>) -> Told<B>
        ensures same { order.new ≡ order.old }
        ensures told { (result.history ≡ order.old.history) × (result.accepted ≡ order.old.accepted) }
    {
        let seat = self.cut(&mut order.seat);
        Told {
            seat,
            of: PhantomData,
        }
    }

    /// The order compares what was told with the history: it is a prefix.
    pub fn compare(&self, order: &mut OrderSeat<B>, told: Told<B>)
        ensures same { order.new ≡ order.old }
        ensures told { IsPrefix told.history order.old.history }
    {
        let Told { seat, of: _ } = told;
        self.hear(&mut order.seat, seat);
        self.see_accepted(&mut order.seat);
    }

    /// The keeper's seat learns what it is told of the history. Of the durable number it was told no more than it has raised.
    pub fn inform(&self, keeper: &mut KeeperSeat<B>, told: Told<B>)
        ensures seen { IsPrefix keeper.old.history keeper.new.history }
        ensures told { IsPrefix told.history keeper.new.history }
        ensures durable { told.durable ≤ keeper.old.durable }
        ensures number { keeper.new.accepted ≡ B.opening + length keeper.new.history }
        ensures keeper { keeper.new ≡ record keeper.old { history = keeper.new.history; accepted = max keeper.old.accepted told.accepted } }
    {
        let Told { seat, of: _ } = told;
        self.hear(&mut keeper.seat, seat);
        self.take_in(&mut keeper.seat);
    }

    /// The order learns the base.
    pub fn brief_base(&self, order: &mut OrderSeat<B>, keeper: &mut KeeperSeat<B>)
        ensures order { order.new ≡ record order.old { base = max order.old.base keeper.old.base } }
        ensures same { keeper.new ≡ keeper.old }
    {
        let told = self.cut(&mut keeper.seat);
        self.learn_base(&mut order.seat, told);
    }

    /// The base is raised.
    pub fn raise_base(&self, keeper: &mut KeeperSeat<B>, base: u64)
        requires { keeper.old.base ≤ base }
        ensures { keeper.new ≡ record keeper.old { base = base } }
    {
        self.lift_base(&mut keeper.seat, base);
    }

    /// The durable number is raised to the keeper's count, the number of the last command stored, if the seat sees that the accepted
    /// number has reached it.
    pub fn raise_durable<D: Disk>(&self, seat: &mut KeeperSeat<B>, keeper: &Keeper<D>)
        ensures looked { seat.old.accepted ≤ seat.new.accepted }
        ensures seen { IsPrefix seat.old.history seat.new.history }
        ensures number { seat.new.accepted ≡ B.opening + length seat.new.history }
        ensures durable { seat.new.durable
            ≡ (if nat_le keeper.now.count seat.new.accepted then max seat.old.durable keeper.now.count else seat.old.durable) }
        ensures base { seat.new.base ≡ seat.old.base }
    {
        let accepted = self.see_accepted(&mut seat.seat);
        let count = keeper.count();
        if count <= accepted {
            self.lift(&mut seat.seat, count);
        }
    }

    // `count` passes that know what the keeper's seat knows.
    pub(crate) fn new_passes(
        &self,
        alloc: Global,
        keeper: &mut KeeperSeat<B>,
        count: usize,
    ) -> Result<Vec<Pass<B>>, AllocError>
        requires { keeper.old.durable ≤ keeper.old.accepted }
        ensures same { keeper.new ≡ keeper.old }
        ensures passes { IfOk result (λ passes. passes.items ≡ replicate count (knowing keeper.old)) }
    {
        let mut passes = Vec::with_capacity(alloc, count)?;
        for _ in 0..count {
            passes.push(self.new_pass(keeper))?;
        }
        Ok(passes)
    }

    // A pass that knows what the keeper's seat knows.
    fn new_pass(&self, keeper: &mut KeeperSeat<B>) -> Pass<B>
        requires { keeper.old.durable ≤ keeper.old.accepted }
        ensures same { keeper.new ≡ keeper.old }
        ensures pass { result ≡ knowing keeper.old }
    {
        let seat = self.cut(&mut keeper.seat);
        Pass {
            seat,
            line: 0,
            of: PhantomData,
        }
    }
}
