// The steps of seats on the table. A look and a raise is one atomic instruction; where a seat is cut in two, or takes in
// another one, a word is loaded that nobody reads.
ghost use Rattle.std.specs.Prelude.{◌≡◌, ◌+◌, ◌<◌, ◌≤◌, ◌^◌, ◌++◌, ◌∷◌, [], max, true, false, length, Some};
ghost use mathlib.Core.List.{IsPrefix};
ghost use Rattle.export_model.specs.Answers.{MayAnswer};
ghost use Rattle.export_model.specs.declared.connection.Connection.TheVariants as Connection;
ghost use Rattle.image_model.specs.Change.{change_of};
ghost use Rattle.marks.specs.Client.{HasAsked, HasFlushed, accepting, answering, flushing, sending};
ghost use Rattle.marks.specs.Seats.{IsSeat, last_number};
ghost use Rattle.marks.specs.inner.Steps.{gathering, hearing, learning_base, made_by, making, order_only, taking_in, taking_keeper, taking_order, telling, without_order};
ghost use Rattle.nbd_wire.specs.Request.{Message};

use crate::board::Board;
use crate::name::{BoardName, Trust};
use crate::rule::{
    Await, Gather, GiveOrder, Hear, LearnBase, LookAccepted, LookDurable, MakeClient,
    RaiseAccepted, RaiseBase, RaiseDurable, Reply, Send, TakeIn, TakeKeeper, TakeOrder, Tell,
};
use crate::said::Said;
use crate::view::View;
use atomic_table::Seat;
use export_model::Event;
use image_model::Command;
use nbd_wire::{Answer, Request};

// A word that is always 0, on which the steps of a line are exchanges.
fn quiet_word(line: usize) -> usize
    ensures quiet { 2 ≤ result }
    ensures inside { result < 528 }
{
    16 + 16 * (line % 32)
}

impl<B: BoardName, T: Trust> Board<B, T> {
    // The accepted number, and with it all of the history.
    pub(crate) fn see_accepted(&self, seat: &mut Seat<Said, View>) -> u64
        requires { IsSeat B.board B.opening seat.old }
        ensures number { result ≡ last_number seat.new.me.0 }
        ensures known { last_number seat.old.me.0 ≤ result }
        ensures seen { IsPrefix seat.old.me.0.seen seat.new.me.0.seen }
        ensures told { IsPrefix seat.old.me.0.told seat.new.me.0.seen }
        ensures seat { IsSeat B.board B.opening seat.new × (seat.new.me.0 ≡ record seat.old.me.0 { seen = seat.new.me.0.seen }) }
        ensures as_order { seat.old.me.0.raises_accepted ≡ true → seat.new.me.0 ≡ seat.old.me.0 }
    {
        self.table.shared.load::<LookAccepted>(seat, 0)
    }

    // A seat is lent the order's right, with all of the history: what it knew begins that.
    pub(crate) fn lend(&self, order: &mut Seat<Said, View>, other: &mut Seat<Said, View>) -> u64
        requires order { IsSeat B.board B.opening order.old }
        requires right { order.old.me.0.raises_accepted ≡ true }
        requires other { IsSeat B.board B.opening other.old }
        ensures number { result ≡ last_number order.old.me.0 }
        ensures known { last_number other.old.me.0 ≤ result }
        ensures seen { IsPrefix other.old.me.0.seen order.old.me.0.seen }
        ensures order { IsSeat B.board B.opening order.new × (order.new.me.0 ≡ without_order order.old.me.0) }
        ensures other { IsSeat B.board B.opening other.new × (other.new.me.0 ≡ taking_order other.old.me.0 (order_only order.old.me.0)) }
    {
        let right = self.give_order(order);
        self.take_order(other, right);
        self.see_accepted(other)
    }

    // It gives the right back, with the history.
    pub(crate) fn give_back(&self, other: &mut Seat<Said, View>, order: &mut Seat<Said, View>)
        requires other { IsSeat B.board B.opening other.old }
        requires right { other.old.me.0.raises_accepted ≡ true }
        requires order { IsSeat B.board B.opening order.old }
        ensures other { IsSeat B.board B.opening other.new × (other.new.me.0 ≡ without_order other.old.me.0) }
        ensures order { IsSeat B.board B.opening order.new × (order.new.me.0 ≡ taking_order order.old.me.0 (order_only other.old.me.0)) }
    {
        let right = self.give_order(other);
        self.take_order(order, right);
    }

    // The order is told of what another seat knows, and looks at the accepted number: the history, which it has known as it is,
    // begins with that.
    pub(crate) fn hear_out(&self, order: &mut Seat<Said, View>, other: &mut Seat<Said, View>) -> u64
        requires order { IsSeat B.board B.opening order.old }
        requires right { order.old.me.0.raises_accepted ≡ true }
        requires other { IsSeat B.board B.opening other.old }
        ensures number { result ≡ last_number order.old.me.0 }
        ensures known { last_number other.old.me.0 ≤ result }
        ensures seen { IsPrefix other.old.me.0.seen order.old.me.0.seen }
        ensures order { IsSeat B.board B.opening order.new × (order.new.me.0 ≡ hearing order.old.me.0 other.old.me.0) }
        ensures other { IsSeat B.board B.opening other.new × (other.new.me.0 ≡ other.old.me.0) }
    {
        let told = self.cut(other);
        self.hear(order, told);
        self.see_accepted(order)
    }

    // The durable number, which was accepted.
    pub(crate) fn see_durable(&self, seat: &mut Seat<Said, View>) -> u64
        requires seat { IsSeat B.board B.opening seat.old }
        requires no_order { seat.old.me.0.raises_accepted ≡ false }
        requires no_keeper { seat.old.me.0.raises_durable ≡ false }
        ensures known { seat.old.me.0.durable ≤ result }
        ensures number { last_number seat.new.me.0 ≡ max (last_number seat.old.me.0) result }
        ensures seen { IsPrefix seat.old.me.0.seen seat.new.me.0.seen }
        ensures seat { IsSeat B.board B.opening seat.new
            × (seat.new.me.0 ≡ record seat.old.me.0 { seen = seat.new.me.0.seen; durable = result }) }
    {
        self.table.shared.load::<LookDurable>(seat, 1)
    }

    // What a seat was told it knows from then on.
    pub(crate) fn take_in(&self, seat: &mut Seat<Said, View>)
        requires seat { IsSeat B.board B.opening seat.old }
        requires no_order { seat.old.me.0.raises_accepted ≡ false }
        ensures seen { IsPrefix seat.old.me.0.seen seat.new.me.0.seen }
        ensures told { IsPrefix seat.old.me.0.told seat.new.me.0.seen }
        ensures number { last_number seat.new.me.0 ≡ max (last_number seat.old.me.0) (B.opening + length seat.old.me.0.told) }
        ensures seat { IsSeat B.board B.opening seat.new × (seat.new.me.0 ≡ taking_in seat.old.me.0) }
        ensures as_keeper { seat.old.me.0.raises_durable ≡ true
            → (seat.old.me.0.told_durable ≤ seat.old.me.0.durable) × (seat.old.me.0.told_base ≤ seat.old.me.0.base) }
    {
        self.table.shared.load::<TakeIn>(seat, 0);
    }

    // The command is the history's last, and the accepted number becomes the next one: it is `last`, as the seat with the order's right
    // knows. The command comes back.
    pub(crate) fn raise(&self, seat: &mut Seat<Said, View>, last: u64, command: Command) -> Command
        requires seat { IsSeat B.board B.opening seat.old }
        requires right { seat.old.me.0.raises_accepted ≡ true }
        requires last { last ≡ last_number seat.old.me.0 }
        requires room { last + 1 < 2 ^ 64 }
        requires asked { T.logs → HasAsked T.trusted T.image seat.old.me.0.seen (change_of command) seat.old.me.0.client }
        ensures same { result ≡ command }
        ensures seat { IsSeat B.board B.opening seat.new
            × (seat.new.me.0
            ≡ record seat.old.me.0 {
              seen = seat.old.me.0.seen ++ change_of command ∷ [];
              commands = seat.old.me.0.commands + 1;
              own = Some (record { number = last + 1; command = command });
              client = accepting T.mode (last + 1) seat.old.me.0.client;
            }) }
    {
        let said = Said::Adds(command);
        let table = &self.table.shared;
        table.compare_exchange_with::<RaiseAccepted<T>>(seat, 0, last, last + 1, &said);
        match said {
            Said::Adds(command) => command,
            Said::Speaks(_event) => unreachable!(),
        }
    }

    // The client's request is the log's last event. No number changes. The request comes back.
    pub(crate) fn send(
        &self,
        client: &mut Seat<Said, View>,
        line: usize,
        request: Request,
    ) -> Request
        requires seat { IsSeat B.board B.opening client.old }
        requires speaks { client.old.me.0.client.speaks ≡ true }
        requires idle { client.old.me.0.client.state ≡ Connection.Idle }
        ensures same { result ≡ request }
        ensures known { last_number client.old.me.0 ≤ last_number client.new.me.0 }
        ensures seen { IsPrefix client.old.me.0.seen client.new.me.0.seen }
        ensures seat { IsSeat B.board B.opening client.new
            × (client.new.me.0 ≡ record client.old.me.0 { seen = client.new.me.0.seen; client = sending client.old.me.0.client request }) }
    {
        let said = Said::Speaks(Event::Sent(0, request));
        self.table
            .shared
            .compare_exchange_with::<Send>(client, quiet_word(line), 0, 0, &said);
        match said {
            Said::Speaks(event) => match event {
                Event::Sent(_by, request) => request,
                _other => unreachable!(),
            },
            Said::Adds(_command) => unreachable!(),
        }
    }

    // The answer to the client is the log's last event. No number changes. The answer comes back.
    pub(crate) fn reply(
        &self,
        client: &mut Seat<Said, View>,
        line: usize,
        outcome: Answer,
    ) -> Answer
        requires seat { IsSeat B.board B.opening client.old }
        requires speaks { client.old.me.0.client.speaks ≡ true }
        requires may { T.logs → MayAnswer T.trusted T.image client.old.me.0.durable client.old.me.0.seen client.old.me.0.client.state outcome }
        ensures same { result ≡ outcome }
        ensures seat { IsSeat B.board B.opening client.new
            × (client.new.me.0 ≡ record client.old.me.0 { client = answering client.old.me.0.client outcome }) }
    {
        let said = Said::Speaks(Event::Answered(0, outcome));
        self.table
            .shared
            .compare_exchange_with::<Reply>(client, quiet_word(line), 0, 0, &said);
        match said {
            Said::Speaks(event) => match event {
                Event::Answered(_by, outcome) => outcome,
                _other => unreachable!(),
            },
            Said::Adds(_command) => unreachable!(),
        }
    }

    // A client's FLUSH waits for the accepted number, which the seat with the order's right knows.
    pub(crate) fn await_all(&self, client: &mut Seat<Said, View>)
        requires seat { IsSeat B.board B.opening client.old }
        requires right { client.old.me.0.raises_accepted ≡ true }
        requires asked { T.logs → client.old.me.0.client.speaks ≡ true → HasFlushed client.old.me.0.client }
        ensures { IsSeat B.board B.opening client.new
            × (client.new.me.0 ≡ record client.old.me.0 { client = flushing T.mode (last_number client.old.me.0) client.old.me.0.client }) }
    {
        self.table.shared.load::<Await<T>>(client, 0);
    }

    // The durable number becomes the count, where it is smaller.
    pub(crate) fn lift(&self, keeper: &mut Seat<Said, View>, count: u64)
        requires seat { IsSeat B.board B.opening keeper.old }
        requires right { keeper.old.me.0.raises_durable ≡ true }
        requires accepted { count ≤ last_number keeper.old.me.0 }
        ensures { IsSeat B.board B.opening keeper.new
            × (keeper.new.me.0 ≡ record keeper.old.me.0 { durable = max keeper.old.me.0.durable count }) }
    {
        self.table
            .shared
            .fetch_max::<RaiseDurable>(keeper, 1, count);
    }

    // The base becomes this number, which stands in proofs alone: the word stays as it is.
    pub(crate) fn lift_base(&self, keeper: &mut Seat<Said, View>, base: u64)
        requires seat { IsSeat B.board B.opening keeper.old }
        requires right { keeper.old.me.0.raises_durable ≡ true }
        requires more { keeper.old.me.0.base ≤ base }
        ensures { IsSeat B.board B.opening keeper.new × (keeper.new.me.0 ≡ record keeper.old.me.0 { base = base }) }
    {
        self.table
            .shared
            .compare_exchange::<RaiseBase>(keeper, 1, base, base);
    }

    // A new seat that knows what this one does.
    pub(crate) fn cut(&self, seat: &mut Seat<Said, View>) -> Seat<Said, View>
        requires { IsSeat B.board B.opening seat.old }
        ensures seat { IsSeat B.board B.opening seat.new × (seat.new.me.0 ≡ seat.old.me.0) }
        ensures new { IsSeat B.board B.opening result × (result.me.0 ≡ telling seat.old.me.0) }
    {
        self.table.shared.split_seat::<Tell>(seat)
    }

    // A seat is told of what another one knows.
    pub(crate) fn hear(&self, seat: &mut Seat<Said, View>, other: Seat<Said, View>)
        requires { IsSeat B.board B.opening seat.old × IsSeat B.board B.opening other }
        ensures { IsSeat B.board B.opening seat.new × (seat.new.me.0 ≡ hearing seat.old.me.0 other.me.0) }
    {
        self.table.shared.join_seat::<Hear>(seat, other);
    }

    // The right to raise the accepted number goes to a new seat, with the history.
    pub(crate) fn give_order(&self, seat: &mut Seat<Said, View>) -> Seat<Said, View>
        requires seat { IsSeat B.board B.opening seat.old }
        requires right { seat.old.me.0.raises_accepted ≡ true }
        ensures seat { IsSeat B.board B.opening seat.new × (seat.new.me.0 ≡ without_order seat.old.me.0) }
        ensures new { IsSeat B.board B.opening result × (result.me.0 ≡ order_only seat.old.me.0) }
    {
        self.table.shared.split_seat::<GiveOrder>(seat)
    }

    // A seat takes that right.
    pub(crate) fn take_order(&self, seat: &mut Seat<Said, View>, order: Seat<Said, View>)
        requires seats { IsSeat B.board B.opening seat.old × IsSeat B.board B.opening order }
        requires right { order.me.0.raises_accepted ≡ true }
        ensures { IsSeat B.board B.opening seat.new × (seat.new.me.0 ≡ taking_order seat.old.me.0 order.me.0) }
    {
        self.table.shared.join_seat::<TakeOrder>(seat, order);
    }

    // A seat takes the right to raise the durable number and the base.
    pub(crate) fn take_keeper(&self, seat: &mut Seat<Said, View>, keeper: Seat<Said, View>)
        requires seats { IsSeat B.board B.opening seat.old × IsSeat B.board B.opening keeper }
        requires right { keeper.me.0.raises_durable ≡ true }
        ensures { IsSeat B.board B.opening seat.new × (seat.new.me.0 ≡ taking_keeper seat.old.me.0 keeper.me.0) }
    {
        self.table.shared.join_seat::<TakeKeeper>(seat, keeper);
    }

    // One client more is made, and has a new seat.
    pub(crate) fn make(&self, roster: &mut Seat<Said, View>) -> Seat<Said, View>
        requires seat { IsSeat B.board B.opening roster.old }
        requires right { roster.old.me.0.makes ≡ true }
        ensures seat { IsSeat B.board B.opening roster.new × (roster.new.me.0 ≡ making roster.old.me.0) }
        ensures new { IsSeat B.board B.opening result × (result.me.0 ≡ made_by roster.old.me.0) }
    {
        self.table.shared.split_seat::<MakeClient>(roster)
    }

    // A client is gone.
    pub(crate) fn take_client(&self, roster: &mut Seat<Said, View>, client: Seat<Said, View>)
        requires seats { IsSeat B.board B.opening roster.old × IsSeat B.board B.opening client }
        requires silent { roster.old.me.0.client.speaks ≡ false }
        requires speaks { client.me.0.client.speaks ≡ true }
        ensures { IsSeat B.board B.opening roster.new × (roster.new.me.0 ≡ gathering roster.old.me.0 client.me.0) }
    {
        self.table.shared.join_seat::<Gather>(roster, client);
    }

    // A seat that doesn't raise the base learns the one that another seat knows.
    pub(crate) fn learn_base(&self, seat: &mut Seat<Said, View>, other: Seat<Said, View>)
        requires seats { IsSeat B.board B.opening seat.old × IsSeat B.board B.opening other }
        requires no_keeper { seat.old.me.0.raises_durable ≡ false }
        ensures { IsSeat B.board B.opening seat.new × (seat.new.me.0 ≡ learning_base seat.old.me.0 other.me.0) }
    {
        self.table.shared.join_seat::<LearnBase>(seat, other);
    }
}
