use crate::name::Trust;
use crate::said::Said;
use crate::view::View;
use atomic_table::{Join, Play, Split, TableRule};
use std::marker::PhantomData;

/// The rule of a board that opened with a number.
pub(crate) struct Law<T: Trust> {
    of: PhantomData<T>,
}

impl<T: Trust> TableRule<Said, View, u64> for Law<T> {
    ghost use Rattle.marks.specs.Rule.{IsBoard, first_view};

    ghost holds = { λ _. IsBoard T.logs T.trusted T.mode T.image };

    ghost first = { first_view };
}

/// A look at the accepted number.
pub(crate) struct LookAccepted;

impl Play<Said, View> for LookAccepted {
    ghost use Rattle.marks.specs.inner.Steps.{LooksAccepted};

    ghost then = { LooksAccepted };
}

/// A look at the durable number.
pub(crate) struct LookDurable;

impl Play<Said, View> for LookDurable {
    ghost use Rattle.marks.specs.inner.Steps.{LooksDurable};

    ghost then = { LooksDurable };
}

/// A seat takes in what it was told.
pub(crate) struct TakeIn;

impl Play<Said, View> for TakeIn {
    ghost use Rattle.marks.specs.inner.Steps.{TakesIn};

    ghost then = { TakesIn };
}

/// A command is added to the history, and the accepted number raised.
pub(crate) struct RaiseAccepted<T: Trust> {
    of: PhantomData<T>,
}

impl<T: Trust> Play<Said, View> for RaiseAccepted<T> {
    ghost use Rattle.marks.specs.inner.Steps.{RaisesAccepted};

    ghost then = { RaisesAccepted T.mode };
}

/// The durable number is raised.
pub(crate) struct RaiseDurable;

impl Play<Said, View> for RaiseDurable {
    ghost use Rattle.marks.specs.inner.Steps.{RaisesDurable};

    ghost then = { RaisesDurable };
}

/// The base is raised, which stands in proofs alone.
pub(crate) struct RaiseBase;

impl Play<Said, View> for RaiseBase {
    ghost use Rattle.marks.specs.inner.Steps.{RaisesBase};

    ghost then = { RaisesBase };
}

/// The right to raise the durable number and the base goes to a new seat.
pub(crate) struct GiveKeeper;

impl Split<View> for GiveKeeper {
    ghost use Rattle.marks.specs.inner.Steps.{without_keeper, keeper_only};

    ghost left = { without_keeper };

    ghost right = { keeper_only };
}

/// A new seat knows the same, without a right.
pub(crate) struct Tell;

impl Split<View> for Tell {
    ghost use Rattle.marks.specs.inner.Steps.{telling};

    ghost left = { λ view. view };

    ghost right = { telling };
}

/// A seat is told of what another one knows.
pub(crate) struct Hear;

impl Join<View> for Hear {
    ghost use Rattle.marks.specs.inner.Steps.{hearing, nothing};

    ghost both = { hearing };

    ghost spent = { nothing };
}

/// The right to raise the accepted number goes to a new seat, with the history.
pub(crate) struct GiveOrder;

impl Split<View> for GiveOrder {
    ghost use Rattle.marks.specs.inner.Steps.{order_only, without_order};

    ghost left = { without_order };

    ghost right = { order_only };
}

/// A seat takes that right.
pub(crate) struct TakeOrder;

impl Join<View> for TakeOrder {
    ghost use Rattle.marks.specs.inner.Steps.{nothing, taking_order};

    ghost both = { taking_order };

    ghost spent = { nothing };
}

/// A seat that doesn't raise the base learns the one that another seat knows.
pub(crate) struct LearnBase;

impl Join<View> for LearnBase {
    ghost use Rattle.marks.specs.inner.Steps.{learning_base, nothing};

    ghost both = { learning_base };

    ghost spent = { nothing };
}

/// A seat takes the right to raise the durable number and the base.
pub(crate) struct TakeKeeper;

impl Join<View> for TakeKeeper {
    ghost use Rattle.marks.specs.inner.Steps.{nothing, taking_keeper};

    ghost both = { taking_keeper };

    ghost spent = { nothing };
}

/// A client sends a request.
pub(crate) struct Send;

impl Play<Said, View> for Send {
    ghost use Rattle.marks.specs.inner.Steps.{Sends};

    ghost then = { Sends };
}

/// A client is answered.
pub(crate) struct Reply;

impl Play<Said, View> for Reply {
    ghost use Rattle.marks.specs.inner.Steps.{Replies};

    ghost then = { Replies };
}

/// A client's FLUSH waits for the accepted number.
pub(crate) struct Await<T: Trust> {
    of: PhantomData<T>,
}

impl<T: Trust> Play<Said, View> for Await<T> {
    ghost use Rattle.marks.specs.inner.Steps.{Awaits};

    ghost then = { Awaits T.mode };
}

/// One client more is made.
pub(crate) struct MakeClient;

impl Split<View> for MakeClient {
    ghost use Rattle.marks.specs.inner.Steps.{made_by, making};

    ghost left = { making };

    ghost right = { made_by };
}

/// A client is gone.
pub(crate) struct Gather;

impl Join<View> for Gather {
    ghost use Rattle.marks.specs.inner.Steps.{gathering, nothing};

    ghost both = { gathering };

    ghost spent = { nothing };
}
