use export_model::{Connection, Event};
use image_model::Command;
use std::collections::LinkedList;
use std::marker::Model;

/// The change that a command makes. It stands in proofs alone: no value of it is made.
pub struct Noted {
    command: Command,
}

impl Model for Noted {
    ghost use Rattle.image_model.specs.Change.{Change, change_of};

    ghost Value = { Change };

    ghost view = { λ noted. change_of noted.command };

    ghost invariant = { λ noted. Unit {0} };
}

/// A number, and the command that was accepted under it.
pub struct Own {
    pub number: u64,
    pub command: Command,
}

/// A client of the board: its number, whether the log has it, what it has sent and was answered, and what it is at.
pub struct Client {
    pub by: u64,
    pub speaks: bool,
    pub mine: LinkedList<Event>,
    pub state: Connection,
}

/// What a client that is gone sent and was answered.
pub struct Transcript {
    pub by: u64,
    pub events: LinkedList<Event>,
}

/// What a seat knows. It stands in proofs alone: no value of it is made.
pub struct View {
    /// Whether the seat raises the accepted number, whether it raises the durable one and the base, and whether it makes clients.
    pub raises_accepted: bool,
    pub raises_durable: bool,
    pub makes: bool,
    /// Whether the seat was spent.
    pub spent: bool,
    /// The number with which the board opened: the first command has the next one.
    pub opening: u64,
    /// The beginning of the history that it knows.
    pub seen: LinkedList<Noted>,
    /// The greatest durable number and the greatest base that it knows.
    pub durable: u64,
    pub base: u64,
    /// What it was last told of all three, apart from what it knows itself.
    pub told: LinkedList<Noted>,
    pub told_durable: u64,
    pub told_base: u64,
    /// How many commands were accepted for it, and its own last number with that command.
    pub commands: u64,
    pub own: Option<Own>,
    /// Whose seat it is.
    pub client: Client,
    /// How many clients it has made, and those that are gone.
    pub made: u64,
    pub gathered: LinkedList<Transcript>,
}
