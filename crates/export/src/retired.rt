use marks::{BoardName, Pass, Roster};
use std::marker::Model;

/// The pass of a client that has left an export: no request is submitted for it any more. It may still learn.
#[derive(Drop)]
pub struct RetiredPass<B: BoardName> {
    pub(crate) pass: Pass<B>,
}

impl<B: BoardName> Model for RetiredPass<B> {
    ghost use Rattle.std.specs.Prelude.{◌≡◌, true};
    ghost use Rattle.marks.specs.Known.{PassState};

    ghost Value = { PassState };

    ghost view = { λ retired. retired.pass };

    ghost invariant = { λ retired. retired.pass.client.speaks ≡ true };
}

/// The last pass of an export, which those of the clients join, and the roster of what they sent and were answered.
#[derive(Drop)]
pub struct LastPass<B: BoardName> {
    pub(crate) pass: Pass<B>,
    pub(crate) roster: Roster<B>,
}

impl<B: BoardName> Model for LastPass<B> {
    ghost use Rattle.export.specs.Clients.{LastState};

    ghost Value = { LastState };

    ghost view = { λ last. record { pass = last.pass; roster = last.roster } };
}
