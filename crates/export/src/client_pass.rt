use marks::{BoardName, Pass};
use std::marker::Model;

/// The pass of a client that submits its requests one after another: in between none is open.
#[derive(Drop)]
pub struct ClientPass<B: BoardName> {
    pub(crate) pass: Pass<B>,
}

impl<B: BoardName> Model for ClientPass<B> {
    ghost use Rattle.export.specs.Clients.{IsIdle};
    ghost use Rattle.marks.specs.Known.{PassState};

    ghost Value = { PassState };

    ghost view = { λ client. client.pass };

    ghost invariant = { λ client. IsIdle client.pass.client };
}
