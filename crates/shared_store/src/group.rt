ghost use Rattle.std.specs.Prelude.{◌≡◌};
ghost use Rattle.shared_store.specs.Parts.{IsSealed};

use crate::name::ImageName;
use journal::Group;
use marks::Told;
use std::marker::Model;

/// A group of commands that stand in the history under their numbers, with what its seal tells of the history. It can't be dropped.
pub struct SealedGroup<B: ImageName> {
    group: Group,
    told: Told<B>,
}

impl<B: ImageName> Model for SealedGroup<B> {
    ghost use Rattle.shared_store.specs.Parts.{IsSealed, SealedState};

    ghost Value = { SealedState };

    ghost view = { λ sealed. record { group = sealed.group; told = sealed.told.history } };

    ghost invariant = { λ sealed. IsSealed B.opening B.image.blocks (record { group = sealed.group; told = sealed.told.history }) };
}

impl<B: ImageName> SealedGroup<B> {
    pub(crate) fn new(group: Group, told: Told<B>) -> SealedGroup<B>
        requires { IsSealed B.opening B.image.blocks (record { group = group; told = told.history }) }
        ensures { result ≡ record { group = group; told = told.history } }
    {
        SealedGroup { group, told }
    }

    pub(crate) fn into_parts(self) -> (Group, Told<B>)
        ensures sealed { IsSealed B.opening B.image.blocks self }
        ensures group { result.0 ≡ self.group }
        ensures told { result.1.history ≡ self.told }
    {
        let SealedGroup { group, told } = self;
        (group, told)
    }

    /// The group, to look at.
    pub fn group(&self) -> &Group
        ensures { result.now ≡ self.now.group }
    {
        &self.group
    }

    /// Discards the group: nobody will store it.
    pub fn discard(self) {
        let SealedGroup { group, told: _ } = self;
        let _parts = group.into_parts();
    }
}
