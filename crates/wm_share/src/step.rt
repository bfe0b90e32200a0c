//! An operation on its way to the copies of a view.
//! Definitions: specs/PublishedLists.antt. Tests: view_tests/src/shared/shares.rt.
ghost use Rattle.std.specs.Prelude.{◌≡◌};
ghost use Rattle.wm_share.specs.PublishedLists.{EndsWith};

use crate::book::Naming;
use crate::entry::Entry;
use crate::front::Front;
use std::marker::Model;

/// An operation, with the list that ends with it. Contracts see the operation.
#[derive(Drop)]
pub struct Step<J: Naming> {
    pub(crate) entry: Entry,
    pub(crate) front: Front<J>,
}

impl<J: Naming> Model for Step<J> {
    ghost use Rattle.wm_view.specs.declared.op.Op.{Op};
    ghost use Rattle.wm_share.specs.PublishedLists.{EndsWith};

    ghost Value = { Op };

    ghost view = { λ s. s.entry.op };

    ghost invariant = { λ s. EndsWith s.front.operations s.entry.op };
}

impl<J: Naming> Step<J> {
    pub(crate) fn new(entry: Entry, front: Front<J>) -> Step<J>
        requires { EndsWith front.operations entry.op }
        ensures { result ≡ entry.op }
    {
        Step { entry, front }
    }
}
