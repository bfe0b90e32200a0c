//! What viewers read: a view, and the list of operations that made it.
//! Definitions: specs/PublishedLists.antt. Tests: view_tests/src/shared/shares.rt.
ghost use Rattle.std.specs.Prelude.{◌≡◌, ◌≢◌, ◌⊎◌, ◌∷◌, [], true, false, IfOk, IfErr};
ghost use Rattle.wm_view.specs.Histories.{is_ready};
ghost use Rattle.wm_view.specs.Summaries.{summary};
ghost use Rattle.wm_view.specs.Views.{Performs};
ghost use Rattle.wm_since.specs.Answers.{answer_to, question};
ghost use Rattle.wm_share.specs.PublishedLists.{Begins, IsLonger, PublishedList, history, with_operations};

use crate::book::Naming;
use crate::front::Front;
use crate::keeper::Listed;
use crate::step::Step;
use crate::told::Told;
use left_right::Absorb;
use std::alloc::{AllocError, Global};
use std::marker::Model;
use wm_clock::ClockId;
use wm_disk::Refusal;
use wm_since::{Answer, Query, Test, answer};
use wm_view::{Op, View};

/// A view, with the list of operations that made it. Contracts see the list.
#[derive(Drop)]
pub struct Shown<J: Naming> {
    alloc: Global,
    view: View,
    last: Option<Refusal>,
    front: Front<J>,
}

impl<J: Naming> Model for Shown<J> {
    ghost use Rattle.std.specs.Prelude.{◌≡◌};
    ghost use Rattle.wm_view.specs.Summaries.{summary};
    ghost use Rattle.wm_share.specs.PublishedLists.{PublishedList, history, outcome};

    ghost Value = { PublishedList };

    ghost view = { λ s. s.front };

    ghost invariant = { λ s. (s.view ≡ summary (history s.front)) × (s.last ≡ outcome s.front) };
}

impl<J: Naming> Shown<J> {
    /// The copy of a view that nothing was done to.
    pub(crate) fn new(alloc: Global, front: Front<J>) -> Shown<J>
        requires { front.operations ≡ [] }
        ensures { result ≡ front }
    {
        let share = front.share();
        Shown {
            alloc,
            view: View::new(alloc, share.incarnation, share.root),
            last: None,
            front,
        }
    }

    /// Answers a caller who has seen `front`, which has then seen this list. `NoPlace` if this list doesn't begin
    /// with it: it is of another share, or shorter.
    pub(crate) fn answer_after<T: Test>(
        &self,
        alloc: Global,
        front: &mut Front<J>,
        query: &Query<T>,
    ) -> Result<Answer, Refusal>
        ensures seen { Begins front.old front.new }
        ensures ready { IfOk result (λ _. is_ready (history front.new) ≡ true) }
        ensures answered { IfOk result (λ a. (front.new ≡ self.now) × (a ≡ answer_to (T.passes query.now.test) (history front.new) (question query.now))) }
        ensures refused { IfErr result (λ e. (e ≡ Refusal.NoMemory) ⊎ ((e ≡ Refusal.NoPlace) × (front.new ≡ front.old)) ⊎ ((e ≡ Refusal.NotReady) × (front.new ≡ self.now) × (is_ready (history front.new) ≡ false))) }
        ensures no_place { IfErr result (λ e. e ≡ Refusal.NoPlace → (front.old.share ≢ self.now.share) ⊎ IsLonger self.now front.old) }
    {
        if !front.begins(&self.front) {
            return Err(Refusal::NoPlace);
        }
        *front = self.front.again();
        answer(alloc, &self.view, query)
    }
}

impl<J: Naming> Absorb<Step<J>> for Shown<J> {
    ghost use Rattle.std.specs.Prelude.{[], ◌∷◌};
    ghost use Rattle.wm_share.specs.PublishedLists.{with_operations};

    type State = Front<J>;

    ghost state = { λ s. s };

    ghost applied = { λ list op. with_operations list (op ∷ []) };

    fn absorb_first(&mut self, step: &Step<J>, _other: &Shown<J>) -> Result<(), AllocError> {
        let (before, after) = (self.front.len(), step.front.len());
        if after <= before || after - before != 1 {
            return Err(AllocError);
        }
        if !self.front.begins(&step.front) {
            return Err(AllocError);
        }
        self.last = perform(self.alloc, &mut self.view, &step.entry.op)?;
        self.front = step.front.again();
        Ok(())
    }
}

impl<J: Naming> Listed<J> for Shown<J> {
    ghost use Rattle.std.specs.Prelude.{refl};

    ghost adds = { λ list op. refl };

    fn told(&self) -> Told<J>
        ensures { result ≡ self.now }
    {
        let clock = if self.view.ready() {
            Some(ClockId {
                incarnation: self.view.incarnation(),
                root: self.view.root(),
                tick: self.view.tick(),
            })
        } else {
            None
        };
        Told {
            front: self.front.again(),
            clock,
            floor: self.view.floor(),
            last: self.last,
        }
    }
}

/// Performs the operation, and says how it was refused, if it was. At `Err` there was no memory.
fn perform(alloc: Global, view: &mut View, op: &Op) -> Result<Option<Refusal>, AllocError>
    ensures done { IfOk result (λ last. Performs view.old op.now last view.new) }
    ensures no_memory { IfErr result (λ _. view.new ≡ view.old) }
{
    match view.perform(alloc, op) {
        Ok(()) => Ok(None),
        Err(Refusal::NoMemory) => Err(AllocError),
        Err(refusal) => Ok(Some(refusal)),
    }
}
