//! A viewer, which answers from what was published last and never waits.
//! Definitions: specs/PublishedLists.antt. Tests: view_tests/src/shared/shares.rt.
ghost use Rattle.std.specs.Prelude.{◌≡◌, ◌⊎◌, true, false, IfOk, IfErr};
ghost use Rattle.wm_view.specs.Histories.{is_ready};
ghost use Rattle.wm_since.specs.Answers.{answer_to, question};
ghost use Rattle.wm_share.specs.PublishedLists.{Begins, disconnected, history};

use crate::book::Naming;
use crate::front::Front;
use crate::share_id::ShareId;
use crate::shown::Shown;
use crate::told::Told;
use left_right::ReadHandle;
use std::alloc::Global;
use std::marker::Model;
use wm_disk::Refusal;
use wm_since::{Answer, Query, Test};

/// Answers about a root while its keeper changes it. Contracts see the longest list that it has seen or
/// learnt, and whether its last question found the keeper gone. All other lists that it has are beginnings
/// of that one.
#[derive(Drop)]
pub struct Viewer<J: Naming> {
    reader: ReadHandle<Shown<J>>,
    front: Front<J>,
    is_disconnected: bool,
}

impl<J: Naming> Model for Viewer<J> {
    ghost use Rattle.wm_share.specs.PublishedLists.{ViewerState};

    ghost Value = { ViewerState };

    ghost view = { λ v. record { list = v.front; is_disconnected = v.is_disconnected } };
}

impl<J: Naming> Viewer<J> {
    pub(crate) fn new(reader: ReadHandle<Shown<J>>, front: Front<J>) -> Viewer<J>
        ensures { result ≡ record { list = front; is_disconnected = false } }
    {
        Viewer {
            reader,
            front,
            is_disconnected: false,
        }
    }

    /// The share that it views.
    pub fn share(&self) -> ShareId
        ensures { result ≡ self.now.list.share }
    {
        self.front.share()
    }

    /// The answer on a published list that begins with all that this viewer had seen or learnt, and that it
    /// has then seen. `NotReady` if the view isn't ready after that list, `NoPlace` if the keeper is gone: the
    /// viewer is disconnected then, and has seen no more. `NoMemory`.
    pub fn answer<T: Test>(&mut self, alloc: Global, query: &Query<T>) -> Result<Answer, Refusal>
        ensures seen { Begins self.old.list self.new.list }
        ensures ready { IfOk result (λ _. is_ready (history self.new.list) ≡ true) }
        ensures answered { IfOk result (λ a. a ≡ answer_to (T.passes query.now.test) (history self.new.list) (question query.now)) }
        ensures connected { IfOk result (λ _. self.new.is_disconnected ≡ false) }
        ensures refused { IfErr result (λ e. (e ≡ Refusal.NoMemory) ⊎ ((e ≡ Refusal.NoPlace) × (self.new ≡ disconnected self.old)) ⊎ ((e ≡ Refusal.NotReady) × (self.new.is_disconnected ≡ false) × (is_ready (history self.new.list) ≡ false))) }
    {
        let Some(guard) = self.reader.enter() else {
            self.is_disconnected = true;
            return Err(Refusal::NoPlace);
        };
        let shown: &Shown<J> = &guard;
        let answer = shown.answer_after(alloc, &mut self.front, query);
        self.is_disconnected = matches!(answer, Err(Refusal::NoPlace));
        answer
    }

    /// From now on it sees no less than what was told on its share. What was told on another changes nothing.
    pub fn learn(&mut self, told: &Told<J>)
        ensures own { Begins self.old.list self.new.list }
        ensures told { told.now.share ≡ self.old.list.share → Begins told.now self.new.list }
        ensures one { (self.new.list ≡ self.old.list) ⊎ (self.new.list ≡ told.now) }
        ensures connection { self.new.is_disconnected ≡ self.old.is_disconnected }
    {
        if self.front.begins(&told.front) {
            self.front = told.front.again();
        }
    }
}
