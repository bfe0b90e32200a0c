//! A subscription that follows a viewer, while the root's keeper goes on.
//! Definitions: specs/Subscribers.antt. Tests: view_tests/src/shared/following.rt.
ghost use Rattle.std.specs.Prelude.{◌≡◌, ◌⊎◌, IfOk, IfErr};
ghost use Rattle.wm_share.specs.PublishedLists.{Begins, disconnected, history};
ghost use Rattle.wm_subs.specs.Subscribers.{due_answer};

use super::Subscription;
use std::alloc::Global;
use wm_disk::Refusal;
use wm_share::{Naming, Viewer};
use wm_since::{Answer, Test};

impl<T: Test> Subscription<T> {
    /// What is to be told on a published list that begins with all that the viewer had seen or learnt, and
    /// that it has then seen: `None` if the view isn't ready after that list, or the answer since the last
    /// clock is neither the first nor fresh and lists no file. `NoPlace` if the keeper is gone, and `NoMemory`.
    /// Whoever tells it takes note of that with `told`.
    pub fn due_of<J: Naming>(
        &self,
        alloc: Global,
        viewer: &mut Viewer<J>,
    ) -> Result<Option<Answer>, Refusal>
        ensures seen { Begins viewer.old.list viewer.new.list }
        ensures due { IfOk result (λ o. o ≡ due_answer (T.passes self.now.query.test) (history viewer.new.list) self.now) }
        ensures refused { IfErr result (λ e. (e ≡ Refusal.NoMemory) ⊎ ((e ≡ Refusal.NoPlace) × (viewer.new ≡ disconnected viewer.old))) }
    {
        let answer = match viewer.answer(alloc, &self.query) {
            Ok(answer) => answer,
            Err(Refusal::NotReady) => return Ok(None),
            Err(refusal) => return Err(refusal),
        };
        if self.is_told && !answer.fresh && answer.files.as_slice().is_empty() {
            return Ok(None);
        }
        Ok(Some(answer))
    }
}
