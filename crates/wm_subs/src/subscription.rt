//! A subscription: a question that is asked again and again, each time since the last answer's
//! clock.
//! Definitions: specs/Subscribers.antt, specs/Folds.antt. Tests: view_tests/src/shared/subscriptions/telling.rt.
ghost use Rattle.std.specs.Prelude.{◌≡◌, IfOk, IfErr};
ghost use Rattle.wm_view.specs.Histories.{History, IsMade};
ghost use Rattle.wm_view.specs.Summaries.{summary};
ghost use Rattle.wm_subs.specs.Subscribers.{due_answer, due_answer_by, new_subscriber, told_up_to};
ghost use Rattle.wm_subs.specs.Folds.{FoldsTold};

use crate::subscription_name::SubscriptionName;
use std::alloc::Global;
use std::marker::Model;
use wm_clock::ClockId;
use wm_disk::Refusal;
use wm_since::{Answer, Query, Since, Test, answer, every_client};
use wm_view::View;

mod following;

/// What a client is told of one root, each time since the clock up to which it was told. Contracts
/// see its name, what it asks next, and whether an answer was told.
#[derive(Drop)]
pub struct Subscription<T> {
    name: SubscriptionName,
    query: Query<T>,
    is_told: bool,
}

impl<T> Model for Subscription<T> {
    ghost use Rattle.wm_subs.specs.Subscribers.{Subscriber};

    ghost Value = { Subscriber T };

    ghost view = { λ s. record { name = s.name; query = s.query; is_told = s.is_told } };
}

impl<T: Test> Subscription<T> {
    /// A subscription that was told nothing yet. Its first answer is since the query's clock or moment;
    /// each later one is since the clock of the one before.
    pub fn new(name: SubscriptionName, query: Query<T>) -> Subscription<T>
        ensures { result ≡ new_subscriber name query }
    {
        Subscription {
            name,
            query,
            is_told: false,
        }
    }

    /// The name under which it was asked for.
    pub fn name(&self) -> &SubscriptionName
        ensures { result.now ≡ self.now.name }
    {
        &self.name
    }

    /// What is to be told of the view: `None` where the view isn't ready, and where the answer
    /// since the last clock is neither the first nor fresh and lists no file. `NoMemory`.
    pub fn due_on(&self, alloc: Global, view: &View) -> Result<Option<Answer>, Refusal>
        ensures histories { IfOk result (λ o. (h : History) → IsMade h → summary h ≡ view.now → o ≡ due_answer (T.passes self.now.query.test) h self.now) }
        ensures by_summary { IfOk result (λ o. o ≡ due_answer_by (T.passes self.now.query.test) view.now self.now) }
        ensures refused { IfErr result (λ e. e ≡ Refusal.NoMemory) }
    {
        let answer = match answer(alloc, view, &self.query) {
            Ok(answer) => answer,
            Err(Refusal::NotReady) => return Ok(None),
            Err(refusal) => return Err(refusal),
        };
        if self.is_told && !answer.fresh && answer.files.as_slice().is_empty() {
            return Ok(None);
        }
        Ok(Some(answer))
    }

    /// Takes note that the answer with this clock was told: the next one is since then. If it was due, it keeps each
    /// client's list.
    pub fn told(&mut self, clock: ClockId)
        ensures told { self.new ≡ told_up_to self.old clock }
        ensures folds { FoldsTold self.old clock self.new }
    {
        every_client();
        self.query.since = Some(Since::Clock(clock));
        self.is_told = true;
    }
}
