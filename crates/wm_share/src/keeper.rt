//! The keeper of a root, which alone changes its view.
//! Definitions: specs/PublishedLists.antt, specs/Operations.antt. Tests: view_tests/src/shared/shares.rt.
ghost use Rattle.std.specs.Prelude.{◌≡◌, ◌≤◌, ◌⊎◌, ◌++◌, ◌∷◌, [], length, Some, None, IfOk, MatchResult};
ghost use Rattle.left_right.specs.Handles.{published as shown_by, pending as waiting};
ghost use Rattle.wm_disk.specs.Counters.{max_counter};
ghost use Rattle.wm_view.specs.declared.op.Op.{Op};
ghost use Rattle.wm_view.specs.declared.op.Op.TheVariants.{Observe, Recrawl, AgeOut};
ghost use Rattle.wm_share.specs.Operations.{MayRefuse, Operations, handed_in, held_list};
ghost use Rattle.wm_share.specs.PublishedLists.{PublishedList, with_operations};

use crate::book::Naming;
use crate::entry::Entry;
use crate::front::{Front, Head};
use crate::step::Step;
use crate::told::Told;
use left_right::{Absorb, WriteHandle};
use std::marker::Model;
use std::sync::Wait;
use wm_disk::{MAX_COUNTER, Refusal};
use wm_view::{Listing, Op, Pairs};

/// A copy of what is published, seen as its list of operations.
pub trait Listed<J: Naming>: Absorb<Step<J>, State = Front<J>> {
    /// The list, and what the view is after it.
    fn told(&self) -> Told<J>
        ensures { result ≡ Self.state self.now };

    ghost adds: { (list : PublishedList) (op : Op) → Self.applied list op ≡ with_operations list (op ∷ []) };
}

/// Changes a root's view: operations are handed in, and published all at once. Contracts see the list that
/// was published, and the operations that wait for the next publish.
#[derive(Drop)]
pub struct RootKeeper<J: Naming, T: Listed<J> + Drop, R: Wait + Drop> {
    pub(crate) desk: WriteHandle<T, Step<J>, R>,
    pub(crate) head: Head<J>,
    pub(crate) front: Front<J>,
    // The last operation, where the desk had no room for it yet.
    pub(crate) held: Option<Step<J>>,
}

impl<J: Naming, T: Listed<J> + Drop, R: Wait + Drop> Model for RootKeeper<J, T, R> {
    ghost use Rattle.std.specs.Prelude.{◌≡◌, ◌++◌};
    ghost use Rattle.left_right.specs.Handles.{published as shown_by, pending as waiting};
    ghost use Rattle.wm_share.specs.Operations.{Operations, held_list};
    ghost use Rattle.wm_share.specs.PublishedLists.{with_operations};

    ghost Value = { Operations };

    ghost view = { λ k. record { published = T.state (shown_by k.desk); pending = waiting k.desk ++ held_list k.held } };

    // What was handed in is what is published and what waits.
    ghost invariant = { λ k. (k.head.number ≡ k.front.share.number) × (k.front ≡ with_operations (T.state (shown_by k.desk)) (waiting k.desk ++ held_list k.held)) };
}

/// Hands an operation to the desk, or holds it where the desk has no room for it.
fn send<J: Naming, T: Listed<J> + Drop, R: Wait + Drop>(
    desk: &mut WriteHandle<T, Step<J>, R>,
    held: &mut Option<Step<J>>,
    step: Step<J>,
) -> Result<(), Refusal>
    ensures published { shown_by desk.new ≡ shown_by desk.old }
    ensures pending { MatchResult result (λ _. (waiting desk.new ≡ waiting desk.old ++ step ∷ []) × (held.new ≡ held.old)) (λ e. (e ≡ Refusal.NoMemory) × (waiting desk.new ≡ waiting desk.old) × (held.new ≡ Some step)) }
{
    match desk.append(step) {
        Ok(()) => Ok(()),
        Err(step) => {
            *held = Some(step);
            Err(Refusal::NoMemory)
        }
    }
}

/// Hands the held operation to the desk, if there is one.
fn send_held<J: Naming, T: Listed<J> + Drop, R: Wait + Drop>(
    desk: &mut WriteHandle<T, Step<J>, R>,
    held: &mut Option<Step<J>>,
) -> Result<(), Refusal>
    ensures published { shown_by desk.new ≡ shown_by desk.old }
    ensures pending { MatchResult result (λ _. (waiting desk.new ≡ waiting desk.old ++ held_list held.old) × (held.new ≡ None)) (λ e. (e ≡ Refusal.NoMemory) × (waiting desk.new ≡ waiting desk.old) × (held.new ≡ held.old)) }
{
    match held.take() {
        Some(step) => send(desk, held, step),
        None => Ok(()),
    }
}

/// The list with the entry's operation behind it. `NoMemory`, and `Exhausted` where it has 2^63 - 1 operations.
fn lengthened<J: Naming>(
    front: &Front<J>,
    head: &Head<J>,
    entry: &Entry,
) -> Result<Front<J>, Refusal>
    requires { (head.now.number ≡ front.now.share.number) × (entry.now.share ≡ front.now.share.number) }
    ensures room { IfOk result (λ f. length f.operations ≤ max_counter) }
    ensures lengthened { MatchResult result (λ f. f ≡ with_operations front.now (entry.now.op ∷ [])) (λ e. (e ≡ Refusal.NoMemory) ⊎ ((e ≡ Refusal.Exhausted) × (max_counter ≤ length front.now.operations))) }
{
    if front.len() >= MAX_COUNTER {
        return Err(Refusal::Exhausted);
    }
    let mut front = front.again();
    if front.add(head, entry) {
        Ok(front)
    } else {
        Err(Refusal::NoMemory)
    }
}

impl<J: Naming, T: Listed<J> + Drop, R: Wait + Drop> RootKeeper<J, T, R> {
    /// Adds an operation to those that wait. `NoMemory`, and `Exhausted` if the list has 2^63 - 1
    /// operations; a refusal changes nothing. An operation for which the writer had no room is `Ok`: it is
    /// kept, and waits with the others.
    pub fn append(&mut self, op: Op) -> Result<(), Refusal>
        ensures published { self.new.published ≡ self.old.published }
        ensures room { IfOk result (λ _. length (handed_in self.new) ≤ max_counter) }
        ensures appended { MatchResult result (λ _. self.new.pending ≡ self.old.pending ++ op ∷ []) (λ e. MayRefuse self.new e × (self.new.pending ≡ self.old.pending)) }
    {
        send_held(&mut self.desk, &mut self.held)?;
        let entry = Entry {
            share: self.front.share().number,
            op,
        };
        let front = lengthened(&self.front, &self.head, &entry)?;
        self.front = front.again();
        // where the desk has no room for it, it waits with the others
        let _ = send(&mut self.desk, &mut self.held, Step::new(entry, front));
        Ok(())
    }

    /// Hands in what was observed at a moment, as `View::observe`. Refused as `append` is.
    pub fn observe(&mut self, moment: u64, pairs: Pairs) -> Result<(), Refusal>
        ensures published { self.new.published ≡ self.old.published }
        ensures room { IfOk result (λ _. length (handed_in self.new) ≤ max_counter) }
        ensures appended { MatchResult result (λ _. self.new.pending ≡ self.old.pending ++ Observe moment pairs ∷ []) (λ e. MayRefuse self.new e × (self.new.pending ≡ self.old.pending)) }
    {
        self.append(Op::Observe(moment, pairs))
    }

    /// Hands in a listing that was read since the tick `begun_at`, as `View::recrawl`. Refused as `append` is.
    pub fn recrawl(&mut self, moment: u64, begun_at: u64, listing: Listing) -> Result<(), Refusal>
        ensures published { self.new.published ≡ self.old.published }
        ensures room { IfOk result (λ _. length (handed_in self.new) ≤ max_counter) }
        ensures appended { MatchResult result (λ _. self.new.pending ≡ self.old.pending ++ Recrawl moment begun_at listing ∷ []) (λ e. MayRefuse self.new e × (self.new.pending ≡ self.old.pending)) }
    {
        self.append(Op::Recrawl(moment, begun_at, listing))
    }

    /// Hands in that what was deleted so long ago may be forgotten, as `View::age_out`. Refused as `append` is.
    pub fn age_out(&mut self, time: u64, age: u64) -> Result<(), Refusal>
        ensures published { self.new.published ≡ self.old.published }
        ensures room { IfOk result (λ _. length (handed_in self.new) ≤ max_counter) }
        ensures appended { MatchResult result (λ _. self.new.pending ≡ self.old.pending ++ AgeOut time age ∷ []) (λ e. MayRefuse self.new e × (self.new.pending ≡ self.old.pending)) }
    {
        self.append(Op::AgeOut(time, age))
    }

    /// Publishes the operations that wait, all at once, and tells the list that is published then. It waits
    /// for the viewers that still read the copy from before the last publish. `NoMemory` leaves all as it
    /// was: the operations still wait.
    pub fn publish(&mut self) -> Result<Told<J>, Refusal>
        ensures { MatchResult result (λ t. (t ≡ with_operations self.old.published self.old.pending) × (self.new.published ≡ t) × (self.new.pending ≡ [])) (λ e. (e ≡ Refusal.NoMemory) × (self.new ≡ self.old)) }
    {
        send_held(&mut self.desk, &mut self.held)?;
        let Ok(()) = self.desk.publish() else {
            return Err(Refusal::NoMemory);
        };
        Ok(self.desk.published().told())
    }
}
