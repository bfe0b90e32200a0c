//! The subscriptions of a session: how they begin and end, and what is due to them after a line. Their
//! definitions are in specs/session: Sessions, Dues, Tellings.
//! Tests: session_tests/src/lines/subscriptions.rt.
ghost use Rattle.std.specs.Prelude.{◌≡◌, ◌≤◌, ◌<◌, ◌∷◌, ◌++◌, ◌+◌, [], true, false, length, vec_len, vec_capacity, IfErr, OnOk, OnErr, Option};
ghost use Rattle.wm_registry.specs.Roots.{root_at};
ghost use Rattle.wm_registry.specs.declared.command.Command as commands;
ghost use Rattle.wm_subs.specs.SessionLists.{may_subscribe, with_subscription, without_subscribed, without_subscription};
ghost use Rattle.wm_session.specs.declared.local.root_views.RootView.{RootView};
ghost use Rattle.wm_session.specs.session.Faults.{FrontState};
ghost use Rattle.wm_session.specs.session.Fronts.{IsOwn, Met, MetLeaving};
ghost use Rattle.wm_session.specs.session.Fronts.{Commands, Lists, Looks};
ghost use Rattle.wm_session.specs.session.Inquiries.{since_point};
ghost use Rattle.wm_session.specs.session.Sessions.{commanded, cursors_of, number_found, subscribe_met, subscribed_by, unsubscribe_met, view_of};
ghost use Rattle.wm_session.specs.session.Telling.{TellsAll};
ghost use Rattle.wm_session.specs.session.Tellings.{TellsOne, TellsUpTo};
ghost use Rattle.wm_session.specs.session.Watched.{clock_answer};

use crate::session::Session;
use crate::session::front::Front;
use std::alloc::Global;
use wm_disk::Refusal;
use wm_lines::{Expression, Inquiry, reply};
use wm_names::RootPath;
use wm_registry::Command;
use wm_since::{Query, Since};
use wm_subs::{Subscribed, Subscription, SubscriptionName};

/// What asks so of the files of the root of a number, under a name.
fn subscribed(
    root: RootPath,
    number: u64,
    name: SubscriptionName,
    inquiry: Inquiry,
    since: Option<Since>,
) -> Subscribed<Expression>
    ensures { (found : Option RootView) → number ≡ number_found found → since ≡ since_point inquiry.since (cursors_of found) → result ≡ subscribed_by root found name inquiry }
{
    let Inquiry {
        since: _,
        expression,
        fields,
        empty_on_fresh,
    } = inquiry;
    let query = Query {
        since,
        test: expression,
        empty_on_fresh,
    };
    Subscribed {
        root,
        number,
        fields,
        subscription: Subscription::new(name, query),
    }
}

impl<F: Front> Session<F> {
    /// Deletes a watch. The root's subscriptions end unless that is refused.
    pub(super) fn unwatch(
        &mut self,
        alloc: Global,
        path: RootPath,
        out: &mut Vec<u8>,
    ) -> Result<(), Refusal>
        ensures met { Met F.met self.old.front Commands (λ s. commanded s (commands.Command.WatchDel path)) out.old.items result self.new.front out.new.items }
        ensures room { vec_capacity out.old ≤ vec_capacity out.new }
        ensures later { F.leads_to self.old.front (commands.Command.WatchDel path ∷ []) self.new.front }
        ensures ok { OnOk result (self.new.subscriptions ≡ without_subscribed path self.old.subscriptions) }
        ensures err { OnErr result (self.new.subscriptions ≡ self.old.subscriptions) }
    {
        let root = path.copy(alloc)?;
        self.command(alloc, Command::WatchDel(path), out)?;
        self.subscriptions.remove_root(&root);
        Ok(())
    }

    /// Subscribes to a root under a name, in place of a subscription of that root and name.
    pub(super) fn subscribe(
        &mut self,
        alloc: Global,
        root: RootPath,
        name: SubscriptionName,
        inquiry: Inquiry,
        out: &mut Vec<u8>,
    ) -> Result<(), Refusal>
        ensures met { MetLeaving F.met self.old.front (Looks root) (λ s. subscribe_met s self.old.subscriptions root name (clock_answer (view_of s root))) (λ s. with_subscription (subscribed_by root (view_of s root) name inquiry) self.old.subscriptions) out.old.items result self.new.front out.new.items self.new.subscriptions }
        ensures room { vec_capacity out.old ≤ vec_capacity out.new }
        ensures later { F.leads_to self.old.front [] self.new.front }
        ensures err { OnErr result (self.new.subscriptions ≡ self.old.subscriptions) }
    {
        let (clock, since) = self.front.start(alloc, &root, &inquiry.since)?;
        if !self.subscriptions.has_room(&root, &name) {
            return Err(Refusal::TooMany);
        }
        let line = reply::subscribe_line(alloc, clock, &name, out)?;
        let subscribed = subscribed(root, clock.root, name, inquiry, since);
        self.begin(subscribed, &line, out)?;
        Ok(())
    }

    /// Begins a subscription, and appends its line. `NoMemory` changes nothing.
    fn begin(
        &mut self,
        subscribed: Subscribed<Expression>,
        line: &[u8],
        out: &mut Vec<u8>,
    ) -> Result<(), Refusal>
        requires may { may_subscribe subscribed.root subscribed.subscription.name self.old.subscriptions ≡ true }
        requires room { vec_len out.old + length line.now ≤ vec_capacity out.old }
        ensures ok { OnOk result (self.new.subscriptions ≡ with_subscription subscribed self.old.subscriptions) }
        ensures told { OnOk result (out.new.items ≡ out.old.items ++ line.now) }
        ensures err { OnErr result ((self.new.subscriptions ≡ self.old.subscriptions) × (out.new.items ≡ out.old.items)) }
        ensures refused { IfErr result (λ e. e ≡ Refusal.NoMemory) }
        ensures front { self.new.front ≡ self.old.front }
        ensures grown { vec_capacity out.old ≤ vec_capacity out.new }
    {
        self.subscriptions.put(subscribed)?;
        out.extend_from_slice(line).unwrap();
        Ok(())
    }

    /// Ends the subscription of a watched root and a name, if there is one.
    pub(super) fn unsubscribe(
        &mut self,
        alloc: Global,
        root: &RootPath,
        name: &SubscriptionName,
        out: &mut Vec<u8>,
    ) -> Result<(), Refusal>
        ensures met { Met F.met self.old.front Lists (λ s. unsubscribe_met s self.old.subscriptions root.now name.now (root_at root.now s.registry)) out.old.items result self.new.front out.new.items }
        ensures room { vec_capacity out.old ≤ vec_capacity out.new }
        ensures later { F.leads_to self.old.front [] self.new.front }
        ensures ok { OnOk result (self.new.subscriptions ≡ without_subscription root.now name.now self.old.subscriptions) }
        ensures err { OnErr result (self.new.subscriptions ≡ self.old.subscriptions) }
    {
        self.front.look(alloc)?;
        if self.front.registry().roots().get(root).is_none() {
            return Err(Refusal::NotWatched);
        }
        let is_there = self.subscriptions.holds(root, name);
        reply::put_unsubscribe(alloc, is_there, name, out)?;
        self.subscriptions.remove(root, name);
        Ok(())
    }

    /// Reports to the subscription at a place what is due to it. An `Err` means that memory ran out: nothing is
    /// appended then, and no subscription changes.
    fn tell_at(&mut self, alloc: Global, place: usize, out: &mut Vec<u8>) -> Result<(), Refusal>
        requires { place < length self.old.subscriptions }
        ensures ok { OnOk result (TellsOne F.met true self.old.front place self.old.subscriptions out.old.items self.new.front self.new.subscriptions out.new.items) }
        ensures err { OnErr result (TellsOne F.met false self.old.front place self.old.subscriptions out.old.items self.new.front self.new.subscriptions out.new.items) }
        ensures many { length self.new.subscriptions ≡ length self.old.subscriptions }
        ensures later { F.leads_to self.old.front [] self.new.front }
    {
        let subscribed = &self.subscriptions.as_slice()[place];
        let due = self.front.due(alloc, subscribed)?;
        match due {
            None => Ok(()),
            Some(answer) => {
                reply::put_due(alloc, subscribed, &answer, out)?;
                self.subscriptions.told(place, answer.clock);
                Ok(())
            }
        }
    }

    /// Reports to each subscription what is due to it, in the order of subscribing, and returns whether memory was
    /// enough for all. One for which it ran out stays as it is, and is reported to by a later call.
    pub fn tell_due(&mut self, alloc: Global, out: &mut Vec<u8>) -> bool
        ensures told { TellsUpTo F.met self.old.front self.old.subscriptions out.old.items (length self.old.subscriptions) result self.new.front self.new.subscriptions out.new.items }
        ensures own { (state : F → FrontState) → IsOwn F.met state → TellsAll (state self.old.front).state self.old.subscriptions out.old.items result self.new.subscriptions out.new.items × (state self.new.front ≡ state self.old.front) }
        ensures later { F.leads_to self.old.front [] self.new.front }
    {
        let mut is_whole = true;
        for place in 0..self.subscriptions.as_slice().len() {
            if self.tell_at(alloc, place, out).is_err() {
                is_whole = false;
            }
        }
        is_whole
    }
}
