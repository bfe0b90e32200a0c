//! The subscriptions of one session.
//! Definitions: specs/SessionLists.antt. Tests: view_tests/src/shared/subscriptions/sessions.rt.
ghost use Rattle.std.specs.Prelude.{◌≡◌, ◌≤◌, ◌<◌, [], true, not, length, vec_len, vec_capacity, OnOk, OnErr, option_map};
ghost use Rattle.std.specs.List.{filter};
ghost use Rattle.wm_subs.specs.SessionLists.{IsSession, are_apart, is_meant, is_on_earlier as is_on_earlier_lem, is_subscribed, is_subscription, may_subscribe, told_at, with_subscription, without_earlier, without_subscribed, without_subscription};

use crate::subscribed::Subscribed;
use crate::subscription_name::SubscriptionName;
use std::alloc::Global;
use std::marker::Model;
use wm_clock::ClockId;
use wm_disk::NoMemory;
use wm_names::RootPath;
use wm_since::Test;

/// The most subscriptions of one session.
pub const MAX_SUBSCRIPTIONS: usize = 32;

/// The subscriptions of one session, in the order of subscribing: at most `MAX_SUBSCRIPTIONS`, and
/// none of the root and name of another. Contracts see the list.
#[derive(Drop)]
pub struct Subscriptions<T> {
    all: Vec<Subscribed<T>>,
}

impl<T> Model for Subscriptions<T> {
    ghost use Rattle.std.specs.Prelude.{List};
    ghost use Rattle.wm_subs.specs.declared.subscribed.Subscribed.{Subscribed};

    ghost Value = { List (Subscribed T) };

    ghost use Rattle.wm_subs.specs.SessionLists.{IsSession};

    ghost view = { λ s. s.all.items };

    ghost invariant = { λ s. IsSession s.all.items };
}

/// Whether it is the one of the root and name.
fn is_subscription<T: Test>(
    subscribed: &Subscribed<T>,
    root: &RootPath,
    name: &SubscriptionName,
) -> bool
    ensures { result ≡ is_subscription root.now name.now subscribed.now }
{
    *root == subscribed.root && *name == *subscribed.subscription.name()
}

/// Whether it is on the root and, where a name is given, has it.
fn is_meant<T: Test>(
    subscribed: &Subscribed<T>,
    root: &RootPath,
    name: Option<&SubscriptionName>,
) -> bool
    ensures { result ≡ is_meant root.now (option_map (λ n. n.now) name.entry) subscribed.now }
{
    match name {
        Some(name) => is_subscription(subscribed, root, name),
        None => *root == subscribed.root,
    }
}

/// Whether it is on another root of the path than the one of the number.
fn is_on_earlier<T: Test>(subscribed: &Subscribed<T>, root: &RootPath, number: u64) -> bool
    ensures { result ≡ is_on_earlier_lem root.now number subscribed.now }
{
    *root == subscribed.root && subscribed.number != number
}

/// Takes out those on the root or, where a name is given, the one of them that has it.
fn take_out<T: Test>(all: &mut Vec<Subscribed<T>>, root: &RootPath, name: Option<&SubscriptionName>)
    ensures items { all.new.items ≡ filter (λ s. not (is_meant root.now (option_map (λ n. n.now) name.entry) s)) all.old.items }
    ensures room { vec_capacity all.new ≡ vec_capacity all.old }
    ensures len { vec_len all.new ≤ vec_len all.old }
    ensures apart { IsSession all.old.items → IsSession all.new.items }
{
    let mut i = 0;
    while i < all.len() {
        if is_meant(&all[i], root, name) {
            all.remove(i);
        } else {
            i += 1;
        }
    }
}

impl<T: Test> Subscriptions<T> {
    /// No subscriptions yet. It takes no memory.
    pub fn new(alloc: Global) -> Subscriptions<T>
        ensures { result ≡ [] }
    {
        Subscriptions {
            all: Vec::new(alloc),
        }
    }

    /// The subscriptions, in the order of subscribing.
    pub fn as_slice(&self) -> &[Subscribed<T>]
        ensures value { result.now ≡ self.now }
        ensures most { length self.now ≤ MAX_SUBSCRIPTIONS }
        ensures apart { are_apart self.now ≡ true }
    {
        &self.all
    }

    /// Whether there is one of the root and name.
    pub fn holds(&self, root: &RootPath, name: &SubscriptionName) -> bool
        ensures { result ≡ is_subscribed root.now name.now self.now }
    {
        self.all
            .iter()
            .any(|subscribed| is_subscription(subscribed, root, name))
    }

    /// Whether one of the root and name may be put: it is there, or there are fewer than
    /// `MAX_SUBSCRIPTIONS`.
    pub fn has_room(&self, root: &RootPath, name: &SubscriptionName) -> bool
        ensures { result ≡ may_subscribe root.now name.now self.now }
    {
        self.holds(root, name) || self.all.len() < MAX_SUBSCRIPTIONS
    }

    /// Puts one last, in place of one of the same root and name. Running out of memory changes
    /// nothing.
    pub fn put(&mut self, subscribed: Subscribed<T>) -> Result<(), NoMemory>
        requires { may_subscribe subscribed.root subscribed.subscription.name self.old ≡ true }
        ensures ok { OnOk result (self.new ≡ with_subscription subscribed self.old) }
        ensures err { OnErr result (self.new ≡ self.old) }
    {
        self.all.try_reserve(1)?;
        let name = subscribed.subscription.name();
        take_out(&mut self.all, &subscribed.root, Some(name));
        self.all.push(subscribed).unwrap();
        Ok(())
    }

    /// Takes away the one of the root and name, and tells whether it was there.
    pub fn remove(&mut self, root: &RootPath, name: &SubscriptionName) -> bool
        ensures there { result ≡ is_subscribed root.now name.now self.old }
        ensures taken { self.new ≡ without_subscription root.now name.now self.old }
    {
        let was_there = self.holds(root, name);
        take_out(&mut self.all, root, Some(name));
        was_there
    }

    /// Takes away all of the root.
    pub fn remove_root(&mut self, root: &RootPath)
        ensures { self.new ≡ without_subscribed root.now self.old }
    {
        take_out(&mut self.all, root, None);
    }

    /// Takes away those on another root of the path than the one of this number.
    pub fn remove_earlier(&mut self, root: &RootPath, number: u64)
        ensures { self.new ≡ without_earlier root.now number self.old }
    {
        self.all
            .retain(|subscribed| !is_on_earlier(subscribed, root, number));
    }

    /// Takes note that the one at the place was told the answer with this clock.
    pub fn told(&mut self, place: usize, clock: ClockId)
        requires { place < length self.old }
        ensures { self.new ≡ told_at place clock self.old }
    {
        self.all[place].subscription.told(clock);
    }
}
