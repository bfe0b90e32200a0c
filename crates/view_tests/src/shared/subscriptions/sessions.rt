//! The subscriptions of a session.
use super::Event::Begins;
use super::{clock, happen, subscription, told};
use crate::checks::check;
use std::alloc::Global;
use std::process::Abort;
use wm_clock::ClockId;
use wm_names::RootPath;
use wm_since::{Every, Fields};
use wm_subs::{MAX_SUBSCRIPTIONS, Subscribed, SubscriptionName, Subscriptions};
use wm_view::View;

/// One on the first root of a path, of which this is told of each file.
fn subscribed(
    rt: &impl Abort,
    alloc: Global,
    root: &str,
    name: &str,
    field: &str,
) -> Subscribed<Every> {
    Subscribed {
        root: RootPath::read(alloc, root).expect(rt, "a root path"),
        number: 1,
        fields: Fields::read(alloc, &[field]).expect(rt, "fields"),
        subscription: subscription(rt, alloc, name, None),
    }
}

/// Puts one, where there is room, and tells whether there was.
fn puts(
    rt: &impl Abort,
    alloc: Global,
    all: &mut Subscriptions<Every>,
    root: &str,
    name: &str,
    field: &str,
) -> bool {
    let subscribed = subscribed(rt, alloc, root, name, field);
    let has_room = all.has_room(&subscribed.root, subscribed.subscription.name());
    if has_room {
        all.put(subscribed).expect(rt, "memory");
    } else {
        drop(subscribed);
    }
    has_room
}

fn removes(
    rt: &impl Abort,
    alloc: Global,
    all: &mut Subscriptions<Every>,
    root: &str,
    name: &str,
) -> bool {
    let root = RootPath::read(alloc, root).expect(rt, "a root path");
    let name = SubscriptionName::read(alloc, name).expect(rt, "a name");
    let is_removed = all.remove(&root, &name);
    drop(name);
    drop(root);
    is_removed
}

fn holds(
    rt: &impl Abort,
    alloc: Global,
    all: &Subscriptions<Every>,
    root: &str,
    name: &str,
) -> bool {
    let root = RootPath::read(alloc, root).expect(rt, "a root path");
    let name = SubscriptionName::read(alloc, name).expect(rt, "a name");
    let is_held = all.holds(&root, &name);
    drop(name);
    drop(root);
    is_held
}

/// The subscriptions as a text: the root, the name and the first field of each.
fn shown(rt: &impl Abort, alloc: Global, all: &Subscriptions<Every>) -> String {
    let mut text = String::new(alloc);
    for subscribed in all.as_slice() {
        text.push_str(subscribed.root.as_str()).expect(rt, "memory");
        text.push_str(subscribed.subscription.name().as_str())
            .expect(rt, "memory");
        let field = subscribed.fields.as_slice().first();
        text.push_str(field.map_or("", |field| field.name()))
            .expect(rt, "memory");
        text.push_str(" ").expect(rt, "memory");
    }
    text
}

/// Whether that is their text.
fn stand_so(rt: &impl Abort, alloc: Global, all: &Subscriptions<Every>, wanted: &str) -> bool {
    shown(rt, alloc, all).as_str() == wanted
}

fn remove_root(rt: &impl Abort, alloc: Global, all: &mut Subscriptions<Every>, root: &str) {
    let root = RootPath::read(alloc, root).expect(rt, "a root path");
    all.remove_root(&root);
    drop(root);
}

/// The root and the name of each that is put.
const PUT: &[(&str, &str)] = &[("/r", "s"), ("/q", "s"), ("/r", "t"), ("/q", "u")];

fn assert_order_of_puts(rt: &impl Abort, alloc: Global, all: &mut Subscriptions<Every>) {
    for (root, name) in PUT {
        check!(rt; puts(rt, alloc, all, root, name, "name"));
    }
    check!(rt; puts(rt, alloc, all, "/r", "s", "size"));
    check!(rt; stand_so(rt, alloc, all, "/qsname /rtname /quname /rssize "));
}

fn assert_order_of_the_rest(rt: &impl Abort, alloc: Global, all: &mut Subscriptions<Every>) {
    check!(rt; removes(rt, alloc, all, "/r", "t"));
    check!(rt; !removes(rt, alloc, all, "/r", "t"));
    check!(rt; !removes(rt, alloc, all, "/r", "u"));
    check!(rt; stand_so(rt, alloc, all, "/qsname /quname /rssize "));
    remove_root(rt, alloc, all, "/q");
    check!(rt; stand_so(rt, alloc, all, "/rssize "));
}

/// A clock of the first root.
const CLOCK: ClockId = ClockId {
    incarnation: 1,
    root: 1,
    tick: 1,
};

/// The subscription at a place was told of the first root.
fn tell_first(all: &mut Subscriptions<Every>, place: usize) {
    if place < all.as_slice().len() {
        all.told(place, CLOCK);
    }
}

fn remove_earlier(
    rt: &impl Abort,
    alloc: Global,
    all: &mut Subscriptions<Every>,
    root: &str,
    number: u64,
) {
    let root = RootPath::read(alloc, root).expect(rt, "a root path");
    all.remove_earlier(&root, number);
    drop(root);
}

#[test]
fn end_if_their_path_is_watched_anew(rt: HostRuntime) {
    let mut all = Subscriptions::new(rt.alloc());
    for (root, name) in PUT {
        check!(&rt; puts(&rt, rt.alloc(), &mut all, root, name, "name"));
    }
    // the last two were told nothing yet
    for place in 0..2 {
        tell_first(&mut all, place);
    }
    remove_earlier(&rt, rt.alloc(), &mut all, "/r", 1);
    check!(&rt; stand_so(&rt, rt.alloc(), &all, "/rsname /qsname /rtname /quname "));
    remove_earlier(&rt, rt.alloc(), &mut all, "/r", 2);
    check!(&rt; stand_so(&rt, rt.alloc(), &all, "/qsname /quname "));
    remove_earlier(&rt, rt.alloc(), &mut all, "/q", 3);
    check!(&rt; stand_so(&rt, rt.alloc(), &all, ""));
    drop(all);
}

#[test]
fn stand_in_the_order_of_subscribing(rt: HostRuntime) {
    let mut all = Subscriptions::new(rt.alloc());
    assert_order_of_puts(&rt, rt.alloc(), &mut all);
    assert_order_of_the_rest(&rt, rt.alloc(), &mut all);
    drop(all);
}

/// Puts one that is named by a number, and tells whether there was room.
fn puts_number(
    rt: &impl Abort,
    alloc: Global,
    all: &mut Subscriptions<Every>,
    number: usize,
) -> bool {
    let name = format!(in alloc; "{number}").expect(rt, "memory");
    puts(rt, alloc, all, "/r", name.as_str(), "name")
}

fn assert_room(rt: &impl Abort, alloc: Global, all: &mut Subscriptions<Every>) {
    for i in 0..MAX_SUBSCRIPTIONS {
        check!(rt; puts_number(rt, alloc, all, i));
    }
    check!(rt; !puts(rt, alloc, all, "/r", "another", "name"));
    check!(rt; puts(rt, alloc, all, "/r", "7", "name"));
    check!(rt; all.as_slice().len() == 32);
    check!(rt; holds(rt, alloc, all, "/r", "7"));
    check!(rt; !holds(rt, alloc, all, "/q", "7"));
    check!(rt; !holds(rt, alloc, all, "/r", "another"));
}

#[test]
fn has_room_for_32(rt: HostRuntime) {
    let mut all = Subscriptions::new(rt.alloc());
    assert_room(&rt, rt.alloc(), &mut all);
    drop(all);
}

/// Tells the one at a place of the first tick, where there is one.
fn tell(all: &mut Subscriptions<Every>, place: usize) {
    if place < all.as_slice().len() {
        all.told(place, clock(1));
    }
}

/// Adds to a text what is due to one, and a space.
fn add_due(
    rt: &impl Abort,
    alloc: Global,
    text: &mut String,
    view: &View,
    subscribed: &Subscribed<Every>,
) {
    let answer = subscribed
        .subscription
        .due_on(alloc, view)
        .expect(rt, "an answer");
    let due = told(rt, alloc, &answer);
    drop(answer);
    text.push_str(due.as_str()).expect(rt, "memory");
    drop(due);
    text.push(' ').expect(rt, "memory");
}

/// What is due to each.
fn due(rt: &impl Abort, alloc: Global, view: &View, all: &Subscriptions<Every>) -> String {
    let mut text = String::new(alloc);
    for subscribed in all.as_slice() {
        add_due(rt, alloc, &mut text, view, subscribed);
    }
    text
}

/// Whether that is due to each.
fn is_due(
    rt: &impl Abort,
    alloc: Global,
    view: &View,
    all: &Subscriptions<Every>,
    wanted: &str,
) -> bool {
    due(rt, alloc, view, all).as_str() == wanted
}

fn assert_told(rt: &impl Abort, alloc: Global, view: &View, all: &mut Subscriptions<Every>) {
    for name in &["s", "t", "u"] {
        check!(rt; puts(rt, alloc, all, "/r", name, "name"));
    }
    tell(all, 1);
    check!(rt; is_due(rt, alloc, view, all, "c:1:1:1 fresh none c:1:1:1 fresh "));
}

#[test]
fn are_told_one_by_one(rt: HostRuntime) {
    let alloc = rt.alloc();
    let mut view = View::new(alloc, 1, 1);
    happen(&rt, alloc, &mut view, &[Begins]);
    let mut all = Subscriptions::new(alloc);
    assert_told(&rt, alloc, &view, &mut all);
    drop(all);
    drop(view);
}
