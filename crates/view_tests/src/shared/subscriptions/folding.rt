//! What a client makes of all that it is told.
use super::Event::{Begins, Forgets, Gone, Is};
use super::{Event, happen, subscription};
use crate::checks::check;
use std::alloc::Global;
use std::process::Abort;
use wm_names::RootPath;
use wm_since::{Every, Mirror};
use wm_subs::Subscription;
use wm_view::View;

/// The client takes what is told of the view, if anything is.
fn follow(
    rt: &impl Abort,
    alloc: Global,
    view: &View,
    subscription: &mut Subscription<Every>,
    client: &mut Mirror<Every>,
) {
    if let Some(answer) = subscription.due_on(alloc, view).expect(rt, "an answer") {
        subscription.told(answer.clock);
        if !client.open() {
            drop(client.ask(alloc).expect(rt, "memory"));
        }
        client.apply(alloc, &answer).expect(rt, "an answer");
        drop(answer);
    }
}

/// Whether these are the client's files.
fn lists(client: &Mirror<Every>, wanted: &[&str]) -> bool {
    let files = client.files();
    files.len() == wanted.len()
        && files
            .iter()
            .zip(wanted)
            .all(|(file, name)| file.as_str() == *name)
}

/// What happens to the view, and the files that the client then has.
type Row = (&'static [Event], &'static [&'static str]);

const ROWS: &[Row] = &[
    (&[], &[]),
    (&[Begins, Is("b.c", 4), Is("a.c", 3)], &["a.c", "b.c"]),
    (&[], &["a.c", "b.c"]),
    (&[Gone("b.c"), Is("d", 1)], &["a.c", "d"]),
    (&[Gone("d"), Forgets], &["a.c"]),
    (&[Is("a.c", 9)], &["a.c"]),
    (&[Gone("a.c")], &[]),
];

fn assert_keeps(
    rt: &impl Abort,
    alloc: Global,
    view: &mut View,
    subscription: &mut Subscription<Every>,
    client: &mut Mirror<Every>,
) {
    for (i, row) in ROWS.iter().enumerate() {
        happen(rt, alloc, view, row.0);
        follow(rt, alloc, view, subscription, client);
        check!(rt; lists(client, row.1), i);
    }
}

#[test]
fn keeps_the_files_of_a_client(rt: HostRuntime) {
    let alloc = rt.alloc();
    let mut subscription = subscription(&rt, alloc, "s", None);
    let root = RootPath::read(alloc, "/r").expect(&rt, "a root path");
    let mut client = Mirror::new(alloc, root, Every).expect(&rt, "a mirror");
    let mut view = View::new(alloc, 1, 1);
    assert_keeps(&rt, alloc, &mut view, &mut subscription, &mut client);
    drop(view);
    drop(client);
    drop(subscription);
}
