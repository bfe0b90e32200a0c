//! What is handed in to a keeper, as a table tells it, and answers as texts.
ghost use Rattle.std.specs.Prelude.{◌≡◌};

use crate::making::{file, pair};
use std::alloc::Global;
use std::process::Abort;
use std::sync::Wait;
use wm_disk::Refusal;
use wm_names::{Meta, RelPath, Subtree};
use wm_share::{Naming, Opened, Pool, RootKeeper, Shares, Shown, Viewer};
use wm_since::{Answer, Every, Query};
use wm_view::Listing;

/// The keeper of a root.
pub type Keeper<'a, J, R> = RootKeeper<J, Shown<J>, &'a R>;

/// The keeper and the viewers of the first share.
pub fn share<'a, J: Naming, R: Wait + Abort>(
    rt: &'a R,
    alloc: Global,
    opened: Opened,
    incarnation: u64,
    root: u64,
) -> (Keeper<'a, J, R>, Pool<J>)
    requires { opened.seen.book ≡ J.book }
{
    let mut shares: Shares<J> = Shares::new(opened);
    let first = shares
        .share(rt, alloc, incarnation, root)
        .expect(rt, "a share");
    drop(shares);
    first
}

/// What is handed in.
#[derive(Clone, Copy)]
pub enum Handed {
    /// A whole listing that began at this tick found these files, at moment 10.
    Lists(u64, &'static [&'static str]),
    /// A file is there, with this size, at moment 10.
    Is(&'static str, u64),
    /// A file is gone at moment 10.
    Gone(&'static str),
    /// At this time, what was deleted so long ago may be forgotten.
    Ages(u64, u64),
}

fn listing(rt: &impl Abort, alloc: Global, paths: &[&str]) -> Listing {
    let mut listing = Listing::new(alloc, Subtree::Whole);
    for path in paths {
        let path = RelPath::read(alloc, path).expect(rt, "a path");
        listing.add(path, file(1)).expect(rt, "an entry");
    }
    listing
}

fn hand_listing<J: Naming, R: Wait + Abort>(
    rt: &R,
    alloc: Global,
    keeper: &mut Keeper<'_, J, R>,
    begun_at: u64,
    paths: &[&str],
) -> Result<(), Refusal> {
    let found = listing(rt, alloc, paths);
    keeper.recrawl(10, begun_at, found)
}

fn hand_pair<J: Naming, R: Wait + Abort>(
    rt: &R,
    alloc: Global,
    keeper: &mut Keeper<'_, J, R>,
    path: &str,
    state: Option<Meta>,
) -> Result<(), Refusal> {
    let pairs = pair(rt, alloc, path, state);
    keeper.observe(10, pairs)
}

/// Hands it in.
pub fn hand<J: Naming, R: Wait + Abort>(
    rt: &R,
    alloc: Global,
    keeper: &mut Keeper<'_, J, R>,
    handed: Handed,
) -> Result<(), Refusal> {
    match handed {
        Handed::Lists(begun_at, paths) => hand_listing(rt, alloc, keeper, begun_at, paths),
        Handed::Is(path, size) => hand_pair(rt, alloc, keeper, path, Some(file(size))),
        Handed::Gone(path) => hand_pair(rt, alloc, keeper, path, None),
        Handed::Ages(time, age) => keeper.age_out(time, age),
    }
}

/// The question of every file, since no clock.
pub fn every() -> Query<Every> {
    Query {
        since: None,
        test: Every,
        empty_on_fresh: false,
    }
}

/// An answer as a text: its clock, whether it is fresh, and its files, a `-` before those that are gone.
pub fn shown(rt: &impl Abort, alloc: Global, answer: &Answer) -> String {
    let mut text = answer.clock.text(alloc).expect(rt, "memory");
    if answer.fresh {
        text.push_str(" fresh").expect(rt, "memory");
    }
    for file in answer.files.as_slice() {
        text.push_str(if file.entry.exists { " " } else { " -" })
            .expect(rt, "memory");
        text.push_str(file.entry.path.as_str()).expect(rt, "memory");
    }
    text
}

/// What a viewer answers of every file since no clock, or why it doesn't.
fn answered<J: Naming>(rt: &impl Abort, alloc: Global, viewer: &mut Viewer<J>) -> String {
    match viewer.answer(alloc, &every()) {
        Ok(answer) => {
            let text = shown(rt, alloc, &answer);
            drop(answer);
            text
        }
        Err(refusal) => String::from_str(alloc, refusal.text()).expect(rt, "memory"),
    }
}

/// Whether that is what a viewer answers.
pub fn answers<J: Naming>(
    rt: &impl Abort,
    alloc: Global,
    viewer: &mut Viewer<J>,
    wanted: &str,
) -> bool {
    answered(rt, alloc, viewer).as_str() == wanted
}
