//! A view with many paths and many ticks.
use super::stands;
use crate::checks::check;
use crate::making::file;
use std::alloc::Global;
use std::process::Abort;
use wm_names::{RelPath, Subtree};
use wm_view::{Listing, Pairs, View};

/// How many paths are listed, and how many observations follow, one of each path.
const COUNT: u64 = 65_536;

/// A path of the listing.
fn numbered(rt: &impl Abort, alloc: Global, number: u64) -> RelPath {
    let text = format!(in alloc; "f{number:05}").expect(rt, "memory");
    let path = RelPath::read(alloc, &text).expect(rt, "a path");
    drop(text);
    path
}

/// The first listing, of empty files.
fn empty_files(rt: &impl Abort, alloc: Global) -> Listing {
    let mut listing = Listing::new(alloc, Subtree::Whole);
    for number in 0..COUNT {
        let path = numbered(rt, alloc, number);
        listing.add(path, file(0)).expect(rt, "an entry");
    }
    listing
}

fn ready_with_empty_files(rt: &impl Abort, alloc: Global) -> View {
    let mut view = View::new(alloc, 1, 1);
    let listing = empty_files(rt, alloc);
    view.recrawl(alloc, 10, 0, &listing).expect(rt, "a recrawl");
    drop(listing);
    view
}

/// Whether the view takes in a new size of one path.
fn takes_size(rt: &impl Abort, alloc: Global, view: &mut View, number: u64) -> bool {
    let mut pairs = Vec::new(alloc);
    let path = numbered(rt, alloc, number);
    pairs.push((path, Some(file(3)))).expect(rt, "memory");
    let pairs = Pairs::new(pairs);
    let is_taken = view.observe(alloc, 20, &pairs).is_ok();
    drop(pairs);
    is_taken
}

/// Whether it takes in a new size of each path, one after the other.
fn takes_each_size(rt: &impl Abort, alloc: Global, view: &mut View) -> bool {
    for number in 0..COUNT {
        if !takes_size(rt, alloc, view, number) {
            return false;
        }
    }
    true
}

#[test]
fn takes_many_observations(rt: HostRuntime) {
    let alloc = rt.alloc();
    let mut view = ready_with_empty_files(&rt, alloc);
    check!(rt; takes_each_size(&rt, alloc, &mut view));
    check!(rt; stands(
            &rt,
            alloc,
            &view,
            (65_537, 0),
            65_535,
            &[
                ("f65535", true, 3, (1, 10), (65_537, 20)),
                ("f65534", true, 3, (1, 10), (65_536, 20)),
            ]
        ));
    drop(view);
}
