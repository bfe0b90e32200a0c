//! Listings, observations and views, made from what a table tells.
use std::alloc::Global;
use std::process::Abort;
use wm_names::{Kind, Meta, RelPath, Subtree};
use wm_view::{Listing, Pairs, View};

/// Paths, each with the size of the file that is there, or with `None`.
pub type Told = &'static [(&'static str, Option<u64>)];

/// Paths, each with the size of the file that is there.
pub type Found = &'static [(&'static str, u64)];

/// Observations, each at its moment.
pub type Observed = &'static [(u64, Told)];

/// What a table tells of a regular file.
pub fn file(size: u64) -> Meta {
    Meta {
        kind: Kind::File,
        size,
        mtime_ms: 0,
    }
}

fn file_told(size: Option<u64>) -> Option<Meta> {
    match size {
        Some(size) => Some(file(size)),
        None => None,
    }
}

pub fn pairs_of(rt: &impl Abort, alloc: Global, told: Told) -> Pairs {
    let mut pairs = Vec::new(alloc);
    for (path, size) in told {
        let path = RelPath::read(alloc, path).expect(rt, "a path");
        pairs.push((path, file_told(*size))).expect(rt, "memory");
    }
    Pairs::new(pairs)
}

/// An observation of one path.
pub fn pair(rt: &impl Abort, alloc: Global, path: &str, state: Option<Meta>) -> Pairs {
    let mut pairs = Vec::new(alloc);
    let path = RelPath::read(alloc, path).expect(rt, "a path");
    pairs.push((path, state)).expect(rt, "memory");
    Pairs::new(pairs)
}

/// All of the root, or what stands below the path.
pub fn part_of(rt: &impl Abort, alloc: Global, top: Option<&str>) -> Subtree {
    match top {
        Some(top) => Subtree::Below(RelPath::read(alloc, top).expect(rt, "a path")),
        None => Subtree::Whole,
    }
}

/// What a reading of the root, or of what stands below the path, found.
pub fn listing_of(rt: &impl Abort, alloc: Global, top: Option<&str>, found: Found) -> Listing {
    let mut listing = Listing::new(alloc, part_of(rt, alloc, top));
    for (path, size) in found {
        let path = RelPath::read(alloc, path).expect(rt, "a path");
        listing.add(path, file(*size)).expect(rt, "an entry");
    }
    listing
}

/// A view of root 1 in incarnation 1, whose first listing found this at moment 10.
pub fn ready_with(rt: &impl Abort, alloc: Global, found: Found) -> View {
    let mut view = View::new(alloc, 1, 1);
    let listing = listing_of(rt, alloc, None, found);
    view.recrawl(alloc, 10, 0, &listing).expect(rt, "a recrawl");
    drop(listing);
    view
}

/// The view takes an observation at this moment.
pub fn observe_at(rt: &impl Abort, alloc: Global, view: &mut View, moment: u64, told: Told) {
    let pairs = pairs_of(rt, alloc, told);
    view.observe(alloc, moment, &pairs)
        .expect(rt, "an observation");
    drop(pairs);
}

/// The view takes these observations.
pub fn observe(rt: &impl Abort, alloc: Global, view: &mut View, observed: Observed) {
    for (moment, told) in observed {
        observe_at(rt, alloc, view, *moment, told);
    }
}

/// A view whose first listing found this, and which then took these observations.
pub fn observed(rt: &impl Abort, alloc: Global, found: Found, observed: Observed) -> View {
    let mut view = ready_with(rt, alloc, found);
    observe(rt, alloc, &mut view, observed);
    view
}
