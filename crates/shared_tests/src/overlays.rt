//! Listings with what was observed while they were read.
use crate::checks::check;
use std::alloc::Global;
use std::process::Abort;
use wm_disk::Refusal;
use wm_names::{Kind, Meta, RelPath, Subtree};
use wm_root::{MAX_OBSERVED, Observed};
use wm_view::{Listing, Pairs};

/// Paths, each with the size of the file that is there, or with `None`.
type Told = &'static [(&'static str, Option<u64>)];

/// Paths, each with the size of the file that is there.
type Found = &'static [(&'static str, u64)];

/// What a table tells of a regular file.
fn file(size: u64) -> Meta {
    Meta {
        kind: Kind::File,
        size,
        mtime_ms: 0,
    }
}

fn file_told(size: Option<u64>) -> Option<Meta> {
    match size {
        Some(size) => Some(file(size)),
        None => None,
    }
}

fn pairs_of(rt: &impl Abort, alloc: Global, told: Told) -> Pairs {
    let mut pairs = Vec::new(alloc);
    for (path, size) in told {
        let path = RelPath::read(alloc, path).expect(rt, "a path");
        pairs.push((path, file_told(*size))).expect(rt, "memory");
    }
    Pairs::new(pairs)
}

/// All of the root, or what stands below the path.
fn part_of(rt: &impl Abort, alloc: Global, top: Option<&str>) -> Subtree {
    match top {
        Some(top) => Subtree::Below(RelPath::read(alloc, top).expect(rt, "a path")),
        None => Subtree::Whole,
    }
}

/// What a reading of the root, or of what stands below the path, found.
fn listing_of(rt: &impl Abort, alloc: Global, top: Option<&str>, found: Found) -> Listing {
    let mut listing = Listing::new(alloc, part_of(rt, alloc, top));
    for (path, size) in found {
        let path = RelPath::read(alloc, path).expect(rt, "a path");
        listing.add(path, file(*size)).expect(rt, "an entry");
    }
    listing
}

/// What is read of a part, what is observed meanwhile, and the listing that is right at the end.
struct Row {
    shows: &'static str,
    part: Option<&'static str>,
    read: Found,
    observed: &'static [Told],
    listed: Found,
}

const ROWS: &[Row] = &[
    Row {
        shows: "nothing is observed",
        part: None,
        read: &[("a", 1), ("b", 2)],
        observed: &[],
        listed: &[("a", 1), ("b", 2)],
    },
    Row {
        shows: "a file is away only while it is read",
        part: None,
        read: &[("b", 2)],
        observed: &[&[("a", Some(1))]],
        listed: &[("a", 1), ("b", 2)],
    },
    Row {
        shows: "a file is there only while it is read",
        part: None,
        read: &[("a", 1), ("t", 9)],
        observed: &[&[("t", None)]],
        listed: &[("a", 1)],
    },
    Row {
        shows: "a file is written after it was read",
        part: None,
        read: &[("a", 1)],
        observed: &[&[("a", Some(5))]],
        listed: &[("a", 5)],
    },
    Row {
        shows: "the last pair of a path counts, and the last observation",
        part: None,
        read: &[("a", 1), ("b", 1), ("c", 1)],
        observed: &[
            &[("a", None), ("a", Some(2)), ("b", Some(3))],
            &[("b", None), ("c", None)],
            &[("c", Some(4))],
        ],
        listed: &[("a", 2), ("c", 4)],
    },
    Row {
        shows: "what stands outside the part is left out",
        part: Some("x"),
        read: &[("x/a", 1)],
        observed: &[&[
            ("x", Some(7)),
            ("y", Some(7)),
            ("xy/a", Some(7)),
            ("x/b", Some(2)),
            ("x/c/d", Some(3)),
        ]],
        listed: &[("x/a", 1), ("x/b", 2), ("x/c/d", 3)],
    },
];

/// What these observations leave noted.
fn noted(rt: &impl Abort, alloc: Global, observed: &[Told]) -> Observed {
    let mut noted = Observed::new(alloc);
    for told in observed {
        let pairs = pairs_of(rt, alloc, told);
        noted.note(alloc, &pairs);
        drop(pairs);
    }
    noted
}

fn is_listed(entry: &(RelPath, Meta), other: &(RelPath, Meta)) -> bool {
    entry.0.same(&other.0) && entry.1 == other.1
}

/// Whether two listings are of one part and list the same.
fn are_same(one: &Listing, other: &Listing) -> bool {
    if one.files().len() != other.files().len() {
        return false;
    }
    for (entry, found) in one.files().iter().zip(other.files()) {
        if !is_listed(entry, found) {
            return false;
        }
    }
    one.subtree().is_whole() == other.subtree().is_whole()
}

fn meets(rt: &impl Abort, alloc: Global, row: &Row) -> bool {
    let noted = noted(rt, alloc, row.observed);
    let read = listing_of(rt, alloc, row.part, row.read);
    let overlaid = noted.overlaid(alloc, read).expect(rt, "a listing");
    let listed = listing_of(rt, alloc, row.part, row.listed);
    let met = are_same(&overlaid, &listed);
    drop(listed);
    drop(overlaid);
    met
}

#[test]
fn listings_have_what_was_observed_meanwhile(rt: HostRuntime) {
    for row in ROWS {
        check!(rt; meets(&rt, rt.alloc(), row), row.shows);
    }
}

/// An observation that so many paths aren't there.
fn many(rt: &impl Abort, alloc: Global, count: usize) -> Pairs {
    let mut pairs = Vec::new(alloc);
    for number in 0..count {
        let path = format!(in alloc; "{number}").expect(rt, "memory");
        let path = RelPath::read(alloc, path.as_str()).expect(rt, "a path");
        pairs.push((path, None)).expect(rt, "memory");
    }
    Pairs::new(pairs)
}

/// What a reading is answered beside an observation of so many paths.
fn answered(rt: &impl Abort, alloc: Global, count: usize) -> Result<usize, Refusal> {
    let mut noted = Observed::new(alloc);
    let pairs = many(rt, alloc, count);
    noted.note(alloc, &pairs);
    noted.note(alloc, &pairs);
    drop(pairs);
    let read = listing_of(rt, alloc, None, &[("a", 1), ("7", 2)]);
    let listing = noted.overlaid(alloc, read)?;
    let count = listing.files().len();
    drop(listing);
    Ok(count)
}

#[test]
fn more_observed_paths_have_the_reading_done_again(rt: HostRuntime) {
    let alloc = rt.alloc();
    assert_eq!(rt; answered(&rt, alloc, MAX_OBSERVED), Ok(1));
    assert_eq!(rt;
        answered(&rt, alloc, MAX_OBSERVED + 1),
        Err(Refusal::BadClock)
    );
}
