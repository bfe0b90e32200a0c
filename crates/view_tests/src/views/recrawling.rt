//! Listings that a view takes in after the first one.
use super::{Shown, stands};
use crate::checks::check;
use crate::making::{Found, Observed, listing_of, observed};
use std::alloc::Global;
use std::process::Abort;
use wm_view::View;

/// What is read, from which tick on, and what it finds; the tick then, and what has changed after tick 3.
type Crawl = (Option<&'static str>, u64, Found, u64, &'static [Shown]);

const RECRAWLS: &[Crawl] = &[
    (
        Some("x"),
        3,
        &[("x/b", 1)],
        4,
        &[
            ("x/a", false, 2, (1, 10), (4, 40)),
            ("x/n", false, 1, (2, 20), (4, 40)),
        ],
    ),
    (
        Some("x"),
        1,
        &[("x/b", 5)],
        4,
        &[("x/b", true, 5, (1, 10), (4, 40))],
    ),
    (
        Some("x"),
        2,
        &[],
        4,
        &[
            ("x/b", false, 1, (1, 10), (4, 40)),
            ("x/n", false, 1, (2, 20), (4, 40)),
        ],
    ),
    (
        Some("x"),
        3,
        &[("x/n", 1), ("x/b", 1), ("x/a", 1)],
        4,
        &[("x/a", true, 1, (1, 10), (4, 40))],
    ),
    (Some("x"), 2, &[("x/n", 1), ("x/b", 1), ("x/a", 1)], 3, &[]),
    (Some("y/c"), 3, &[], 3, &[]),
    (
        None,
        3,
        &[
            ("y/c", 1),
            ("xy", 1),
            ("x/n", 1),
            ("x/b", 1),
            ("x/a", 2),
            ("x", 1),
        ],
        3,
        &[],
    ),
    (
        None,
        1,
        &[("x/a", 9), ("new", 7)],
        4,
        &[
            ("new", true, 7, (4, 40), (4, 40)),
            ("x", false, 1, (1, 10), (4, 40)),
            ("x/b", false, 1, (1, 10), (4, 40)),
            ("xy", false, 1, (1, 10), (4, 40)),
            ("y/c", false, 1, (1, 10), (4, 40)),
        ],
    ),
    (
        None,
        0,
        &[("x/a", 9), ("x/b", 9), ("new", 7)],
        4,
        &[("new", true, 7, (4, 40), (4, 40))],
    ),
];

/// What the first listing found.
const FIRST: Found = &[("x", 1), ("x/a", 1), ("x/b", 1), ("xy", 1), ("y/c", 1)];

/// What was observed then, up to tick 3.
const THEN: Observed = &[(20, &[("x/n", Some(1))]), (30, &[("x/a", Some(2))])];

/// Whether a recrawl makes this of a view.
fn makes(rt: &impl Abort, alloc: Global, view: &mut View, row: &Crawl) -> bool {
    let (top, begun_at, found, tick, shown) = *row;
    let listing = listing_of(rt, alloc, top, found);
    view.recrawl(alloc, 40, begun_at, &listing)
        .expect(rt, "a recrawl");
    drop(listing);
    stands(rt, alloc, view, (tick, 0), 3, shown)
}

/// Whether it makes that of such a view.
fn recrawls_so(rt: &impl Abort, alloc: Global, row: &Crawl) -> bool {
    let mut view = observed(rt, alloc, FIRST, THEN);
    let is_so = makes(rt, alloc, &mut view, row);
    drop(view);
    is_so
}

#[test]
fn recrawls_what_did_not_change_since(rt: HostRuntime) {
    for (i, row) in RECRAWLS.iter().enumerate() {
        check!(rt; recrawls_so(&rt, rt.alloc(), row), i);
    }
}
