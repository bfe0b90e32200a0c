//! The roots of a registry as they begin: each in a row of the table.
//! Definitions: specs/BegunRoots.antt. Tests: serve_tests/src/restarts.rt.
ghost use Rattle.wm_workers.specs.BegunRoots.{BeginsTable, PutsAll};

use super::followed::put_root;
use super::table::{RootRow, RootTable};
use crate::unstarted::UnstartedWorkers;

/// Puts the rows into the table, one after the other.
fn put_all<H: Drop>(
    roots: &mut RootTable<H>,
    unstarted: &mut UnstartedWorkers,
    all: Vec<RootRow<H>>,
)
    ensures { PutsAll all.items roots.old unstarted.old roots.new unstarted.new }
{
    for row in all {
        put_root(roots, unstarted, row);
    }
}

/// Puts the rows of a registry into the table, whose next root is to have at least this number.
pub fn begin_table<H: Drop>(
    roots: &mut RootTable<H>,
    unstarted: &mut UnstartedWorkers,
    all: Vec<RootRow<H>>,
    next: u64,
)
    ensures { BeginsTable all.items next roots.old unstarted.old roots.new unstarted.new }
{
    put_all(roots, unstarted, all);
    roots.begin_at(next);
}
