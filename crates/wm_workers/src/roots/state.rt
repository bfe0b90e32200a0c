//! What lies under the lock of the watched roots: the table, the workers that are still to be started, and whose turn it is.
//! Definitions: specs/FollowedRoots.antt, specs/BegunRoots.antt, specs/Turns.antt. Tests: serve_tests/src/sessions.rt.
ghost use Rattle.std.specs.Prelude.{◌≡◌, false, MatchResult};
ghost use Rattle.wm_workers.specs.BegunRoots.{BeginsTable};
ghost use Rattle.wm_workers.specs.FollowedRoots.{FillsFrom, FollowsCommand, IsStepOf, ended_after, left_to_root, numbered_roots};

use super::begun::begin_table;
use super::followed::{Followed, ends_root, fill_root, follow_command};
use super::table::{RootRow, RootTable};
use super::turn::Following;
use crate::unstarted::UnstartedWorkers;
use std::alloc::Global;
use wm_disk::NoMemory;
use wm_registry::Command;

/// The watched roots under their lock.
#[derive(Drop)]
pub struct RootsState<H> {
    pub(crate) table: RootTable<H>,
    pub(crate) unstarted: UnstartedWorkers,
    pub(crate) turn: Following,
    /// The number of the last command that took a root out.
    pub(crate) ended: u64,
}

impl<H: Drop> RootsState<H> {
    /// No root, and no worker to start. `NoMemory`.
    pub(crate) fn new(alloc: Global) -> Result<RootsState<H>, NoMemory> {
        let table = RootTable::new(alloc)?;
        Ok(RootsState {
            table,
            unstarted: UnstartedWorkers::new(alloc),
            turn: Following::at(0, 0),
            ended: 0,
        })
    }

    /// The rows of a registry of this incarnation stand in the table, after so many commands. The next root is to have at least this
    /// number.
    pub(crate) fn begin(&mut self, all: Vec<RootRow<H>>, next: u64, incarnation: u64, count: u64)
        ensures table { BeginsTable all.items next self.old.table self.old.unstarted self.new.table self.new.unstarted }
        ensures turn { self.new.turn ≡ record { incarnation = incarnation; count = count; is_taken = false } }
        ensures ended { self.new.ended ≡ self.old.ended }
    {
        self.turn = Following::at(incarnation, count);
        begin_table(&mut self.table, &mut self.unstarted, all, next);
    }

    /// Does to the table what the accepted command of a number did to the roots of the registry: what is left to do at a root.
    pub(crate) fn follow(
        &mut self,
        number: u64,
        command: Command,
        made: Option<(u64, H)>,
    ) -> Followed<H>
        ensures follows { FollowsCommand command made self.old.table self.old.unstarted self.new.table self.new.unstarted }
        ensures step { IsStepOf command (numbered_roots self.old.table) (numbered_roots self.new.table) }
        ensures left { result ≡ left_to_root command self.old.table.roots }
        ensures ended { self.new.ended ≡ ended_after command number self.old.ended }
        ensures turn { self.new.turn ≡ self.old.turn }
    {
        if ends_root(&command) {
            self.ended = number;
        }
        follow_command(&mut self.table, &mut self.unstarted, command, made)
    }

    /// Gives the row of this number the root of this row if it has none, and has the workers started. `NoMemory`: nothing changes then.
    pub(crate) fn fill(&mut self, row: RootRow<H>) -> Result<(), NoMemory>
        ensures filled { MatchResult result (λ _. FillsFrom row self.old.table self.old.unstarted self.new.table self.new.unstarted) (λ _. (self.new.table ≡ self.old.table) × (self.new.unstarted ≡ self.old.unstarted)) }
        ensures same { (self.new.turn ≡ self.old.turn) × (self.new.ended ≡ self.old.ended) }
    {
        let RootRow {
            path: _,
            number,
            watched,
        } = row;
        match watched {
            Some(watched) => fill_root(&mut self.table, &mut self.unstarted, number, watched),
            None => Ok(()),
        }
    }
}
