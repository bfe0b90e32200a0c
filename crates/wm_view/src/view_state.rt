//! What each operation of a view does: its refusals in their order, the next tick and the floors.
//! What is known of the paths is left to known_paths.rt.
//! Definitions: specs/ViewStates.antt, specs/Steps.antt. Tests: view_tests/src/views.
ghost use Rattle.std.specs.Prelude.{◌≡◌, ℕ, ◌+◌, ◌<◌, suc, true, None, Option, OnOk, OnErr, IfOk, fold, max, ◌&&◌, ◌==◌};
ghost use Rattle.wm_disk.specs.Counters.{max_counter};
ghost use Rattle.wm_names.specs.Entries.{is_whole};
ghost use Rattle.std.specs.BTreeMap.{IsOrdered};
ghost use Rattle.wm_names.specs.Paths.{path_cmp};
ghost use Rattle.wm_view.specs.Changes.{IsPlan};
ghost use Rattle.wm_view.specs.Files.{Files, IsMap};
ghost use Rattle.wm_view.specs.Histories.{later_of as later_of_lem, refuse_if, new_history};
ghost use Rattle.wm_view.specs.KnownPaths.{AreAt, AreMadeAt, after_changes, told};
ghost use Rattle.wm_view.specs.Steps.{next_in, spent_in};
ghost use Rattle.wm_view.specs.Summaries.{summary, changed_since, changed_from_moment, existing_now};
ghost use Rattle.wm_view.specs.ViewStates.{summary_of, IsSoundState, IsDoneOrRefused};
ghost use Rattle.wm_view.specs.Views.{IsStepped};
ghost use Rattle.wm_view.specs.declared.op.Op.TheVariants.{Observe, Recrawl, AgeOut};

use crate::changes::{last_told, told_changes};
use crate::known::Known;
use crate::known_paths::KnownPaths;
use crate::listing::Listing;
use crate::op::Pairs;
use std::alloc::Global;
use std::collections::BTreeMap;
use wm_disk::{MAX_COUNTER, NoMemory, Refusal};
use wm_names::RelPath;

/// The most pairs of an observation.
pub const MAX_PAIRS: usize = 65_536;

/// What a view keeps: the summary of its history, and beside it the order of change.
#[derive(Drop)]
pub(crate) struct ViewState {
    pub incarnation: u64,
    pub root: u64,
    pub ready_moment: u64,
    pub tick: u64,
    pub floor: u64,
    pub moment_floor: Option<u64>,
    /// The latest moment of a tick.
    pub latest: u64,
    /// The most by which a tick's moment was earlier than one of an earlier tick: a clock may go back.
    pub fall: u64,
    pub paths: KnownPaths,
}

/// Whether a listing may be the first: of the whole root, and begun before anything was there.
fn is_first(begun_at: u64, listing: &Listing) -> bool
    ensures { result ≡ (is_whole listing.now.subtree && (begun_at == 0)) }
{
    listing.subtree().is_whole() && begun_at == 0
}

/// The greatest of the floor and the last changes.
fn highest(floor: u64, aged: &[(RelPath, Known)]) -> u64
    ensures { result ≡ fold (λ n e. max n e.1.last) floor aged.now }
{
    let mut highest = floor;
    for entry in aged {
        highest = highest.max(entry.1.last);
    }
    highest
}

/// The greater of a moment, if there is one, and another.
fn later_of(moment: Option<u64>, other: u64) -> Option<u64>
    ensures { result ≡ later_of_lem moment other }
{
    match moment {
        Some(moment) => Some(moment.max(other)),
        None => Some(other),
    }
}

/// The greatest of the moment floor, if there is one, and the moments of the last changes.
fn latest_of(floor: Option<u64>, aged: &[(RelPath, Known)]) -> Option<u64>
    ensures { result ≡ fold (λ (o : Option ℕ) e. later_of_lem o e.1.moment) floor aged.now }
{
    let mut latest = floor;
    for entry in aged {
        latest = later_of(latest, entry.1.moment);
    }
    latest
}

impl ViewState {
    pub(crate) fn new(alloc: Global, incarnation: u64, root: u64) -> ViewState
        ensures begun { summary_of result ≡ summary (new_history incarnation root) }
        ensures kept { IsSoundState result }
    {
        ViewState {
            incarnation,
            root,
            ready_moment: 0,
            tick: 0,
            floor: 0,
            moment_floor: None,
            latest: 0,
            fall: 0,
            paths: KnownPaths::new(alloc),
        }
    }

    /// Makes a tick of these changes, which were made at the moment.
    fn grow(
        &mut self,
        alloc: Global,
        moment: u64,
        changes: BTreeMap<RelPath, Known>,
    ) -> Result<(), NoMemory>
        requires kept { IsSoundState self.old }
        requires left { self.old.tick < max_counter }
        requires ready { 0 < self.old.tick }
        requires at { AreAt (self.old.tick + 1) changes.entries }
        requires made { AreMadeAt moment changes.entries }
        requires ordered { IsOrdered path_cmp changes }
        ensures ok { OnOk result (summary_of self.new ≡ record (summary_of self.old) { ready = true; tick = suc self.old.tick; known = after_changes (told self.old.paths) changes.entries }) }
        ensures err { OnErr result (summary_of self.new ≡ summary_of self.old) }
        ensures kept { IsSoundState self.new }
    {
        self.paths.change(alloc, self.tick + 1, changes)?;
        self.tick += 1;
        self.fall = self.fall.max(self.latest.saturating_sub(moment));
        self.latest = self.latest.max(moment);
        Ok(())
    }

    /// Makes a tick of these changes, which were made at the moment, if there are any.
    fn next(
        &mut self,
        alloc: Global,
        moment: u64,
        changes: BTreeMap<RelPath, Known>,
    ) -> Result<(), Refusal>
        requires kept { IsSoundState self.old }
        requires ready { 0 < self.old.tick }
        requires at { AreAt (self.old.tick + 1) changes.entries }
        requires made { AreMadeAt moment changes.entries }
        requires ordered { IsOrdered path_cmp changes }
        ensures moved { (files : Files) → IsMap files → IsPlan (told self.old.paths) (self.old.tick + 1) moment files changes.entries
            → IsDoneOrRefused (refuse_if (spent_in (summary_of self.old) files) Refusal.Exhausted None) (next_in (summary_of self.old) moment files) (summary_of self.old) result (summary_of self.new) }
        ensures kept { IsSoundState self.new }
    {
        if changes.len() < 1 {
            return Ok(());
        }
        if self.tick >= MAX_COUNTER {
            return Err(Refusal::Exhausted);
        }
        self.grow(alloc, moment, changes)?;
        Ok(())
    }

    /// As `View::observe`.
    pub(crate) fn observe(
        &mut self,
        alloc: Global,
        moment: u64,
        pairs: &Pairs,
    ) -> Result<(), Refusal>
        requires { IsSoundState self.old }
        ensures moved { IsStepped (summary_of self.old) (Observe moment pairs.now) result (summary_of self.new) }
        ensures kept { IsSoundState self.new }
    {
        if self.tick == 0 {
            return Err(Refusal::NotReady);
        }
        if pairs.as_slice().len() > MAX_PAIRS {
            return Err(Refusal::TooMany);
        }
        let told = last_told(alloc, pairs.as_slice())?;
        let changes = told_changes(alloc, &self.paths, self.tick + 1, moment, &told)?;
        self.next(alloc, moment, changes)
    }

    /// A recrawl of a view that isn't ready: the first whole listing.
    fn begin(
        &mut self,
        alloc: Global,
        moment: u64,
        begun_at: u64,
        listing: &Listing,
    ) -> Result<(), Refusal>
        requires kept { IsSoundState self.old }
        requires begins { self.old.tick ≡ 0 }
        ensures moved { IsStepped (summary_of self.old) (Recrawl moment begun_at listing.now) result (summary_of self.new) }
        ensures kept { IsSoundState self.new }
    {
        if !is_first(begun_at, listing) {
            return Err(Refusal::NotReady);
        }
        self.paths = KnownPaths::first(alloc, moment, listing.files())?;
        self.tick = 1;
        self.ready_moment = moment;
        self.latest = moment;
        self.fall = 0;
        Ok(())
    }

    /// As `View::recrawl`.
    pub(crate) fn recrawl(
        &mut self,
        alloc: Global,
        moment: u64,
        begun_at: u64,
        listing: &Listing,
    ) -> Result<(), Refusal>
        requires { IsSoundState self.old }
        ensures moved { IsStepped (summary_of self.old) (Recrawl moment begun_at listing.now) result (summary_of self.new) }
        ensures kept { IsSoundState self.new }
    {
        if self.tick == 0 {
            return self.begin(alloc, moment, begun_at, listing);
        }
        if begun_at < self.floor || self.tick < begun_at {
            return Err(Refusal::BadClock);
        }
        let changes = self
            .paths
            .recrawled_changes(alloc, begun_at, self.tick + 1, moment, listing)?;
        self.next(alloc, moment, changes)
    }

    /// As `View::age_out`.
    pub(crate) fn age_out(&mut self, alloc: Global, time: u64, age: u64) -> Result<(), Refusal>
        requires { IsSoundState self.old }
        ensures moved { IsStepped (summary_of self.old) (AgeOut time age) result (summary_of self.new) }
        ensures kept { IsSoundState self.new }
    {
        if self.tick == 0 {
            return Err(Refusal::NotReady);
        }
        let aged = self.paths.gone_for(alloc, time, age)?;
        self.floor = highest(self.floor, &aged);
        self.moment_floor = latest_of(self.moment_floor, &aged);
        self.paths.forget(aged);
        Ok(())
    }

    /// As `View::changed_after`.
    pub(crate) fn changed_after(
        &self,
        alloc: Global,
        tick: u64,
    ) -> Result<Vec<(RelPath, Known)>, NoMemory>
        requires { IsSoundState self.now }
        ensures { IfOk result (λ v. v.items ≡ changed_since (summary_of self.now) tick) }
    {
        self.paths.changed_after(alloc, tick)
    }

    /// As `View::changed_from_moment`. The search ends at a change that is so early that none behind it
    /// can be late enough.
    pub(crate) fn changed_from_moment(
        &self,
        alloc: Global,
        moment: u64,
    ) -> Result<Vec<(RelPath, Known)>, NoMemory>
        requires { IsSoundState self.now }
        ensures { IfOk result (λ v. v.items ≡ changed_from_moment (summary_of self.now) moment) }
    {
        let bound = moment.saturating_sub(self.fall);
        self.paths.changed_from_moment(alloc, moment, bound)
    }

    /// As `View::existing`.
    pub(crate) fn existing(&self, alloc: Global) -> Result<Vec<(RelPath, Known)>, NoMemory>
        requires { IsSoundState self.now }
        ensures { IfOk result (λ v. v.items ≡ existing_now (summary_of self.now)) }
    {
        self.paths.existing(alloc)
    }
}
