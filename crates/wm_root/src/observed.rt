//! What was observed of a root's paths since a reading of it began.
//! Definitions: specs/Overlays.antt. Tests: view_tests/src/views/overlays.rt.
ghost use Rattle.std.specs.Prelude.{◌≡◌, ◌≤◌, ◌⊎◌, [], length, false, true, IfOk, IfErr, OnOk, Option, unwrap_or};
ghost use Rattle.std.specs.BTreeMap.{IsOrdered};
ghost use Rattle.std.specs.FinMap.{find};
ghost use Rattle.wm_names.specs.Paths.{Path, path_cmp};
ghost use Rattle.wm_names.specs.declared.entry.Meta.{Meta as Metadata};
ghost use Rattle.wm_view.specs.HistoryLaws.{last_told};
ghost use Rattle.wm_root.specs.Overlays.{IsOverlaid, max_observed, overlaid_state};

use crate::overlay::overlay;
use std::alloc::Global;
use std::collections::BTreeMap;
use std::marker::Model;
use wm_disk::{NoMemory, Refusal};
use wm_names::{Meta, RelPath};
use wm_view::{Listing, Pairs};

/// The most paths whose observations are kept while a root is read.
pub const MAX_OBSERVED: usize = 65_536;

/// The last observation of each path since a reading began. It is incomplete once more than [`MAX_OBSERVED`] paths were
/// observed, or memory ran out; the reading then has to be done again. Contracts see the paths, each with what was observed last.
#[derive(Drop)]
pub struct Observed {
    states: BTreeMap<RelPath, Option<Meta>>,
    is_incomplete: bool,
}

impl Model for Observed {
    ghost use Rattle.std.specs.Prelude.{◌≤◌, length};
    ghost use Rattle.std.specs.BTreeMap.{IsOrdered as IsOrderedHere};
    ghost use Rattle.wm_names.specs.Paths.{path_cmp as path_cmp_here};
    ghost use Rattle.wm_root.specs.Overlays.{Noted, max_observed as max_observed_here};

    ghost Value = { Noted };

    ghost view = { λ o. record { states = o.states.entries; incomplete = o.is_incomplete } };

    ghost invariant = { λ o. IsOrderedHere path_cmp_here o.states };
}

impl Observed {
    /// Nothing was observed yet.
    pub fn new(alloc: Global) -> Observed
        ensures { (result.states ≡ []) × (result.incomplete ≡ false) }
    {
        Observed {
            states: BTreeMap::new(alloc),
            is_incomplete: false,
        }
    }

    /// Whether an observation was left out, so that the reading has to be done again.
    pub fn is_incomplete(&self) -> bool
        ensures { result ≡ self.now.incomplete }
    {
        self.is_incomplete
    }

    /// Notes what was observed; of several pairs of one path the last counts. It is incomplete from then on if more than
    /// [`MAX_OBSERVED`] paths were observed, or memory ran out.
    pub fn note(&mut self, alloc: Global, pairs: &Pairs)
        ensures kept { self.new.incomplete ≡ false → (p : Path) (read : Option Metadata) → overlaid_state self.new p read ≡ last_told pairs.now p (overlaid_state self.old p read) }
        ensures complete { self.new.incomplete ≡ false → (self.old.incomplete ≡ false) × (length self.new.states ≤ max_observed) }
    {
        if self.is_incomplete {
            return;
        }
        let noted = note_all(&mut self.states, pairs.as_slice());
        if noted.is_err() || self.states.len() > MAX_OBSERVED {
            self.give_up(alloc);
        }
    }

    /// An observation was left out: the reading has to be done again.
    pub fn give_up(&mut self, alloc: Global)
        ensures { self.new.incomplete ≡ true }
    {
        self.states = BTreeMap::new(alloc);
        self.is_incomplete = true;
    }

    /// The listing of the reading, with what was observed since it began: of each path of the listing's part what was observed
    /// last, and else what was read. `BadClock` if an observation was left out: the reading has to be done again; and `NoMemory`.
    pub fn overlaid(self, alloc: Global, listing: Listing) -> Result<Listing, Refusal>
        ensures ok { IfOk result (λ l. (self.incomplete ≡ false) × IsOverlaid self listing l) }
        ensures refused { IfErr result (λ e. ((e ≡ Refusal.BadClock) × (self.incomplete ≡ true)) ⊎ ((e ≡ Refusal.NoMemory) × (self.incomplete ≡ false))) }
    {
        let Observed {
            states,
            is_incomplete,
        } = self;
        if is_incomplete {
            return Err(Refusal::BadClock);
        }
        if states.len() == 0 {
            return Ok(listing);
        }
        let overlaid = overlay(alloc, states, &listing)?;
        Ok(overlaid)
    }
}

/// Notes each pair in turn. Without memory some are left out.
fn note_all(
    states: &mut BTreeMap<RelPath, Option<Meta>>,
    pairs: &[(RelPath, Option<Meta>)],
) -> Result<(), NoMemory>
    requires { IsOrdered path_cmp states.old }
    ensures kept { OnOk result ((p : Path) (read : Option Metadata) → unwrap_or (find path_cmp p states.new.entries) read ≡ last_told pairs.now p (unwrap_or (find path_cmp p states.old.entries) read)) }
    ensures ordered { IsOrdered path_cmp states.new }
{
    for pair in pairs {
        let path = pair.0.copy()?;
        states.insert(path, pair.1)?;
    }
    Ok(())
}
