//! Lists what changed after a tick or from a moment on, and what exists, the latest change first.
//! Definitions: specs/Summaries.antt. Tests: view_tests/src/views.
ghost use Rattle.std.specs.Prelude.{◌≡◌, ◌≤◌, ◌<◌, IfOk, true, false, Some, None, ℕ, nat_lt, nat_le, filter, ◌&&◌};
ghost use Rattle.std.specs.FinMap.{find};
ghost use Rattle.wm_disk.specs.Counters.{max_counter};
ghost use Rattle.wm_names.specs.Paths.{Path, path_cmp};
ghost use Rattle.wm_view.specs.Steps.{known_or};
ghost use Rattle.wm_view.specs.Summaries.{by_last};
ghost use Rattle.wm_view.specs.KnownPaths.{IsSound, IsUpTo, IsSearchBound, told, is_from, is_wanted as is_wanted_lem, known_there as known_there_lem, known_at};

use crate::known::Known;
use crate::known_paths::{KnownPaths, unknown};
use std::alloc::Global;
use wm_disk::{MAX_COUNTER, NoMemory};
use wm_names::RelPath;

/// Whether it changed after the tick, and exists where that is asked.
fn is_wanted(tick: u64, existing: bool, known: &Known) -> bool
    ensures { (p : Path) → result ≡ is_wanted_lem tick existing (p, known.now) }
{
    tick < known.last && (!existing || known.exists)
}

impl KnownPaths {
    /// What is known of the path, where the place is that of its last change.
    fn known_there(&self, place: &(u64, RelPath)) -> Option<Known>
        requires { IsSound self.now }
        ensures { result ≡ known_there_lem (find path_cmp place.now.1 (told self.now)) place.now.0 }
    {
        let known = self.known_or(&place.1);
        if known.last == 0 {
            return None;
        }
        if MAX_COUNTER.saturating_sub(known.last) != place.0 {
            return None;
        }
        Some(known)
    }

    /// What changed after the tick, in the order of change; where it is asked so, what exists alone.
    fn listed(
        &self,
        alloc: Global,
        tick: u64,
        existing: bool,
    ) -> Result<Vec<(RelPath, Known)>, NoMemory>
        requires { IsSound self.now }
        ensures { IfOk result (λ v. v.items ≡ filter (is_wanted_lem tick existing) (known_at (told self.now) self.now.order.keys)) }
    {
        let mut changed = Vec::new(alloc);
        for place in &self.order {
            if MAX_COUNTER.saturating_sub(place.0) <= tick {
                return Ok(changed);
            }
            if let Some(known) = self.known_there(place) {
                if is_wanted(tick, existing, &known) {
                    let path = place.1.copy()?;
                    changed.push((path, known))?;
                }
            }
        }
        Ok(changed)
    }

    /// What changed after the tick, the latest change first, at one tick in the order of the paths.
    pub(crate) fn changed_after(
        &self,
        alloc: Global,
        tick: u64,
    ) -> Result<Vec<(RelPath, Known)>, NoMemory>
        requires { IsSound self.now }
        ensures { IfOk result (λ v. (n : ℕ) → n ≤ max_counter → IsUpTo n (told self.now) → v.items ≡ by_last (filter (λ e. nat_lt tick e.1.last) (told self.now)) n) }
    {
        self.listed(alloc, tick, false)
    }

    /// What changed last at the moment or later, in the order of change. The search ends at the first
    /// change before the bound.
    fn listed_from(
        &self,
        alloc: Global,
        moment: u64,
        bound: u64,
    ) -> Result<Vec<(RelPath, Known)>, NoMemory>
        requires sound { IsSound self.now }
        requires ends { IsSearchBound bound moment (told self.now) }
        ensures { IfOk result (λ v. v.items ≡ filter (is_from moment) (known_at (told self.now) self.now.order.keys)) }
    {
        let mut changed = Vec::new(alloc);
        for place in &self.order {
            if let Some(known) = self.known_there(place) {
                if moment <= known.moment {
                    let path = place.1.copy()?;
                    changed.push((path, known))?;
                } else if known.moment < bound {
                    return Ok(changed);
                }
            }
        }
        Ok(changed)
    }

    /// What changed last at the moment or later, the latest change first, at one tick in the order of
    /// the paths.
    pub(crate) fn changed_from_moment(
        &self,
        alloc: Global,
        moment: u64,
        bound: u64,
    ) -> Result<Vec<(RelPath, Known)>, NoMemory>
        requires sound { IsSound self.now }
        requires ends { IsSearchBound bound moment (told self.now) }
        ensures { IfOk result (λ v. (n : ℕ) → n ≤ max_counter → IsUpTo n (told self.now) → v.items ≡ by_last (filter (λ e. nat_le moment e.1.moment) (told self.now)) n) }
    {
        self.listed_from(alloc, moment, bound)
    }

    /// What exists, in the same order.
    pub(crate) fn existing(&self, alloc: Global) -> Result<Vec<(RelPath, Known)>, NoMemory>
        requires { IsSound self.now }
        ensures { IfOk result (λ v. (n : ℕ) → n ≤ max_counter → IsUpTo n (told self.now) → v.items ≡ by_last (filter (λ e. e.1.exists) (told self.now)) n) }
    {
        self.listed(alloc, 0, true)
    }
}
