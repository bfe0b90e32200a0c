//! The paths below a listing's folder that it leaves out: gone, unless they changed since it began.
//! Definitions: specs/Changes.antt, specs/KnownPaths.antt.
//! Tests: view_tests/src/views/recrawling.rt.
ghost use Rattle.std.specs.Prelude.{◌≡◌, ◌++◌, ◌∷◌, [], OnOk, IfOk, IfSome, Some};
ghost use Rattle.std.specs.BTreeMap.{IsOrdered};
ghost use Rattle.std.specs.BTreeMap.Range.{IsLeBy, IsLtBy, entries_between};
ghost use Rattle.std.specs.Range.Bound.{IsForward, bound_map};
ghost use Rattle.std.specs.FinMap.{find};
ghost use Rattle.wm_names.specs.Paths.{Path, path_cmp};
ghost use Rattle.wm_view.specs.Changes.{becomes_at, gone_change as gone_change_lem, is_unlisted as is_unlisted_lem, said, told_change};
ghost use Rattle.wm_view.specs.Files.{IsMap};
ghost use Rattle.wm_view.specs.KnownPaths.{IsSound, told};
ghost use Rattle.wm_view.specs.Steps.{known_or};

use crate::changes::{change_of, listed_changes};
use crate::files::find;
use crate::known::Known;
use crate::known_paths::KnownPaths;
use crate::listing::Listing;
use std::alloc::Global;
use std::collections::BTreeMap;
use std::ops::Bound;
use wm_disk::{NoMemory, Refusal};
use wm_names::{RelPath, Subtree};

/// Whether a path exists that the listing may speak of, and it isn't listed.
fn is_unlisted(begun_at: u64, listing: &Listing, path: &RelPath, known: &Known) -> bool
    ensures { result ≡ is_unlisted_lem begun_at listing.now path.now known.now }
{
    known.last > 0
        && known.exists
        && known.last <= begun_at
        && listing.subtree().covers(path)
        && find(listing.files(), path).is_none()
}

/// What becomes of a path that isn't listed, where the listing may speak of it and anything does.
fn gone_change(
    begun_at: u64,
    listing: &Listing,
    tick: u64,
    moment: u64,
    path: &RelPath,
    known: &Known,
) -> Option<Known>
    ensures { result ≡ gone_change_lem begun_at listing.now tick moment path.now known.now }
{
    if is_unlisted(begun_at, listing, path, known) {
        change_of(*known, tick, moment, None)
    } else {
        None
    }
}

/// The path that stands behind each below the folder: the folder's with a `0`, the byte after the slash, at
/// its end. Nothing where that would be too long.
fn end_below(alloc: Global, top: &RelPath) -> Result<Option<RelPath>, NoMemory>
    ensures { IfOk result (λ o. IfSome o (λ end. end ≡ top.now ++ 48 ∷ [])) }
{
    let mut text = String::from_str(alloc, top.as_str())?;
    text.push_str("0")?;
    match RelPath::read(alloc, &text) {
        Ok(end) => Ok(Some(end)),
        Err(Refusal::NoMemory) => Err(NoMemory),
        Err(_) => Ok(None),
    }
}

impl KnownPaths {
    /// Adds what becomes of each path between the bounds that isn't listed, where the listing may speak of it and
    /// anything does.
    fn add_between(
        &self,
        bounds: (Bound<&RelPath>, Bound<&RelPath>),
        begun_at: u64,
        listing: &Listing,
        tick: u64,
        moment: u64,
        changes: &mut BTreeMap<RelPath, Known>,
    ) -> Result<(), NoMemory>
        requires sound { IsSound self.now }
        requires forward { IsForward (IsLeBy path_cmp) (IsLtBy path_cmp) (bound_map (λ p. p.now) bounds.0) (bound_map (λ p. p.now) bounds.1) }
        requires ordered { IsOrdered path_cmp changes.old }
        ensures value { OnOk result ((p : Path) → find path_cmp p changes.new.entries ≡ becomes_at (gone_change_lem begun_at listing.now tick moment) (entries_between path_cmp (bound_map (λ p. p.now) bounds.entry.0) (bound_map (λ p. p.now) bounds.entry.1) self.now.known.entries) changes.old.entries p) }
        ensures ordered { OnOk result (IsOrdered path_cmp changes.new) }
    {
        for (path, known) in self.known.range(bounds) {
            if let Some(known) = gone_change(begun_at, listing, tick, moment, path, known) {
                let path = path.copy()?;
                changes.insert(path, known)?;
            }
        }
        Ok(())
    }

    /// Adds what becomes of each path that isn't listed, where the listing may speak of it and anything does.
    pub(crate) fn add_unlisted(
        &self,
        alloc: Global,
        begun_at: u64,
        listing: &Listing,
        tick: u64,
        moment: u64,
        changes: &mut BTreeMap<RelPath, Known>,
    ) -> Result<(), NoMemory>
        requires sound { IsSound self.now }
        requires ordered { IsOrdered path_cmp changes.old }
        ensures value { OnOk result ((p : Path) → find path_cmp p changes.new.entries ≡ becomes_at (gone_change_lem begun_at listing.now tick moment) (told self.now) changes.old.entries p) }
        ensures ordered { OnOk result (IsOrdered path_cmp changes.new) }
    {
        let top = match listing.subtree() {
            Subtree::Whole => {
                let all = (Bound::Unbounded, Bound::Unbounded);
                return self.add_between(all, begun_at, listing, tick, moment, changes);
            }
            Subtree::Below(top) => top,
        };
        match end_below(alloc, top)? {
            Some(end) => {
                let below = (Bound::Excluded(top), Bound::Excluded(&end));
                self.add_between(below, begun_at, listing, tick, moment, changes)
            }
            None => {
                let behind = (Bound::Excluded(top), Bound::Unbounded);
                self.add_between(behind, begun_at, listing, tick, moment, changes)
            }
        }
    }

    /// What becomes of each path at the tick by a listing that was read since `begun_at`, where anything does.
    pub(crate) fn recrawled_changes(
        &self,
        alloc: Global,
        begun_at: u64,
        tick: u64,
        moment: u64,
        listing: &Listing,
    ) -> Result<BTreeMap<RelPath, Known>, NoMemory>
        requires { IsSound self.now }
        ensures value { IfOk result (λ m. (p : Path) → find path_cmp p m.entries ≡ told_change (known_or (told self.now) p) tick moment (said (told self.now) begun_at listing.now p)) }
        ensures ordered { IfOk result (λ m. IsOrdered path_cmp m) }
        ensures once { OnOk result (IsMap listing.now.files) }
    {
        let mut changes = listed_changes(alloc, self, begun_at, tick, moment, listing.files())?;
        self.add_unlisted(alloc, begun_at, listing, tick, moment, &mut changes)?;
        Ok(changes)
    }
}
