//! The names by which watched folders may be told. inotifywait follows a folder that is renamed, and those below it, but not each
//! of them: some are told by an old name from then on. Definitions: specs/Renames.antt. Tests: feed_tests/src/renames.rt.

ghost use Rattle.std.specs.Prelude.{◌≡◌, ◌≤◌, ◌<◌, length, nat_lt, slice_index_or, IfOk, MatchOption, OnOk};
ghost use Rattle.std.specs.List.{fold, list_any, position};
ghost use Rattle.std.specs.Str.{bytes_eq};
ghost use Rattle.wm_feed.specs.Batches.{entry_path};
ghost use Rattle.wm_feed.specs.Records.{tells_of};
ghost use Rattle.wm_feed.specs.Renames.{ArePlaces, StandsForMany, came_by, followed_by, has_departed as has_departed_lem, held_moved, is_place, joins as joins_lem, departed_by, nothing_renamed, renamed_to, with_ends, with_place};

use crate::batch::{path_in, path_of};
use crate::record::{Change, Told};
use std::alloc::Global;
use std::marker::Model;
use wm_disk::NoMemory;
use wm_names::RelPath;

/// The most renames that are kept, and the most folders that left and weren't seen to arrive.
const MAX_RENAMES: usize = 4_096;

const MAX_LEFT: usize = 1_024;

/// The most places that a name may stand for.
const MAX_PLACES: usize = 64;

/// A folder that left, and the word of its move.
#[derive(Drop)]
struct Departure {
    cookie: Vec<u8>,
    path: RelPath,
}

impl Model for Departure {
    ghost use Rattle.wm_feed.specs.Renames.{Departed};

    ghost Value = { Departed };

    ghost view = { λ d. record { cookie = d.cookie.items; path = d.path } };
}

impl Departure {
    /// A folder that left by a move of this word.
    fn new(alloc: Global, cookie: &[u8], path: RelPath) -> Result<Departure, NoMemory>
        ensures { IfOk result (λ d. d ≡ record { cookie = cookie.now; path = path }) }
    {
        let cookie = Vec::from_slice(alloc, cookie)?;
        Ok(Departure { cookie, path })
    }

    /// Whether it left by a move of this word.
    fn is_by(&self, cookie: &[u8]) -> bool
        ensures { result ≡ bytes_eq self.now.cookie cookie.now }
    {
        self.cookie.as_slice() == cookie
    }

    /// The folder's path.
    fn into_path(self) -> RelPath
        ensures { result ≡ self.path }
    {
        self.path
    }
}

/// A folder that was at one path and then at another.
#[derive(Drop)]
struct Rename {
    from: RelPath,
    to: RelPath,
}

impl Model for Rename {
    ghost use Rattle.wm_feed.specs.Renames.{Renamed};

    ghost Value = { Renamed };

    ghost view = { λ r. record { from = r.from; to = r.to } };
}

impl Rename {
    /// Whether one of the two was renamed to the other.
    fn joins(&self, one: &RelPath, other: &RelPath) -> bool
        ensures { result ≡ joins_lem one.now other.now self.now }
    {
        (self.from.same(one) && self.to.same(other)) || (self.from.same(other) && self.to.same(one))
    }

    /// Adds what stands this rename away from a path, in either direction.
    fn add_ends(
        &self,
        alloc: Global,
        path: &RelPath,
        places: &mut Vec<RelPath>,
    ) -> Result<(), NoMemory>
        ensures { OnOk result (places.new.items ≡ with_ends path.now self.now places.old.items) }
    {
        let there = moved(alloc, path, &self.from, &self.to)?;
        add(places, there)?;
        let back = moved(alloc, path, &self.to, &self.from)?;
        add(places, back)
    }
}

/// The renames of folders since a watch began, and the folders that left.
#[derive(Drop)]
pub struct Renames {
    left: Vec<Departure>,
    renames: Vec<Rename>,
}

impl Model for Renames {
    ghost use Rattle.wm_feed.specs.Renames.{FolderNames};

    ghost Value = { FolderNames };

    ghost view = { λ r. record { departed = r.left.items; renamed = r.renames.items } };
}

/// Where a path is that stood at or below `from`, which is at `to` now; `None` where it stood elsewhere, or no view holds it now.
fn moved(
    alloc: Global,
    path: &RelPath,
    from: &RelPath,
    to: &RelPath,
) -> Result<Option<RelPath>, NoMemory>
    ensures { IfOk result (λ p. p ≡ held_moved from.now to.now path.now) }
{
    if path.same(from) {
        return Ok(Some(to.copy()?));
    }
    if !path.under(from) {
        return Ok(None);
    }
    let Some(rest) = path.as_str().get(from.as_str().len()..) else {
        return Ok(None);
    };
    let mut text = String::from_str(alloc, to.as_str())?;
    text.push_str(rest)?;
    path_of(alloc, text.as_str())
}

/// The place at this index, if there is one.
fn nth(places: &[RelPath], index: usize) -> Result<Option<RelPath>, NoMemory>
    ensures { IfOk result (λ o. MatchOption o (length places.now ≤ index) (λ p. (index < length places.now) × (p ≡ slice_index_or places.now index p))) }
{
    match places.get(index) {
        Some(place) => Ok(Some(place.copy()?)),
        None => Ok(None),
    }
}

/// Whether a path is among these.
fn is_among(path: &RelPath, places: &[RelPath]) -> bool
    ensures { result ≡ is_place path.now places.now }
{
    places.iter().any(|one| path.same(one))
}

/// Adds a path, where it isn't among them.
fn add(places: &mut Vec<RelPath>, path: Option<RelPath>) -> Result<(), NoMemory>
    ensures { OnOk result (places.new.items ≡ with_place path places.old.items) }
{
    let Some(path) = path else {
        return Ok(());
    };
    if is_among(&path, places) {
        return Ok(());
    }
    places.push(path)?;
    Ok(())
}

impl Renames {
    /// No folder was renamed yet.
    pub fn new(alloc: Global) -> Renames
        ensures { result ≡ nothing_renamed }
    {
        Renames {
            left: Vec::new(alloc),
            renames: Vec::new(alloc),
        }
    }

    /// Whether a folder was renamed.
    pub fn are_any(&self) -> bool
        ensures { result ≡ nat_lt 0 (length self.now.renamed) }
    {
        self.renames.len() > 0
    }

    /// Whether a folder left by a move of this word and didn't come yet.
    pub fn has_departed(&self, cookie: &[u8]) -> bool
        ensures { result ≡ has_departed_lem cookie.now self.now }
    {
        self.left.iter().any(|one| one.is_by(cookie))
    }

    /// Follows what a record tells. `false` where the names can't be followed any longer: a folder came from elsewhere after one had
    /// left, which may be the same one or a part of it; a name is in no view; or they are too many.
    pub fn follow(&mut self, alloc: Global, told: Told<'_>) -> Result<bool, NoMemory>
        ensures { IfOk result (λ ok. record { is_certain = ok; names = self.new } ≡ followed_by (tells_of told.entry) self.old) }
    {
        let Told::Entry {
            folder,
            name,
            change,
        } = told
        else {
            return Ok(true);
        };
        match change {
            Change::Left(cookie) => self.leave(alloc, folder, name, cookie),
            Change::Came(cookie) => self.arrive(alloc, folder, name, cookie),
            Change::Content | Change::File | Change::Folder | Change::Made | Change::Removed => Ok(
                true,
            ),
        }
    }

    /// A folder left.
    fn leave(
        &mut self,
        alloc: Global,
        folder: &str,
        name: &str,
        cookie: &[u8],
    ) -> Result<bool, NoMemory>
        ensures { IfOk result (λ ok. record { is_certain = ok; names = self.new } ≡ departed_by cookie.now (entry_path folder.now name.now) self.old) }
    {
        let Some(path) = path_in(alloc, folder, name)? else {
            return Ok(false);
        };
        if self.left.len() >= MAX_LEFT {
            return Ok(false);
        }
        let one = Departure::new(alloc, cookie, path)?;
        self.left.push(one)?;
        Ok(true)
    }

    /// The place of the folder that left first by a move of this word.
    fn place_of(&self, cookie: &[u8]) -> Option<usize>
        ensures { result ≡ position (λ one. bytes_eq one.cookie cookie.now) self.now.departed }
    {
        self.left.iter().position(|one| one.is_by(cookie))
    }

    /// A folder came.
    fn arrive(
        &mut self,
        alloc: Global,
        folder: &str,
        name: &str,
        cookie: &[u8],
    ) -> Result<bool, NoMemory>
        ensures { IfOk result (λ ok. record { is_certain = ok; names = self.new } ≡ came_by cookie.now (entry_path folder.now name.now) self.old) }
    {
        let Some(path) = path_in(alloc, folder, name)? else {
            return Ok(false);
        };
        let Some(place) = self.place_of(cookie) else {
            return Ok(self.left.len() < 1);
        };
        let one = self.left.remove(place);
        self.rename(one.into_path(), path)
    }

    /// Whether a rename of one of the two to the other is kept.
    fn is_kept(&self, from: &RelPath, to: &RelPath) -> bool
        ensures { result ≡ list_any (λ one. joins_lem from.now to.now one) self.now.renamed }
    {
        self.renames.iter().any(|one| one.joins(from, to))
    }

    /// Keeps a rename, where it isn't kept.
    fn rename(&mut self, from: RelPath, to: RelPath) -> Result<bool, NoMemory>
        ensures { IfOk result (λ ok. record { is_certain = ok; names = self.new } ≡ renamed_to from to self.old) }
    {
        if self.is_kept(&from, &to) {
            return Ok(true);
        }
        if self.renames.len() >= MAX_RENAMES {
            return Ok(false);
        }
        self.renames.push(Rename { from, to })?;
        Ok(true)
    }

    /// Adds what stands a rename away from a path, in either direction.
    fn add_next(
        &self,
        alloc: Global,
        path: &RelPath,
        places: &mut Vec<RelPath>,
    ) -> Result<(), NoMemory>
        ensures { OnOk result (places.new.items ≡ fold (λ all one. with_ends path.now one all) places.old.items self.now.renamed) }
    {
        for one in &self.renames {
            one.add_ends(alloc, path, places)?;
        }
        Ok(())
    }

    /// The places that a name of a folder may stand for: the name itself, and each that renames join it to, however many and in
    /// whatever direction. `None` if they are too many: 64 at least.
    pub fn places(&self, alloc: Global, name: &RelPath) -> Result<Option<Vec<RelPath>>, NoMemory>
        ensures { IfOk result (λ o. MatchOption o (StandsForMany self.now.renamed name.now) (λ v. ArePlaces self.now.renamed name.now v.items)) }
    {
        let mut places = Vec::new(alloc);
        places.push(name.copy()?)?;
        for next in 0..MAX_PLACES {
            let Some(place) = nth(&places, next)? else {
                return Ok(Some(places));
            };
            self.add_next(alloc, &place, &mut places)?;
        }
        Ok(None)
    }
}
