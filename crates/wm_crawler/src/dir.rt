//! What a folder holds.
//! Definitions: specs/Trees.antt. Tests: crawler_tests/src/crawls.rt.
ghost use Rattle.std.specs.Prelude.{◌≡◌, ◌+◌, ◌-◌, ◌^◌, ◌++◌, ◌∷◌, [], min, IfOk, OnOk, OnErr};
ghost use Rattle.std.specs.List.Sorted.{IsPermutation, IsSorted};
ghost use Rattle.wm_names.specs.Paths.{path_cmp};
ghost use Rattle.wm_crawler.specs.Trees.{Held};

use crate::name::Name;
use std::alloc::Global;
use std::marker::Model;
use wm_disk::NoMemory;

/// What a folder holds: the names that are text, and how many names aren't.
#[derive(Drop)]
pub struct Dir {
    names: Vec<Name>,
    others: u64,
}

impl Model for Dir {
    ghost use Rattle.wm_crawler.specs.Trees.{Held as HeldHere};

    ghost Value = { HeldHere };

    ghost view = { λ d. record { names = d.names.items; others = d.others } };
}

impl Dir {
    /// An empty folder.
    pub fn new(alloc: Global) -> Dir
        ensures { result ≡ record { names = []; others = 0 } }
    {
        Dir {
            names: Vec::new(alloc),
            others: 0,
        }
    }

    /// An empty folder with room for so many names. `NoMemory`.
    pub(crate) fn with_room(alloc: Global, names: usize) -> Result<Dir, NoMemory>
        ensures { IfOk result (λ d. d ≡ record { names = []; others = 0 }) }
    {
        Ok(Dir {
            names: Vec::with_capacity(alloc, names)?,
            others: 0,
        })
    }

    /// Adds a name. Without memory nothing is changed.
    pub fn add(&mut self, alloc: Global, name: &str) -> Result<(), NoMemory>
        ensures ok { OnOk result (self.new ≡ record self.old { names = self.old.names ++ name.now ∷ [] }) }
        ensures err { OnErr result (self.new ≡ self.old) }
    {
        let name = Name::new(alloc, name)?;
        self.names.push(name)?;
        Ok(())
    }

    /// Counts a name that isn't text, up to 2^64 - 1 of them.
    pub fn add_other(&mut self)
        ensures { self.new ≡ record self.old { others = min (self.old.others + 1) (2 ^ 64 - 1) } }
    {
        self.others = self.others.saturating_add(1);
    }

    /// Puts the names in the order of their bytes. Without memory nothing is changed.
    pub(crate) fn sort(&mut self) -> Result<(), NoMemory>
        ensures same { IsPermutation self.old.names self.new.names × (self.new.others ≡ self.old.others) }
        ensures sorted { OnOk result (IsSorted path_cmp self.new.names) }
        ensures err { OnErr result (self.new ≡ self.old) }
    {
        self.names.sort()?;
        Ok(())
    }

    /// How many names aren't text.
    pub fn others(&self) -> u64
        ensures { result ≡ self.now.others }
    {
        self.others
    }

    /// The names that are text.
    pub(crate) fn names(&self) -> &[Name]
        ensures { result.now ≡ self.now.names }
    {
        &self.names
    }

    /// The same names and count again. `NoMemory`.
    pub fn copy(&self, alloc: Global) -> Result<Dir, NoMemory>
        ensures { IfOk result (λ d. d ≡ self.now) }
    {
        let names = copied(alloc, &self.names)?;
        Ok(Dir {
            names,
            others: self.others,
        })
    }
}

/// The same names again.
#[tactic(auto, using(crate::proofs::Steps::one_more))]
fn copied(alloc: Global, names: &[Name]) -> Result<Vec<Name>, NoMemory>
    ensures { IfOk result (λ v. v.items ≡ names.now) }
{
    let mut copies = Vec::with_capacity(alloc, names.len())?;
    for name in names {
        let name = name.copy(alloc)?;
        copies.push(name)?;
    }
    Ok(copies)
}
