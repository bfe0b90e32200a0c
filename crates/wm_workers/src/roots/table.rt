//! The table of the watched roots: each with its number, in the order of watching. A number is never put twice, so there is one
//! view for each number that a clock may have.
//! Definitions: specs/WatchedRoots.antt. Tests: serve_tests/src/sessions.rt.
ghost use Rattle.std.specs.Prelude.{◌≡◌, ◌∷◌, [], true, false, max, Some, None, IfOk, MatchBool, MatchOption};
ghost use Rattle.std.specs.List.{list_any};
ghost use Rattle.wm_names.specs.Paths.{Path};
ghost use Rattle.wm_workers.specs.WatchedRoots.{FindsNumber, IsFirst, IsFirstPlace, MayHaveHad, MayHaveLacked, MayHaveLackedNumber, ReplacesFirst, RootNumbersRise, has_path, has_number, lacks_root as lacks_root_lem, may_put, with_put_root};

use std::alloc::Global;
use std::marker::Model;
use wm_disk::NoMemory;
use wm_names::RootPath;
use wm_registry::MAX_ROOTS;

/// A row of the table: a watched root by its path and its number.
#[derive(Drop)]
pub struct RootRow<H> {
    pub path: RootPath,
    pub number: u64,
    /// The root itself. `None` if memory ran out for it: the next request about it makes it.
    pub watched: Option<H>,
}

/// The watched roots, in the order of watching. Contracts see the list, and the number that the next root is to have.
#[derive(Drop)]
pub struct RootTable<H> {
    roots: Vec<RootRow<H>>,
    next: u64,
}

impl<H> Model for RootTable<H> {
    ghost use Rattle.std.specs.Prelude.{◌≤◌, vec_capacity};
    ghost use Rattle.wm_registry.specs.Limits.{max_roots};
    ghost use Rattle.wm_workers.specs.WatchedRoots.{RootNumbersRise, WatchedRoots};

    ghost Value = { WatchedRoots H };

    ghost view = { λ t. record { roots = t.roots.items; next = t.next } };

    ghost invariant = { λ t. (max_roots ≤ vec_capacity t.roots) × RootNumbersRise (record { roots = t.roots.items; next = t.next }) };
}

impl<H: Drop> RootTable<H> {
    /// A table of no root, with memory for as many as may be watched. `NoMemory`.
    pub fn new(alloc: Global) -> Result<RootTable<H>, NoMemory>
        ensures { IfOk result (λ table. table ≡ record { roots = []; next = 1 }) }
    {
        let mut roots = Vec::new(alloc);
        roots.try_reserve(MAX_ROOTS as usize)?;
        Ok(RootTable { roots, next: 1 })
    }

    /// The number that the next root is to have.
    pub fn next(&self) -> u64
        ensures { result ≡ self.now.next }
    {
        self.next
    }

    /// The next root is to have at least this number.
    pub fn begin_at(&mut self, next: u64)
        ensures { self.new ≡ record self.old { next = max self.old.next next } }
    {
        if self.next < next {
            self.next = next;
        }
    }

    /// Whether a root of this number may be put: no root has had it, and fewer roots are watched than may be.
    pub fn can_put(&self, number: u64) -> bool
        ensures { result ≡ may_put number self.now }
    {
        self.next <= number && number < u64::MAX && self.roots.len() < MAX_ROOTS as usize
    }

    /// Appends a root.
    pub fn put(&mut self, root: RootRow<H>)
        requires { may_put root.number self.old ≡ true }
        ensures { self.new ≡ with_put_root root self.old }
    {
        self.next = root.number + 1;
        self.roots.push_reserved(root);
    }

    /// The root of a path, if it is watched.
    pub fn find(&self, path: &RootPath) -> Option<&RootRow<H>>
        ensures { MatchOption result (list_any (has_path path.now) self.now.roots ≡ false) (λ root. IsFirst (has_path path.now) self.now.roots root.now) }
    {
        for root in &self.roots {
            if root.path == *path {
                return Some(root);
            }
        }
        None
    }

    /// The root of a number, if it is watched.
    pub fn numbered(&self, number: u64) -> Option<&RootRow<H>>
        ensures { MatchOption result (list_any (has_number number) self.now.roots ≡ false) (λ root. IsFirst (has_number number) self.now.roots root.now) }
    {
        for root in &self.roots {
            if root.number == number {
                return Some(root);
            }
        }
        None
    }

    /// No number stands twice in it.
    pub fn numbers_rise(&self)
        ensures { RootNumbersRise self.now }
    {
        let _next = self.next;
    }

    /// The number of the root of a path, if it is watched.
    pub fn number_of(&self, path: &RootPath) -> Option<u64>
        ensures found { MatchOption result (list_any (has_path path.now) self.now.roots ≡ false) (FindsNumber path.now self.now.roots) }
        ensures had { MatchOption result (MayHaveLacked path.now) (MayHaveHad path.now) }
    {
        self.numbers_rise();
        match self.find(path) {
            Some(root) => Some(root.number),
            None => None,
        }
    }

    /// Whether a root of the number is watched.
    pub fn is_numbered(&self, number: u64) -> bool
        ensures found { result ≡ list_any (has_number number) self.now.roots }
        ensures had { MatchBool result ((path : Path) × MayHaveHad path number) (MayHaveLackedNumber number) }
    {
        self.numbers_rise();
        match self.numbered(number) {
            Some(_) => true,
            None => false,
        }
    }

    /// The watched roots, in the order of watching.
    pub fn all(&self) -> &[RootRow<H>]
        ensures { result.now ≡ self.now.roots }
    {
        &self.roots
    }

    /// The place of the root of a path, if it is watched.
    fn place(&self, path: &RootPath) -> Option<usize>
        ensures { MatchOption result (list_any (has_path path.now) self.now.roots ≡ false) (IsFirstPlace (has_path path.now) self.now.roots) }
    {
        for place in 0..self.roots.len() {
            if self.roots[place].path == *path {
                return Some(place);
            }
        }
        None
    }

    /// Takes the root of a path out, if it is watched.
    pub fn take(&mut self, path: &RootPath) -> Option<RootRow<H>>
        ensures { MatchOption result ((list_any (has_path path.now) self.old.roots ≡ false) × (self.new ≡ self.old))
            (λ root. ReplacesFirst (has_path path.now) self.old.roots root [] self.new.roots × (self.new.next ≡ self.old.next)) }
    {
        let place = self.place(path)?;
        Some(self.roots.remove(place))
    }

    /// The place of the row of a number that has no root.
    fn lacking(&self, number: u64) -> Option<usize>
        ensures { MatchOption result (list_any (lacks_root_lem number) self.now.roots ≡ false) (IsFirstPlace (lacks_root_lem number) self.now.roots) }
    {
        for place in 0..self.roots.len() {
            if self.roots[place].number == number && self.roots[place].watched.is_none() {
                return Some(place);
            }
        }
        None
    }

    /// Whether the row of a number has no root.
    pub fn lacks_root(&self, number: u64) -> bool
        ensures { result ≡ list_any (lacks_root_lem number) self.now.roots }
    {
        match self.lacking(number) {
            Some(_) => true,
            None => false,
        }
    }

    /// Gives the row of a number, which has no root, this one.
    pub fn fill(&mut self, number: u64, watched: H)
        requires { list_any (lacks_root_lem number) self.old.roots ≡ true }
        ensures { (old : RootRow H) × ReplacesFirst (lacks_root_lem number) self.old.roots old (record old { watched = Some watched } ∷ []) self.new.roots × (self.new.next ≡ self.old.next) }
    {
        let Some(place) = self.lacking(number) else {
            drop(watched);
            return;
        };
        self.roots[place].watched = Some(watched);
    }
}
