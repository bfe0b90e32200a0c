//! The named cursors of a root: for each name the clock up to which its client was told.
//! Definitions: specs/Cursors.antt. Tests: view_tests/src/answers/cursors.rt.
ghost use Rattle.std.specs.Prelude.{◌≡◌, ◌≤◌, [], true, length, IfOk};
ghost use Rattle.std.specs.List.{IsDistinct};
ghost use Rattle.std.specs.Map.{keys_of};
ghost use Rattle.std.specs.Str.{bytes_eq};
ghost use Rattle.wm_since.specs.Cursors.{cursor_at, has_room, moved_to};

use indexmap::IndexMap;
use std::alloc::Global;
use std::marker::Model;
use wm_clock::{ClockId, CursorName};
use wm_disk::NoMemory;

/// The most cursors of one root.
pub const MAX_CURSORS: usize = 256;

/// The named cursors of one root, each with the clock up to which its client was told. There are at
/// most `MAX_CURSORS`, and the room for all is made at once, so that a move takes no memory. Contracts see the
/// names with their clocks, in the order in which they were made.
#[derive(Drop)]
pub struct Cursors {
    clocks: IndexMap<CursorName, ClockId>,
}

impl Model for Cursors {
    ghost use Rattle.std.specs.Prelude.{◌+◌, ◌≤◌, length};
    ghost use Rattle.indexmap.specs.IndexMap.{spare};
    ghost use Rattle.wm_since.specs.Cursors.{CursorList, max_cursors};

    ghost Value = { CursorList };

    ghost view = { λ c. c.clocks.entries };

    ghost invariant = { λ c. (length c.clocks.entries ≤ max_cursors) × (max_cursors ≤ length c.clocks.entries + spare c.clocks) };
}

impl Cursors {
    /// No cursors yet, with room for `MAX_CURSORS`: some 20 kilobytes. `NoMemory` where that isn't found.
    pub fn new(alloc: Global) -> Result<Cursors, NoMemory>
        ensures { IfOk result (λ c. c ≡ []) }
    {
        let clocks = IndexMap::with_capacity(alloc, MAX_CURSORS)?;
        Ok(Cursors { clocks })
    }

    /// The clock at which the cursor stands, and `None` where no such cursor was made.
    pub fn clock(&self, name: &CursorName) -> Option<ClockId>
        ensures { result ≡ cursor_at name.now self.now }
    {
        self.clocks.get(name).copied()
    }

    /// How many there are.
    pub fn len(&self) -> usize
        ensures value { result ≡ length self.now }
        ensures most { result ≤ MAX_CURSORS }
        ensures apart { IsDistinct bytes_eq (keys_of self.now) }
    {
        self.clocks.len()
    }

    /// Whether the cursor may be moved: it is there, or there are fewer than `MAX_CURSORS`.
    pub fn has_room(&self, name: &CursorName) -> bool
        ensures { result ≡ has_room name.now self.now }
    {
        self.clocks.contains_key(name) || self.clocks.len() < MAX_CURSORS
    }

    /// Moves the cursor to the clock, or makes it there. It takes no memory and can't fail.
    pub fn moved(&mut self, name: CursorName, clock: ClockId)
        requires { has_room name self.old ≡ true }
        ensures { self.new ≡ moved_to name clock self.old }
    {
        if let Some(held) = self.clocks.get_mut(&name) {
            *held = clock;
            return;
        }
        self.clocks.insert(name, clock).unwrap();
    }
}
