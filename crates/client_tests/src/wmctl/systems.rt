//! A system whose files a feed removes as a test wants it.
ghost use Rattle.std.specs.Prelude.{⊤};

use std::alloc::Global;
use std::cell::Cell;
use wm_client::SyncSystem;
use wm_disk::NoMemory;

/// As often as nothing ever happens.
pub const NEVER: u32 = 4_294_967_295;

/// When a folder is there, and when a file in it is gone.
#[derive(Clone, Copy, Debug)]
pub struct Plan {
    /// The one folder in which a file can be made.
    pub folder: &'static str,
    /// How often a file can't be made there.
    pub absent: u32,
    /// How often a file is still there.
    pub there: u32,
}

/// A file is gone at once in the folder of the first root.
pub const AT_ONCE: Plan = Plan {
    folder: "s.sync/7",
    absent: 0,
    there: 0,
};

/// A system in memory. Its time passes while it sleeps.
#[derive(Drop)]
pub struct Planned {
    plan: Plan,
    slept: Cell<u64>,
    tries: Cell<u32>,
    looks: Cell<u32>,
    made: Cell<u32>,
    removed: Cell<u32>,
}

impl Planned {
    pub fn new(plan: Plan) -> Planned {
        Planned {
            plan,
            slept: Cell::new(0),
            tries: Cell::new(0),
            looks: Cell::new(0),
            made: Cell::new(0),
            removed: Cell::new(0),
        }
    }

    /// How long it slept, in microseconds.
    pub fn slept(&self) -> u64 {
        self.slept.get()
    }

    /// How many files were made, and how many removed by the client.
    pub fn files(&self) -> (u32, u32) {
        (self.made.get(), self.removed.get())
    }
}

/// Counts one more, and says whether it was fewer before than so many.
fn is_below(count: &Cell<u32>, limit: u32) -> bool {
    let before = count.get();
    count.set(before.wrapping_add(1));
    before < limit
}

impl SyncSystem for Planned {
    type Made = u32;

    ghost made_in = { λ _ _ _. ⊤ };

    ghost none_in = { λ _ _. ⊤ };

    ghost gone = { λ _ _. ⊤ };

    ghost removed = { λ _ _. ⊤ };

    ghost passed = { λ _ _. ⊤ };

    fn make(&self, _alloc: Global, folder: &str) -> Result<Option<u32>, NoMemory> {
        if folder != self.plan.folder || is_below(&self.tries, self.plan.absent) {
            return Ok(None);
        }
        self.made.set(self.made.get().wrapping_add(1));
        Ok(Some(self.made.get()))
    }

    fn is_gone(&self, _made: &u32) -> bool {
        !is_below(&self.looks, self.plan.there)
    }

    fn remove(&self, _made: u32) {
        self.removed.set(self.removed.get().wrapping_add(1));
    }

    fn elapsed(&self) -> u64 {
        self.slept.get()
    }

    fn sleep(&self, micros: u64) {
        self.slept.set(self.slept.get().wrapping_add(micros));
    }
}
