//! What a sync asks of its system.
ghost use Rattle.std.specs.Prelude.{◌≡◌, ◌+◌, ℕ, List, true, IfOk, MatchOption};

use std::alloc::Global;
use wm_disk::NoMemory;

/// The files that a feed removes once all that happened before is known to the server, and the time.
///
/// Its ghost members are what was seen to happen.
pub trait SyncSystem {
    /// A file that was made.
    type Made: Drop;

    /// This file was made in this folder.
    ghost made_in: { Self → List ℕ → Self.Made → Type 0 };

    /// No file could be made in this folder.
    ghost none_in: { Self → List ℕ → Type 0 };

    /// This file was seen to be gone from its folder.
    ghost gone: { Self → Self.Made → Type 0 };

    /// This file was removed by the client that made it.
    ghost removed: { Self → Self.Made → Type 0 };

    /// So many microseconds have passed since the sync began.
    ghost passed: { Self → ℕ → Type 0 };

    /// Makes a file in a folder, under a name that no other file has. `None` if it can't be made now, as in a folder that isn't
    /// there.
    fn make(&self, alloc: Global, folder: &str) -> Result<Option<Self::Made>, NoMemory>
        ensures { IfOk result (λ made. MatchOption made (none_in self.now folder.now) (made_in self.now folder.now)) };

    /// Looks whether a file is gone from its folder.
    fn is_gone(&self, made: &Self::Made) -> bool
        ensures { result ≡ true → gone self.now made.now };

    /// Removes a file if it is still there.
    fn remove(&self, made: Self::Made)
        ensures { removed self.now made };

    /// How many microseconds have passed since the sync began.
    fn elapsed(&self) -> u64
        ensures { passed self.now result };

    /// Sleeps so many microseconds.
    fn sleep(&self, micros: u64)
        ensures { (t : ℕ) → passed self.now t → passed self.now (t + micros) };
}
