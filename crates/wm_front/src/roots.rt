//! What a session's front needs of the watched roots of its server.
//! Tests: shared_tests/src/fronts.rt.
ghost use Rattle.std.specs.Prelude.{◌≡◌, ◌⊎◌, ℕ, IfOk, IfErr, MatchBool, MatchOption};
ghost use Rattle.std.specs.Arc.{arc_value};
ghost use Rattle.wm_names.specs.Paths.{Path};

use std::alloc::Global;
use std::sync::{Arc, Wait};
use wm_disk::Refusal;
use wm_groupcommit::CommandNumber;
use wm_names::RootPath;
use wm_registry::Command;
use wm_root::{Changed, Seconds, WatchedRoot};
use wm_share::Naming;

/// The watched roots of a server. They read the moments of operations.
pub trait Roots<J: Naming, K: Wait + Drop>: Seconds {
    /// Whether the watched root of the path had the number.
    ghost has: { Self → Path → ℕ → Type 0 };

    /// Whether no root of the path was watched.
    ghost lacks: { Self → Path → Type 0 };

    /// Whether no watched root had the number.
    ghost ended: { Self → ℕ → Type 0 };

    /// Whether the roots had followed at least so many accepted commands.
    ghost followed: { Self → ℕ → Type 0 };

    /// Whether those who wait for changes of the root of the number were woken.
    ghost woken: { Self → ℕ → Type 0 };

    /// The root of a path. `NotWatched` if there is none, after the commands that were followed; and `NoMemory`.
    fn find<R: Wait>(
        &self,
        rt: &R,
        alloc: Global,
        path: &RootPath,
    ) -> Result<Arc<WatchedRoot<J, K>>, Refusal>
        ensures has { IfOk result (λ root. has self.now path.now (arc_value root).number) }
        ensures refused { IfErr result (λ e. (e ≡ Refusal.NotWatched) ⊎ (e ≡ Refusal.NoMemory)) };

    /// Whether the root of a number is watched.
    fn is_watched<R: Wait>(&self, rt: &R, number: u64) -> bool
        ensures { MatchBool result ((path : Path) × has self.now path number) (ended self.now number) };

    /// The number of the watched root of a path, after the commands that were followed; none if there is none.
    fn number_of<R: Wait>(&self, rt: &R, path: &RootPath) -> Option<u64>
        ensures { MatchOption result (lacks self.now path.now) (has self.now path.now) };

    /// How many roots have ended by now.
    fn ended_count<R: Wait>(&self, rt: &R) -> u64;

    /// Has the roots follow the accepted command of this number, once they have followed all earlier ones.
    fn follow<R: Wait>(&self, rt: &R, alloc: Global, number: CommandNumber, command: Command)
        ensures { followed self.now number };

    /// Waits until the roots have followed so many commands.
    fn await_followed<R: Wait>(&self, rt: &R, count: u64)
        ensures { followed self.now count };

    /// The view of a root has changed, or its change was refused: those who wait for changes of it are woken, since the subscriptions on
    /// it may be due.
    fn notify<R: Wait>(&self, rt: &R, root: &WatchedRoot<J, K>, changed: Changed)
        requires { changed.root ≡ root.now.number }
        ensures { woken self.now root.now.number };
}
