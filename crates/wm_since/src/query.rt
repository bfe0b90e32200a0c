//! A question about a root, and the answer to it.
//! Definitions: specs/Answers.antt.
//! Tests: view_tests/src/answers/since.rt, view_tests/src/answers/moments.rt.
ghost use Rattle.std.specs.Prelude.{◌≡◌};
ghost use Rattle.wm_since.specs.Answers.{from_clock};

use crate::listed::ListedFiles;
use wm_clock::ClockId;

/// Where a question starts.
#[derive(Clone, Copy, Debug, PartialEq, Eq)]
pub enum Since {
    /// At a clock: what changed after it.
    Clock(ClockId),
    /// At a moment, in Unix seconds under a real clock: what changed last at it or later.
    Moment(u64),
}

impl Since {
    /// A start at the clock, if there is one.
    pub fn from_clock(clock: Option<ClockId>) -> Option<Since>
        ensures { result ≡ from_clock clock }
    {
        match clock {
            Some(clock) => Some(Since::Clock(clock)),
            None => None,
        }
    }
}

/// A question: what changed since a clock or a moment, of the files that pass the test.
#[derive(Drop)]
pub struct Query<T> {
    /// `None` if there is nothing to start from: then the answer is fresh.
    pub since: Option<Since>,
    /// Which files are asked for.
    pub test: T,
    /// Whether a fresh answer lists no files.
    pub empty_on_fresh: bool,
}

/// What changed, and the clock up to which it is told. A fresh answer lists what exists, since it
/// can't tell what changed.
#[derive(Drop)]
pub struct Answer {
    /// The view's clock.
    pub clock: ClockId,
    /// Whether it begins anew.
    pub fresh: bool,
    /// The latest change first; of one tick, in the order of the paths.
    pub files: ListedFiles,
}
