//! An operation on a root before it has its moment. Definitions: specs/Changes.antt.
//! Tests: serve_tests/src/halls.rt, serve_tests/src/moments.rt.
ghost use Rattle.std.specs.Prelude.{◌≡◌, ℕ};
ghost use Rattle.wm_root.specs.Changes.{op_at};

use wm_view::{Listing, Op, Pairs};

/// What reads the moment of an operation.
pub trait Seconds {
    /// Whether it may read this second.
    ghost may_read: { Self → ℕ → Type 0 };

    /// The second that it is now, since 1970.
    fn second(&self) -> u64
        ensures { may_read self.now result };
}

/// An operation without its moment. The root reads the moment once it is the operation's turn, so that the moments of a
/// root don't fall unless the clock goes back.
#[derive(Drop)]
pub enum Change {
    Observe(Pairs),
    /// A listing, and the tick at which its reading began.
    Recrawl(u64, Listing),
    /// An age-out of what was deleted so many seconds ago.
    AgeOut(u64),
}

impl Change {
    /// The moment of an operation, and the operation without it.
    pub fn of(op: Op) -> (u64, Change)
        ensures { op ≡ op_at result.0 result.1 }
    {
        match op {
            Op::Observe(moment, pairs) => (moment, Change::Observe(pairs)),
            Op::Recrawl(moment, begun_at, listing) => (moment, Change::Recrawl(begun_at, listing)),
            Op::AgeOut(moment, age) => (moment, Change::AgeOut(age)),
        }
    }

    /// The operation at a moment.
    pub(crate) fn at(self, moment: u64) -> Op
        ensures { result ≡ op_at moment self }
    {
        match self {
            Change::Observe(pairs) => Op::Observe(moment, pairs),
            Change::Recrawl(begun_at, listing) => Op::Recrawl(moment, begun_at, listing),
            Change::AgeOut(age) => Op::AgeOut(moment, age),
        }
    }
}
