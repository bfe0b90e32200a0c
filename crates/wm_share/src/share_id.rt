//! Which share of a root it is.
//! Definitions: specs/PublishedLists.antt. Tests: view_tests/src/shared/shares.rt.
ghost use Rattle.std.specs.Prelude.{◌≡◌, ◌≢◌, MatchBool};

/// Which share it is, and of which root. No two shares of a process have one number.
#[derive(Clone, Copy, Debug, PartialEq, Eq)]
pub struct ShareId {
    /// How many numbers of shares the process had used up before.
    pub number: u64,
    /// The incarnation in which the view began.
    pub incarnation: u64,
    /// The number of the root.
    pub root: u64,
}

impl ShareId {
    /// Whether the two are one.
    pub fn same(&self, other: &ShareId) -> bool
        ensures { MatchBool result (self.now ≡ other.now) (self.now ≢ other.now) }
    {
        self.number == other.number
            && self.incarnation == other.incarnation
            && self.root == other.root
    }
}
