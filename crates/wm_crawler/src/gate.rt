//! What holds a crawl back.
//! No contract can see that a gate was passed: crawler_tests/src/gates.rt counts it.

/// What is passed before each reading of a folder below the top. It may hold a reading back for a while.
pub trait Turnstile {
    /// Returns where the reading may go on.
    fn pass(&self);
}

/// A gate that holds nobody back.
#[derive(Clone, Copy, Drop)]
pub struct Open;

impl Turnstile for Open {
    fn pass(&self) {}
}
