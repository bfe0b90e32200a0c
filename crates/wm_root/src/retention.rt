//! How long a root's deleted paths are kept. Definitions: specs/AgeOuts.antt. Tests: serve_tests/src/forgetting.rt.

/// When a root's deleted paths are forgotten.
#[derive(Clone, Copy)]
pub struct Retention {
    /// The age of what is forgotten, in seconds.
    pub age_seconds: u64,
    /// The seconds between two age-outs.
    pub interval_seconds: u64,
}
