//! What a feed reported to its user: each line once. Tests: feed_tests, tools/try/feed.

use crate::system::System;
use std::alloc::Global;
use std::collections::BTreeSet;
use wm_client::Stop;

/// How many lines are kept: then all may be reported again.
const MAX_LINES: usize = 1_024;

/// The lines that were reported.
#[derive(Drop)]
pub(crate) struct Said {
    lines: BTreeSet<String>,
}

impl Said {
    /// Nothing was reported.
    pub(crate) fn new(alloc: Global) -> Said {
        Said {
            lines: BTreeSet::new(alloc),
        }
    }

    /// Reports a line, if it wasn't reported yet, and returns whether it is reported now.
    pub(crate) fn tell<Y: System>(&mut self, system: &Y, line: String) -> Result<bool, Stop> {
        if self.lines.contains(&line) {
            return Ok(false);
        }
        system.tell(line.as_str());
        if self.lines.len() >= MAX_LINES {
            self.lines.clear();
        }
        self.lines.insert(line)?;
        Ok(true)
    }
}
