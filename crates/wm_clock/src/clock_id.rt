//! One moment of one root, and its one text.
//! Definitions: specs/Clocks.antt. Tests: leaf_tests/src/clocks/clock_ids.rt.
ghost use Rattle.std.specs.Prelude.{◌≡◌, ◌++◌, ◌+◌, ◌≤◌, vec_len, vec_capacity, string_bytes, IfOk};
ghost use Rattle.wm_clock.specs.Clocks.{clock_text};

use crate::number::put_number;
use std::alloc::Global;
use wm_disk::NoMemory;

/// The most bytes of a clock's text: two, and three numbers with a colon between them.
pub const MAX_CLOCK_TEXT: usize = 64;

/// A moment of one root in one incarnation.
#[derive(Clone, Copy, Debug, PartialEq, Eq)]
pub struct ClockId {
    /// How often the server had begun on its state file.
    pub incarnation: u64,
    /// The number of the root.
    pub root: u64,
    /// How many maps the root had had.
    pub tick: u64,
}

impl ClockId {
    /// Appends the clock's text, `c:I:R:T`, for which there is room. It takes no memory.
    pub fn put(&self, out: &mut Vec<u8>)
        requires { vec_len out.old + MAX_CLOCK_TEXT ≤ vec_capacity out.old }
        ensures value { out.new.items ≡ out.old.items ++ clock_text self.now }
        ensures short { vec_len out.new ≤ vec_len out.old + MAX_CLOCK_TEXT }
        ensures room { vec_capacity out.old ≤ vec_capacity out.new }
    {
        out.extend_from_slice(b"c:").unwrap();
        put_number(self.incarnation, out);
        out.extend_from_slice(b":").unwrap();
        put_number(self.root, out);
        out.extend_from_slice(b":").unwrap();
        put_number(self.tick, out);
    }

    /// The clock's text, `c:I:R:T`. `NoMemory`.
    pub fn text(&self, alloc: Global) -> Result<String, NoMemory>
        ensures { IfOk result (λ t. string_bytes t ≡ clock_text self.now) }
    {
        let text = format!(in alloc; "c:{}:{}:{}", self.incarnation, self.root, self.tick)?;
        Ok(text)
    }
}
