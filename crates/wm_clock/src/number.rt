//! The decimal numbers in a clock's text: each number has one text, without leading zeros.
//! Definitions: specs/Clocks.antt.
//! Tests: leaf_tests/src/clocks/clock_ids.rt, leaf_tests/src/clocks/clock_specs.rt.
ghost use Rattle.std.specs.Prelude.{◌≡◌, ◌++◌, ◌+◌, ◌≤◌, vec_len, vec_capacity, decimal};
ghost use Rattle.wm_clock.specs.Clocks.{NumberRead};

use itoa::Buffer;
use wm_disk::MAX_COUNTER;

/// The most digits of a number of 64 bits.
pub const MAX_DIGITS: usize = 20;

/// Appends the number's digits, for which there is room. It takes no memory.
pub fn put_number(n: u64, out: &mut Vec<u8>)
    requires { vec_len out.old + MAX_DIGITS ≤ vec_capacity out.old }
    ensures value { out.new.items ≡ out.old.items ++ decimal n }
    ensures short { vec_len out.new ≤ vec_len out.old + MAX_DIGITS }
    ensures room { vec_capacity out.old ≤ vec_capacity out.new }
{
    let mut digits = Buffer::new();
    out.extend_from_slice(digits.format(n).as_bytes()).unwrap();
}

/// The number from 1 to `MAX_COUNTER` whose digits the text is, with no sign and no leading zero.
pub(crate) fn read_number(text: &str) -> Option<u64>
    ensures { NumberRead text.now result }
{
    if text.starts_with('0') || text.starts_with('+') {
        return None;
    }
    match text.parse::<u64>() {
        Ok(n) if n <= MAX_COUNTER => Some(n),
        _ => None,
    }
}
