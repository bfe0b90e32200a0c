//! The order of texts by their bytes.
//! Tests: leaf_tests/src/names/text_orders.rt.
ghost use Rattle.std.specs.Prelude.{◌≡◌, ◌≤◌, IsTrue, length, take};
ghost use Rattle.std.specs.Int.{w64, to_le_bytes};
ghost use Rattle.std.specs.Ordering.{nat_cmp};
ghost use Rattle.std.specs.Cmp.Lexicographic.{slice_cmp};

use std::cmp::Ordering;

/// The eight bytes as one number.
fn word(bytes: [u8; 8]) -> u64
    ensures { to_le_bytes w64 result ≡ bytes }
{
    u64::from_le_bytes(bytes)
}

/// Whether each of the two has eight bytes or more, and the first eight are the same.
fn begin_alike(one: &[u8], other: &[u8]) -> bool
    ensures { IsTrue result → (8 ≤ length one.now) × (8 ≤ length other.now) × (take 8 one.now ≡ take 8 other.now) }
{
    let (Some(x), Some(y)) = (one.first_chunk::<8>(), other.first_chunk::<8>()) else {
        return false;
    };
    word(*x) == word(*y)
}

fn compare_bytes(one: &[u8], other: &[u8]) -> Ordering
    ensures { result ≡ slice_cmp nat_cmp one.now other.now }
{
    for (x, y) in one.iter().zip(other) {
        if x != y {
            return x.cmp(y);
        }
    }
    one.len().cmp(&other.len())
}

/// How two texts stand in the order of their bytes, as slices of bytes do. Paths of one tree begin alike, so it passes over
/// eight bytes at a time where both have the same.
pub fn compare_texts(one: &[u8], other: &[u8]) -> Ordering
    ensures { result ≡ slice_cmp nat_cmp one.now other.now }
{
    let mut one = one;
    let mut other = other;
    while begin_alike(one, other) {
        one = &one[8..];
        other = &other[8..];
    }
    compare_bytes(one, other)
}
