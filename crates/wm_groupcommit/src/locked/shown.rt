//! That a seat was shown the registry, for the caller, who can't know what the lock protects.
//! Tests: file_tests/src/desk/rows.rt.

/// That the locked desk, which alone makes it, has handed a seat a copy of the registry. It is given up for the delivery that the seat
/// takes ([`super::Delivery::into_shown`]).
pub struct Shown {
    pub(super) seat: u64,
}
