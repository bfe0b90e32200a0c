//! What each type that is spelled promises: one spelling a value, and none begins another.
//! Definitions: specs/Spelling.antt. Tests: leaf_tests/src/spellings.
ghost use Rattle.std.specs.Prelude.{◌≡◌, ◌++◌, ◌<◌, ◌^◌, ℕ, List, length, IfOk, OnOk, OnErr};
ghost use Rattle.wm_wire.specs.Spelling.{Takes};

use std::alloc::Global;
use wm_disk::NoMemory;

/// The number of bytes that each spelling is shorter than.
pub(crate) const SPELLING_LIMIT: u64 = 0x1_0000_0000;

/// A type whose values have one spelling each, and in which no spelling begins another.
pub trait Wire {
    /// Holds of each value of the type: its limits, as a fact.
    ghost fits: { Self → Type 0 };

    /// The spelling of a value.
    ghost spelling: { Self → List ℕ };

    /// Appends the spelling. `NoMemory` leaves the vector as it was.
    fn put(&self, out: &mut Vec<u8>) -> Result<(), NoMemory>
        ensures ok { OnOk result (out.new.items ≡ out.old.items ++ spelling self.now) }
        ensures err { OnErr result (out.new.items ≡ out.old.items) };

    /// How many bytes the spelling has. It takes no memory.
    fn size(&self) -> u64
        ensures exact { result ≡ length (spelling self.now) }
        ensures fits { fits self.now };

    /// The value whose spelling begins the bytes, and that spelling's length; `None` only where no
    /// prefix of the bytes is a spelling, and an error only when out of memory.
    fn take(alloc: Global, bytes: &[u8]) -> Result<Option<(Self, usize)>, NoMemory>
        ensures { IfOk result (Takes fits spelling bytes.now) };

    /// No spelling begins another, and no two values share one.
    ghost alone: { (x y : Self) (a b : List ℕ) → fits x → fits y → spelling x ++ a ≡ spelling y ++ b → x ≡ y };

    /// Every spelling is shorter than 2^32 bytes.
    ghost short: { (x : Self) → fits x → length (spelling x) < 2 ^ 32 };
}
