//! That a desk gave no seat, or no flusher, for the caller, who can't know what the lock protects.
//! Tests: file_tests/src/desk/seats.rt.

use std::marker::Model;
use wm_disk::Refusal;

/// That a desk gave no seat. The locked desk alone makes it: each seat is given, or memory ran out. Contracts see the refusal.
#[derive(Drop)]
pub struct NoSeat {
    pub(super) refusal: Refusal,
}

impl Model for NoSeat {
    ghost use Rattle.wm_disk.specs.declared.refusal.Refusal.{Refusal};

    ghost Value = { Refusal };

    ghost view = { λ n. n.refusal };
}

impl NoSeat {
    ghost use Rattle.std.specs.Prelude.{◌≡◌};

    /// The refusal: `18 NoPlace` or `16 NoMemory`.
    pub fn refusal(&self) -> Refusal
        ensures { result ≡ self.now }
    {
        self.refusal
    }
}

/// That a desk gave no flusher. The locked desk alone makes it, once it has given one. Contracts see the refusal.
#[derive(Drop)]
pub struct NoFlusher {
    pub(super) refusal: Refusal,
}

impl Model for NoFlusher {
    ghost use Rattle.wm_disk.specs.declared.refusal.Refusal.{Refusal};

    ghost Value = { Refusal };

    ghost view = { λ n. n.refusal };
}

impl NoFlusher {
    ghost use Rattle.std.specs.Prelude.{◌≡◌};

    /// The refusal, `18 NoPlace`.
    pub fn refusal(&self) -> Refusal
        ensures { result ≡ self.now }
    {
        self.refusal
    }
}
