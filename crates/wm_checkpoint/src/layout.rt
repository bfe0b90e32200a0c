//! Where the parts of a state file lie, in bytes, in each version of the file.
//! Definitions: specs/Layout.antt. Tests: file_tests/src/checkpoint/files.rt, file_tests/src/checkpoint/version_2.rt.
ghost use Rattle.std.specs.Prelude.{◌≡◌, ◌+◌, ◌*◌};
ghost use Rattle.wm_checkpoint.specs.Layout.{Sizes, AreLawful, file_len, slot_len, slot_place as slot_place_of, journal_place as journal_place_of};
ghost use Rattle.wm_checkpoint.specs.Formatting.{chunk_len, rest_len};

/// How long the header is.
pub(crate) const HEADER_LEN: u64 = 4_096;

/// Where the retired gate stands, behind the header's name and version.
pub(crate) const RETIRED_PLACE: u64 = 12;

/// How long a slot's journal is.
pub(crate) const JOURNAL_LEN: u64 = 262_144;

/// One of the two places of a state.
#[derive(Clone, Copy, Debug, PartialEq, Eq)]
pub enum Slot {
    A,
    B,
}

impl Slot {
    ghost use Rattle.wm_checkpoint.specs.Layout.{other_slot};

    /// The other one.
    pub(crate) fn other(self) -> Slot
        ensures { result ≡ other_slot self }
    {
        match self {
            Slot::A => Slot::B,
            Slot::B => Slot::A,
        }
    }
}

/// A version of the state file, by the places and lengths of its parts, in bytes. The header, slot A, its
/// journal, slot B and its journal follow each other, so that no two overlap.
pub trait Layout {
    /// The version and the longest state, from which every place and length follows.
    ghost sizes: { Sizes };

    /// The version that the header says.
    fn version() -> u8
        ensures { result ≡ sizes.version };

    /// The most bytes of an encoded state, which is a slot's body.
    fn max_state_bytes() -> u64
        ensures { result ≡ sizes.max_state_bytes };

    /// How long a slot is: its gate, a number of 8 bytes, the body's length in 4 bytes, and the body.
    fn slot_len() -> u64
        ensures { result ≡ slot_len sizes };

    /// Where a slot begins.
    fn slot_place(slot: Slot) -> u64
        ensures { result ≡ slot_place_of sizes slot };

    /// Where the journal of a slot begins: right behind it.
    fn journal_place(slot: Slot) -> u64
        ensures { result ≡ journal_place_of sizes slot };

    /// How long a file is. Bytes behind it are ignored.
    fn file_len() -> u64
        ensures { result ≡ file_len sizes };

    /// How many chunks of 65,536 zeros a new file begins as. One of 4,096 zeros follows them.
    fn chunks() -> u64
        ensures { result * chunk_len + rest_len ≡ file_len sizes };

    /// The parts follow each other, and a body's length fits its four bytes.
    ghost lawful: { AreLawful sizes };
}

/// Version 1, with states of at most 1,048,563 bytes.
#[derive(Drop)]
pub struct Version1;

impl Layout for Version1 {
    ghost use Rattle.wm_checkpoint.specs.Layout.{sizes_1};
    ghost use Rattle.wm_checkpoint.specs.laws.Layouts.{lawful_1};

    ghost sizes = { sizes_1 };

    fn version() -> u8 {
        1
    }

    fn max_state_bytes() -> u64 {
        1_048_563
    }

    fn slot_len() -> u64 {
        1_048_576
    }

    fn slot_place(slot: Slot) -> u64 {
        match slot {
            Slot::A => 4_096,
            Slot::B => 1_314_816,
        }
    }

    fn journal_place(slot: Slot) -> u64 {
        match slot {
            Slot::A => 1_052_672,
            Slot::B => 2_363_392,
        }
    }

    fn file_len() -> u64 {
        2_625_536
    }

    fn chunks() -> u64 {
        40
    }

    ghost lawful = { lawful_1 };
}

/// Version 2, with states of at most 4,194,291 bytes.
#[derive(Drop)]
pub struct Version2;

impl Layout for Version2 {
    ghost use Rattle.wm_checkpoint.specs.Layout.{sizes_2};
    ghost use Rattle.wm_checkpoint.specs.laws.Layouts.{lawful_2};

    ghost sizes = { sizes_2 };

    fn version() -> u8 {
        2
    }

    fn max_state_bytes() -> u64 {
        4_194_291
    }

    fn slot_len() -> u64 {
        4_194_304
    }

    fn slot_place(slot: Slot) -> u64 {
        match slot {
            Slot::A => 4_096,
            Slot::B => 4_460_544,
        }
    }

    fn journal_place(slot: Slot) -> u64 {
        match slot {
            Slot::A => 4_198_400,
            Slot::B => 8_654_848,
        }
    }

    fn file_len() -> u64 {
        8_916_992
    }

    fn chunks() -> u64 {
        136
    }

    ghost lawful = { lawful_2 };
}
