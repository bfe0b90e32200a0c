//! The refusals of the whole server, and the two causes that come from outside it.
//! Definitions: specs/Refusals.antt. Tests: leaf_tests/src/disks/refusals.rt, session_tests/src/lines/refusals.rt.
ghost use Rattle.std.specs.Prelude.{◌≡◌};
ghost use Rattle.wm_disk.specs.Refusals.{refusal_name, refusal_number, refusal_text};
ghost use Rattle.wm_disk.specs.declared.refusal.Refusal.TheVariants as refusals;

use std::alloc::{AllocError, AllocFailed};
use std::fmt::{Display, Formatter, Write};
use thiserror::Error;

/// The disk failed in this call, or a file couldn't be opened or made.
#[derive(Clone, Copy, Debug, PartialEq, Eq, Error)]
#[error("the device failed")]
pub struct DeviceFailed;

/// Memory ran out.
#[derive(Clone, Copy, Debug, PartialEq, Eq, Error)]
#[error("out of memory")]
pub struct NoMemory;

impl From<AllocError> for NoMemory {
    fn from(_error: AllocError) -> NoMemory {
        NoMemory
    }
}

impl<T: Drop> From<AllocFailed<T>> for NoMemory {
    fn from(_error: AllocFailed<T>) -> NoMemory {
        NoMemory
    }
}

/// Why a call was refused. Each has the number and the name by which replies show it.
#[derive(Clone, Copy, Debug, PartialEq, Eq)]
pub enum Refusal {
    /// The line is no JSON text or not UTF-8, is longer than a line may be, or is cut by the end of the stream.
    BadLine,
    /// The line is no array that begins with the name of a command.
    BadCommand,
    /// An argument of a wrong number, type, key, value or length, where no other refusal fits.
    BadArguments,
    /// A path against the path rules.
    BadPath,
    /// The root isn't watched.
    NotWatched,
    /// The root hasn't been crawled whole yet.
    NotReady,
    /// A clockspec that isn't allowed.
    BadClock,
    /// A JSON value that is no expression, or one past its limits.
    BadExpression,
    /// A field that is unknown or repeated, or no field at all.
    BadField,
    /// A trigger against its rules.
    BadTrigger,
    /// The new state wouldn't fit its place in the state file.
    Full,
    /// The store failed in an earlier call, or is closed.
    StoreFailed,
    /// The disk failed in this call; a file couldn't be opened, made, read or written, or a folder read; an
    /// input, an output or a socket failed; or a program couldn't be started.
    DeviceFailed,
    /// The state file shows damage.
    Damaged,
    /// A counter stands at 2^63 - 1.
    Exhausted,
    /// Memory ran out, or no thread could be started.
    NoMemory,
    /// More of something than its limit allows.
    TooMany,
    /// No free place is left, or the root went while it was asked.
    NoPlace,
    /// An answer to no open question.
    NoQuestion,
    /// The state file has been migrated to another.
    Retired,
    /// What is to be kept has no place in a state file of this version.
    OldVersion,
}

impl Refusal {
    /// Its number, from 1.
    pub fn number(self) -> u8
        ensures { result ≡ refusal_number self }
    {
        match self {
            Refusal::BadLine => 1,
            Refusal::BadCommand => 2,
            Refusal::BadArguments => 3,
            Refusal::BadPath => 4,
            Refusal::NotWatched => 5,
            Refusal::NotReady => 6,
            Refusal::BadClock => 7,
            Refusal::BadExpression => 8,
            Refusal::BadField => 9,
            Refusal::BadTrigger => 10,
            Refusal::Full => 11,
            Refusal::StoreFailed => 12,
            Refusal::DeviceFailed => 13,
            Refusal::Damaged => 14,
            Refusal::Exhausted => 15,
            Refusal::NoMemory => 16,
            Refusal::TooMany => 17,
            Refusal::NoPlace => 18,
            Refusal::NoQuestion => 19,
            Refusal::Retired => 20,
            Refusal::OldVersion => 21,
        }
    }

    /// Its name, in one word.
    pub fn name(self) -> &'static str
        ensures { result.now ≡ refusal_name self }
    {
        match self {
            Refusal::BadLine => "BadLine",
            Refusal::BadCommand => "BadCommand",
            Refusal::BadArguments => "BadArguments",
            Refusal::BadPath => "BadPath",
            Refusal::NotWatched => "NotWatched",
            Refusal::NotReady => "NotReady",
            Refusal::BadClock => "BadClock",
            Refusal::BadExpression => "BadExpression",
            Refusal::BadField => "BadField",
            Refusal::BadTrigger => "BadTrigger",
            Refusal::Full => "Full",
            Refusal::StoreFailed => "StoreFailed",
            Refusal::DeviceFailed => "DeviceFailed",
            Refusal::Damaged => "Damaged",
            Refusal::Exhausted => "Exhausted",
            Refusal::NoMemory => "NoMemory",
            Refusal::TooMany => "TooMany",
            Refusal::NoPlace => "NoPlace",
            Refusal::NoQuestion => "NoQuestion",
            Refusal::Retired => "Retired",
            Refusal::OldVersion => "OldVersion",
        }
    }

    /// The number, a space and the name, as replies show it: `6 NotReady`.
    pub fn text(self) -> &'static str
        ensures { result.now ≡ refusal_text self }
    {
        match self {
            Refusal::BadLine => "1 BadLine",
            Refusal::BadCommand => "2 BadCommand",
            Refusal::BadArguments => "3 BadArguments",
            Refusal::BadPath => "4 BadPath",
            Refusal::NotWatched => "5 NotWatched",
            Refusal::NotReady => "6 NotReady",
            Refusal::BadClock => "7 BadClock",
            Refusal::BadExpression => "8 BadExpression",
            Refusal::BadField => "9 BadField",
            Refusal::BadTrigger => "10 BadTrigger",
            Refusal::Full => "11 Full",
            Refusal::StoreFailed => "12 StoreFailed",
            Refusal::DeviceFailed => "13 DeviceFailed",
            Refusal::Damaged => "14 Damaged",
            Refusal::Exhausted => "15 Exhausted",
            Refusal::NoMemory => "16 NoMemory",
            Refusal::TooMany => "17 TooMany",
            Refusal::NoPlace => "18 NoPlace",
            Refusal::NoQuestion => "19 NoQuestion",
            Refusal::Retired => "20 Retired",
            Refusal::OldVersion => "21 OldVersion",
        }
    }
}

// Written out, since a proof of what the derive writes takes as long as a seventh of this crate's.
impl Display for Refusal {
    fn fmt<W: Write>(&self, f: &mut Formatter<W>) -> std::fmt::Result {
        f.write_str(self.text())
    }
}

impl std::error::Error for Refusal {}

impl From<DeviceFailed> for Refusal {
    ghost from_gives = { λ _ e. e ≡ refusals.DeviceFailed };

    fn from(_error: DeviceFailed) -> Refusal {
        Refusal::DeviceFailed
    }
}

impl From<NoMemory> for Refusal {
    ghost from_gives = { λ _ e. e ≡ refusals.NoMemory };

    fn from(_error: NoMemory) -> Refusal {
        Refusal::NoMemory
    }
}

impl From<AllocError> for Refusal {
    ghost from_gives = { λ _ e. e ≡ refusals.NoMemory };

    fn from(_error: AllocError) -> Refusal {
        Refusal::NoMemory
    }
}

impl<T: Drop> From<AllocFailed<T>> for Refusal {
    ghost from_gives = { λ _ e. e ≡ refusals.NoMemory };

    fn from(_error: AllocFailed<T>) -> Refusal {
        Refusal::NoMemory
    }
}
