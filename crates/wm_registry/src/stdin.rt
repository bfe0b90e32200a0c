//! What the program of a trigger reads.
//! Definitions: specs/Triggers.antt, specs/Spelling.antt. Tests: registry_tests/src/triggers.rt.
ghost use Rattle.std.specs.Prelude.{◌≡◌};
ghost use Rattle.wm_wire.specs.Spelling.{Every};
ghost use Rattle.wm_registry.specs.Spelling.{stdin_spelling};
ghost use Rattle.wm_registry.specs.TriggerLaws.{alone_stdin, short_stdin};
ghost use Rattle.wm_registry.specs.Triggers.{same_stdin};

use std::alloc::Global;
use wm_disk::NoMemory;
use wm_wire::Wire;

/// What a trigger's program reads from its standard input.
#[derive(Clone, Copy, Debug)]
pub enum Stdin {
    /// Nothing: `/dev/null`.
    DevNull,
    /// The name of each file, and a newline behind it.
    NamePerLine,
}

impl Stdin {
    /// Whether the two are one.
    pub(crate) fn is_same(self, other: Stdin) -> bool
        ensures { result ≡ same_stdin self other }
    {
        match (self, other) {
            (Stdin::DevNull, Stdin::DevNull) => true,
            (Stdin::NamePerLine, Stdin::NamePerLine) => true,
            _ => false,
        }
    }
}

impl Wire for Stdin {
    ghost fits = { Every };

    ghost spelling = { stdin_spelling };

    fn put(&self, out: &mut Vec<u8>) -> Result<(), NoMemory> {
        let byte = match self {
            Stdin::DevNull => 0u8,
            Stdin::NamePerLine => 1u8,
        };
        out.push(byte)?;
        Ok(())
    }

    fn size(&self) -> u64 {
        1
    }

    fn take(_alloc: Global, bytes: &[u8]) -> Result<Option<(Self, usize)>, NoMemory> {
        match bytes {
            [0, ..] => Ok(Some((Stdin::DevNull, 1))),
            [1, ..] => Ok(Some((Stdin::NamePerLine, 1))),
            _ => Ok(None),
        }
    }

    ghost alone = { alone_stdin };

    ghost short = { short_stdin };
}
