//! Truth values, spelled as one byte.
//! Definitions: specs/Spelling.antt. Tests: leaf_tests/src/spellings/values.rt.
ghost use Rattle.std.specs.Prelude.{Bool};
ghost use Rattle.wm_wire.specs.Spelling.{truth, Every};
ghost use Rattle.wm_wire.specs.Laws.{alone_truth, short_truth};

use crate::wire::Wire;
use std::alloc::Global;
use wm_disk::NoMemory;

impl Wire for bool {
    ghost fits = { Every {V = Bool} };

    ghost spelling = { truth };

    fn put(&self, out: &mut Vec<u8>) -> Result<(), NoMemory> {
        let byte = if *self { 1u8 } else { 0u8 };
        out.push(byte)?;
        Ok(())
    }

    fn size(&self) -> u64 {
        1
    }

    fn take(_alloc: Global, bytes: &[u8]) -> Result<Option<(Self, usize)>, NoMemory> {
        match bytes {
            [0, ..] => Ok(Some((false, 1))),
            [1, ..] => Ok(Some((true, 1))),
            _ => Ok(None),
        }
    }

    ghost alone = { alone_truth };

    ghost short = { short_truth };
}
