//! Numbers of 32 and 64 bits, spelled with the most significant byte first.
//! Tests: leaf_tests/src/spellings/values.rt.
ghost use Rattle.std.specs.Prelude.{◌<◌, ◌^◌};
ghost use Rattle.wm_wire.specs.Laws.{alone_u32, alone_u64, short_u32, short_u64};
ghost use Rattle.byteorder.specs.Endian.{big_bytes};

use crate::wire::Wire;
use byteorder::{BigEndian, ByteOrder};
use std::alloc::Global;
use wm_disk::NoMemory;

impl Wire for u32 {
    ghost fits = { λ n. n < 2 ^ 32 };

    ghost spelling = { λ n. big_bytes 4 n };

    fn put(&self, out: &mut Vec<u8>) -> Result<(), NoMemory> {
        let mut bytes = [0u8; 4];
        BigEndian::write_u32(&mut bytes, *self);
        out.extend_from_slice(&bytes)?;
        Ok(())
    }

    fn size(&self) -> u64 {
        let _value = *self;
        4
    }

    fn take(_alloc: Global, bytes: &[u8]) -> Result<Option<(Self, usize)>, NoMemory> {
        if bytes.len() < 4 {
            return Ok(None);
        }
        let value = BigEndian::read_u32(bytes);
        Ok(Some((value, 4)))
    }

    ghost alone = { alone_u32 };

    ghost short = { short_u32 };
}

impl Wire for u64 {
    ghost fits = { λ n. n < 2 ^ 64 };

    ghost spelling = { λ n. big_bytes 8 n };

    fn put(&self, out: &mut Vec<u8>) -> Result<(), NoMemory> {
        let mut bytes = [0u8; 8];
        BigEndian::write_u64(&mut bytes, *self);
        out.extend_from_slice(&bytes)?;
        Ok(())
    }

    fn size(&self) -> u64 {
        let _value = *self;
        8
    }

    fn take(_alloc: Global, bytes: &[u8]) -> Result<Option<(Self, usize)>, NoMemory> {
        if bytes.len() < 8 {
            return Ok(None);
        }
        let value = BigEndian::read_u64(bytes);
        Ok(Some((value, 8)))
    }

    ghost alone = { alone_u64 };

    ghost short = { short_u64 };
}
