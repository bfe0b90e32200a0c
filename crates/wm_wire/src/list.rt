//! Lists with a limit on their length, whose spelling is always shorter than 2^32 bytes.
//! Definitions: specs/Spelling.antt, specs/NotPushed.antt.
//! Tests: leaf_tests/src/spellings/lists.rt.
ghost use Rattle.std.specs.Prelude.{◌≡◌, ◌<◌, ◌≤◌, ◌^◌, ◌++◌, ◌∷◌, [], length, slice_index_or, slice_set, IfErr, OnOk, OnErr};
ghost use Rattle.std.specs.List.{remove};
ghost use Rattle.wm_wire.specs.Spelling.{IsList, list_spelling};
ghost use Rattle.wm_wire.specs.ListLaws.{alone_list, short_list};

use crate::wire::{SPELLING_LIMIT, Wire};
use std::alloc::Global;
use std::marker::Model;
use thiserror::Error;
use wm_disk::NoMemory;

/// Why a list took no value. The list is as it was, and the value is gone.
#[derive(Clone, Copy, Debug, PartialEq, Eq, Error)]
pub enum NotPushed {
    /// As many values are there as the list may hold.
    #[error("the list is full")]
    Full,
    /// With the value, the list's spelling would have 2^32 bytes or more.
    #[error("the list would be too long to spell")]
    TooLong,
    /// Memory ran out.
    #[error("out of memory")]
    NoMemory,
}

/// At most `MAX` values that are spelled in less than 2^32 bytes together. Contracts see them as a
/// list.
#[derive(Drop)]
pub struct List<W: Wire, const MAX: u16> {
    values: Vec<W>,
    /// How many bytes the spelling of the list has.
    bytes: u64,
}

impl<W: Wire, const MAX: u16> Model for List<W, MAX> {
    ghost use Rattle.std.specs.Prelude.{◌≡◌, List, length};
    ghost use Rattle.wm_wire.specs.Spelling.{IsList, list_spelling};

    ghost Value = { List W };

    ghost view = { λ l. l.values.items };

    ghost invariant = { λ l. IsList MAX W.fits W.spelling l.values.items × (l.bytes ≡ length (list_spelling W.spelling l.values.items)) };
}

impl<W: Wire, const MAX: u16> List<W, MAX> {
    /// A list with no values.
    pub fn new(alloc: Global) -> Self
        ensures { result ≡ [] }
    {
        List {
            values: Vec::new(alloc),
            bytes: 4,
        }
    }

    /// The values in order.
    pub fn as_slice(&self) -> &[W]
        ensures value { result.now ≡ self.now }
        ensures fits { IsList MAX W.fits W.spelling self.now }
    {
        self.values.as_slice()
    }

    /// How many values there are.
    pub fn len(&self) -> usize
        ensures { result ≡ length self.now }
    {
        self.as_slice().len()
    }
}

impl<W: Wire + Drop, const MAX: u16> List<W, MAX> {
    ghost use Rattle.wm_wire.specs.NotPushed.{IsReason};

    /// Puts the value behind the others; or tells why not, and then the list is as it was.
    pub fn push(&mut self, value: W) -> Result<(), NotPushed>
        ensures ok { OnOk result (self.new ≡ self.old ++ value ∷ []) }
        ensures fits { OnOk result (IsList MAX W.fits W.spelling self.new) }
        ensures err { OnErr result (self.new ≡ self.old) }
        ensures reason { IfErr result (IsReason MAX W.spelling self.old value) }
    {
        if self.values.len() >= usize::from(MAX) {
            return Err(NotPushed::Full);
        }
        let bytes = self.bytes + value.size();
        if bytes >= SPELLING_LIMIT {
            return Err(NotPushed::TooLong);
        }
        if self.values.push(value).is_err() {
            return Err(NotPushed::NoMemory);
        }
        self.bytes = bytes;
        Ok(())
    }

    /// The values themselves.
    pub fn into_vec(self) -> Vec<W>
        ensures value { result.items ≡ self }
        ensures fits { IsList MAX W.fits W.spelling self }
    {
        let List { values, bytes: _ } = self;
        values
    }

    /// Takes the value at the index out of the list, and those behind it move down by one.
    pub fn remove(&mut self, index: usize) -> W
        requires { index < length self.old }
        ensures value { result ≡ slice_index_or self.old index result }
        ensures items { self.new ≡ remove self.old index }
        ensures fits { IsList MAX W.fits W.spelling self.new }
    {
        let value = self.values.remove(index);
        self.bytes -= value.size();
        value
    }

    /// Puts the value in the place of the one at the index; or hands it back where the list's spelling
    /// would have 2^32 bytes or more with it, and then the list is as it was. It takes no memory.
    pub fn set(&mut self, index: usize, value: W) -> Result<(), W>
        requires { index < length self.old }
        ensures ok { OnOk result (self.new ≡ slice_set self.old index value) }
        ensures fits { IsList MAX W.fits W.spelling self.new }
        ensures err { OnErr result (self.new ≡ self.old) }
        ensures returned { IfErr result (λ v. v ≡ value) }
        ensures too_long { OnErr result (2 ^ 32 ≤ length (list_spelling W.spelling (slice_set self.old index value))) }
    {
        let bytes = self.bytes - self.values[index].size() + value.size();
        if bytes >= SPELLING_LIMIT {
            return Err(value);
        }
        self.values[index] = value;
        self.bytes = bytes;
        Ok(())
    }
}

impl<W: Wire + Drop, const MAX: u16> Wire for List<W, MAX> {
    ghost fits = { IsList MAX W.fits W.spelling };

    ghost spelling = { list_spelling W.spelling };

    fn put(&self, out: &mut Vec<u8>) -> Result<(), NoMemory> {
        let start = out.len();
        (self.values.len() as u32).put(out)?;
        for value in &self.values {
            if value.put(out).is_err() {
                out.truncate(start);
                return Err(NoMemory);
            }
        }
        Ok(())
    }

    fn size(&self) -> u64 {
        self.bytes
    }

    fn take(alloc: Global, bytes: &[u8]) -> Result<Option<(Self, usize)>, NoMemory> {
        let Some((count, mut at)) = u32::take(alloc, bytes)? else {
            return Ok(None);
        };
        if count > u32::from(MAX) {
            return Ok(None);
        }
        let mut list = List::new(alloc);
        for _ in 0..count {
            let Some((value, size)) = W::take(alloc, &bytes[at..])? else {
                return Ok(None);
            };
            match list.push(value) {
                Ok(()) => at += size,
                Err(NotPushed::Full | NotPushed::TooLong) => return Ok(None),
                Err(NotPushed::NoMemory) => return Err(NoMemory),
            }
        }
        Ok(Some((list, at)))
    }

    ghost alone = { alone_list MAX W.fits W.spelling W.alone };

    ghost short = { short_list MAX W.fits W.spelling };
}
