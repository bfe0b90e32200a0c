//! Two values, spelled one after the other with no mark between them.
//! Definitions: specs/Spelling.antt. Tests: leaf_tests/src/spellings/pairs.rt.
ghost use Rattle.std.specs.Prelude.{◌≡◌, ◌≤◌, ◌^◌, length, IfOk, IfErr, OnOk, OnErr};
ghost use Rattle.wm_wire.specs.Spelling.{IsPair, pair_spelling};
ghost use Rattle.wm_wire.specs.PairLaws.{alone_pair, short_pair};

use crate::wire::{SPELLING_LIMIT, Wire};
use std::alloc::Global;
use std::marker::Model;
use wm_disk::NoMemory;

/// Two values that are spelled one after the other, in less than 2^32 bytes together. Contracts see
/// them as a tuple.
#[derive(Drop)]
pub struct Pair<A: Wire, B: Wire> {
    first: A,
    second: B,
}

impl<A: Wire, B: Wire> Model for Pair<A, B> {
    ghost Value = { A × B };

    ghost view = { λ p. (p.first, p.second) };

    ghost invariant = { λ p. IsPair A.fits A.spelling B.fits B.spelling (p.first, p.second) };
}

impl<A: Wire, B: Wire> Pair<A, B> {
    /// The two as a pair; or both again, where their spellings have 2^32 bytes or more together.
    pub fn new(first: A, second: B) -> Result<Self, (A, B)>
        ensures ok { IfOk result (λ pair. pair ≡ (first, second)) }
        ensures fits { OnOk result (IsPair A.fits A.spelling B.fits B.spelling (first, second)) }
        ensures err { IfErr result (λ parts. parts ≡ (first, second)) }
        ensures too_long { OnErr result (2 ^ 32 ≤ length (pair_spelling A.spelling B.spelling (first, second))) }
    {
        if first.size() + second.size() >= SPELLING_LIMIT {
            return Err((first, second));
        }
        Ok(Pair { first, second })
    }

    /// The first value.
    pub fn first(&self) -> &A
        ensures value { result.now ≡ self.now.0 }
        ensures fits { A.fits self.now.0 }
    {
        &self.first
    }

    /// The second value.
    pub fn second(&self) -> &B
        ensures value { result.now ≡ self.now.1 }
        ensures fits { B.fits self.now.1 }
    {
        &self.second
    }

    /// Both values.
    pub fn into_parts(self) -> (A, B)
        ensures value { result ≡ self }
        ensures fits { IsPair A.fits A.spelling B.fits B.spelling self }
    {
        (self.first, self.second)
    }
}

impl<A: Wire + Drop, B: Wire + Drop> Wire for Pair<A, B> {
    ghost fits = { IsPair A.fits A.spelling B.fits B.spelling };

    ghost spelling = { pair_spelling A.spelling B.spelling };

    fn put(&self, out: &mut Vec<u8>) -> Result<(), NoMemory> {
        let start = out.len();
        self.first.put(out)?;
        if self.second.put(out).is_err() {
            out.truncate(start);
            return Err(NoMemory);
        }
        Ok(())
    }

    fn size(&self) -> u64 {
        self.first.size() + self.second.size()
    }

    fn take(alloc: Global, bytes: &[u8]) -> Result<Option<(Self, usize)>, NoMemory> {
        let Some((first, first_size)) = A::take(alloc, bytes)? else {
            return Ok(None);
        };
        let Some((second, second_size)) = B::take(alloc, &bytes[first_size..])? else {
            return Ok(None);
        };
        match Pair::new(first, second) {
            Ok(pair) => Ok(Some((pair, first_size + second_size))),
            Err(_) => Ok(None),
        }
    }

    ghost alone = { alone_pair A.fits A.spelling B.fits B.spelling A.alone B.alone };

    ghost short = { short_pair A.fits A.spelling B.fits B.spelling };
}
