//! Values that may be missing: a byte tells whether the value follows it.
//! Definitions: specs/Spelling.antt. Tests: leaf_tests/src/spellings/optionals.rt.
ghost use Rattle.std.specs.Prelude.{◌≡◌, ◌≤◌, ◌^◌, Option, Some, None, length, IfOk, IfErr, OnOk, OnErr};
ghost use Rattle.std.specs.Option.{option_copied};
ghost use Rattle.wm_wire.specs.Spelling.{IsOptional, optional_spelling};
ghost use Rattle.wm_wire.specs.PairLaws.{alone_optional, short_optional};

use crate::wire::{SPELLING_LIMIT, Wire};
use std::alloc::Global;
use std::marker::Model;
use wm_disk::NoMemory;

/// A value that may be missing, spelled in less than 2^32 bytes. Contracts see it as an `Option`.
#[derive(Drop)]
pub struct Optional<A: Wire> {
    value: Option<A>,
}

impl<A: Wire> Model for Optional<A> {
    ghost Value = { Option A };

    ghost view = { λ o. o.value };

    ghost invariant = { λ o. IsOptional A.fits A.spelling o.value };
}

impl<A: Wire> Optional<A> {
    /// No value.
    pub fn none() -> Self
        ensures { result ≡ None }
    {
        Optional { value: None }
    }

    /// This value; or the same again, where its spelling leaves no room for a byte below 2^32.
    pub fn some(value: A) -> Result<Self, A>
        ensures ok { IfOk result (λ optional. optional ≡ Some value) }
        ensures fits { OnOk result (IsOptional A.fits A.spelling (Some value)) }
        ensures err { IfErr result (λ again. again ≡ value) }
        ensures too_long { OnErr result (2 ^ 32 ≤ length (optional_spelling A.spelling (Some value))) }
    {
        if value.size() + 1 >= SPELLING_LIMIT {
            return Err(value);
        }
        Ok(Optional { value: Some(value) })
    }

    /// The value, where it isn't missing.
    pub fn as_option(&self) -> Option<&A>
        ensures value { option_copied result ≡ self.now }
        ensures fits { IsOptional A.fits A.spelling self.now }
    {
        self.value.as_ref()
    }
}

impl<A: Wire + Drop> Wire for Optional<A> {
    ghost fits = { IsOptional A.fits A.spelling };

    ghost spelling = { optional_spelling A.spelling };

    fn put(&self, out: &mut Vec<u8>) -> Result<(), NoMemory> {
        let start = out.len();
        match &self.value {
            None => out.push(0)?,
            Some(value) => {
                out.push(1)?;
                if value.put(out).is_err() {
                    out.truncate(start);
                    return Err(NoMemory);
                }
            }
        }
        Ok(())
    }

    fn size(&self) -> u64 {
        match &self.value {
            None => 1,
            Some(value) => value.size() + 1,
        }
    }

    fn take(alloc: Global, bytes: &[u8]) -> Result<Option<(Self, usize)>, NoMemory> {
        match bytes {
            [0, ..] => Ok(Some((Optional::none(), 1))),
            [1, rest @ ..] => {
                let Some((value, size)) = A::take(alloc, rest)? else {
                    return Ok(None);
                };
                match Optional::some(value) {
                    Ok(optional) => Ok(Some((optional, size + 1))),
                    Err(_) => Ok(None),
                }
            }
            _ => Ok(None),
        }
    }

    ghost alone = { alone_optional A.fits A.spelling A.alone };

    ghost short = { short_optional A.fits A.spelling };
}
