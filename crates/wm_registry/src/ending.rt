//! The end of a trigger's spelling: in version 2 the most files that it tells a program of, where there is such a
//! number, and in version 1 nothing.
//! Definitions: specs/Endings.antt. Tests: registry_tests/src/versions.rt.
ghost use Rattle.std.specs.Prelude.{◌≡◌, ◌<◌, ◌^◌, ◌++◌, None, length, OnOk, OnErr};
ghost use Rattle.byteorder.specs.Endian.{big_bytes};
ghost use Rattle.wm_wire.specs.Spelling.{IsOptional};
ghost use Rattle.wm_registry.specs.Endings.{IsEnding, ending_spelling, count_fits, is_file_count as is_file_count_lem};
ghost use Rattle.wm_registry.specs.EndingLaws.{alone_ending, short_ending};

use crate::version::{Filed, Version};
use std::alloc::Global;
use std::marker::{Model, PhantomData};
use wm_disk::NoMemory;
use wm_wire::{Optional, Wire};

/// Whether there is no number, or one of at least 1.
pub(crate) fn is_file_count(most: Option<u32>) -> bool
    ensures { result ≡ is_file_count_lem most }
{
    match most {
        Some(count) => count > 0,
        None => true,
    }
}

/// Whether a file of the version has a place for the number.
pub(crate) fn fits_version(version: Version, most: Option<u32>) -> bool
    ensures { result ≡ count_fits version most }
{
    match (version, most) {
        (Version::One, Some(_)) => false,
        _ => true,
    }
}

/// Appends the end of a trigger's spelling.
pub(crate) fn put_ending(
    version: Version,
    most: &Optional<u32>,
    out: &mut Vec<u8>,
) -> Result<(), NoMemory>
    ensures ok { OnOk result (out.new.items ≡ out.old.items ++ ending_spelling version most.now) }
    ensures err { OnErr result (out.new.items ≡ out.old.items) }
{
    match version {
        Version::One => Ok(()),
        Version::Two => most.put(out),
    }
}

/// How many bytes the end has.
pub(crate) fn ending_size(version: Version, most: &Optional<u32>) -> u64
    ensures exact { result ≡ length (ending_spelling version most.now) }
    ensures fits { IsOptional (λ n. n < 2 ^ 32) (big_bytes 4) most.now }
    ensures short { result < 2 ^ 32 }
{
    let size = most.size();
    match version {
        Version::One => 0,
        Version::Two => size,
    }
}

/// The end of a trigger's spelling in a file of this version. Contracts see the number, which may be missing.
#[derive(Drop)]
pub(crate) struct Ending<V: Filed> {
    most: Optional<u32>,
    file: PhantomData<V>,
}

impl<V: Filed> Model for Ending<V> {
    ghost use Rattle.std.specs.Prelude.{◌≡◌, true, Option, ℕ};
    ghost use Rattle.wm_registry.specs.Endings.{count_fits, is_file_count};

    ghost Value = { Option ℕ };

    ghost view = { λ e. e.most };

    ghost invariant = { λ e. (is_file_count e.most ≡ true) × (count_fits V.version e.most ≡ true) };
}

impl<V: Filed> Ending<V> {
    ghost use Rattle.std.specs.Prelude.{true};
    ghost use Rattle.wm_registry.specs.Endings.{is_file_count};

    /// The end with no number.
    pub(crate) fn none() -> Self
        ensures { result ≡ None }
    {
        Ending {
            most: Optional::none(),
            file: PhantomData,
        }
    }

    /// The number.
    pub(crate) fn into_number(self) -> Optional<u32>
        ensures value { result ≡ self }
        ensures some { is_file_count self ≡ true }
        ensures place { count_fits V.version self ≡ true }
    {
        self.most
    }
}

impl<V: Filed> Wire for Ending<V> {
    ghost fits = { IsEnding V.version };

    ghost spelling = { ending_spelling V.version };

    fn put(&self, out: &mut Vec<u8>) -> Result<(), NoMemory> {
        put_ending(V::kept_version(), &self.most, out)
    }

    fn size(&self) -> u64 {
        ending_size(V::kept_version(), &self.most)
    }

    fn take(alloc: Global, bytes: &[u8]) -> Result<Option<(Self, usize)>, NoMemory> {
        match V::kept_version() {
            Version::One => Ok(Some((Ending::none(), 0))),
            Version::Two => {
                let Some((most, size)) = Optional::<u32>::take(alloc, bytes)? else {
                    return Ok(None);
                };
                if !is_file_count(most.as_option().copied()) {
                    return Ok(None);
                }
                let file = PhantomData;
                Ok(Some((Ending { most, file }, size)))
            }
        }
    }

    ghost alone = { alone_ending V.version };

    ghost short = { short_ending V.version };
}
