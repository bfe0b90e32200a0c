//! The bytes of a whole registry in a file of each version, and which bytes are one.
//! Definitions: specs/Spelling.antt.
//! Tests: registry_tests/src/states.rt, registry_tests/src/long_states.rt.
ghost use Rattle.std.specs.Prelude.{◌≡◌, ◌++◌, ◌<◌, ◌==◌, take, length, flat_map, IfOk, IfSome, IfNone, OnOk, OnErr};
ghost use Rattle.std.specs.List.{list_any};
ghost use Rattle.wm_registry.specs.Spelling.{AreRoots, IsStateIn, state_spelling, root_spelling};
ghost use Rattle.wm_registry.specs.StateLaws.{alone_state, short_state};

use crate::entry::FiledEntry;
use crate::limits::MAX_ROOTS;
use crate::registry::Registry;
use crate::root::{Root, put_root};
use crate::version::{Filed, Version};
use indexmap::IndexMap;
use std::alloc::Global;
use std::marker::{Model, PhantomData};
use wm_disk::{MAX_COUNTER, NoMemory};
use wm_names::RootPath;
use wm_wire::{List, Pair, Wire};

/// The parts of a registry, in the order of its spelling.
type Parts<V> = Pair<u64, Pair<u64, List<FiledEntry<V>, MAX_ROOTS>>>;

/// The roots by their paths, where no path and no number is there twice and each number is below the
/// next.
fn gathered<V: Filed>(
    alloc: Global,
    entries: List<FiledEntry<V>, MAX_ROOTS>,
    next: u64,
) -> Result<Option<IndexMap<RootPath, Root>>, NoMemory>
    ensures some { IfOk result (λ r. IfSome r (λ m. (m.entries ≡ entries) × AreRoots next entries)) }
    ensures none { IfOk result (λ r. IfNone r (AreRoots next entries → ⊥)) }
{
    let mut roots = IndexMap::with_capacity(alloc, entries.len())?;
    for entry in entries.into_vec() {
        let FiledEntry {
            path,
            root,
            file: _,
        } = entry;
        if root.number >= next || roots.contains_key(&path) || has_number(&roots, root.number) {
            return Ok(None);
        }
        roots.insert(path, root)?;
    }
    Ok(Some(roots))
}

/// Whether a root has the number.
fn has_number(roots: &IndexMap<RootPath, Root>, number: u64) -> bool
    ensures { result ≡ list_any (λ r. r.1.number == number) roots.now.entries }
{
    roots.values().any(|root| root.number == number)
}

impl Registry {
    /// Appends the parts one after another, and may stop between two.
    fn put_parts(&self, out: &mut Vec<u8>) -> Result<(), NoMemory>
        ensures ok { OnOk result (out.new.items ≡ out.old.items ++ state_spelling self.now) }
        ensures err { OnErr result (take (length out.old.items) out.new.items ≡ out.old.items) }
    {
        self.incarnation.put(out)?;
        self.next.put(out)?;
        (self.roots.len() as u32).put(out)?;
        put_roots(self.version, &self.roots, out)
    }
}

/// Appends the spellings of the roots, and may stop between two.
fn put_roots(
    version: Version,
    roots: &IndexMap<RootPath, Root>,
    out: &mut Vec<u8>,
) -> Result<(), NoMemory>
    ensures ok { OnOk result (out.new.items ≡ out.old.items ++ flat_map (root_spelling version) roots.now.entries) }
    ensures err { OnErr result (take (length out.old.items) out.new.items ≡ out.old.items) }
{
    for (path, root) in roots.iter() {
        put_root(version, path, root, out)?;
    }
    Ok(())
}

/// A registry, as it is spelled in a file of this version. Contracts see the registry.
#[derive(Drop)]
pub struct FiledRegistry<V: Filed> {
    pub(crate) registry: Registry,
    file: PhantomData<V>,
}

impl<V: Filed> Model for FiledRegistry<V> {
    ghost use Rattle.std.specs.Prelude.{◌≡◌};
    ghost use Rattle.wm_registry.specs.Roots.{State};

    ghost Value = { State };

    ghost view = { λ r. r.registry };

    ghost invariant = { λ r. r.registry.version ≡ V.version };
}

impl<V: Filed> FiledRegistry<V> {
    /// The registry, which is one of the version, as [`Registry::version`] tells.
    pub fn new(registry: Registry) -> Self
        requires { registry.version ≡ V.version }
        ensures { result ≡ registry }
    {
        FiledRegistry {
            registry,
            file: PhantomData,
        }
    }

    /// The registry.
    pub fn registry(&self) -> &Registry
        ensures value { result.now ≡ self.now }
        ensures version { self.now.version ≡ V.version }
    {
        &self.registry
    }
}

impl<V: Filed> Wire for FiledRegistry<V> {
    ghost fits = { IsStateIn V.version };

    ghost spelling = { state_spelling };

    fn put(&self, out: &mut Vec<u8>) -> Result<(), NoMemory> {
        let start = out.len();
        if self.registry.put_parts(out).is_err() {
            out.truncate(start);
            return Err(NoMemory);
        }
        Ok(())
    }

    fn size(&self) -> u64 {
        self.registry.size()
    }

    fn take(alloc: Global, bytes: &[u8]) -> Result<Option<(Self, usize)>, NoMemory> {
        let Some((parts, size)) = Parts::<V>::take(alloc, bytes)? else {
            return Ok(None);
        };
        let version = V::kept_version();
        let (incarnation, rest) = parts.into_parts();
        let (next, entries) = rest.into_parts();
        if incarnation > MAX_COUNTER
            || next == 0
            || next > MAX_COUNTER
            || size as u64 > version.max_state_bytes()
        {
            return Ok(None);
        }
        let Some(roots) = gathered(alloc, entries, next)? else {
            return Ok(None);
        };
        let registry = Registry {
            version,
            incarnation,
            next,
            roots,
            size: size as u64,
        };
        Ok(Some((FiledRegistry::new(registry), size)))
    }

    ghost alone = { alone_state V.version };

    ghost short = { short_state V.version };
}
