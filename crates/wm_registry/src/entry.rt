//! A path together with its root, as the two are spelled in a registry of each version.
//! Definitions: specs/Spelling.antt. Tests: registry_tests/src/states.rt.
ghost use Rattle.std.specs.Prelude.{◌≡◌, List, ℕ, IfOk};
ghost use Rattle.wm_registry.specs.Placing.{ArePlaced};
ghost use Rattle.wm_registry.specs.Spelling.{IsRoot, root_spelling};
ghost use Rattle.wm_registry.specs.StateLaws.{alone_root, short_root};

use crate::filed_trigger::FiledTrigger;
use crate::limits::MAX_TRIGGERS;
use crate::path_spelling::SpelledPath;
use crate::root::{Root, are_distinct, put_root, root_size};
use crate::trigger::Trigger;
use crate::version::Filed;
use std::alloc::Global;
use std::marker::{Model, PhantomData};
use wm_disk::{MAX_COUNTER, NoMemory};
use wm_names::RootPath;
use wm_wire::{List, Pair, Wire};

/// A path with its root, as they are spelled in a file of this version. Contracts see the two as a tuple.
#[derive(Drop)]
pub(crate) struct FiledEntry<V: Filed> {
    pub(crate) path: RootPath,
    pub(crate) root: Root,
    pub(crate) file: PhantomData<V>,
}

impl<V: Filed> Model for FiledEntry<V> {
    ghost use Rattle.std.specs.Prelude.{◌<◌, ◌≤◌, List, ℕ};
    ghost use Rattle.std.specs.List.{IsDistinct};
    ghost use Rattle.std.specs.Str.{bytes_eq};
    ghost use Rattle.wm_disk.specs.Counters.{max_counter};
    ghost use Rattle.wm_registry.specs.Placing.{ArePlaced};
    ghost use Rattle.wm_registry.specs.Spelling.{names_of};
    ghost use Rattle.wm_registry.specs.declared.root.Root.{Root};

    ghost Value = { List ℕ × Root };

    ghost view = { λ e. (e.path, e.root) };

    ghost invariant = { λ e. (0 < e.root.number) × (e.root.number ≤ max_counter) × IsDistinct bytes_eq (names_of e.root.triggers) × ArePlaced V.version e.root.triggers };
}

/// The parts of an entry, in the order of its spelling.
type Parts<V> = Pair<SpelledPath, Pair<u64, List<FiledTrigger<V>, MAX_TRIGGERS>>>;

/// The triggers that were read.
fn plain<V: Filed>(
    alloc: Global,
    filed: List<FiledTrigger<V>, MAX_TRIGGERS>,
) -> Result<List<Trigger, MAX_TRIGGERS>, NoMemory>
    ensures same { IfOk result (λ l. l ≡ filed) }
    ensures placed { ArePlaced V.version filed }
{
    let mut triggers = List::new(alloc);
    for trigger in filed.into_vec() {
        if triggers.push(trigger.trigger).is_err() {
            return Err(NoMemory);
        }
    }
    Ok(triggers)
}

impl<V: Filed> Wire for FiledEntry<V> {
    ghost fits = { IsRoot V.version };

    ghost spelling = { root_spelling V.version };

    fn put(&self, out: &mut Vec<u8>) -> Result<(), NoMemory> {
        let start = out.len();
        if put_root(V::kept_version(), &self.path, &self.root, out).is_err() {
            out.truncate(start);
            return Err(NoMemory);
        }
        Ok(())
    }

    fn size(&self) -> u64 {
        root_size(V::kept_version(), &self.path, &self.root)
    }

    fn take(alloc: Global, bytes: &[u8]) -> Result<Option<(Self, usize)>, NoMemory> {
        let Some((parts, size)) = Parts::<V>::take(alloc, bytes)? else {
            return Ok(None);
        };
        let (path, parts) = parts.into_parts();
        let (number, triggers) = parts.into_parts();
        let triggers = plain(alloc, triggers)?;
        if number == 0 || number > MAX_COUNTER || !are_distinct(triggers.as_slice()) {
            return Ok(None);
        }
        let root = Root { number, triggers };
        let path = path.path;
        let file = PhantomData;
        Ok(Some((FiledEntry { path, root, file }, size)))
    }

    ghost alone = { alone_root V.version };

    ghost short = { short_root V.version };
}
