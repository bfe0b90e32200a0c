//! One look-up for a root that is to be new.
//! Tests: registry_tests/src/registries.rt.
ghost use Rattle.std.specs.Prelude.{◌≡◌, ◌++◌, ◌∷◌, [], true, false, None, is_some, IfOk, OnErr};
ghost use Rattle.std.specs.Map.{lookup};
ghost use Rattle.std.specs.Str.{bytes_eq};

use crate::root::Root;
use indexmap::IndexMap;
use std::alloc::Global;
use wm_disk::NoMemory;
use wm_names::RootPath;

/// Puts a root behind the others, where none is at its path, and tells whether it did. It fails where memory
/// ran out for a root that isn't there yet.
pub(crate) fn put_new(
    alloc: Global,
    roots: &mut IndexMap<RootPath, Root>,
    path: &RootPath,
    root: Root,
) -> Result<bool, NoMemory>
    ensures added { IfOk result (λ b. b ≡ true → (lookup (bytes_eq path.now) roots.old.entries ≡ None) × (roots.new.entries ≡ roots.old.entries ++ (path.now, root) ∷ [])) }
    ensures there { IfOk result (λ b. b ≡ false → (is_some (lookup (bytes_eq path.now) roots.old.entries) ≡ true) × (roots.new.entries ≡ roots.old.entries)) }
    ensures memory { OnErr result ((lookup (bytes_eq path.now) roots.old.entries ≡ None) × (roots.new.entries ≡ roots.old.entries)) }
{
    let Ok(key) = path.copy(alloc) else {
        return if roots.contains_key(path) {
            Ok(false)
        } else {
            Err(NoMemory)
        };
    };
    match roots.insert(key, root) {
        Ok(None) => Ok(true),
        Ok(Some(old)) => {
            // its place has the other's root now
            if let Some(root) = roots.get_mut(path) {
                *root = old;
            }
            Ok(false)
        }
        Err(_) => Err(NoMemory),
    }
}
