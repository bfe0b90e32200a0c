//! A registry of a file of version 1 becomes one of a file of version 2.
//! Definitions: specs/Roots.antt. Tests: registry_tests/src/versions.rt.
ghost use Rattle.std.specs.Prelude.{◌≡◌, ◌<◌, ◌^◌, length, flat_map};
ghost use Rattle.wm_registry.specs.Roots.{in_version_2};
ghost use Rattle.wm_registry.specs.Spelling.{root_spelling};
ghost use Rattle.wm_registry.specs.declared.version.Version.TheVariants.{Two};

use crate::registry::Registry;
use crate::root::{Root, root_size};
use crate::version::Version;
use crate::wire::FiledRegistry;
use indexmap::IndexMap;
use wm_checkpoint::{Version1, Version2};
use wm_names::RootPath;

/// How many bytes the spellings of the roots have in a file of version 2.
fn roots_size(roots: &IndexMap<RootPath, Root>) -> u64
    requires { length (flat_map (root_spelling Two) roots.now.entries) < 2 ^ 32 }
    ensures { result ≡ length (flat_map (root_spelling Two) roots.now.entries) }
{
    let mut size = 0;
    for (path, root) in roots.iter() {
        size += root_size(Version::Two, path, root);
    }
    size
}

impl Registry {
    /// The same registry for a file of version 2, which has room for every registry that fits a file of version 1.
    fn into_version_2(self) -> Registry
        ensures { result ≡ in_version_2 self }
    {
        let size = 20 + roots_size(&self.roots);
        Registry {
            version: Version::Two,
            incarnation: self.incarnation,
            next: self.next,
            roots: self.roots,
            size,
        }
    }
}

impl FiledRegistry<Version1> {
    /// The same registry, for a file of version 2.
    pub fn into_version_2(self) -> FiledRegistry<Version2>
        ensures { result ≡ in_version_2 self }
    {
        FiledRegistry::new(self.registry.into_version_2())
    }
}
