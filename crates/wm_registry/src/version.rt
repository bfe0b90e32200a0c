//! The versions of the state file: as a value that a registry has, and as a layout whose version is known.
//! Definitions: specs/Versions.antt. Tests: registry_tests/src/versions.rt.
ghost use Rattle.std.specs.Prelude.{◌≡◌};
ghost use Rattle.wm_registry.specs.Versions.{max_state_bytes as max_state_bytes_of, sizes_of};
ghost use Rattle.wm_registry.specs.declared.version.Version.{Version as AVersion};
ghost use Rattle.wm_registry.specs.declared.version.Version.TheVariants.{One, Two};

use wm_checkpoint::{Layout, Version1, Version2};

/// A version of the state file.
#[derive(Clone, Copy, Debug, PartialEq, Eq)]
pub enum Version {
    /// The first: a trigger has no number of files there.
    One,
    /// The second, with slots of four times the size.
    Two,
}

impl Version {
    /// The most bytes of a registry's spelling.
    pub fn max_state_bytes(self) -> u64
        ensures { result ≡ max_state_bytes_of self }
    {
        match self {
            Version::One => Version1::max_state_bytes(),
            Version::Two => Version2::max_state_bytes(),
        }
    }
}

/// A layout whose version is known: a registry in such a file is spelled by it.
pub trait Filed: Layout + Drop {
    ghost version: { AVersion };

    /// The version.
    fn kept_version() -> Version
        ensures { result ≡ version };

    /// The file is laid out as the version has it.
    ghost laid_out: { Self.sizes ≡ sizes_of version };
}

impl Filed for Version1 {
    ghost use Rattle.std.proofs.Common.{refl};

    ghost version = { One };

    fn kept_version() -> Version {
        Version::One
    }

    ghost laid_out = { refl };
}

impl Filed for Version2 {
    ghost use Rattle.std.proofs.Common.{refl};

    ghost version = { Two };

    fn kept_version() -> Version {
        Version::Two
    }

    ghost laid_out = { refl };
}
