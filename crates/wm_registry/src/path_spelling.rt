//! The bytes of a root's path, by themselves and as a value that can be spelled.
//! Definitions: specs/PathSpelling.antt.
//! Tests: registry_tests/src/commands.rt, registry_tests/src/other_bytes.rt.
ghost use Rattle.std.specs.Prelude.{◌≡◌, ◌++◌, length, IfOk, OnOk, OnErr};
ghost use Rattle.wm_wire.specs.Spelling.{text, Takes};
ghost use Rattle.wm_registry.specs.PathSpelling.{IsPath, alone_path, short_path};

use std::alloc::Global;
use std::marker::Model;
use wm_disk::{NoMemory, Refusal};
use wm_names::{MAX_ROOT_PATH, RootPath};
use wm_wire::{Wire, put_text, take_text};

/// Appends the spelling of a path: that of its text.
pub(crate) fn put_path(path: &RootPath, out: &mut Vec<u8>) -> Result<(), NoMemory>
    ensures ok { OnOk result (out.new.items ≡ out.old.items ++ text path.now) }
    ensures err { OnErr result (out.new.items ≡ out.old.items) }
{
    put_text(path.as_str(), out)
}

/// How many bytes that spelling has.
pub(crate) fn path_size(path: &RootPath) -> u64
    ensures exact { result ≡ length (text path.now) }
    ensures fits { IsPath path.now }
{
    path.as_str().len() as u64 + 4
}

/// The path whose spelling begins the bytes, and the spelling's length. A text that breaks the rules
/// of a root path is no spelling.
pub(crate) fn take_path(alloc: Global, bytes: &[u8]) -> Result<Option<(RootPath, usize)>, NoMemory>
    ensures { IfOk result (Takes IsPath text bytes.now) }
{
    let Some((text, size)) = take_text(bytes, MAX_ROOT_PATH as u16) else {
        return Ok(None);
    };
    match RootPath::read(alloc, text) {
        Ok(path) => Ok(Some((path, size))),
        Err(Refusal::BadPath) => Ok(None),
        Err(_) => Err(NoMemory),
    }
}

/// A root path, as it is spelled. Contracts see its bytes.
#[derive(Drop)]
pub(crate) struct SpelledPath {
    pub(crate) path: RootPath,
}

impl Model for SpelledPath {
    ghost use Rattle.std.specs.Prelude.{List, ℕ};

    ghost Value = { List ℕ };

    ghost view = { λ p. p.path };
}

impl Wire for SpelledPath {
    ghost fits = { IsPath };

    ghost spelling = { text };

    fn put(&self, out: &mut Vec<u8>) -> Result<(), NoMemory> {
        put_path(&self.path, out)
    }

    fn size(&self) -> u64 {
        path_size(&self.path)
    }

    fn take(alloc: Global, bytes: &[u8]) -> Result<Option<(Self, usize)>, NoMemory> {
        match take_path(alloc, bytes)? {
            Some((path, size)) => Ok(Some((SpelledPath { path }, size))),
            None => Ok(None),
        }
    }

    ghost alone = { alone_path };

    ghost short = { short_path };
}
