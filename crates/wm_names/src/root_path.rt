//! The path of a watched root, which is absolute.
//! Definitions: specs/Paths.antt. Tests: leaf_tests/src/names/root_paths.rt.
ghost use Rattle.std.specs.Prelude.{◌≡◌, ◌≢◌, ℕ, List, true, false, IfOk, IfErr, IsErrOf, IsUtf8, ◌↔◌, ◌==◌};
ghost use Rattle.std.proofs.Common.{rules};
ghost use Rattle.std.specs.Cmp.{partial_equiv_from_equiv};
ghost use Rattle.std.specs.Cmp.Lexicographic.{nat_list_eq_equiv};
ghost use Rattle.std.specs.Cmp.Rules.{hashing};
ghost use Rattle.std.specs.Hash as fed;
ghost use Rattle.std.specs.Str.{bytes_eq};
ghost use Rattle.wm_names.specs.PathTexts.{text_bytes};
ghost use Rattle.wm_names.specs.Paths.{is_root_path};

use crate::components::are_components;
use crate::path_text::PathText;
use std::alloc::Global;
use std::hash::{Hash, Hasher};
use std::marker::Model;
use wm_disk::{NoMemory, Refusal};

/// The most bytes of a root path.
pub const MAX_ROOT_PATH: usize = 1024;

/// The path of a watched root: a text of at most 1,024 bytes that begins with `/`, whose components
/// between slashes aren't empty, `.` or `..` and hold no zero byte. Contracts see its bytes.
#[derive(Drop)]
pub struct RootPath {
    text: PathText,
}

impl Model for RootPath {
    ghost Value = { List ℕ };

    ghost view = { λ p. text_bytes p.text };

    ghost invariant = { λ p. is_root_path (text_bytes p.text) ≡ true };
}

/// Whether the text keeps the rules of a root path.
fn keeps_rules(text: &str) -> bool
    ensures { result ≡ is_root_path text.now }
{
    match text.as_bytes() {
        [b'/', rest @ ..] => text.len() <= MAX_ROOT_PATH && are_components(rest),
        _ => false,
    }
}

impl RootPath {
    /// The path that the text is, with the text's bytes. `BadPath` where the text breaks a rule, and
    /// `NoMemory` where its copy finds no room.
    pub fn read(alloc: Global, text: &str) -> Result<RootPath, Refusal>
        ensures ok { IfOk result (λ p. (p ≡ text.now) × (is_root_path text.now ≡ true)) }
        ensures refused { IsErrOf result Refusal.BadPath ↔ (is_root_path text.now ≡ false) }
        ensures kinds { IfErr result (λ e. e ≢ Refusal.NoMemory → e ≡ Refusal.BadPath) }
    {
        if !keeps_rules(text) {
            return Err(Refusal::BadPath);
        }
        let text = PathText::new(alloc, text)?;
        Ok(RootPath { text })
    }

    /// The path's text.
    pub fn as_str(&self) -> &str
        ensures value { result.now ≡ self.now }
        ensures rules { is_root_path self.now ≡ true }
        ensures utf8 { IsUtf8 self.now }
    {
        self.text.as_str()
    }

    /// The same path again. `NoMemory`.
    pub fn copy(&self, alloc: Global) -> Result<RootPath, NoMemory>
        ensures { IfOk result (λ p. p ≡ self.now) }
    {
        let text = self.text.copy(alloc)?;
        Ok(RootPath { text })
    }
}

impl PartialEq for RootPath {
    ghost eq = { bytes_eq };

    ghost laws = { partial_equiv_from_equiv nat_list_eq_equiv };

    fn eq(&self, other: &RootPath) -> bool {
        self.as_str() == other.as_str()
    }
}

impl Eq for RootPath {
    ghost laws = { nat_list_eq_equiv };
}

impl Hash for RootPath {
    ghost hash_input = { fed.str };

    ghost respects_eq = { Prim.search (hashing, rules) };

    fn hash<H: Hasher>(&self, state: &mut H) {
        self.as_str().hash(state);
    }
}
