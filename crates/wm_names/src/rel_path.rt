//! The path of a file below a root: its rules, its order, and what is below what.
//! Definitions: specs/Paths.antt. Tests: leaf_tests/src/names/rel_paths.rt.
ghost use Rattle.std.specs.Prelude.{◌≡◌, ◌≢◌, ◌↔◌, ◌+◌, ◌<◌, ℕ, List, length, true, false, nat_eq, refl, IfOk, IfErr, IsErrOf, IsUtf8};
ghost use Rattle.wm_names.specs.PathTexts.{text_bytes};
ghost use Rattle.std.specs.Ordering.{nat_cmp, as_partial_cmp};
ghost use Rattle.std.specs.Cmp.{partial_order_from_agreeing_total, partial_equiv_from_equiv};
ghost use Rattle.std.specs.Cmp.Lexicographic.{slice_cmp, pointwise, nat_list_cmp_total, nat_list_eq_equiv, texts_ties};
ghost use Rattle.wm_names.specs.declared.subtree.Subtree.TheVariants.{Below};
ghost use Rattle.wm_names.specs.Entries.{is_fit, join};
ghost use Rattle.wm_names.specs.Paths.{basename, is_rel_path, is_under, max_rel_path, path_cmp, same_path};

use crate::components::{are_components, is_one_component};
use crate::path_text::PathText;
use crate::text_order::compare_texts;
use std::alloc::Global;
use std::cmp::Ordering;
use std::marker::Model;
use std::sync::Arc;
use wm_disk::{NoMemory, Refusal};

/// The most bytes of a relative path.
pub const MAX_REL_PATH: usize = 1024;

/// The path of a file below a watched root: a text of 1 to 1,024 bytes, whose components between
/// slashes aren't empty, `.` or `..` and hold no zero byte. Paths stand in the order of their bytes.
/// A path and its copies share one text, also in several threads. Contracts see the bytes.
#[derive(Drop)]
pub struct RelPath {
    text: Arc<PathText>,
}

impl Model for RelPath {
    ghost use Rattle.wm_names.specs.PathTexts.{text_bytes};
    ghost use Rattle.std.specs.Prelude.{List, ℕ, ◌≡◌, true};
    ghost use Rattle.wm_names.specs.Paths.{is_rel_path};

    ghost Value = { List ℕ };

    ghost view = { λ p. text_bytes p.text.value };

    ghost invariant = { λ p. is_rel_path (text_bytes p.text.value) ≡ true };
}

impl RelPath {
    /// The path that the text is, with the text's bytes. `BadPath` where the text breaks a rule, and
    /// `NoMemory` where its copy finds no room.
    pub fn read(alloc: Global, text: &str) -> Result<RelPath, Refusal>
        ensures ok { IfOk result (λ p. (p ≡ text.now) × (is_rel_path text.now ≡ true)) }
        ensures refused { IsErrOf result Refusal.BadPath ↔ (is_rel_path text.now ≡ false) }
        ensures kinds { IfErr result (λ e. e ≢ Refusal.NoMemory → e ≡ Refusal.BadPath) }
    {
        if text.len() > MAX_REL_PATH || !are_components(text.as_bytes()) {
            return Err(Refusal::BadPath);
        }
        let text = PathText::new(alloc, text)?;
        let text = Arc::new(alloc, text)?;
        Ok(RelPath { text })
    }

    /// Whether the path of a name in the folder that this path is of keeps the rules.
    fn takes(&self, name: &str) -> bool
        ensures fit { result ≡ is_fit (Below self.now) name.now }
        ensures fits { result ≡ true → length self.now + length name.now < max_rel_path }
    {
        let folder = self.as_str();
        folder.len() + name.len() < MAX_REL_PATH && is_one_component(name.as_bytes())
    }

    /// The path of a name in the folder that this path is of.
    pub(crate) fn join(&self, alloc: Global, name: &str) -> Result<RelPath, Refusal>
        ensures ok { IfOk result (λ p. (p ≡ join (Below self.now) name.now) × (is_fit (Below self.now) name.now ≡ true)) }
        ensures refused { IsErrOf result Refusal.BadPath ↔ (is_fit (Below self.now) name.now ≡ false) }
        ensures kinds { IfErr result (λ e. e ≢ Refusal.NoMemory → e ≡ Refusal.BadPath) }
    {
        if !self.takes(name) {
            return Err(Refusal::BadPath);
        }
        let text = PathText::joined(alloc, self.as_str(), name)?;
        let text = Arc::new(alloc, text)?;
        Ok(RelPath { text })
    }

    /// The path's text.
    pub fn as_str(&self) -> &str
        ensures value { result.now ≡ self.now }
        ensures rules { is_rel_path self.now ≡ true }
        ensures utf8 { IsUtf8 self.now }
    {
        self.text.as_str()
    }

    /// The same path again, which shares its text. `NoMemory` comes only where the text has 2^63 - 1
    /// owners already.
    pub fn copy(&self) -> Result<RelPath, NoMemory>
        ensures { IfOk result (λ p. p ≡ self.now) }
    {
        let text = self.text.clone()?;
        Ok(RelPath { text })
    }

    /// How the two paths stand in the order of their bytes.
    pub fn compare(&self, other: &RelPath) -> Ordering
        ensures { result ≡ path_cmp self.now other.now }
    {
        compare_texts(self.as_str().as_bytes(), other.as_str().as_bytes())
    }

    /// Whether the two are one path.
    pub fn same(&self, other: &RelPath) -> bool
        ensures { result ≡ same_path self.now other.now }
    {
        self.compare(other).is_eq()
    }

    /// Whether the path stands below the folder `top`, at any depth. A folder isn't below itself.
    pub fn under(&self, top: &RelPath) -> bool
        ensures { result ≡ is_under top.now self.now }
    {
        let path = self.as_str().as_bytes();
        let top = top.as_str().as_bytes();
        let n = top.len();
        if n < path.len() {
            path[n] == b'/' && path[..n].cmp(top).is_eq()
        } else {
            false
        }
    }

    /// The last component: what follows the last slash, and the whole path where there is none.
    pub fn basename(&self) -> &str
        ensures { result.now ≡ basename self.now }
    {
        let path = self.as_str();
        match path.rsplit_once('/') {
            Some((_, name)) => name,
            None => path,
        }
    }
}

impl PartialEq for RelPath {
    ghost eq = { pointwise nat_eq };

    ghost laws = { partial_equiv_from_equiv nat_list_eq_equiv };

    fn eq(&self, other: &RelPath) -> bool {
        self.as_str().as_bytes() == other.as_str().as_bytes()
    }
}

impl Eq for RelPath {
    ghost laws = { nat_list_eq_equiv };
}

impl Ord for RelPath {
    ghost cmp = { slice_cmp nat_cmp };

    ghost total = { nat_list_cmp_total };

    ghost matches_partial_cmp = { λ x y. refl };

    ghost matches_eq = { λ x y. texts_ties x y };

    fn cmp(&self, other: &RelPath) -> Ordering {
        self.compare(other)
    }
}

impl PartialOrd for RelPath {
    ghost partial_cmp = { as_partial_cmp (slice_cmp nat_cmp) };

    ghost laws = { partial_order_from_agreeing_total (slice_cmp nat_cmp) nat_list_cmp_total (λ x y. refl) (λ x y. texts_ties x y) };

    fn partial_cmp(&self, other: &RelPath) -> Option<Ordering> {
        Some(self.cmp(other))
    }
}
