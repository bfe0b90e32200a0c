//! The name under which a client keeps a cursor.
//! Definitions: specs/Cursors.antt. Tests: leaf_tests/src/clocks/cursor_names.rt.
ghost use Rattle.std.specs.Prelude.{◌≡◌, ◌≢◌, ◌↔◌, ℕ, List, true, false, string_bytes, IfOk, IfErr, IsErrOf, IsUtf8};
ghost use Rattle.std.proofs.Common.{rules};
ghost use Rattle.std.specs.Cmp.{partial_equiv_from_equiv};
ghost use Rattle.std.specs.Cmp.Lexicographic.{nat_list_eq_equiv};
ghost use Rattle.std.specs.Cmp.Rules.{hashing};
ghost use Rattle.std.specs.Hash as fed;
ghost use Rattle.std.specs.Str.{bytes_eq};
ghost use Rattle.wm_clock.specs.Cursors.{is_cursor_name};

use std::alloc::Global;
use std::hash::{Hash, Hasher};
use std::marker::Model;
use wm_disk::{NoMemory, Refusal};

/// The most bytes of a cursor's name.
pub const MAX_CURSOR_NAME: usize = 64;

/// The name of a cursor: a text of 1 to 64 bytes. Contracts see its bytes.
#[derive(Drop)]
pub struct CursorName {
    text: String,
}

impl Model for CursorName {
    ghost Value = { List ℕ };

    ghost view = { λ n. string_bytes n.text };

    ghost invariant = { λ n. is_cursor_name (string_bytes n.text) ≡ true };
}

/// Whether the text has 1 to 64 bytes.
fn is_name(text: &str) -> bool
    ensures { result ≡ is_cursor_name text.now }
{
    !text.is_empty() && text.len() <= MAX_CURSOR_NAME
}

impl CursorName {
    /// The name that the text is. `BadClock` where it is empty or has more than 64 bytes, and
    /// `NoMemory` where its copy finds no room.
    pub fn read(alloc: Global, text: &str) -> Result<CursorName, Refusal>
        ensures ok { IfOk result (λ n. (n ≡ text.now) × (is_cursor_name text.now ≡ true)) }
        ensures refused { IsErrOf result Refusal.BadClock ↔ (is_cursor_name text.now ≡ false) }
        ensures kinds { IfErr result (λ e. e ≢ Refusal.NoMemory → e ≡ Refusal.BadClock) }
    {
        if !is_name(text) {
            return Err(Refusal::BadClock);
        }
        let text = String::from_str(alloc, text)?;
        Ok(CursorName { text })
    }

    /// The name's text.
    pub fn as_str(&self) -> &str
        ensures value { result.now ≡ self.now }
        ensures rules { is_cursor_name self.now ≡ true }
        ensures utf8 { IsUtf8 self.now }
    {
        self.text.as_str()
    }

    /// The same name again. `NoMemory`.
    pub fn copy(&self, alloc: Global) -> Result<CursorName, NoMemory>
        ensures { IfOk result (λ n. n ≡ self.now) }
    {
        let text = String::from_str(alloc, &self.text)?;
        Ok(CursorName { text })
    }
}

impl PartialEq for CursorName {
    ghost eq = { bytes_eq };

    ghost laws = { partial_equiv_from_equiv nat_list_eq_equiv };

    fn eq(&self, other: &CursorName) -> bool {
        self.text == other.text
    }
}

impl Eq for CursorName {
    ghost laws = { nat_list_eq_equiv };
}

impl Hash for CursorName {
    ghost hash_input = { fed.str };

    ghost respects_eq = { Prim.search (hashing, rules) };

    fn hash<H: Hasher>(&self, state: &mut H) {
        self.text.hash(state);
    }
}
