//! The name of a trigger, with its limit and its bytes.
//! Definitions: specs/Triggers.antt, specs/Spelling.antt. Tests: registry_tests/src/names.rt.
ghost use Rattle.std.specs.Prelude.{◌≡◌, ◌≢◌, ◌↔◌, ◌<◌, List, ℕ, false, length, IfOk, IfErr, IsErrOf};
ghost use Rattle.wm_wire.specs.Spelling.{text};
ghost use Rattle.wm_registry.specs.Spelling.{IsName};
ghost use Rattle.wm_registry.specs.TriggerLaws.{alone_name, short_name};
ghost use Rattle.wm_registry.specs.Triggers.{is_name as is_name_lem};

use crate::limits::MAX_TRIGGER_NAME;
use std::alloc::Global;
use std::marker::Model;
use wm_disk::{NoMemory, Refusal};
use wm_wire::{Text, Wire};

/// The name of a trigger: a text of 1 to 64 bytes. Contracts see its bytes.
#[derive(Drop)]
pub struct TriggerName {
    text: Text<MAX_TRIGGER_NAME>,
}

impl Model for TriggerName {
    ghost use Rattle.std.specs.Prelude.{◌<◌, List, ℕ, length};

    ghost Value = { List ℕ };

    ghost view = { λ n. n.text };

    ghost invariant = { λ n. 0 < length n.text };
}

/// Whether the text has 1 to 64 bytes.
pub(crate) fn is_name(text: &str) -> bool
    ensures { result ≡ is_name_lem text.now }
{
    !text.is_empty() && text.len() <= MAX_TRIGGER_NAME as usize
}

impl TriggerName {
    /// The name that the text is. `BadTrigger` where it is empty or has more than 64 bytes, and
    /// `NoMemory`.
    pub fn read(alloc: Global, text: &str) -> Result<TriggerName, Refusal>
        ensures ok { IfOk result (λ n. (n ≡ text.now) × IsName text.now) }
        ensures refused { IsErrOf result Refusal.BadTrigger ↔ (is_name_lem text.now ≡ false) }
        ensures kinds { IfErr result (λ e. e ≢ Refusal.NoMemory → e ≡ Refusal.BadTrigger) }
    {
        if !is_name(text) {
            return Err(Refusal::BadTrigger);
        }
        let text = Text::new(alloc, text)?;
        Ok(TriggerName { text })
    }

    /// The name's text.
    pub fn as_str(&self) -> &str
        ensures value { result.now ≡ self.now }
        ensures fits { IsName self.now }
    {
        self.text.as_str()
    }

    /// The same name again. `NoMemory`.
    pub fn copy(&self, alloc: Global) -> Result<TriggerName, NoMemory>
        ensures { IfOk result (λ n. n ≡ self.now) }
    {
        let text = self.text.copy(alloc)?;
        Ok(TriggerName { text })
    }
}

impl Wire for TriggerName {
    ghost fits = { IsName };

    ghost spelling = { text };

    fn put(&self, out: &mut Vec<u8>) -> Result<(), NoMemory> {
        self.text.put(out)
    }

    fn size(&self) -> u64 {
        self.text.size()
    }

    fn take(alloc: Global, bytes: &[u8]) -> Result<Option<(Self, usize)>, NoMemory> {
        match Text::take(alloc, bytes)? {
            Some((text, size)) => {
                if text.as_str().is_empty() {
                    return Ok(None);
                }
                Ok(Some((TriggerName { text }, size)))
            }
            None => Ok(None),
        }
    }

    ghost alone = { alone_name };

    ghost short = { short_name };
}
