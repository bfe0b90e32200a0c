//! The bytes of a trigger in a file of each version.
//! Definitions: specs/Spelling.antt. Tests: registry_tests/src/versions.rt.
ghost use Rattle.std.specs.Prelude.{◌≡◌, ◌++◌, ◌≤◌, true, length, take, OnOk, OnErr};
ghost use Rattle.wm_registry.specs.Endings.{count_fits};
ghost use Rattle.wm_registry.specs.Spelling.{IsTrigger, trigger_spelling};
ghost use Rattle.wm_registry.specs.TriggerLaws.{alone_trigger, short_trigger};
ghost use Rattle.wm_registry.specs.declared.version.Version.TheVariants.{Two};

use crate::ending::{Ending, ending_size, put_ending};
use crate::stdin::Stdin;
use crate::trigger::{Expression, Parts, Trigger, Words, has_program};
use crate::trigger_name::TriggerName;
use crate::version::{Filed, Version};
use std::alloc::Global;
use std::marker::{Model, PhantomData};
use wm_checkpoint::Version2;
use wm_disk::NoMemory;
use wm_wire::{Pair, Wire};

impl Trigger {
    /// Appends the parts one after another, and may stop between two.
    pub(crate) fn put_parts(&self, version: Version, out: &mut Vec<u8>) -> Result<(), NoMemory>
        ensures ok { OnOk result (out.new.items ≡ out.old.items ++ trigger_spelling version self.now) }
        ensures err { OnErr result (take (length out.old.items) out.new.items ≡ out.old.items) }
    {
        self.parts.name.put(out)?;
        self.parts.command.put(out)?;
        self.parts.expression.put(out)?;
        self.parts.append_files.put(out)?;
        self.parts.stdin.put(out)?;
        put_ending(version, &self.parts.max_files_stdin, out)
    }

    /// Appends the spelling in a file of the version. `NoMemory` leaves the vector as it was.
    pub(crate) fn put_as(&self, version: Version, out: &mut Vec<u8>) -> Result<(), NoMemory>
        ensures ok { OnOk result (out.new.items ≡ out.old.items ++ trigger_spelling version self.now) }
        ensures err { OnErr result (out.new.items ≡ out.old.items) }
    {
        let start = out.len();
        if self.put_parts(version, out).is_err() {
            out.truncate(start);
            return Err(NoMemory);
        }
        Ok(())
    }

    /// How many bytes that spelling has.
    pub(crate) fn size_as(&self, version: Version) -> u64
        ensures exact { result ≡ length (trigger_spelling version self.now) }
        ensures fits { count_fits version self.now.max_files_stdin ≡ true → IsTrigger version self.now }
        ensures short { result ≤ 21000 }
    {
        let end = ending_size(version, &self.parts.max_files_stdin);
        self.parts.name.size() + self.parts.command.size() + self.parts.expression.size() + 2 + end
    }
}

/// A trigger, as it is spelled in a file of this version. Contracts see the trigger.
#[derive(Drop)]
pub(crate) struct FiledTrigger<V: Filed> {
    pub(crate) trigger: Trigger,
    pub(crate) file: PhantomData<V>,
}

impl<V: Filed> Model for FiledTrigger<V> {
    ghost use Rattle.std.specs.Prelude.{◌≡◌, true};
    ghost use Rattle.wm_registry.specs.Endings.{count_fits};
    ghost use Rattle.wm_registry.specs.Triggers.{Definition};

    ghost Value = { Definition };

    ghost view = { λ t. t.trigger };

    ghost invariant = { λ t. count_fits V.version t.trigger.max_files_stdin ≡ true };
}

/// The parts of a trigger, in the order of its spelling.
type Spelled<V> = Pair<
    TriggerName,
    Pair<Words, Pair<Expression, Pair<bool, Pair<Stdin, Ending<V>>>>>,
>;

impl<V: Filed> Wire for FiledTrigger<V> {
    ghost fits = { IsTrigger V.version };

    ghost spelling = { trigger_spelling V.version };

    fn put(&self, out: &mut Vec<u8>) -> Result<(), NoMemory> {
        self.trigger.put_as(V::kept_version(), out)
    }

    fn size(&self) -> u64 {
        self.trigger.size_as(V::kept_version())
    }

    fn take(alloc: Global, bytes: &[u8]) -> Result<Option<(Self, usize)>, NoMemory> {
        let Some((parts, size)) = Spelled::<V>::take(alloc, bytes)? else {
            return Ok(None);
        };
        let (name, rest) = parts.into_parts();
        let (command, rest) = rest.into_parts();
        let (expression, rest) = rest.into_parts();
        let (append_files, rest) = rest.into_parts();
        let (stdin, ending) = rest.into_parts();
        if !has_program(command.as_slice()) {
            return Ok(None);
        }
        let parts = Parts {
            name,
            command,
            expression,
            append_files,
            stdin,
            max_files_stdin: ending.into_number(),
        };
        let trigger = Trigger::of(alloc, parts)?;
        let file = PhantomData;
        Ok(Some((FiledTrigger { trigger, file }, size)))
    }

    ghost alone = { alone_trigger V.version };

    ghost short = { short_trigger V.version };
}

/// A trigger by itself is spelled as in a file of version 2, which has a place for each.
impl Wire for Trigger {
    ghost fits = { IsTrigger Two };

    ghost spelling = { trigger_spelling Two };

    fn put(&self, out: &mut Vec<u8>) -> Result<(), NoMemory> {
        self.put_as(Version::Two, out)
    }

    fn size(&self) -> u64 {
        self.size_as(Version::Two)
    }

    fn take(alloc: Global, bytes: &[u8]) -> Result<Option<(Self, usize)>, NoMemory> {
        match FiledTrigger::<Version2>::take(alloc, bytes)? {
            Some((filed, size)) => Ok(Some((filed.trigger, size))),
            None => Ok(None),
        }
    }

    ghost alone = { alone_trigger Two };

    ghost short = { short_trigger Two };
}
