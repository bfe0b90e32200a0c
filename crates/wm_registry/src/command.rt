//! The commands that change a registry, and their bytes in the state file.
//! Definitions: specs/Commands.antt.
//! Tests: registry_tests/src/commands.rt, registry_tests/src/other_bytes.rt.
ghost use Rattle.std.specs.Prelude.{◌≡◌, ◌≤◌, ◌++◌, ◌∷◌, take, length, IfOk, OnOk, OnErr};
ghost use Rattle.std.specs.Bool.{OnTrue, OnFalse};
ghost use Rattle.wm_wire.specs.Spelling.{Takes, text};
ghost use Rattle.wm_registry.specs.Commands.{IsCommand, FitsVersion, command_spelling};
ghost use Rattle.wm_registry.specs.CommandLaws.{alone_command, short_command};

use crate::filed_trigger::FiledTrigger;
use crate::path_spelling::{SpelledPath, path_size, put_path, take_path};
use crate::trigger::Trigger;
use crate::trigger_name::TriggerName;
use crate::version::{Filed, Version};
use std::alloc::Global;
use std::marker::{Model, PhantomData};
use wm_disk::NoMemory;
use wm_names::RootPath;
use wm_wire::{Pair, Wire};

/// What changes a registry.
#[derive(Drop)]
pub enum Command {
    /// A start: the next incarnation begins.
    Begin,
    /// The path is to be watched.
    Watch(RootPath),
    /// The root isn't to be watched any longer, and its triggers go.
    WatchDel(RootPath),
    /// The root is to have the trigger, in the place of one of its name.
    Trigger(RootPath, Trigger),
    /// The root's trigger of that name goes.
    TriggerDel(RootPath, TriggerName),
}

/// Appends the parts of a command one after another, and may stop between two.
fn put_parts(version: Version, command: &Command, out: &mut Vec<u8>) -> Result<(), NoMemory>
    ensures ok { OnOk result (out.new.items ≡ out.old.items ++ command_spelling version command.now) }
    ensures err { OnErr result (take (length out.old.items) out.new.items ≡ out.old.items) }
{
    match command {
        Command::Begin => {
            out.push(0)?;
            Ok(())
        }
        Command::Watch(path) => put_tagged(1, path, out),
        Command::WatchDel(path) => put_tagged(2, path, out),
        Command::Trigger(path, trigger) => {
            put_tagged(3, path, out)?;
            trigger.put_as(version, out)
        }
        Command::TriggerDel(path, name) => {
            put_tagged(4, path, out)?;
            name.put(out)
        }
    }
}

/// Appends the tag of a command and its path, and may stop between the two.
fn put_tagged(tag: u8, path: &RootPath, out: &mut Vec<u8>) -> Result<(), NoMemory>
    ensures ok { OnOk result (out.new.items ≡ out.old.items ++ (tag ∷ text path.now)) }
    ensures err { OnErr result (take (length out.old.items) out.new.items ≡ out.old.items) }
{
    out.push(tag)?;
    put_path(path, out)
}

impl Command {
    /// Whether a file of the version has a place for it: a trigger's number of files has none in
    /// version 1.
    pub fn fits_version(&self, version: Version) -> bool
        ensures placed { OnTrue result (FitsVersion version self.now) }
        ensures not_placed { OnFalse result (FitsVersion version self.now → ⊥) }
    {
        match self {
            Command::Trigger(_, trigger) => trigger.fits_version(version),
            _ => true,
        }
    }

    /// How many bytes the spelling has in a file of the version: at most 32,768, which an empty journal
    /// has room for by far.
    pub fn size_as(&self, version: Version) -> u64
        ensures exact { result ≡ length (command_spelling version self.now) }
        ensures fits { FitsVersion version self.now → IsCommand version self.now }
        ensures short { result ≤ 32768 }
    {
        match self {
            Command::Begin => 1,
            Command::Watch(path) | Command::WatchDel(path) => path_size(path) + 1,
            Command::Trigger(path, trigger) => path_size(path) + trigger.size_as(version) + 1,
            Command::TriggerDel(path, name) => path_size(path) + name.size() + 1,
        }
    }
}

/// A command, as it is spelled in a file of this version. Contracts see the command.
#[derive(Drop)]
pub struct FiledCommand<V: Filed> {
    command: Command,
    file: PhantomData<V>,
}

impl<V: Filed> Model for FiledCommand<V> {
    ghost use Rattle.wm_registry.specs.Commands.{FitsVersion};
    ghost use Rattle.wm_registry.specs.declared.command.Command.{Command as ACommand};

    ghost Value = { ACommand };

    ghost view = { λ c. c.command };

    ghost invariant = { λ c. FitsVersion V.version c.command };
}

impl<V: Filed> FiledCommand<V> {
    /// The command, which has a place in a file of the version, as [`Command::fits_version`] tells: one
    /// that a registry of that version accepts has.
    pub fn new(command: Command) -> Self
        requires { FitsVersion V.version command }
        ensures { result ≡ command }
    {
        FiledCommand {
            command,
            file: PhantomData,
        }
    }

    /// The command.
    pub fn command(&self) -> &Command
        ensures { result.now ≡ self.now }
    {
        &self.command
    }
}

/// The command that the bytes begin with, and how many of them it takes.
fn take_command<V: Filed>(alloc: Global, bytes: &[u8]) -> Result<Option<(Command, usize)>, NoMemory>
    ensures { IfOk result (Takes (IsCommand V.version) (command_spelling V.version) bytes.now) }
{
    match bytes {
        [0, ..] => Ok(Some((Command::Begin, 1))),
        [1, rest @ ..] => match take_path(alloc, rest)? {
            Some((path, size)) => Ok(Some((Command::Watch(path), size + 1))),
            None => Ok(None),
        },
        [2, rest @ ..] => match take_path(alloc, rest)? {
            Some((path, size)) => Ok(Some((Command::WatchDel(path), size + 1))),
            None => Ok(None),
        },
        [3, rest @ ..] => match Pair::<SpelledPath, FiledTrigger<V>>::take(alloc, rest)? {
            Some((pair, size)) => {
                let (path, trigger) = pair.into_parts();
                Ok(Some((Command::Trigger(path.path, trigger.trigger), size + 1)))
            }
            None => Ok(None),
        },
        [4, rest @ ..] => match Pair::<SpelledPath, TriggerName>::take(alloc, rest)? {
            Some((pair, size)) => {
                let (path, name) = pair.into_parts();
                Ok(Some((Command::TriggerDel(path.path, name), size + 1)))
            }
            None => Ok(None),
        },
        _ => Ok(None),
    }
}

impl<V: Filed> Wire for FiledCommand<V> {
    ghost fits = { IsCommand V.version };

    ghost spelling = { command_spelling V.version };

    fn put(&self, out: &mut Vec<u8>) -> Result<(), NoMemory> {
        let start = out.len();
        if put_parts(V::kept_version(), &self.command, out).is_err() {
            out.truncate(start);
            return Err(NoMemory);
        }
        Ok(())
    }

    fn size(&self) -> u64 {
        self.command.size_as(V::kept_version())
    }

    fn take(alloc: Global, bytes: &[u8]) -> Result<Option<(Self, usize)>, NoMemory> {
        match take_command::<V>(alloc, bytes)? {
            Some((command, size)) => Ok(Some((FiledCommand::new(command), size))),
            None => Ok(None),
        }
    }

    ghost alone = { alone_command V.version };

    ghost short = { short_command V.version };
}
