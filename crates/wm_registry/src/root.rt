//! A watched root: its number, and its triggers, each name once.
//! Definitions: specs/Triggers.antt, specs/Spelling.antt.
//! Tests: registry_tests/src/roots.rt, registry_tests/src/states.rt.
ghost use Rattle.std.specs.Prelude.{◌≡◌, ◌≤◌, ◌<◌, ◌^◌, ◌++◌, List, length, true, take, position, IfOk, OnOk, OnErr};
ghost use Rattle.std.specs.Bool.{OnTrue, OnFalse};
ghost use Rattle.std.specs.Str.{bytes_eq};
ghost use Rattle.std.specs.List.{list_any, IsDistinct};
ghost use Rattle.wm_wire.specs.Spelling.{IsList, list_spelling};
ghost use Rattle.wm_registry.specs.Limits.{max_triggers};
ghost use Rattle.wm_registry.specs.PathSpelling.{IsPath};
ghost use Rattle.wm_registry.specs.Placing.{ArePlaced};
ghost use Rattle.wm_registry.specs.Spelling.{IsTrigger, names_of, root_spelling, trigger_spelling};
ghost use Rattle.wm_registry.specs.declared.version.Version.TheVariants.{Two};
ghost use Rattle.wm_registry.specs.Triggers.{defined, is_named, same_definition, without};

use crate::limits::MAX_TRIGGERS;
use crate::path_spelling::{path_size, put_path};
use crate::trigger::Trigger;
use crate::version::Version;
use std::alloc::Global;
use wm_disk::NoMemory;
use wm_names::RootPath;
use wm_wire::{List, Wire};

/// A watched root: its number, which no other root of the state file has had or will have, and its
/// triggers in order of first definition.
#[derive(Drop)]
pub struct Root {
    pub number: u64,
    pub triggers: List<Trigger, MAX_TRIGGERS>,
}

/// The place of the trigger with the name.
pub(crate) fn place_of(triggers: &[Trigger], name: &str) -> Option<usize>
    ensures { result ≡ position (is_named name.now) triggers.now }
{
    triggers.iter().position(|trigger| trigger.name() == name)
}

/// Whether a trigger is there that is defined in the same way.
pub(crate) fn is_defined(triggers: &[Trigger], trigger: &Trigger) -> bool
    ensures { result ≡ list_any (same_definition trigger.now) triggers.now }
{
    triggers.iter().any(|other| trigger.is_same(other))
}

/// Puts a trigger in the place of that of its name, or last, where there is room for it.
pub(crate) fn define(
    triggers: &mut List<Trigger, MAX_TRIGGERS>,
    trigger: Trigger,
) -> Result<(), NoMemory>
    requires count { length (defined trigger triggers.old) ≤ max_triggers }
    requires short { length (list_spelling (trigger_spelling Two) (defined trigger triggers.old)) < 2 ^ 32 }
    ensures ok { OnOk result (triggers.new ≡ defined trigger triggers.old) }
    ensures err { OnErr result (triggers.new ≡ triggers.old) }
{
    match place_of(triggers.as_slice(), trigger.name()) {
        Some(place) => match triggers.set(place, trigger) {
            Ok(()) => Ok(()),
            Err(_) => Err(NoMemory),
        },
        None => match triggers.push(trigger) {
            Ok(()) => Ok(()),
            Err(_) => Err(NoMemory),
        },
    }
}

/// Takes the trigger with the name out.
pub(crate) fn forget(triggers: &mut List<Trigger, MAX_TRIGGERS>, name: &str)
    ensures { triggers.new ≡ without name.now triggers.old }
{
    if let Some(place) = place_of(triggers.as_slice(), name) {
        triggers.remove(place);
    }
}

/// The same triggers again.
fn copied(
    alloc: Global,
    triggers: &List<Trigger, MAX_TRIGGERS>,
) -> Result<List<Trigger, MAX_TRIGGERS>, NoMemory>
    ensures { IfOk result (λ l. l ≡ triggers.now) }
{
    let mut list = List::new(alloc);
    for trigger in triggers.as_slice() {
        let copy = trigger.copy()?;
        if list.push(copy).is_err() {
            return Err(NoMemory);
        }
    }
    Ok(list)
}

impl Root {
    /// The same root again.
    pub(crate) fn copy(&self, alloc: Global) -> Result<Root, NoMemory>
        ensures { IfOk result (λ r. r ≡ self.now) }
    {
        let triggers = copied(alloc, &self.triggers)?;
        Ok(Root {
            number: self.number,
            triggers,
        })
    }
}

/// How many bytes the spelling of a root's triggers has in a file of the version, which has a place for each.
pub(crate) fn triggers_size(version: Version, triggers: &List<Trigger, MAX_TRIGGERS>) -> u64
    requires { ArePlaced version triggers.now }
    ensures exact { result ≡ length (list_spelling (trigger_spelling version) triggers.now) }
    ensures fits { IsList max_triggers (IsTrigger version) (trigger_spelling version) triggers.now }
{
    let size = triggers.size();
    match version {
        // in version 2 each has one byte more
        Version::One => size - triggers.len() as u64,
        Version::Two => size,
    }
}

/// How many bytes the spelling of a path with its root has in a file of the version, which has a place
/// for each of its triggers.
pub(crate) fn root_size(version: Version, path: &RootPath, root: &Root) -> u64
    requires { ArePlaced version root.now.triggers }
    ensures exact { result ≡ length (root_spelling version (path.now, root.now)) }
    ensures fits { IsPath path.now }
    ensures triggers { IsList max_triggers (IsTrigger version) (trigger_spelling version) root.now.triggers }
    ensures short { result < 2 ^ 33 }
{
    path_size(path) + 8 + triggers_size(version, &root.triggers)
}

/// Appends the spelling of a root's triggers in a file of the version, and may stop between two.
fn put_triggers(
    version: Version,
    triggers: &List<Trigger, MAX_TRIGGERS>,
    out: &mut Vec<u8>,
) -> Result<(), NoMemory>
    ensures ok { OnOk result (out.new.items ≡ out.old.items ++ list_spelling (trigger_spelling version) triggers.now) }
    ensures err { OnErr result (take (length out.old.items) out.new.items ≡ out.old.items) }
{
    let items = triggers.as_slice();
    (items.len() as u32).put(out)?;
    for trigger in items {
        trigger.put_as(version, out)?;
    }
    Ok(())
}

/// Appends the spelling of a path with its root, and may stop between two parts.
pub(crate) fn put_root(
    version: Version,
    path: &RootPath,
    root: &Root,
    out: &mut Vec<u8>,
) -> Result<(), NoMemory>
    ensures ok { OnOk result (out.new.items ≡ out.old.items ++ root_spelling version (path.now, root.now)) }
    ensures err { OnErr result (take (length out.old.items) out.new.items ≡ out.old.items) }
{
    put_path(path, out)?;
    root.number.put(out)?;
    put_triggers(version, &root.triggers, out)
}

/// Whether no two triggers have one name.
pub(crate) fn are_distinct(triggers: &[Trigger]) -> bool
    ensures apart { OnTrue result (IsDistinct bytes_eq (names_of triggers.now)) }
    ensures not_apart { OnFalse result (IsDistinct bytes_eq (names_of triggers.now) → ⊥) }
{
    match triggers {
        [trigger, rest @ ..] => { place_of(rest, trigger.name()).is_none() && are_distinct(rest) }
        [] => true,
    }
}
