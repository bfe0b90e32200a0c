//! Registries and commands as a file of one version spells them.
use std::alloc::Global;
use std::process::Abort;
use wm_checkpoint::{Version1, Version2};
use wm_registry::{Command, FiledCommand, FiledRegistry, Registry, Version};

/// A registry of version 1, as its file has it.
pub(crate) fn filed_first(rt: &impl Abort, registry: Registry) -> FiledRegistry<Version1> {
    match registry.version() {
        Version::One => FiledRegistry::new(registry),
        Version::Two => panic!(rt; "a registry of version 2"),
    }
}

/// A registry of version 2, as its file has it.
pub(crate) fn filed_second(rt: &impl Abort, registry: Registry) -> FiledRegistry<Version2> {
    match registry.version() {
        Version::Two => FiledRegistry::new(registry),
        Version::One => panic!(rt; "a registry of version 1"),
    }
}

/// A copy of a registry of version 1, as its file has it.
pub(crate) fn filed_copy(
    rt: &impl Abort,
    alloc: Global,
    registry: &Registry,
) -> FiledRegistry<Version1> {
    filed_first(rt, registry.copy(alloc).expect(rt, "memory"))
}

/// A command as a file of version 1 has it.
pub(crate) fn command_first(rt: &impl Abort, command: Command) -> FiledCommand<Version1> {
    assert!(rt; command.fits_version(Version::One), "no place in version 1");
    FiledCommand::new(command)
}

/// A command as a file of version 2 has it.
pub(crate) fn command_second(rt: &impl Abort, command: Command) -> FiledCommand<Version2> {
    assert!(rt; command.fits_version(Version::Two), "no place in version 2");
    FiledCommand::new(command)
}
