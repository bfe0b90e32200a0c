//! The limits of a registry.
//! Definitions: specs/Limits.antt. Tests: registry_tests/src/room.rt, registry_tests/src/trigger_lengths.rt.

/// The most roots that may be watched at once.
pub const MAX_ROOTS: u16 = 256;

/// The most triggers of a root.
pub const MAX_TRIGGERS: u16 = 64;

/// The most bytes of a trigger's name.
pub const MAX_TRIGGER_NAME: u16 = 64;

/// The most words of a trigger's command.
pub const MAX_WORDS: u16 = 16;

/// The most bytes of a word of a command.
pub const MAX_WORD: u16 = 1024;

/// The most bytes of the text of an expression.
pub const MAX_EXPRESSION: u16 = 4096;

/// The most commands of a batch.
pub const MAX_BATCH: usize = 64;
