//! What a pattern and a text come to, read side by side: bytes in component.rt, components in pattern.rt.
//! Definitions: specs/Globs.antt. Tests: view_tests/src/expressions/patterns.rt.

/// What a pattern and a text come to. `T` is what is left of a text.
pub(crate) enum Step<'a, T> {
    /// A star, with the pattern behind it and the text that is left there.
    Star(&'a [u8], T),
    /// Both end together.
    Done,
    /// Something else.
    Mismatch,
}
