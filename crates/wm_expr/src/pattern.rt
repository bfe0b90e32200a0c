//! Whether a pattern of `match` fits a path: `**` here, each other component in component.rt.
//! Definitions: specs/Patterns.antt, specs/Globs.antt.
//! Tests: view_tests/src/expressions/patterns.rt.
ghost use Rattle.std.specs.Prelude.{◌≡◌, ◌∷◌, not, ◌&&◌, ◌||◌, ◌==◌, option_map};
ghost use Rattle.std.specs.List.{list_all, position};
ghost use Rattle.wm_names.specs.Paths.{components};
ghost use Rattle.wm_expr.specs.Globs.{deep_takes, until_deep, until_deep_of, parts_of};
ghost use Rattle.wm_expr.specs.Patterns.{behind_a_run, fits as fits_lem, fits_components, is_deep as is_deep_lem, is_pattern as is_pattern_lem};

use crate::component::fits_component;
use crate::step::Step;

/// The most bytes of a pattern.
pub const MAX_PATTERN: usize = 1024;

/// Whether a text is one that a pattern may be: at most 1,024 bytes, with no `[` and no backslash.
pub(crate) fn is_pattern(text: &str) -> bool
    ensures { result ≡ is_pattern_lem text.now }
{
    text.len() <= MAX_PATTERN && has_no_bracket(text.as_bytes())
}

/// Whether no byte is `[` or a backslash.
fn has_no_bracket(text: &[u8]) -> bool
    ensures { result ≡ list_all (λ b. not ((b == 91) || (b == 92))) text.now }
{
    text.iter().all(|byte| !(*byte == b'[' || *byte == b'\\'))
}

/// Whether the component is `**`.
fn is_deep(part: &[u8]) -> bool
    ensures { result ≡ is_deep_lem part.now }
{
    part == b"**".as_slice()
}

/// The place of the first slash.
fn first_slash(parts: &[u8]) -> Option<usize>
    ensures { result ≡ position (λ b. b == 47) parts.now }
{
    parts.iter().position(|byte| *byte == b'/')
}

/// The first component, and what follows its slash.
fn cut(parts: &[u8]) -> (&[u8], Option<&[u8]>)
    ensures { components parts.now ≡ result.0.now ∷ parts_of (option_map (λ s. s.now) result.1) }
{
    match first_slash(parts) {
        Some(i) => (&parts[..i], Some(&parts[i + 1..])),
        None => (parts, None),
    }
}

/// What a `**` with this behind it comes to. As the last component it takes all that is left, but not
/// nothing.
fn at_deep<'a>(rest: Option<&'a [u8]>, text: Option<&'a [u8]>) -> Step<'a, Option<&'a [u8]>>
    ensures { until_deep_of result ≡ deep_takes (parts_of (option_map (λ s. s.now) rest.entry)) (parts_of (option_map (λ s. s.now) text.entry)) }
{
    match (rest, text) {
        (Some(rest), _) => Step::Star(rest, text),
        (None, Some(_)) => Step::Done,
        (None, None) => Step::Mismatch,
    }
}

/// What the two come to before a `**`.
fn up_to_deep<'a>(pattern: &'a [u8], text: Option<&'a [u8]>) -> Step<'a, Option<&'a [u8]>>
    ensures { until_deep_of result ≡ until_deep (components pattern.now) (parts_of (option_map (λ s. s.now) text.entry)) }
{
    let mut rest = Some(pattern);
    let mut left = text;
    while let Some(parts) = rest {
        let (part, behind) = cut(parts);
        if is_deep(part) {
            return at_deep(behind, left);
        }
        let Some(texts) = left else {
            return Step::Mismatch;
        };
        let (name, others) = cut(texts);
        if !fits_component(part, name) {
            return Step::Mismatch;
        }
        rest = behind;
        left = others;
    }
    match left {
        None => Step::Done,
        Some(_) => Step::Mismatch,
    }
}

/// Whether the pattern fits what is left of the text behind some run of components. No two components
/// are compared twice.
fn fits_behind_a_run(pattern: &[u8], text: Option<&[u8]>) -> bool
    ensures { result ≡ behind_a_run (fits_components (components pattern.now)) (parts_of (option_map (λ s. s.now) text.entry)) }
{
    let mut rest = pattern;
    let mut left = text;
    loop {
        match up_to_deep(rest, left) {
            Step::Star(behind, stands) => {
                rest = behind;
                left = stands;
            }
            Step::Done => return true,
            Step::Mismatch => {
                let Some(parts) = left else {
                    return false;
                };
                left = cut(parts).1;
            }
        }
    }
}

/// Whether the pattern fits the text, both cut at each slash: `**` is one or more components where it
/// stands last and any number elsewhere, and another component fits one. No two components are compared
/// twice, so it takes time in proportion to the product of the lengths at most.
pub(crate) fn fits(pattern: &[u8], text: &[u8]) -> bool
    ensures { result ≡ fits_lem pattern.now text.now }
{
    match up_to_deep(pattern, Some(text)) {
        Step::Star(behind, stands) => fits_behind_a_run(behind, stands),
        Step::Done => true,
        Step::Mismatch => false,
    }
}
