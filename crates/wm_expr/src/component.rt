//! Whether one component of a pattern, between two slashes, fits one of a path.
//! Definitions: specs/Patterns.antt, specs/Globs.antt.
//! Tests: view_tests/src/expressions/patterns.rt.
ghost use Rattle.std.specs.Prelude.{◌≡◌};
ghost use Rattle.wm_expr.specs.Patterns.{behind_a_run, fits_byte as fits_byte_lem, fits_component as fits_component_lem};
ghost use Rattle.wm_expr.specs.Globs.{until_star, until_star_of};

use crate::step::Step;

/// Whether a byte of a pattern fits a byte.
fn fits_byte(c: u8, b: u8) -> bool
    ensures { result ≡ fits_byte_lem c b }
{
    c == b'?' || c == b
}

/// What the two come to before a star.
fn up_to_star<'a>(pattern: &'a [u8], text: &'a [u8]) -> Step<'a, &'a [u8]>
    ensures { until_star_of result ≡ until_star pattern.now text.now }
{
    for i in 0..pattern.len() {
        if pattern[i] == b'*' {
            return Step::Star(&pattern[i + 1..], &text[i..]);
        }
        if i >= text.len() || !fits_byte(pattern[i], text[i]) {
            return Step::Mismatch;
        }
    }
    if text.len() == pattern.len() {
        Step::Done
    } else {
        Step::Mismatch
    }
}

/// Whether the pattern fits what is left of the text behind some run of bytes. No two bytes are compared
/// twice.
fn fits_behind_a_run(pattern: &[u8], text: &[u8]) -> bool
    ensures { result ≡ behind_a_run (fits_component_lem pattern.now) text.now }
{
    let mut rest = pattern;
    let mut left = text;
    loop {
        match up_to_star(rest, left) {
            Step::Star(behind, stands) => {
                rest = behind;
                left = stands;
            }
            Step::Done => return true,
            Step::Mismatch => {
                if left.is_empty() {
                    return false;
                }
                left = &left[1..];
            }
        }
    }
}

/// Whether a component of a pattern fits one of a text: `*` is any run of bytes, `?` one byte, and
/// another byte itself. No two bytes are compared twice, so it takes time in proportion to the product
/// of the lengths at most.
pub(crate) fn fits_component(pattern: &[u8], text: &[u8]) -> bool
    ensures { result ≡ fits_component_lem pattern.now text.now }
{
    match up_to_star(pattern, text) {
        Step::Star(rest, left) => fits_behind_a_run(rest, left),
        Step::Done => true,
        Step::Mismatch => false,
    }
}
