//! What is wrong in a term: its pattern, its letter, or else all of it. Definitions: specs/RefusedParts. Tests: client_tests/src/parts.rt.
ghost use Rattle.std.specs.Prelude.{◌≡◌, ◌&&◌, ◌||◌, ◌==◌, not, option_and_then, option_map};
ghost use Rattle.std.specs.List.{list_all};
ghost use Rattle.serde_json.specs.View.{view};
ghost use Rattle.wm_expr.specs.Patterns.{is_pattern as is_pattern_lem};
ghost use Rattle.wm_parts.specs.RefusedParts.{inner_part, letter_part, part_seen, pattern_part, whole_part, term_word, wrong_text};
ghost use Rattle.wm_parts.specs.RefusedTerms.{term_form};

use crate::forms::term_form;
use crate::parts::{Part, text_at};
use serde_json::Value;
use wm_expr::MAX_PATTERN;
use wm_names::Kind;

/// Whether no byte is `[` or a backslash.
fn has_no_bracket(text: &[u8]) -> bool
    ensures { result ≡ list_all (λ b. not ((b == 91) || (b == 92))) text.now }
{
    text.iter().all(|byte| !(*byte == b'[' || *byte == b'\\'))
}

/// Whether a text is one that a pattern may be.
fn is_pattern(text: &str) -> bool
    ensures { result ≡ is_pattern_lem text.now }
{
    text.len() <= MAX_PATTERN && has_no_bracket(text.as_bytes())
}

/// The text of a `match`, if it is no pattern.
fn pattern_part(term: &Value) -> Option<Part<'_>>
    ensures { option_map part_seen result ≡ pattern_part (view term.now) }
{
    let text = text_at(term, 1)?;
    if is_pattern(text) {
        return None;
    }
    Some(Part::Pattern(text))
}

/// The text of a `type`, if it is no kind's letter.
fn letter_part(term: &Value) -> Option<Part<'_>>
    ensures { option_map part_seen result ≡ letter_part (view term.now) }
{
    let text = text_at(term, 1)?;
    match Kind::from_letter(text) {
        Some(_) => None,
        None => Some(Part::Letter(text)),
    }
}

/// The text in a term that can't be in it.
fn wrong_text(term: &Value) -> Option<Part<'_>>
    ensures { option_map part_seen result ≡ wrong_text (view term.now) }
{
    match text_at(term, 0)? {
        "match" => pattern_part(term),
        "type" => letter_part(term),
        _ => None,
    }
}

/// The word of a term.
fn term_word(term: &Value) -> Option<&str>
    ensures { option_map (λ s. s.now) result ≡ term_word (view term.now) }
{
    match term {
        Value::String(word) => Some(word.as_str()),
        _ => text_at(term, 0),
    }
}

/// How the terms of a term's word are written. `None` if there is no such word.
fn form_of_term(term: &Value) -> Option<&'static str>
    ensures { option_map (λ t. t.now) result ≡ option_and_then term_form (term_word (view term.now)) }
{
    term_form(term_word(term)?)
}

/// A term that is none, with the form of those of its word if there are some.
fn whole_part(term: &Value) -> Part<'_>
    ensures { part_seen result ≡ whole_part (view term.now) }
{
    match form_of_term(term) {
        Some(form) => Part::Misformed(term, form),
        None => Part::Term(term),
    }
}

/// What is wrong in a term that is none.
pub(crate) fn inner_part(term: &Value) -> Part<'_>
    ensures { part_seen result ≡ inner_part (view term.now) }
{
    match wrong_text(term) {
        Some(part) => part,
        None => whole_part(term),
    }
}
