//! The part of a request that is the cause of its refusal. Definitions: specs/RefusedParts. Tests: client_tests/src/parts.rt.
ghost use Rattle.std.specs.Prelude.{◌≡◌, option_and_then, option_map};
ghost use Rattle.serde_json.specs.Find.{at};
ghost use Rattle.serde_json.specs.View.{view};
ghost use Rattle.wm_lines.specs.Arguments.{text_at as text_at_lem};
ghost use Rattle.wm_names.specs.Paths.{is_root_path};
ghost use Rattle.wm_parts.specs.RefusedParts.{argument_part, asking_of, command_part, field_part, form_part, key_part, object_of, part_at, refused_root, refusing_part, part_seen, root_part, term_part, value_part};

use crate::fields::first_unknown;
use crate::forms::form_of;
use crate::inner::inner_part;
use crate::keys::{Asking, unknown_key_in};
use crate::terms::term_in;
use crate::values::{Key, refused_value};
use serde_json::Value;
use std::alloc::Global;
use wm_disk::Refusal;
use wm_names::RootPath;

/// A part of a request.
#[derive(Clone, Copy)]
pub enum Part<'a> {
    /// The name of a command that isn't there.
    Command(&'a str),
    /// The path of a root that breaks the rules of such paths.
    Root(&'a str),
    /// A key that an object may not have, and whose object it is.
    Key(Asking, &'a str),
    /// A value that can't be at its key.
    Value(Key, &'a Value),
    /// A term of a word that there isn't.
    Term(&'a Value),
    /// A term that is none, and how the terms of its word are written.
    Misformed(&'a Value, &'static str),
    /// The text of a `match` that is no pattern.
    Pattern(&'a str),
    /// The text of a `type` that is no kind's letter.
    Letter(&'a str),
    /// A field that isn't there.
    Field(&'a Value),
    /// How a request of the command is written.
    Form(&'static str),
}

/// The text at a place of an array.
pub(crate) fn text_at(value: &Value, place: usize) -> Option<&str>
    ensures { option_map (λ s. s.now) result ≡ text_at_lem place (view value.now) }
{
    value.get(place)?.as_str()
}

/// Whether a text may be the path of a root. One that may not is refused before memory is taken.
fn is_root_path(alloc: Global, text: &str) -> bool
    ensures { result ≡ is_root_path text.now }
{
    match RootPath::read(alloc, text) {
        Ok(_) => true,
        Err(refusal) => refusal == Refusal::NoMemory,
    }
}

/// Whose object a request has, and at which place.
fn asking_of(name: &str) -> Option<(Asking, usize)>
    ensures { result ≡ asking_of name.now }
{
    match name {
        "query" => Some((Asking::Query, 2)),
        "subscribe" => Some((Asking::Query, 3)),
        "trigger" => Some((Asking::Trigger, 2)),
        _ => None,
    }
}

/// The object of a request, and whose it is.
pub(crate) fn object_of(value: &Value) -> Option<(Asking, &Value)>
    ensures { option_map (λ o. (o.0, view o.1.now)) result ≡ object_of (view value.now) }
{
    let (asking, place) = asking_of(text_at(value, 0)?)?;
    Some((asking, value.get(place)?))
}

/// The name of a request's command.
fn command_part(value: &Value) -> Option<Part<'_>>
    ensures { option_map part_seen result ≡ command_part (view value.now) }
{
    Some(Part::Command(text_at(value, 0)?))
}

/// A path that can't be that of a root.
pub(crate) fn refused_root(alloc: Global, path: &str) -> Option<Part<'_>>
    ensures { option_map part_seen result ≡ refused_root path.now }
{
    if is_root_path(alloc, path) {
        return None;
    }
    Some(Part::Root(path))
}

/// The path of a request's root, if it is none.
fn root_part(alloc: Global, value: &Value) -> Option<Part<'_>>
    ensures { option_map part_seen result ≡ root_part (view value.now) }
{
    refused_root(alloc, text_at(value, 1)?)
}

/// The first key of a request's object that it may not have.
fn key_part(value: &Value) -> Option<Part<'_>>
    ensures { option_map part_seen result ≡ key_part (view value.now) }
{
    let (asking, object) = object_of(value)?;
    Some(Part::Key(asking, unknown_key_in(asking, object)?))
}

/// The term for which a request's expression is refused, or the text in it.
fn term_part(alloc: Global, value: &Value) -> Option<Part<'_>>
    ensures { option_map part_seen result ≡ term_part (view value.now) }
{
    let (_asking, object) = object_of(value)?;
    Some(inner_part(term_in(alloc, object.get("expression")?)?))
}

/// The first of a request's fields that isn't there.
fn field_part(value: &Value) -> Option<Part<'_>>
    ensures { option_map part_seen result ≡ field_part (view value.now) }
{
    let (_asking, object) = object_of(value)?;
    let fields = object.get("fields")?.as_array()?;
    Some(Part::Field(first_unknown(fields)?))
}

/// The first value of a request's object that isn't of its kind.
fn value_part(value: &Value) -> Option<Part<'_>>
    ensures { option_map part_seen result ≡ value_part (view value.now) }
{
    let (asking, object) = object_of(value)?;
    let (key, found) = refused_value(asking, object)?;
    Some(Part::Value(key, found))
}

/// What a request's object has at a key.
fn part_at(value: &Value, key: Key) -> Option<Part<'_>>
    ensures { option_map part_seen result ≡ part_at key (view value.now) }
{
    let (_asking, object) = object_of(value)?;
    Some(Part::Value(key, object.get(key.name())?))
}

/// How a request of this command is written.
fn form_part(value: &Value) -> Option<Part<'_>>
    ensures { option_map part_seen result ≡ form_part (view value.now) }
{
    Some(Part::Form(form_of(text_at(value, 0)?)?))
}

/// A key that a request's object may not have, a value in it that isn't of its kind, or else how such a request is written.
fn argument_part(value: &Value) -> Option<Part<'_>>
    ensures { option_map part_seen result ≡ argument_part (view value.now) }
{
    let others = value_part(value).or(form_part(value));
    key_part(value).or(others)
}

/// The part for which a request is refused so. `None` if there is no such part: then it is refused for another cause, as a root that
/// isn't watched.
pub fn part_in(alloc: Global, refusal: Refusal, value: &Value) -> Option<Part<'_>>
    ensures { option_map part_seen result ≡ refusing_part refusal (view value.now) }
{
    match refusal {
        Refusal::BadCommand => command_part(value),
        Refusal::BadPath => root_part(alloc, value),
        Refusal::BadArguments | Refusal::BadTrigger => argument_part(value),
        Refusal::BadClock => part_at(value, Key::Since).or(form_part(value)),
        Refusal::BadExpression => term_part(alloc, value),
        Refusal::BadField => field_part(value).or(part_at(value, Key::Fields)),
        _ => None,
    }
}
