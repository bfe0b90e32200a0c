//! The fields that one question asks for.
//! Definitions: specs/Fields.antt. Tests: view_tests/src/answers/rendering.rt.
ghost use Rattle.std.specs.Prelude.{◌≡◌, ◌≢◌, ◌↔◌, ◌<◌, true, None, Some, length, map, is_some, IfOk, IfErr, IsErrOf};
ghost use Rattle.std.specs.List.{filter, list_all};
ghost use Rattle.wm_since.specs.Fields.{are_distinct, are_fields, default_fields, field_of, fields_of, are_ordered, is_among, field_name};

use crate::field::{BY_NAME, Field};
use std::alloc::Global;
use std::marker::Model;
use wm_disk::{NoMemory, Refusal};

/// The fields that an answer tells of each file: one or more, and none twice. Contracts see them in the
/// order of the bytes of their names, which is that of an object's keys.
#[derive(Drop)]
pub struct Fields {
    fields: Vec<Field>,
}

impl Model for Fields {
    ghost use Rattle.std.specs.Prelude.{◌≡◌, ◌<◌, List, length, true};
    ghost use Rattle.wm_since.specs.declared.field.Field.{Field};
    ghost use Rattle.wm_since.specs.Fields.{are_ordered};

    ghost Value = { List Field };

    ghost view = { λ f. f.fields.items };

    ghost invariant = { λ f. (0 < length f.fields.items) × (are_ordered f.fields.items ≡ true) };
}

/// Whether the name is among these.
fn is_among(name: &str, names: &[&str]) -> bool
    ensures { result ≡ is_among name.now (map (λ n. n.now) names.now) }
{
    names.contains(&name)
}

/// Whether each name is that of a field.
fn are_known(names: &[&str]) -> bool
    ensures { result ≡ list_all (λ n. is_some (field_of n.now)) names.now }
{
    names.iter().all(|name| Field::read(name).is_some())
}

/// Whether no name stands there twice.
fn are_distinct(names: &[&str]) -> bool
    ensures { result ≡ are_distinct (map (λ n. n.now) names.now) }
{
    match names {
        [name, rest @ ..] => !is_among(name, rest) && are_distinct(rest),
        [] => true,
    }
}

/// Whether the list names fields: one or more, each once.
fn are_fields(names: &[&str]) -> bool
    ensures { result ≡ are_fields (map (λ n. n.now) names.now) }
{
    match names {
        [_, ..] => are_known(names) && are_distinct(names),
        [] => false,
    }
}

/// Those of the fields that are named.
fn named(alloc: Global, names: &[&str], fields: &[Field]) -> Result<Vec<Field>, NoMemory>
    ensures { IfOk result (λ v. v.items ≡ filter (λ x. is_among (field_name x) (map (λ n. n.now) names.now)) fields.now) }
{
    let mut chosen = Vec::with_capacity(alloc, names.len())?;
    for field in fields {
        if is_among(field.name(), names) {
            chosen.push(*field)?;
        }
    }
    Ok(chosen)
}

impl Fields {
    /// The fields of a question that names none: `exists`, `name`, `new` and `size`. `NoMemory`.
    pub fn default_fields(alloc: Global) -> Result<Fields, NoMemory>
        ensures { IfOk result (λ f. f ≡ default_fields) }
    {
        let mut fields = Vec::with_capacity(alloc, 4)?;
        fields.push(Field::Exists)?;
        fields.push(Field::Name)?;
        fields.push(Field::New)?;
        fields.push(Field::Size)?;
        Ok(Fields { fields })
    }

    /// The fields with these names, in whatever order. `BadField` where a name is unknown or stands
    /// there twice, or there is none; the rules come first, so that `NoMemory` is for a list that keeps
    /// them.
    pub fn read(alloc: Global, names: &[&str]) -> Result<Fields, Refusal>
        ensures exact { IfOk result (λ f. fields_of (map (λ n. n.now) names.now) ≡ Some f) }
        ensures refused { IsErrOf result Refusal.BadField ↔ (fields_of (map (λ n. n.now) names.now) ≡ None) }
        ensures kinds { IfErr result (λ e. e ≢ Refusal.NoMemory → e ≡ Refusal.BadField) }
    {
        if !are_fields(names) {
            return Err(Refusal::BadField);
        }
        let fields = named(alloc, names, &BY_NAME)?;
        Ok(Fields { fields })
    }

    /// The fields, in the order of the bytes of their names.
    pub fn as_slice(&self) -> &[Field]
        ensures value { result.now ≡ self.now }
        ensures some { 0 < length self.now }
        ensures order { are_ordered self.now ≡ true }
    {
        &self.fields
    }
}
