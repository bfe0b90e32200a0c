//! Writes an answer's files as JSON, one file at a time.
//! Definitions: specs/Rendered.antt, specs/Texts.antt. Tests: view_tests/src/answers/rendering.rt.
ghost use Rattle.std.specs.Prelude.{◌≡◌, ◌++◌, ◌≤◌, vec_capacity, IfOk, OnOk, OnErr};
ghost use Rattle.serde_json.specs.Data.{boolean, number, string, unsigned};
ghost use Rattle.serde_json.specs.Written.{compact_text};
ghost use Rattle.wm_since.specs.Rendered.{file_data, files_data, members_of, tick_text, value_of};
ghost use Rattle.wm_since.specs.Texts.{KeepsTextPrefix, files_text, item_text, members_tokens_of, tokens_of};

use crate::field::Field;
use crate::fields::Fields;
use crate::listed::Listed;
use crate::query::Answer;
use json::Writer;
use std::alloc::Global;
use wm_clock::ClockId;
use wm_disk::NoMemory;

fn put_text(text: &str, out: &mut Writer) -> Result<(), NoMemory>
    ensures ok { OnOk result (out.new.tokens ≡ out.old.tokens ++ tokens_of (string text.now)) }
    ensures before { out.new.before ≡ out.old.before }
{
    out.string(text)?;
    Ok(())
}

fn put_flag(flag: bool, out: &mut Writer) -> Result<(), NoMemory>
    ensures ok { OnOk result (out.new.tokens ≡ out.old.tokens ++ tokens_of (boolean flag)) }
    ensures before { out.new.before ≡ out.old.before }
{
    out.boolean(flag)?;
    Ok(())
}

fn put_number(value: u64, out: &mut Writer) -> Result<(), NoMemory>
    ensures ok { OnOk result (out.new.tokens ≡ out.old.tokens ++ tokens_of (number (unsigned value))) }
    ensures before { out.new.before ≡ out.old.before }
{
    out.u64(value)?;
    Ok(())
}

/// The text of a tick in the incarnation and the root of a clock.
fn put_tick(alloc: Global, clock: ClockId, tick: u64, out: &mut Writer) -> Result<(), NoMemory>
    ensures ok { OnOk result (out.new.tokens ≡ out.old.tokens ++ tokens_of (string (tick_text clock tick))) }
    ensures before { out.new.before ≡ out.old.before }
{
    let text = ClockId { tick, ..clock }.text(alloc)?;
    put_text(text.as_str(), out)
}

/// A field's value for a file of an answer with that clock.
fn put_value(
    alloc: Global,
    clock: ClockId,
    file: &Listed,
    field: Field,
    out: &mut Writer,
) -> Result<(), NoMemory>
    ensures ok { OnOk result (out.new.tokens ≡ out.old.tokens ++ tokens_of (value_of clock file.now field)) }
    ensures before { out.new.before ≡ out.old.before }
{
    match field {
        Field::Name => put_text(file.entry.path.as_str(), out),
        Field::Exists => put_flag(file.entry.exists, out),
        Field::New => put_flag(file.is_new, out),
        Field::Size => put_number(file.entry.meta.size, out),
        Field::Type => put_text(file.entry.meta.kind.letter(), out),
        Field::MtimeMs => put_number(file.entry.meta.mtime_ms, out),
        Field::Cclock => put_tick(alloc, clock, file.created, out),
        Field::Oclock => put_tick(alloc, clock, file.last, out),
    }
}

/// The members of an object of these fields, and its end.
fn put_members(
    alloc: Global,
    clock: ClockId,
    file: &Listed,
    fields: &[Field],
    out: &mut Writer,
) -> Result<(), NoMemory>
    ensures ok { OnOk result (out.new.tokens ≡ out.old.tokens ++ members_tokens_of (members_of clock file.now fields.now)) }
    ensures before { out.new.before ≡ out.old.before }
{
    for field in fields {
        out.key(field.name())?;
        put_value(alloc, clock, file, *field, out)?;
    }
    out.end_object()?;
    Ok(())
}

/// The bare value of a field that is alone, and else an object.
fn put_file(
    alloc: Global,
    clock: ClockId,
    file: &Listed,
    fields: &[Field],
    out: &mut Writer,
) -> Result<(), NoMemory>
    ensures ok { OnOk result (out.new.tokens ≡ out.old.tokens ++ tokens_of (file_data fields.now clock file.now)) }
    ensures before { out.new.before ≡ out.old.before }
{
    match fields {
        [field] => put_value(alloc, clock, file, *field, out),
        _ => {
            out.begin_object()?;
            put_members(alloc, clock, file, fields, out)
        }
    }
}

/// The text of a file, in the place of what `text` held.
#[tactic(auto, using(crate::proofs::Written::printed))]
fn file_text(
    alloc: Global,
    clock: ClockId,
    file: &Listed,
    fields: &[Field],
    mut text: Vec<u8>,
) -> Result<Vec<u8>, NoMemory>
    ensures { IfOk result (λ t. t.items ≡ compact_text (file_data fields.now clock file.now)) }
{
    text.clear();
    let mut out = Writer::new(text);
    put_file(alloc, clock, file, fields, &mut out)?;
    Ok(out.into_inner())
}

/// Appends a file's text, and before it a comma where it isn't the first. A failure may leave part of it.
fn put_item(text: &[u8], is_later: bool, out: &mut Vec<u8>) -> Result<(), NoMemory>
    ensures ok { OnOk result (out.new.items ≡ out.old.items ++ item_text is_later text.now) }
    ensures err { OnErr result (KeepsTextPrefix out.old.items out.new.items) }
    ensures room { vec_capacity out.old ≤ vec_capacity out.new }
{
    if is_later {
        out.push(b',')?;
    }
    out.extend_from_slice(text)?;
    Ok(())
}

/// Appends the files as an array. A failure may leave part of it.
fn put_files(
    alloc: Global,
    clock: ClockId,
    files: &[Listed],
    fields: &[Field],
    out: &mut Vec<u8>,
) -> Result<(), NoMemory>
    ensures ok { OnOk result (out.new.items ≡ out.old.items ++ files_text fields.now clock files.now) }
    ensures err { OnErr result (KeepsTextPrefix out.old.items out.new.items) }
    ensures room { vec_capacity out.old ≤ vec_capacity out.new }
{
    let mut text = Vec::new(alloc);
    out.push(b'[')?;
    for (i, file) in files.iter().enumerate() {
        text = file_text(alloc, clock, file, fields, text)?;
        put_item(&text, i > 0, out)?;
    }
    out.push(b']')?;
    Ok(())
}

/// Appends the answer's files as JSON, in its order: of each an object with the fields, or the bare value
/// of the field where there is one alone. Sizes and times are unsigned numbers; a clock has the answer's
/// incarnation and root. Only one file's text stands beside what is appended. `NoMemory` leaves the bytes
/// as they were.
pub fn render(
    alloc: Global,
    answer: &Answer,
    fields: &Fields,
    out: &mut Vec<u8>,
) -> Result<(), NoMemory>
    ensures ok { OnOk result (out.new.items ≡ out.old.items ++ compact_text (files_data fields.now answer.now)) }
    ensures err { OnErr result (out.new.items ≡ out.old.items) }
    ensures room { vec_capacity out.old ≤ vec_capacity out.new }
{
    let len = out.len();
    let done = put_files(
        alloc,
        answer.clock,
        answer.files.as_slice(),
        fields.as_slice(),
        out,
    );
    if done.is_err() {
        out.truncate(len);
    }
    done
}
