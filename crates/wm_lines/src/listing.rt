//! `listing`, what a reading of a part of a root found. Its definitions are in specs/ListingLines.
//! Tests: session_tests/src/requests/listed.rt.
ghost use Rattle.std.specs.Prelude.{◌≡◌, ◌≢◌, Ok, Err, Some, None, true, false, option_map, IfOk, IfErr};
ghost use Rattle.serde_json.specs.View.{view};
ghost use Rattle.wm_lines.specs.ListingLines.{are_below, file_of, files_of, listing_request, subtree_of};
ghost use Rattle.wm_lines.specs.PairLines.{by_text};

use crate::arguments::{count, has_items, text_at};
use crate::pairs::pair;
use crate::request::Request;
use serde_json::Value;
use std::alloc::Global;
use std::collections::BTreeMap;
use wm_disk::Refusal;
use wm_names::{Meta, RelPath, RootPath, Subtree};
use wm_view::Listing;

/// A path's text, and the metadata of what stands there.
fn file(value: &Value) -> Option<(&str, Meta)>
    ensures { option_map (λ p. (p.0.now, p.1)) result ≡ file_of (view value.now) }
{
    let (text, state) = pair(value)?;
    let meta = state?;
    Some((text, meta))
}

/// The files that an array lists, each once, with their paths as texts.
fn files(alloc: Global, value: &Value) -> Result<BTreeMap<&str, Meta>, Refusal>
    ensures ok { IfOk result (λ m. files_of (view value.now) ≡ Some (by_text m.entries)) }
    ensures refused { IfErr result (λ e. e ≢ Refusal.NoMemory → (e ≡ Refusal.BadArguments) × (files_of (view value.now) ≡ None)) }
{
    let Some(items) = value.as_array() else {
        return Err(Refusal::BadArguments);
    };
    let mut files = BTreeMap::new(alloc);
    for item in items {
        let Some((text, meta)) = file(item) else {
            return Err(Refusal::BadArguments);
        };
        if files.insert(text, meta)?.is_some() {
            return Err(Refusal::BadArguments);
        }
    }
    Ok(files)
}

/// The part of a root that a text names.
pub(crate) fn subtree(alloc: Global, text: &str) -> Result<Subtree, Refusal>
    ensures ok { IfOk result (λ s. subtree_of text.now ≡ Some s) }
    ensures refused { IfErr result (λ e. e ≢ Refusal.NoMemory → (e ≡ Refusal.BadPath) × (subtree_of text.now ≡ None)) }
{
    if text.is_empty() {
        return Ok(Subtree::Whole);
    }
    let top = RelPath::read(alloc, text)?;
    Ok(Subtree::Below(top))
}

/// The listing of files, with their paths read.
fn read_paths(
    alloc: Global,
    subtree: Subtree,
    files: &BTreeMap<&str, Meta>,
) -> Result<Listing, Refusal>
    ensures ok { IfOk result (λ l. (are_below subtree (by_text files.now.entries) ≡ true)
        × (l ≡ record { subtree = subtree; files = by_text files.now.entries })) }
    ensures refused { IfErr result (λ e. e ≢ Refusal.NoMemory → (e ≡ Refusal.BadPath)
        × (are_below subtree (by_text files.now.entries) ≡ false)) }
{
    let mut listing = Listing::new(alloc, subtree);
    for (text, meta) in files {
        let path = RelPath::read(alloc, *text)?;
        listing.add(path, *meta)?;
    }
    Ok(listing)
}

/// `listing` with a root path, the tick at which the reading began, a subtree and pairs.
pub(crate) fn listing(alloc: Global, value: &Value) -> Result<Request, Refusal>
    ensures ok { IfOk result (λ r. listing_request (view value.now) ≡ Ok r) }
    ensures refused { IfErr result (λ e. e ≢ Refusal.NoMemory → listing_request (view value.now) ≡ Err e) }
{
    if !has_items(value, 5) {
        return Err(Refusal::BadArguments);
    }
    let (Some(root), Some(begun_at), Some(top), Some(listed)) = (
        text_at(value, 1),
        value.get(2).and_then(count),
        text_at(value, 3),
        value.get(4),
    ) else {
        return Err(Refusal::BadArguments);
    };
    let files = files(alloc, listed)?;
    let root = RootPath::read(alloc, root)?;
    let subtree = subtree(alloc, top)?;
    let listing = read_paths(alloc, subtree, &files)?;
    Ok(Request::Listing(root, begun_at, listing))
}
