//! Lists that the server gives. Tests: feed_tests, tools/try/feed.

use crate::root::{Root, hand_over};
use crate::server::Server;
use crate::system::System;
use serde_json::{Value, json};
use std::alloc::Global;
use wm_client::Stop;
use wm_disk::Refusal;
use wm_names::{RelPath, RootPath};

/// The members of a query that asks for the names of all folders, and of all that exists.
pub(crate) const FOLDERS: &str =
    "{\"expression\":[\"allof\",\"exists\",[\"type\",\"d\"]],\"fields\":[\"name\"]}";

pub(crate) const ALL: &str = "{\"expression\":\"exists\",\"fields\":[\"name\"]}";

/// A text as JSON has it.
pub(crate) fn quoted(alloc: Global, text: &str) -> Result<String, Stop> {
    let value = json!(in alloc; text)?;
    Ok(value.to_string(alloc)?)
}

/// The value that a reply is.
fn value_of(alloc: Global, reply: &[u8]) -> Result<Value, Stop> {
    let Ok(text) = str::from_utf8(reply) else {
        return Err(Stop::Unreadable);
    };
    let Ok(value) = Value::from_str(alloc, text) else {
        return Err(Stop::Unreadable);
    };
    Ok(value)
}

/// The paths that a reply lists.
fn paths_of(alloc: Global, reply: &Value) -> Result<Vec<RelPath>, Stop> {
    let Some(files) = reply.get("files").and_then(Value::as_array) else {
        return Err(Stop::Unreadable);
    };
    let mut paths = Vec::with_capacity(alloc, files.len())?;
    for file in files {
        let Some(text) = file.as_str() else {
            return Err(Stop::Unreadable);
        };
        match RelPath::read(alloc, text) {
            Ok(path) => paths.push(path)?,
            Err(Refusal::NoMemory) => return Err(Stop::NoMemory),
            Err(_) => return Err(Stop::Unreadable),
        }
    }
    Ok(paths)
}

/// The roots that a reply lists.
fn roots_of(alloc: Global, reply: &Value) -> Result<Vec<RootPath>, Stop> {
    let Some(roots) = reply.get("roots").and_then(Value::as_array) else {
        return Err(Stop::Unreadable);
    };
    let mut paths = Vec::with_capacity(alloc, roots.len())?;
    for root in roots {
        let Some(text) = root.as_str() else {
            return Err(Stop::Unreadable);
        };
        match RootPath::read(alloc, text) {
            Ok(path) => paths.push(path)?,
            Err(Refusal::NoMemory) => return Err(Stop::NoMemory),
            Err(_) => return Err(Stop::Unreadable),
        }
    }
    Ok(paths)
}

/// The roots that the server watches.
pub(crate) fn watched_roots<Y: System>(
    alloc: Global,
    server: &mut Server<Y>,
) -> Result<Vec<RootPath>, Stop> {
    hand_over(alloc, server, "[\"watch-list\"]")?;
    let reply = value_of(alloc, server.reply())?;
    roots_of(alloc, &reply)
}

/// The clock of a reply.
pub(crate) fn clock_of(alloc: Global, reply: &[u8]) -> Result<String, Stop> {
    let reply = value_of(alloc, reply)?;
    match reply.get("clock").and_then(Value::as_str) {
        Some(clock) => Ok(String::from_str(alloc, clock)?),
        None => Err(Stop::Unreadable),
    }
}

impl<Y: System> Root<'_, Y> {
    /// The paths that a query with these members is answered.
    pub(crate) fn list(&self, server: &mut Server<Y>, members: &str) -> Result<Vec<RelPath>, Stop> {
        let root = quoted(self.alloc, self.path.as_str())?;
        let request = format!(in self.alloc; "[\"query\",{root},{members}]")?;
        hand_over(self.alloc, server, request.as_str())?;
        let reply = value_of(self.alloc, server.reply())?;
        paths_of(self.alloc, &reply)
    }
}
