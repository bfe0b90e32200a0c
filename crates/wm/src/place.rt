//! The watched root that holds a folder.

use crate::failure::{Failure, failed};
use crate::server::{Server, bare};
use crate::waiting::Waiting;
use serde_json::Value;
use wm_commands::arguments::Order;
use wm_commands::{NO_ROOT_ADVICE, expression, fits_in_pattern, holder_of, name_in};
use wm_disk::Refusal;
use wm_names::RootPath;

/// A folder, and the watched root that holds it.
#[derive(Drop)]
pub struct Place {
    pub root: String,
    pub dir: String,
}

/// The watched roots.
pub fn roots(server: &Server<'_>) -> Result<Vec<RootPath>, Failure> {
    let alloc = server.rt.alloc();
    let json = bare(alloc, "watch-list")?;
    let mut waiting = Waiting::for_roots(server)?;
    let line = waiting.line(server, server.socket, &json)?;
    let reply = server.value(&line)?;
    let mut roots = Vec::new(alloc);
    let Some(listed) = reply.get("roots").and_then(Value::as_array) else {
        return Err(server.lost("its reply lists no roots"));
    };
    for value in listed {
        let Some(text) = value.as_str() else {
            continue;
        };
        match RootPath::read(alloc, text) {
            Ok(root) => roots.push(root)?,
            Err(Refusal::NoMemory) => return Err(Failure::NoMemory),
            Err(_) => {}
        }
    }
    Ok(roots)
}

/// The place of a folder: it has to be in a watched root.
pub fn place_of(server: &Server<'_>, dir: String) -> Result<Place, Failure> {
    let alloc = server.rt.alloc();
    let roots = roots(server)?;
    match holder_of(&roots, &dir) {
        Some(root) => {
            let root = String::from_str(alloc, root.as_str())?;
            Ok(Place { root, dir })
        }
        None => Err(unheld(server, &dir)?),
    }
}

/// The failure of a folder that no watched root holds.
fn unheld(server: &Server<'_>, dir: &str) -> Result<Failure, Failure> {
    let alloc = server.rt.alloc();
    let text = match RootPath::read(alloc, dir) {
        Ok(_) => format!(in alloc; "{dir}: no watched folder has it; 'wm watch {dir}' watches it")?,
        Err(_) => format!(in alloc; "{dir}: no watched folder has it, and {NO_ROOT_ADVICE}")?,
    };
    Ok(failed(1, text))
}

/// The expression that an order asks for at a place.
pub fn expression_of(server: &Server<'_>, place: &Place, order: &Order) -> Result<Value, Failure> {
    let alloc = server.rt.alloc();
    let below = name_in(alloc, &place.root, &place.dir)?;
    if let Some(folder) = below {
        let has_paths = order
            .question
            .patterns
            .iter()
            .any(|pattern| pattern.as_bytes().contains(&b'/'));
        if has_paths && !fits_in_pattern(folder) {
            let dir = place.dir.as_str();
            let text = format!(in alloc;
                "{dir}: its path has one of * ? [ \\, so no PATTERN can have a slash"
            )?;
            return Err(failed(2, text));
        }
    }
    let own = match &order.question.own {
        Some(own) => Some(own.clone()?),
        None => None,
    };
    Ok(expression(alloc, below, &order.question.patterns, own)?)
}
