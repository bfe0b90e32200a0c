//! `wm files` and `wm changes`: one question, and what is shown of its answer.

use crate::crawling::{await_crawl, crawl};
use crate::failure::Failure;
use crate::feeds::is_fed;
use crate::listening::read_answer;
use crate::place::{Place, expression_of, place_of};
use crate::programs::has_inotifywait;
use crate::server::{Reply, Server};
use crate::unreadable::{Looks, name_unreadable, note_folder, unreadable_below, unreadable_found};
use crate::waiting::Waiting;
use wm_commands::arguments::Order;
use wm_commands::{Feeding, query_line, root_line, shown_of};

/// Says on standard error why a root is crawled, and has it crawled.
fn crawl_instead(server: &Server<'_>, root: &str, is_running: bool) -> Result<(), Failure> {
    let has_inotifywait = has_inotifywait(server.rt)?;
    let reason = Feeding::of(is_running, false).crawl_reason(has_inotifywait);
    eprintln!(server.rt; "wm: {root}: {reason}")?;
    crawl(server, root)
}

/// Waits until the server knows all that happened in a root so far: by its feed, and else by a crawl.
pub fn sync(server: &Server<'_>, root: &str) -> Result<(), Failure> {
    if !is_fed(server.rt, server.socket, false)? {
        return crawl_instead(server, root, false);
    }
    await_crawl(server, root)?;
    let json = root_line(server.rt.alloc(), "clock", root)?;
    match server.ask_synced(root, json)? {
        Some(Reply::Line(_)) => Ok(()),
        Some(Reply::Refused(refusal, line)) => Err(server.refused(root, refusal, &line)),
        Some(Reply::NoSession) => Err(server.no_session()),
        None => {
            let is_running = is_fed(server.rt, server.socket, false)?;
            crawl_instead(server, root, is_running)
        }
    }
}

/// The line of the answer to the question of an order, since a clock if there is one.
pub fn answer_line(
    server: &Server<'_>,
    place: &Place,
    order: &Order,
    since: Option<&str>,
    is_json: bool,
) -> Result<String, Failure> {
    if order.question.is_unsynced {
        await_crawl(server, &place.root)?;
    } else {
        sync(server, &place.root)?;
    }
    let expression = expression_of(server, place, order)?;
    let json = query_line(server.rt.alloc(), &place.root, since, expression, is_json)?;
    let mut waiting = Waiting::for_answer(server)?;
    waiting.line(server, &place.root, &json)
}

/// Handles `files` and `changes`.
pub fn list(server: &Server<'_>, dir: String, order: &Order) -> Result<u8, Failure> {
    let place = place_of(server, dir)?;
    let since = match &order.question.since {
        Some(since) => Some(since.as_str()),
        None => None,
    };
    let line = answer_line(server, &place, order, since, order.style.is_json)?;
    if note_folder(server, &place)? {
        note_unread(server, &place, order)?;
    }
    if since.is_some() && !order.style.is_json {
        note_fresh(server, &place, &line)?;
    }
    show(server, &place, order, &line)
}

/// Names on standard error the folders below the place's folder that can't be read: those that the server knows if all files are asked
/// for, and else those that a short walk finds.
fn note_unread(server: &Server<'_>, place: &Place, order: &Order) -> Result<(), Failure> {
    let mut looks = Looks::short(server)?;
    let question = &order.question;
    let is_whole = question.since.is_none() && question.patterns.is_empty();
    let unread = if is_whole && question.own.is_none() {
        let mut waiting = Waiting::for_answer(server)?;
        unreadable_below(server, &place.root, &place.dir, &mut looks, &mut waiting)?
    } else {
        unreadable_found(server, &place.dir, &mut looks)?
    };
    name_unreadable(server, &place.dir, &unread)
}

/// Says on standard error that an answer is fresh.
fn note_fresh(server: &Server<'_>, place: &Place, line: &str) -> Result<(), Failure> {
    if let Some(answer) = read_answer(server, place, line.as_bytes())? {
        if answer.is_fresh {
            let dir = place.dir.as_str();
            eprintln!(server.rt;
                "wm: {dir}: a fresh answer: all that is there, and not what was deleted"
            )?;
        }
    }
    Ok(())
}

/// Shows the line of an answer, and returns the status.
pub fn show(server: &Server<'_>, place: &Place, order: &Order, line: &str) -> Result<u8, Failure> {
    let shown = shown_of(
        server.rt.alloc(),
        order.style,
        &place.root,
        &place.dir,
        line,
    )?;
    if shown.status == 3 {
        return Err(server.lost("its reply is no answer"));
    }
    server.rt.print(shown.text.as_str())?;
    Ok(shown.status)
}
