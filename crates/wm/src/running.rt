//! `wm wait` and `wm run`.

use crate::asking::{answer_line, show};
use crate::failure::{Failure, failed};
use crate::feed_looks::FeedLooks;
use crate::listening::{await_change, read_answer};
use crate::place::{Place, place_of};
use crate::server::Server;
use crate::unreadable::note_folder;
use std::io::Write;
use std::process::{Child, Command, Stdio};
use std::thread;
use std::time::Duration;
use wm_commands::arguments::Order;
use wm_commands::{Answer, Runs};

/// How long a server that isn't there is left alone, in milliseconds.
const RETRY: u64 = 500;

/// The answer to the question of an order, since a clock if there is one.
fn answer(
    server: &Server<'_>,
    place: &Place,
    order: &Order,
    since: Option<&str>,
) -> Result<Answer, Failure> {
    let line = answer_line(server, place, order, since, false)?;
    match read_answer(server, place, line.as_bytes())? {
        Some(answer) => Ok(answer),
        None => Err(server.lost("its reply is no answer")),
    }
}

/// Handles `wait`: the names of the first change from now on.
pub fn wait(server: &Server<'_>, dir: String, order: &Order) -> Result<u8, Failure> {
    let place = place_of(server, dir)?;
    let now = answer(server, &place, order, None)?;
    note_folder(server, &place)?;
    let since = Some(now.clock.as_str());
    let mut feed = FeedLooks::begin(server)?;
    await_change(server, &place, order, since, &mut feed)?;
    let line = answer_line(server, &place, order, since, order.style.is_json)?;
    show(server, &place, order, &line)
}

/// Starts a program in the place's folder, which reads from a pipe.
fn started(
    server: &Server<'_>,
    place: &Place,
    program: &str,
    words: &[String],
) -> Result<Child, Failure> {
    let alloc = server.rt.alloc();
    let mut command = Command::new(alloc, program)?;
    for word in words {
        command.arg(word.as_str())?;
    }
    command
        .current_dir(place.dir.as_str())?
        .stdin(Stdio::piped());
    match command.spawn(server.rt) {
        Ok(child) => Ok(child),
        Err(_) => {
            note_folder(server, place)?;
            let text = format!(in alloc;
                "{program}: can't be started: no such program, or no right to run it"
            )?;
            Err(failed(1, text))
        }
    }
}

/// The names, each with a zero byte behind it.
fn joined(server: &Server<'_>, names: &[String]) -> Result<Vec<u8>, Failure> {
    let mut text = Vec::new(server.rt.alloc());
    for name in names {
        text.extend_from_slice(name.as_bytes())?;
        text.push(0)?;
    }
    Ok(text)
}

/// Runs the program of an order, which reads names. How it ended is said on standard error, unless it ended well.
fn run_once(
    server: &Server<'_>,
    place: &Place,
    order: &Order,
    names: &[String],
) -> Result<(), Failure> {
    let Some((program, words)) = order.program.words.split_first() else {
        return Ok(());
    };
    let mut child = started(server, place, program, words)?;
    if let Some(mut input) = child.stdin.take() {
        let text = joined(server, names)?;
        // A program may end without having read it all.
        let _written = input.write_all(&text);
    }
    match child.wait() {
        Ok(status) if status.success() => {}
        Ok(status) => match status.code() {
            Some(code) => eprintln!(server.rt; "wm: {program} ended with {code}")?,
            None => eprintln!(server.rt; "wm: {program} was ended by a signal")?,
        },
        Err(_) => eprintln!(server.rt; "wm: how {program} ended isn't known")?,
    }
    Ok(())
}

/// One question, the run that it asks for, and the wait for a change behind it. Once the question is answered the server isn't lost.
fn step(
    server: &Server<'_>,
    place: &Place,
    order: &Order,
    runs: &mut Runs,
    is_lost: &mut bool,
    feed: &mut FeedLooks,
) -> Result<(), Failure> {
    let answer = answer(server, place, order, runs.since())?;
    *is_lost = false;
    if let Some(names) = runs.take(answer) {
        run_once(server, place, order, &names)?;
        runs.end();
    }
    await_change(server, place, order, runs.since(), feed)
}

/// Handles `run`: it goes on until a signal ends it. A server that isn't there, or can't answer yet, is waited for.
pub fn run(server: &Server<'_>, dir: String, order: &Order) -> Result<u8, Failure> {
    let place = place_of(server, dir)?;
    let mut runs = Runs::new();
    let mut is_lost = false;
    let mut feed = FeedLooks::begin(server)?;
    for _ in 0..u64::MAX {
        match step(server, &place, order, &mut runs, &mut is_lost, &mut feed) {
            Ok(()) => {}
            Err(Failure::Told { status: 3, text } | Failure::Later { text }) => {
                if !is_lost {
                    eprintln!(server.rt; "wm: {text}; it is waited for")?;
                }
                is_lost = true;
                thread::sleep(server.rt, Duration::from_millis(RETRY));
            }
            Err(failure) => return Err(failure),
        }
    }
    Ok(0)
}
