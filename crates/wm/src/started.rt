//! The programs that `wm up` started, by the files with the numbers of their processes, and `wm down`.

use crate::claims::check_claims;
use crate::failure::{Failure, at_path, failed};
use crate::places::Places;
use crate::processes::{has_gone, is_program};
use crate::server::Server;
use std::process::{Child, Command};
use std::time::Duration;
use std::{fs, thread};

/// How many times it is looked whether a program that was asked to end has ended.
const LOOKS: u32 = 200;

/// How long it is waited between two looks, in milliseconds.
const PAUSE: u64 = 25;

/// The file with the number of a program that was started.
fn number_file(rt: &HostRuntime, places: &Places, name: &str) -> Result<String, Failure> {
    let state = places.state.as_str();
    Ok(format!(in rt.alloc(); "{state}/{name}.pid")?)
}

/// Writes the number of a program down that was started and stays.
pub fn write_number(
    rt: &HostRuntime,
    places: &Places,
    name: &str,
    child: &Child,
) -> Result<(), Failure> {
    let number = child.id();
    let file = number_file(rt, places, name)?;
    match fs::write(rt, file.as_str(), format!(in rt.alloc(); "{number}\n")?) {
        Ok(()) => Ok(()),
        Err(error) => Err(at_path(rt.alloc(), 1, &file, &error)),
    }
}

/// The number of a program that was started and still runs. `None` if none does.
pub fn running(rt: &HostRuntime, places: &Places, name: &str) -> Result<Option<String>, Failure> {
    let alloc = rt.alloc();
    let file = number_file(rt, places, name)?;
    let Ok(text) = fs::read_to_string(rt, file.as_str()) else {
        return Ok(None);
    };
    let number = text.as_str().trim();
    let file = format!(in alloc; "/proc/{number}/cmdline")?;
    match fs::read_to_string(rt, file.as_str()) {
        Ok(words) if is_program(words.as_str(), name) => {
            Ok(Some(String::from_str(alloc, number)?))
        }
        _ => Ok(None),
    }
}

/// Ends a process of a program, and waits until it has ended.
pub fn end_process(rt: &HostRuntime, number: &str, name: &str) -> Result<(), Failure> {
    let alloc = rt.alloc();
    let mut command = Command::new(alloc, "kill")?;
    command.arg(number)?;
    let _status = command.status(rt);
    for _ in 0..LOOKS {
        if has_gone(rt, number, name)? {
            return Ok(());
        }
        thread::sleep(rt, Duration::from_millis(PAUSE));
    }
    let text = format!(in alloc;
        "{name}: process {number} doesn't end; 'kill -9 {number}' ends it, and loses nothing"
    )?;
    Err(failed(1, text))
}

/// Ends a program that was started, and says so.
fn end(rt: &HostRuntime, places: &Places, name: &str) -> Result<(), Failure> {
    let Some(number) = running(rt, places, name)? else {
        println!(rt; "no {name} of 'wm up' runs")?;
        return Ok(());
    };
    end_process(rt, &number, name)?;
    println!(rt; "{name} ended")?;
    Ok(())
}

/// Handles `down`.
pub fn down(server: &Server<'_>, places: &Places) -> Result<u8, Failure> {
    check_claims(server, places)?;
    end(server.rt, places, "wmfeed")?;
    end(server.rt, places, "watchmand")?;
    Ok(0)
}
