//! The parse of a program's words. Definitions: specs/Parses.
ghost use Rattle.std.specs.Prelude.{map};
ghost use Rattle.clap.specs.Words.{app_of};
ghost use Rattle.wm_arguments.specs.Parses.{ParseFinds, ParseShows};

use crate::shown::{Shown, shown_for};
use clap::{ArgMatches, Command};
use std::alloc::Global;
use wm_disk::NoMemory;

/// What clap finds in the words by this command, or what is shown in place of it. `Err` comes only if memory runs out.
pub fn parsed<'a>(
    alloc: Global,
    command: Command<'a>,
    words: &'a [&'a str],
) -> Result<Result<ArgMatches<'a>, Shown>, NoMemory>
    ensures found { ParseFinds (app_of command.entry) (map (λ word. word.now) words.entry.now) result }
    ensures shown { ParseShows (app_of command.entry) (map (λ word. word.now) words.entry.now) result }
{
    match command.try_get_matches_from(words) {
        Ok(matches) => Ok(Ok(matches)),
        Err(error) => Ok(Err(shown_for(alloc, &error)?)),
    }
}
