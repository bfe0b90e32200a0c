//! The command of a run, and what its program reads.
use crate::checks::check;
use crate::trigger_runs::making::{root, run_with, trigger, trigger_of_most};
use std::alloc::Global;
use std::process::{Abort, Command};
use wm_registry::{Stdin, Trigger};
use wm_triggers::{run_command, run_input};

/// Words, whether the files are appended, and the program's words then.
type Row = (&'static [&'static str], bool, &'static [&'static str]);

const ROWS: &[Row] = &[
    (&["make"], false, &[]),
    (&["make", "-s", "all"], false, &["-s", "all"]),
    (&["make"], true, &["d/b.c", "a.c"]),
    (&["make", "", "all"], true, &["", "all", "d/b.c", "a.c"]),
];

/// Whether the command is `make` with these words, in the root.
fn has_words(command: &Command, words: &[&str]) -> bool {
    let in_root = match command.get_current_dir() {
        Some(folder) => folder.as_str() == "/r",
        None => false,
    };
    let args = command.get_args();
    in_root
        && command.get_program() == "make"
        && args.len() == words.len()
        && args.zip(words).all(|(arg, word)| arg == *word)
}

/// Whether the trigger's run for `d/b.c` and `a.c` has a command of these words.
fn has_command(rt: &impl Abort, alloc: Global, trigger: &Trigger, words: &[&str]) -> bool {
    let run = run_with(rt, alloc, &["d/b.c", "a.c"]);
    let root = root(rt, alloc, "/r");
    let command = run_command(alloc, &root, trigger, &run).expect(rt, "memory");
    let has_words = has_words(&command, words);
    drop(command);
    drop(root);
    drop(run);
    has_words
}

fn is_met(rt: &impl Abort, alloc: Global, row: &Row) -> bool {
    let trigger = trigger(rt, alloc, row.0, row.1, Stdin::DevNull);
    let is_met = has_command(rt, alloc, &trigger, row.2);
    drop(trigger);
    is_met
}

#[test]
fn appends_the_files_to_the_words(rt: HostRuntime) {
    for (i, row) in ROWS.iter().enumerate() {
        check!(rt; is_met(&rt, rt.alloc(), row), i);
    }
}

/// A number of names is no matter of the words.
#[test]
fn appends_all_files_whatever_is_read(rt: HostRuntime) {
    let trigger = trigger_of_most(&rt, rt.alloc(), &["make"], true, Some(1));
    check!(rt; has_command(&rt, rt.alloc(), &trigger, &["d/b.c", "a.c"]));
    drop(trigger);
}

/// Whether the trigger's program reads this of a run for these files.
fn reads(rt: &impl Abort, alloc: Global, trigger: &Trigger, files: &[&str], wanted: &str) -> bool {
    let run = run_with(rt, alloc, files);
    let input = run_input(alloc, trigger, &run).expect(rt, "memory");
    let input = input.expect(rt, "an input");
    let reads = input.as_slice() == wanted.as_bytes();
    drop(input);
    drop(run);
    reads
}

/// Whether the trigger's program reads nothing of a run.
fn reads_nothing(rt: &impl Abort, alloc: Global, trigger: &Trigger) -> bool {
    let run = run_with(rt, alloc, &["a.c"]);
    let input = run_input(alloc, trigger, &run).expect(rt, "memory");
    let reads_nothing = input.is_none();
    drop(input);
    drop(run);
    reads_nothing
}

#[test]
fn reads_a_path_a_line(rt: HostRuntime) {
    let alloc = rt.alloc();
    let told = trigger(&rt, alloc, &["make"], false, Stdin::NamePerLine);
    check!(rt; reads(&rt, alloc, &told, &["d/b.c", "a\nb", "a.c"], "d/b.c\na\nb\na.c\n"));
    drop(told);
    let untold = trigger(&rt, alloc, &["make"], false, Stdin::DevNull);
    check!(rt; reads_nothing(&rt, alloc, &untold));
    drop(untold);
}

/// The most names that a program reads, the files of a run, and what it reads then.
type Most = (Option<u32>, &'static [&'static str], &'static str);

const MOST: &[Most] = &[
    (Some(1), &["x.c", "y.c"], "x.c\n"),
    (Some(1), &["y.c", "x.c"], "y.c\n"),
    (Some(2), &["x.c", "y.c"], "x.c\ny.c\n"),
    (Some(2), &["y.c", "z.c", "x.c"], "y.c\nz.c\n"),
    (Some(3), &["x.c", "y.c"], "x.c\ny.c\n"),
    (Some(4_294_967_295), &["x.c", "y.c"], "x.c\ny.c\n"),
    (None, &["x.c", "y.c"], "x.c\ny.c\n"),
];

fn reads_most(rt: &impl Abort, alloc: Global, row: &Most) -> bool {
    let trigger = trigger_of_most(rt, alloc, &["cat"], false, row.0);
    let reads = reads(rt, alloc, &trigger, row.1, row.2);
    drop(trigger);
    reads
}

#[test]
fn reads_the_first_names_alone(rt: HostRuntime) {
    for (i, row) in MOST.iter().enumerate() {
        check!(rt; reads_most(&rt, rt.alloc(), row), i);
    }
}
