//! Programs that are really started, in the folder of the tests.
use crate::checks::check;
use crate::trigger_runs::making::{Unasked, root, run_with, trigger, trigger_of_most};
use std::alloc::Global;
use std::process::{Abort, Processes};
use std::{env, fs};
use wm_explain::StartCause;
use wm_names::RootPath;
use wm_registry::{Stdin, Trigger};
use wm_triggers::{NotRun, ProgramEnd, Run, Starter, SystemStarter};

/// How the program ended.
type Ran = Result<ProgramEnd, NotRun>;

const WELL: Ran = Ok(ProgramEnd::Exited(0));

/// A program's words, whether the files are appended, and what it reads.
#[derive(Drop)]
struct Program<'a> {
    words: &'a [&'a str],
    append_files: bool,
    stdin: Stdin,
}

/// Starts the trigger's program for the run.
fn started<R: Processes>(
    alloc: Global,
    processes: &R,
    root: &RootPath,
    trigger: &Trigger,
    run: &Run,
) -> Ran {
    let starter = SystemStarter::new(processes);
    match starter.run(alloc, root, trigger, run, Unasked) {
        Ok((end, _ended)) => Ok(end),
        Err(not_run) => Err(not_run),
    }
}

/// Runs the program in a folder for these files.
fn ran<R: Processes>(
    host: &impl Abort,
    alloc: Global,
    processes: &R,
    folder: &str,
    program: &Program<'_>,
    files: &[&str],
) -> Ran {
    let trigger = trigger(
        host,
        alloc,
        program.words,
        program.append_files,
        program.stdin,
    );
    let root = root(host, alloc, folder);
    let run = run_with(host, alloc, files);
    let started = started(alloc, processes, &root, &trigger, &run);
    drop(run);
    drop(root);
    drop(trigger);
    started
}

/// The folder of the tests.
fn here(rt: &HostRuntime, host: &impl Abort) -> String {
    let folder = env::current_dir(rt).expect(host, "a folder");
    let text = String::from_str(rt.alloc(), folder.as_str()).expect(host, "memory");
    drop(folder);
    text
}

/// Runs the program in the folder of the tests.
fn ran_here(rt: &HostRuntime, host: &impl Abort, program: &Program<'_>, files: &[&str]) -> Ran {
    let folder = here(rt, host);
    let ran = ran(host, rt.alloc(), rt, &folder, program, files);
    drop(folder);
    ran
}

/// Whether the file has this text.
fn has_text(rt: &HostRuntime, host: &impl Abort, path: &str, wanted: &str) -> bool {
    let text = fs::read_to_string(rt, path).expect(host, "a file");
    let has_text = text.as_str() == wanted;
    drop(text);
    has_text
}

/// Whether the program, for `d/b.c` and `a.c`, leaves this text in the file.
fn leaves(
    rt: &HostRuntime,
    host: &impl Abort,
    program: &Program<'_>,
    path: &str,
    wanted: &str,
) -> bool {
    let _ = fs::remove_file(rt, path);
    let ended = ran_here(rt, host, program, &["d/b.c", "a.c"]);
    let written = has_text(rt, host, path, wanted);
    fs::remove_file(rt, path).expect(host, "a file");
    ended == WELL && written
}

/// A script with two words behind it, whether files are appended, its input, its file, the text there.
type Row = (&'static str, bool, Stdin, &'static str, &'static str);

const ROWS: &[Row] = &[
    (
        "cat > trigger_names",
        false,
        Stdin::NamePerLine,
        "trigger_names",
        "d/b.c\na.c\n",
    ),
    (
        "cat > trigger_null; echo end >> trigger_null",
        false,
        Stdin::DevNull,
        "trigger_null",
        "end\n",
    ),
    (
        "printf '%s\\n' \"$@\" > trigger_words",
        false,
        Stdin::DevNull,
        "trigger_words",
        "x\n",
    ),
    (
        "printf '%s\\n' \"$@\" > trigger_appended",
        true,
        Stdin::DevNull,
        "trigger_appended",
        "x\nd/b.c\na.c\n",
    ),
    (
        "cat > trigger_both; printf '%s\\n' \"$@\" >> trigger_both",
        true,
        Stdin::NamePerLine,
        "trigger_both",
        "d/b.c\na.c\nx\nd/b.c\na.c\n",
    ),
    (
        // its three streams, and the folder while it is read
        "set -- /proc/$$/fd/*; echo $# > trigger_open",
        false,
        Stdin::NamePerLine,
        "trigger_open",
        "4\n",
    ),
    (
        "sleep 0.3; echo end > trigger_slow",
        false,
        Stdin::DevNull,
        "trigger_slow",
        "end\n",
    ),
];

fn leaves_row(rt: &HostRuntime, host: &impl Abort, row: &Row) -> bool {
    let program = Program {
        words: &["sh", "-c", row.0, "script", "x"],
        append_files: row.1,
        stdin: row.2,
    };
    leaves(rt, host, &program, row.3, row.4)
}

#[test]
fn programs_get_their_words_and_input(rt: HostRuntime) {
    // a file that is open here isn't open there
    let open = fs::File::open(&rt, "/dev/null").expect(&rt, "a file");
    for row in ROWS {
        check!(rt; leaves_row(&rt, &rt, row), row.3);
    }
    drop(open);
}

/// Starts `cat` for `x.c` and `y.c`, which is to read one name at most.
fn ran_for_one_name(rt: &HostRuntime, host: &impl Abort) -> Ran {
    let alloc = rt.alloc();
    let trigger = trigger_of_most(
        host,
        alloc,
        &["sh", "-c", "cat > trigger_first"],
        false,
        Some(1),
    );
    let folder = here(rt, host);
    let root = root(host, alloc, &folder);
    let run = run_with(host, alloc, &["x.c", "y.c"]);
    let started = started(alloc, rt, &root, &trigger, &run);
    drop(run);
    drop(root);
    drop(folder);
    drop(trigger);
    started
}

#[test]
fn a_program_reads_the_first_name_alone(rt: HostRuntime) {
    check!(rt; ran_for_one_name(&rt, &rt) == WELL);
    check!(rt; has_text(&rt, &rt, "trigger_first", "x.c\n"));
    fs::remove_file(&rt, "trigger_first").expect(&rt, "a file");
}

/// Where this program writes its output and its errors.
fn own_streams(rt: &HostRuntime, host: &impl Abort) -> String {
    let output = fs::read_link(rt, "/proc/self/fd/1").expect(host, "a file");
    let errors = fs::read_link(rt, "/proc/self/fd/2").expect(host, "a file");
    let both = format!(in rt.alloc(); "{}\n{}\n", output.as_str(), errors.as_str());
    let both = both.expect(host, "memory");
    drop(output);
    drop(errors);
    both
}

#[test]
fn programs_write_where_this_one_writes(rt: HostRuntime) {
    let wanted = own_streams(&rt, &rt);
    let program = Program {
        words: &[
            "sh",
            "-c",
            "a=$(readlink /proc/$$/fd/1 /proc/$$/fd/2); echo \"$a\" > trigger_streams",
        ],
        append_files: false,
        stdin: Stdin::DevNull,
    };
    check!(rt; leaves(&rt, &rt, &program, "trigger_streams", wanted.as_str()));
    drop(wanted);
}

/// Whether the file has this line.
fn has_line(rt: &HostRuntime, host: &impl Abort, path: &str, line: &str) -> bool {
    let text = fs::read_to_string(rt, path).expect(host, "a file");
    let has_line = text.as_str().strip_suffix("\n") == Some(line);
    drop(text);
    has_line
}

/// Whether a program of the root `trigger_root` writes that it runs in this folder.
fn runs_in(rt: &HostRuntime, host: &impl Abort, folder: &str) -> bool {
    let program = Program {
        words: &["sh", "-c", "pwd > here"],
        append_files: false,
        stdin: Stdin::DevNull,
    };
    let ended = ran(host, rt.alloc(), rt, folder, &program, &["a.c"]);
    let told = has_line(rt, host, "trigger_root/here", folder);
    fs::remove_file(rt, "trigger_root/here").expect(host, "a file");
    ended == WELL && told
}

#[test]
fn programs_run_in_the_root(rt: HostRuntime) {
    const FOLDER: &str = "trigger_root";
    let _ = fs::create_dir(&rt, FOLDER);
    let mut folder = here(&rt, &rt);
    write!(folder, "/{FOLDER}").expect(&rt, "memory");
    check!(rt; runs_in(&rt, &rt, &folder));
    drop(folder);
    fs::remove_dir(&rt, FOLDER).expect(&rt, "a folder");
}

/// Words of a program that can't be started, its folder, and why.
type Bad = (&'static [&'static str], &'static str, StartCause);

const BAD: &[Bad] = &[
    (&["no-such-program-here"], "/tmp", StartCause::NoFile),
    (&["/no/such/program"], "/tmp", StartCause::NoFile),
    (&["./trigger_no_such_program"], "/tmp", StartCause::NoFile),
    (&["true"], "/no-such-folder", StartCause::NoFile),
    (&["/bin/true"], "/no-such-folder", StartCause::NoFile),
    (&["true", "a\0b"], "/tmp", StartCause::Refused),
    (&["tr\0ue"], "/tmp", StartCause::Refused),
    (&["/tmp"], "/tmp", StartCause::NoPermission),
];

fn is_refused(rt: &HostRuntime, host: &impl Abort, bad: &Bad, stdin: Stdin) -> bool {
    let program = Program {
        words: bad.0,
        append_files: false,
        stdin,
    };
    let ended = ran(host, rt.alloc(), rt, bad.1, &program, &["a.c"]);
    ended == Err(NotRun::DeviceFailed(bad.2))
}

#[test]
fn starts_that_fail_have_a_cause(rt: HostRuntime) {
    for (i, bad) in BAD.iter().enumerate() {
        check!(rt; is_refused(&rt, &rt, bad, Stdin::DevNull), i);
        check!(rt; is_refused(&rt, &rt, bad, Stdin::NamePerLine), i);
    }
}

/// A program's words, and how it ends: by itself, with a fault, by a signal, and without having read.
const ENDS: &[(&[&str], ProgramEnd)] = &[
    (&["true"], ProgramEnd::Exited(0)),
    (&["false"], ProgramEnd::Exited(1)),
    (&["sh", "-c", "exit 7"], ProgramEnd::Exited(7)),
    (&["sh", "-c", "exit 255"], ProgramEnd::Exited(255)),
    (&["sh", "-c", "kill -9 $$"], ProgramEnd::Killed(9)),
    (&["sh", "-c", "kill -TERM $$"], ProgramEnd::Killed(15)),
    (&["sh", "-c", "exec 0<&-; exit 0"], ProgramEnd::Exited(0)),
];

/// So many paths of six digits.
fn numbered(rt: &impl Abort, alloc: Global, count: u32) -> Vec<String> {
    let mut paths = Vec::new(alloc);
    for i in 0..count {
        let path = format!(in alloc; "{i:06}").expect(rt, "memory");
        paths.push(path).expect(rt, "memory");
    }
    paths
}

/// How the program ends in the folder of the tests, for many files.
fn ran_for(rt: &HostRuntime, host: &impl Abort, program: &Program<'_>, paths: &[String]) -> Ran {
    let paths: Vec<&str> = paths
        .iter()
        .map(|path| path.as_str())
        .collect(rt.alloc())
        .expect(host, "memory");
    let ran = ran_here(rt, host, program, &paths);
    drop(paths);
    ran
}

#[test]
fn a_program_may_end_as_it_likes(rt: HostRuntime) {
    let paths = numbered(&rt, rt.alloc(), 65536);
    for (i, (words, wanted)) in ENDS.iter().enumerate() {
        let program = Program {
            words: *words,
            append_files: false,
            stdin: Stdin::NamePerLine,
        };
        check!(rt; ran_for(&rt, &rt, &program, &paths) == Ok(*wanted), i);
    }
    drop(paths);
}

/// Whether the file has the lines of 65,536 paths of six digits.
fn has_numbers(rt: &HostRuntime, host: &impl Abort, path: &str) -> bool {
    let content = fs::read_to_string(rt, path).expect(host, "a file");
    let text = content.as_str();
    let ends = text.starts_with("000000\n000001\n") && text.ends_with("\n065534\n065535\n");
    // lines of seven bytes
    let has_numbers = text.len() == 458_752 && ends;
    drop(content);
    has_numbers
}

#[test]
fn reads_more_than_a_pipe_holds(rt: HostRuntime) {
    let program = Program {
        words: &["sh", "-c", "cat > trigger_many"],
        append_files: false,
        stdin: Stdin::NamePerLine,
    };
    let paths = numbered(&rt, rt.alloc(), 65536);
    let ended = ran_for(&rt, &rt, &program, &paths);
    drop(paths);
    check!(rt; ended == WELL);
    check!(rt; has_numbers(&rt, &rt, "trigger_many"));
    fs::remove_file(&rt, "trigger_many").expect(&rt, "a file");
}

/// The path, so many times.
fn repeated<'a>(rt: &impl Abort, alloc: Global, path: &'a str, count: u32) -> Vec<&'a str> {
    let mut paths = Vec::new(alloc);
    for _ in 0..count {
        paths.push(path).expect(rt, "memory");
    }
    paths
}

#[test]
fn words_beyond_the_limit_of_the_system_are_refused(rt: HostRuntime) {
    let alloc = rt.alloc();
    let program = Program {
        words: &["true"],
        append_files: true,
        stdin: Stdin::DevNull,
    };
    // 8,192 paths of 1,000 bytes: Linux takes 6 MiB of words at most, whatever its limits are set
    // to
    let long = format!(in alloc; "{:01000}", 0).expect(&rt, "memory");
    let paths = repeated(&rt, alloc, &long, 8192);
    let ended = ran_here(&rt, &rt, &program, &paths);
    drop(paths);
    drop(long);
    check!(rt; ended == Err(NotRun::DeviceFailed(StartCause::TooLong)));
}
