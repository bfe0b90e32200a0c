//! Triggers, views and runs, made from what a table tells.
use std::alloc::Global;
use std::process::Abort;
use wm_clock::ClockId;
use wm_disk::Refusal;
use wm_names::{Entry, Kind, Meta, RelPath, RootPath, Subtree};
use wm_registry::{Stdin, Trigger};
use wm_since::{Answer, Listed, ListedFiles, answer};
use wm_triggers::{DefinedTriggers, Permit, Run, TriggerRun};
use wm_view::{Listing, Pairs, View};

/// A path with the size of the file that is there, or with `None`.
pub type Seen = (&'static str, Option<u64>);

fn meta(size: u64) -> Meta {
    Meta {
        kind: Kind::File,
        size,
        mtime_ms: 0,
    }
}

/// A view of root 1 in this incarnation, whose first listing found nothing.
pub fn empty_view(rt: &impl Abort, alloc: Global, incarnation: u64) -> View {
    let mut view = View::new(alloc, incarnation, 1);
    let listing = Listing::new(alloc, Subtree::Whole);
    view.recrawl(alloc, 0, 0, &listing).expect(rt, "memory");
    view
}

fn observe_one(rt: &impl Abort, alloc: Global, view: &mut View, seen: &Seen) {
    let mut pairs = Vec::new(alloc);
    let state = match seen.1 {
        Some(size) => Some(meta(size)),
        None => None,
    };
    let path = RelPath::read(alloc, seen.0).expect(rt, "a path");
    pairs.push((path, state)).expect(rt, "memory");
    let pairs = Pairs::new(pairs);
    view.observe(alloc, 0, &pairs).expect(rt, "memory");
}

/// The view takes these observations, one after another.
pub fn observe(rt: &impl Abort, alloc: Global, view: &mut View, seen: &[Seen]) {
    for one in seen {
        observe_one(rt, alloc, view, one);
    }
}

/// A trigger with these words, which appends the files or doesn't.
pub fn trigger(
    rt: &impl Abort,
    alloc: Global,
    words: &[&str],
    append_files: bool,
    stdin: Stdin,
) -> Trigger {
    Trigger::new(alloc, "t", words, None, append_files, stdin, None).expect(rt, "a trigger")
}

/// A trigger with these words, whose program reads so many names at most, or all.
pub fn trigger_of_most(
    rt: &impl Abort,
    alloc: Global,
    words: &[&str],
    append_files: bool,
    most: Option<u32>,
) -> Trigger {
    let stdin = Stdin::NamePerLine;
    Trigger::new(alloc, "t", words, None, append_files, stdin, most).expect(rt, "a trigger")
}

/// A trigger of the program `true`, with this text of an expression.
pub fn trigger_for(rt: &impl Abort, alloc: Global, expression: Option<&str>) -> Trigger {
    Trigger::new(
        alloc,
        "t",
        &["true"],
        expression,
        false,
        Stdin::DevNull,
        None,
    )
    .expect(rt, "a trigger")
}

/// A trigger of this name and of the program `true`, for each file.
pub fn named(rt: &impl Abort, alloc: Global, name: &str) -> Trigger {
    Trigger::new(alloc, name, &["true"], None, false, Stdin::DevNull, None).expect(rt, "a trigger")
}

/// Such a trigger with this text of an expression.
pub fn named_for(rt: &impl Abort, alloc: Global, name: &str, expression: &str) -> Trigger {
    let expression = Some(expression);
    Trigger::new(
        alloc,
        name,
        &["true"],
        expression,
        false,
        Stdin::DevNull,
        None,
    )
    .expect(rt, "a trigger")
}

/// Definitions of these names by the commands of these numbers.
pub fn defined(rt: &impl Abort, alloc: Global, plan: &[(&'static str, u64)]) -> DefinedTriggers {
    let mut all = DefinedTriggers::new(alloc).expect(rt, "memory");
    for (name, number) in plan {
        let trigger = named(rt, alloc, name);
        all.define(*number, trigger).expect(rt, "memory");
    }
    all
}

/// The runs of a trigger with this text of an expression, of which none was started yet.
pub fn runs_for(rt: &impl Abort, alloc: Global, expression: Option<&str>) -> TriggerRun {
    let trigger = trigger_for(rt, alloc, expression);
    let runs = TriggerRun::new(alloc, &trigger).expect(rt, "a trigger");
    drop(trigger);
    runs
}

pub fn root(rt: &impl Abort, alloc: Global, path: &str) -> RootPath {
    RootPath::read(alloc, path).expect(rt, "a path")
}

fn listed(rt: &impl Abort, alloc: Global, path: &str) -> Listed {
    Listed {
        entry: Entry {
            path: RelPath::read(alloc, path).expect(rt, "a path"),
            exists: true,
            meta: meta(1),
        },
        is_new: true,
        last: 2,
        created: 2,
    }
}

/// An answer at tick 2 of root 1 in incarnation 1, which lists these files.
pub fn answer_with(rt: &impl Abort, alloc: Global, paths: &[&str]) -> Answer {
    let mut files = Vec::new(alloc);
    for path in paths {
        files.push(listed(rt, alloc, path)).expect(rt, "memory");
    }
    Answer {
        clock: ClockId {
            incarnation: 1,
            root: 1,
            tick: 2,
        },
        fresh: false,
        files: ListedFiles::new(files),
    }
}

/// The run that is due by the view: what the runs ask is answered by it.
pub fn due(alloc: Global, runs: &TriggerRun, view: &View) -> Result<Option<Run>, Refusal> {
    let query = runs.ask(alloc)?;
    let answer = answer(alloc, view, &query);
    drop(query);
    Ok(runs.run_of(answer?))
}

/// The run with the files of the answer.
pub fn run_of(rt: &impl Abort, runs: &TriggerRun, answer: Answer) -> Run {
    runs.run_of(answer).expect(rt, "a run")
}

/// The run with these files.
pub fn run_with(rt: &impl Abort, alloc: Global, paths: &[&str]) -> Run {
    let runs = runs_for(rt, alloc, None);
    let run = run_of(rt, &runs, answer_with(rt, alloc, paths));
    drop(runs);
    run
}

/// Whether the run has these files.
pub fn has_files(run: &Run, paths: &[&str]) -> bool {
    let files = run.files();
    files.len() == paths.len()
        && files
            .iter()
            .zip(paths)
            .all(|(file, path)| file.entry.path.as_str() == *path)
}

/// The permit of a start that nobody takes back.
#[derive(Clone, Copy)]
pub struct Unasked;

impl Permit for Unasked {
    type Given = ();

    type Ended = ();

    ghost shows_given = { λ permit given. Unit {0} };

    ghost shows_ended = { λ permit ended. Unit {0} };

    fn begin(&self) -> Option<()> {
        Some(())
    }

    fn end(&self, _given: ()) {}
}
