//! Permits of starts, with programs that are really started in the folder of the tests.
use crate::checks::check;
use crate::trigger_runs::making::{root, run_with, trigger};
use std::alloc::Global;
use std::process::{Abort, Processes};
use std::sync::atomic::{AtomicU64, Ordering};
use std::sync::{Mutex, Wait};
use std::thread::join;
use std::{env, fs};
use wm_explain::StartCause;
use wm_registry::{Stdin, Trigger};
use wm_triggers::{DefinedTrigger, NotRun, Permit, Run, Starter, SystemStarter, TriggerTable};

/// A permit that counts what it is asked and told, and says this.
#[derive(Drop)]
struct Counted<'a> {
    counts: &'a Counts,
    answer: bool,
}

/// How often a permit was asked, and told of the start's end.
#[derive(Drop)]
struct Counts {
    asked: AtomicU64,
    told: AtomicU64,
}

fn no_counts() -> Counts {
    Counts {
        asked: AtomicU64::new(0),
        told: AtomicU64::new(0),
    }
}

/// Whether the permit was asked and told so often.
fn are(counts: &Counts, asked: u64, told: u64) -> bool {
    counts.asked.load(Ordering::SeqCst) == asked && counts.told.load(Ordering::SeqCst) == told
}

impl Permit for Counted<'_> {
    type Given = ();

    type Ended = ();

    ghost shows_given = { λ permit given. Unit {0} };

    ghost shows_ended = { λ permit ended. Unit {0} };

    fn begin(&self) -> Option<()> {
        self.counts.asked.fetch_add(1, Ordering::SeqCst);
        if self.answer { Some(()) } else { None }
    }

    fn end(&self, _given: ()) {
        self.counts.told.fetch_add(1, Ordering::SeqCst);
    }
}

/// The folder of the tests.
fn here(rt: &HostRuntime, host: &impl Abort) -> String {
    let folder = env::current_dir(rt).expect(host, "a folder");
    let text = String::from_str(rt.alloc(), folder.as_str()).expect(host, "memory");
    drop(folder);
    text
}

/// Runs the trigger's program in a folder under a permit.
fn run_in<R: Processes + Drop, P: Permit + Drop>(
    host: &impl Abort,
    alloc: Global,
    starter: &SystemStarter<R>,
    folder: &str,
    trigger: &Trigger,
    permit: P,
) -> Option<NotRun> {
    let root = root(host, alloc, folder);
    let run = run_with(host, alloc, &["a.c"]);
    let refused = starter.run(alloc, &root, trigger, &run, permit).err();
    drop(run);
    drop(root);
    refused
}

/// Runs a command line of the shell in the folder of the tests under a permit.
fn run_line<P: Permit + Drop>(
    rt: &HostRuntime,
    host: &impl Abort,
    line: &str,
    stdin: Stdin,
    permit: P,
) -> Option<NotRun> {
    let folder = here(rt, host);
    let trigger = trigger(host, rt.alloc(), &["sh", "-c", line], false, stdin);
    let starter = SystemStarter::new(rt);
    let refused = run_in(
        host,
        rt.alloc(),
        &starter,
        folder.as_str(),
        &trigger,
        permit,
    );
    drop(trigger);
    drop(folder);
    refused
}

/// Whether the file is there; it isn't any more then.
fn is_left(rt: &HostRuntime, path: &str) -> bool {
    fs::remove_file(rt, path).is_ok()
}

/// Whether the permit's answer decides of the start, with both kinds of input.
fn decides(rt: &HostRuntime, host: &impl Abort, stdin: Stdin, answer: bool) -> bool {
    let counts = no_counts();
    let permit = Counted {
        counts: &counts,
        answer,
    };
    let refused = run_line(rt, host, "echo > trigger_permitted", stdin, permit);
    let is_started = is_left(rt, "trigger_permitted");
    let wanted = if answer {
        None
    } else {
        Some(NotRun::NotPermitted)
    };
    let told = if answer { 1 } else { 0 };
    let is_so = is_started == answer && refused == wanted && are(&counts, 1, told);
    drop(counts);
    is_so
}

#[test]
fn a_refused_permit_starts_nothing(rt: HostRuntime) {
    for answer in [false, true] {
        check!(rt; decides(&rt, &rt, Stdin::DevNull, answer), answer);
        check!(rt; decides(&rt, &rt, Stdin::NamePerLine, answer), answer);
    }
}

/// Whether the permit is told of a start that fails.
fn is_told_of_failure(rt: &HostRuntime, host: &impl Abort) -> bool {
    let counts = no_counts();
    let permit = Counted {
        counts: &counts,
        answer: true,
    };
    let trigger = trigger(host, rt.alloc(), &["./no_such"], false, Stdin::DevNull);
    let starter = SystemStarter::new(rt);
    let refused = run_in(host, rt.alloc(), &starter, "/tmp", &trigger, permit);
    drop(trigger);
    let is_told = refused == Some(NotRun::DeviceFailed(StartCause::NoFile)) && are(&counts, 1, 1);
    drop(counts);
    is_told
}

#[test]
fn a_start_that_fails_ends_its_permit(rt: HostRuntime) {
    check!(rt; is_told_of_failure(&rt, &rt));
}

/// A permit that makes a file once it is told of the start's end.
#[derive(Drop)]
struct Marking<'a> {
    rt: &'a HostRuntime,
}

impl Permit for Marking<'_> {
    type Given = ();

    type Ended = ();

    ghost shows_given = { λ permit given. Unit {0} };

    ghost shows_ended = { λ permit ended. Unit {0} };

    fn begin(&self) -> Option<()> {
        Some(())
    }

    fn end(&self, _given: ()) {
        let _made = fs::write(self.rt, "trigger_begun", "");
    }
}

/// A program that waits up to five seconds for that file, and tells whether it came.
const WAITS: &str =
    "for i in $(seq 50); do test -e trigger_begun && echo > trigger_seen && exit; sleep 0.1; done";

#[test]
fn a_permit_ends_before_its_program(rt: HostRuntime) {
    let _ = fs::remove_file(&rt, "trigger_begun");
    let refused = run_line(&rt, &rt, WAITS, Stdin::NamePerLine, Marking { rt: &rt });
    check!(rt; refused.is_none());
    check!(rt; is_left(&rt, "trigger_begun") && is_left(&rt, "trigger_seen"));
}

/// The permit of a definition by a table that lies under a lock.
#[derive(Drop)]
struct ByTable<'a, R: Wait> {
    rt: &'a R,
    table: &'a Mutex<TriggerTable>,
    defined: &'a DefinedTrigger,
}

impl<R: Wait> Permit for ByTable<'_, R> {
    type Given = ();

    type Ended = ();

    ghost shows_given = { λ permit given. Unit {0} };

    ghost shows_ended = { λ permit ended. Unit {0} };

    fn begin(&self) -> Option<()> {
        let one = self.defined.copy().ok()?;
        if self.table.lock(self.rt).begin(one) {
            Some(())
        } else {
            None
        }
    }

    fn end(&self, _given: ()) {
        self.table.lock(self.rt).end();
    }
}

/// A definition of `t` by command 1, which leaves a file.
fn leaving(rt: &impl Abort, alloc: Global) -> DefinedTrigger {
    let words = &["sh", "-c", "echo > trigger_by_table"];
    DefinedTrigger {
        number: 1,
        trigger: trigger(rt, alloc, words, false, Stdin::DevNull),
    }
}

/// A table of the definition alone.
fn table_of(rt: &impl Abort, alloc: Global, defined: &DefinedTrigger) -> TriggerTable {
    let mut table = TriggerTable::new(alloc).expect(rt, "memory");
    let trigger = defined.trigger.copy().expect(rt, "memory");
    table.define(defined.number, trigger).expect(rt, "memory");
    table
}

/// Whether the definition's program is started under the table.
fn is_started<R: Wait>(
    rt: &HostRuntime,
    host: &impl Abort,
    waits: &R,
    table: &Mutex<TriggerTable>,
    defined: &DefinedTrigger,
) -> bool {
    let folder = here(rt, host);
    let permit = ByTable {
        rt: waits,
        table,
        defined,
    };
    let starter = SystemStarter::new(rt);
    let alloc = rt.alloc();
    let refused = run_in(
        host,
        alloc,
        &starter,
        folder.as_str(),
        &defined.trigger,
        permit,
    );
    drop(folder);
    is_left(rt, "trigger_by_table") && refused.is_none()
}

/// Deletes `t`, and waits until its reply may be sent: whether it was then.
fn delete<R: Wait>(rt: &R, table: &Mutex<TriggerTable>) -> bool {
    table.lock(rt).remove("t");
    for _ in 0..1_000_000 {
        if table.lock(rt).may_reply() {
            return true;
        }
    }
    false
}

/// Begins the definition once and ends its start.
fn begin_once<R: Wait>(rt: &R, table: &Mutex<TriggerTable>, one: DefinedTrigger) {
    if table.lock(rt).begin(one) {
        table.lock(rt).end();
    }
}

#[test]
fn threads_share_a_table(rt: HostRuntime) {
    let defined = leaving(&rt, rt.alloc());
    let one = defined.copy().expect(&rt, "memory");
    let table = Mutex::new(table_of(&rt, rt.alloc(), &defined));
    let shared = &table;
    let (deleted, ()) = join(&rt, || delete(&rt, shared), || begin_once(&rt, shared, one));
    check!(rt; deleted);
    check!(rt; !table.lock(&rt).begin(defined));
    drop(table);
}

#[test]
fn what_was_deleted_is_not_started(rt: HostRuntime) {
    let defined = leaving(&rt, rt.alloc());
    let table = Mutex::new(table_of(&rt, rt.alloc(), &defined));
    check!(rt; is_started(&rt, &rt, &rt, &table, &defined));
    check!(rt; is_started(&rt, &rt, &rt, &table, &defined));
    table.lock(&rt).remove("t");
    check!(rt; !is_started(&rt, &rt, &rt, &table, &defined));
    check!(rt; table.lock(&rt).may_reply());
    drop(table);
    drop(defined);
}
