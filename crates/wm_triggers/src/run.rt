//! A run of a trigger: an answer that lists a file.
//! Definitions: specs/Due.antt. Tests: registry_tests/src/trigger_runs/runs.rt.
ghost use Rattle.std.specs.Prelude.{◌≡◌, ◌<◌, length, IfOk};
ghost use Rattle.wm_triggers.specs.Due.{run_by};

use std::alloc::Global;
use std::marker::Model;
use wm_clock::ClockId;
use wm_disk::NoMemory;
use wm_names::Entry;
use wm_since::{Answer, Listed, ListedFiles};

/// A run of a trigger: the files that changed, at least one, and the clock up to which they are
/// told. Contracts see it as the answer that it is made of.
#[derive(Drop)]
pub struct Run {
    answer: Answer,
}

impl Model for Run {
    ghost use Rattle.std.specs.Prelude.{◌<◌, length};
    ghost use Rattle.wm_since.specs.declared.query.Answer.{Answer};

    ghost Value = { Answer };

    ghost view = { λ r. r.answer };

    ghost invariant = { λ r. 0 < length r.answer.files };
}

/// The same file of an answer again.
fn copied(file: &Listed) -> Result<Listed, NoMemory>
    ensures { IfOk result (λ copy. copy ≡ file.now) }
{
    Ok(Listed {
        entry: Entry {
            path: file.entry.path.copy()?,
            exists: file.entry.exists,
            meta: file.entry.meta,
        },
        is_new: file.is_new,
        last: file.last,
        created: file.created,
    })
}

/// The same files again.
fn copied_all(alloc: Global, files: &[Listed]) -> Result<Vec<Listed>, NoMemory>
    ensures { IfOk result (λ copies. copies.items ≡ files.now) }
{
    let mut copies = Vec::new(alloc);
    for file in files {
        let copy = copied(file)?;
        copies.push(copy)?;
    }
    Ok(copies)
}

impl Run {
    /// The run that is due by an answer, and `None` where the answer lists no file. It takes no
    /// memory.
    pub(crate) fn of(answer: Answer) -> Option<Run>
        ensures { result ≡ run_by answer }
    {
        if answer.files.as_slice().is_empty() {
            return None;
        }
        Some(Run { answer })
    }

    /// The clock up to which the changes are told.
    pub fn clock(&self) -> ClockId
        ensures { result ≡ self.now.clock }
    {
        self.answer.clock
    }

    /// Whether the run lists all files that are there, since the changes can't be told.
    pub fn fresh(&self) -> bool
        ensures { result ≡ self.now.fresh }
    {
        self.answer.fresh
    }

    /// The files, in the order of the answer: the latest change first.
    pub fn files(&self) -> &[Listed]
        ensures value { result.now ≡ self.now.files }
        ensures one { 0 < length self.now.files }
    {
        self.answer.files.as_slice()
    }

    /// The same run again, whose paths share their texts. `NoMemory`.
    pub fn copy(&self, alloc: Global) -> Result<Run, NoMemory>
        ensures { IfOk result (λ r. r ≡ self.now) }
    {
        let files = copied_all(alloc, self.files())?;
        Ok(Run {
            answer: Answer {
                clock: self.answer.clock,
                fresh: self.answer.fresh,
                files: ListedFiles::new(files),
            },
        })
    }
}
