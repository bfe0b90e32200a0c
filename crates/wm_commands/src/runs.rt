//! One run of a command after the other, each for what changed since the run before was asked for. Definitions: specs/CommandRuns.
//! Tests: commands_tests/src/runs.rt.
ghost use Rattle.std.specs.Prelude.{◌≡◌, None, false, map, option_map, string_bytes};
ghost use Rattle.wm_commands.specs.CommandRuns.{RunState, after_answer, after_end, started_for};

use crate::answers::Answer;
use std::marker::Model;

/// The runs of a command: since which clock is asked next, and whether the command runs.
#[derive(Drop)]
pub struct Runs {
    since: Option<String>,
    is_running: bool,
}

impl Model for Runs {
    ghost Value = { RunState };

    ghost view = { λ runs. record { asks_since = option_map string_bytes runs.since; is_running = runs.is_running } };
}

impl Runs {
    /// No run yet: the first question has no clock, so its answer is fresh.
    pub fn new() -> Runs
        ensures { result ≡ record { asks_since = None; is_running = false } }
    {
        Runs {
            since: None,
            is_running: false,
        }
    }

    /// The clock since which is asked next.
    pub fn since(&self) -> Option<&str>
        ensures { option_map (λ clock. clock.now) result ≡ self.now.asks_since }
    {
        match &self.since {
            Some(clock) => Some(clock.as_str()),
            None => None,
        }
    }

    /// Whether the command runs.
    pub fn is_running(&self) -> bool
        ensures { result ≡ self.now.is_running }
    {
        self.is_running
    }

    /// Takes the answer to the question since that clock. Returns the names for which the command is to be started now, if it is.
    ///
    /// An answer that comes while the command runs changes nothing: what it lists is in the answer behind the run.
    pub fn take(&mut self, answer: Answer) -> Option<Vec<String>>
        ensures state { self.new ≡ after_answer self.old answer }
        ensures started { option_map (λ names. map string_bytes names.items) result ≡ started_for self.old answer }
    {
        if self.is_running {
            return None;
        }
        self.is_running = answer.is_fresh || !answer.names.is_empty();
        self.since = Some(answer.clock);
        if self.is_running {
            Some(answer.names)
        } else {
            None
        }
    }

    /// The command has ended.
    pub fn end(&mut self)
        ensures { self.new ≡ after_end self.old }
    {
        self.is_running = false;
    }
}
