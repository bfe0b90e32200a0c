//! Which texts of a log are let through. Definitions: specs/LogLimits. Tests: leaf_tests/src/logs.rt.
ghost use Rattle.std.specs.Prelude.{◌≡◌, [], IfOk, OnErr, OnOk, map, string_bytes};
ghost use Rattle.wm_log.specs.LogLimits.{after_logging, at_second, has_text, passes_limit};

use std::alloc::Global;
use std::marker::Model;
use wm_disk::NoMemory;

/// The texts that were let through in one second.
#[derive(Drop)]
pub struct LogLimiter {
    second: u64,
    texts: Vec<String>,
}

impl Model for LogLimiter {
    ghost use Rattle.std.specs.Prelude.{map, string_bytes};
    ghost use Rattle.wm_log.specs.LogLimits.{LimitState};

    ghost Value = { LimitState };

    ghost view = { λ l. record { second = l.second; texts = map string_bytes l.texts.items } };
}

/// Whether a text is among some.
fn has_text(texts: &[String], text: &str) -> bool
    ensures { result ≡ has_text text.now (map string_bytes texts.now) }
{
    for one in texts {
        if text == one.as_str() {
            return true;
        }
    }
    false
}

impl LogLimiter {
    /// No text was let through yet.
    pub fn new(alloc: Global) -> LogLimiter
        ensures { result ≡ record { second = 0; texts = [] } }
    {
        LogLimiter {
            second: 0,
            texts: Vec::new(alloc),
        }
    }

    /// The second goes on, or is another.
    fn go_to(&mut self, second: u64)
        ensures { self.new ≡ at_second second self.old }
    {
        if self.second != second {
            self.second = second;
            self.texts.clear();
        }
    }

    /// Whether a text is let through in a second: if it isn't among those that were let through in it. An `Err` means that memory ran out;
    /// then it isn't counted as let through.
    pub fn passes(&mut self, alloc: Global, second: u64, text: &str) -> Result<bool, NoMemory>
        ensures passes { IfOk result (λ b. b ≡ passes_limit second text.now self.old) }
        ensures logged { OnOk result (self.new ≡ after_logging second text.now self.old) }
        ensures err { OnErr result (self.new ≡ at_second second self.old) }
    {
        self.go_to(second);
        if has_text(&self.texts, text) {
            return Ok(false);
        }
        let text = String::from_str(alloc, text)?;
        self.texts.push(text)?;
        Ok(true)
    }
}
