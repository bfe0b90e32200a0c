//! Whose turn it is to change the watched roots: each accepted command in its turn, by its number.
//! Definitions: specs/Turns.antt. Tests: serve_tests/src/sessions.rt.
ghost use Rattle.std.specs.Prelude.{◌≡◌, false};
ghost use Rattle.wm_workers.specs.Turns.{finished_turn, is_short_of as is_short_of_lem, must_wait as must_wait_lem, taken_turn};

use std::marker::Model;

/// How far the roots have followed the accepted commands.
#[derive(Drop)]
pub struct Following {
    incarnation: u64,
    /// How many accepted commands were followed.
    count: u64,
    /// Whether somebody changes the roots now.
    is_taken: bool,
}

impl Model for Following {
    ghost use Rattle.wm_workers.specs.Turns.{TurnState};

    ghost Value = { TurnState };

    ghost view = { λ f. record { incarnation = f.incarnation; count = f.count; is_taken = f.is_taken } };
}

impl Following {
    /// The roots stand as in a registry of this incarnation, after so many commands.
    pub fn at(incarnation: u64, count: u64) -> Following
        ensures { result ≡ record { incarnation = incarnation; count = count; is_taken = false } }
    {
        Following {
            incarnation,
            count,
            is_taken: false,
        }
    }

    /// How often the server had begun.
    pub fn incarnation(&self) -> u64
        ensures { result ≡ self.now.incarnation }
    {
        self.incarnation
    }

    /// How many commands were followed.
    pub fn count(&self) -> u64
        ensures { result ≡ self.now.count }
    {
        self.count
    }

    /// Whether the command of this number has to wait: somebody changes the roots, or an earlier command is still to be followed. 0 stands
    /// for a change that isn't a command's.
    pub fn must_wait(&self, number: u64) -> bool
        ensures { result ≡ must_wait_lem number self.now }
    {
        self.is_taken || (number > 0 && self.count < number - 1)
    }

    /// Whether fewer commands than these were followed.
    pub fn is_short_of(&self, count: u64) -> bool
        ensures { result ≡ is_short_of_lem count self.now }
    {
        self.count < count
    }

    /// The turn of the command of this number begins.
    pub fn take(&mut self, number: u64)
        requires { must_wait_lem number self.old ≡ false }
        ensures { self.new ≡ taken_turn self.old }
    {
        let _number = number;
        self.is_taken = true;
    }

    /// The turn of the command of this number is over: it was followed.
    pub fn finish(&mut self, number: u64)
        ensures new { self.new ≡ finished_turn number self.old }
        ensures reached { is_short_of_lem number self.new ≡ false }
    {
        if self.count < number {
            self.count = number;
        }
        self.is_taken = false;
    }
}
