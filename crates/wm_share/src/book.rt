//! The book of a process: one log of the operations of all its shares, and a word for each share.
//! Definitions: specs/Logs.antt, specs/Rules.antt. Tests: view_tests/src/shared/shares.rt.
use crate::entry::Entry;
use logbook::{Gain, Opening, Plain, Play, Rule};
use std::marker::Brand;

/// The rule of the book.
pub struct Law;

impl Rule<Entry, u64> for Law {
    ghost use Rattle.std.specs.Prelude.{[]};
    ghost use base.Fml.{ftrue};
    ghost use Rattle.wm_share.specs.Rules.{TellsLengths};

    ghost holds = { λ cells log. TellsLengths cells log };

    ghost first = { [] };

    ghost hinted = { λ n log. Unit {0} };

    ghost shows = { λ log. [] };

    ghost keeps = { λ names log. ftrue };

    ghost moves = { λ ask before after answer. Unit {0} };
}

/// The log of a book that was just opened: nothing.
pub struct Empty;

impl Opening<u64, Entry> for Empty {
    ghost use Rattle.std.specs.Prelude.{[]};

    ghost log = { λ count about. [] };
}

/// Callers trade nothing.
pub struct Nothing;

impl Gain<Entry, u64> for Nothing {
    ghost use base.Fml.{ftrue};

    ghost after = { λ names about answer. ftrue };
}

/// A step that adds an operation.
pub struct Add;

impl Play<Entry, u64> for Add {
    ghost use Rattle.wm_share.specs.Rules.{Adds};

    ghost then = { Adds };
}

/// What a step asks for: the entry.
impl Plain<Entry, Entry, u64> for Add {
    ghost use Rattle.std.specs.Prelude.{None};

    ghost ask = { λ entry. entry };

    ghost state = { λ entry. None };
}

/// Which book the process has. The call that opens it picks this, once a process.
pub trait Naming {
    ghost use Rattle.logbook.specs.Pages.{Book};

    ghost book: { Book };
}

impl Naming for Brand {
    ghost book = { record { number = 0; log_name = 0; cells_name = 0 } };
}
