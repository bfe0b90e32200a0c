//! Receipts.
//! Definitions: specs/Receipts.antt, specs/Submits.antt. Tests: file_tests/src/desk/rows.rt.
ghost use Rattle.std.specs.Prelude.{◌≡◌, ◌≤◌, ◌<◌, length, true, Some, slice_get, IfOk, IfSome};
ghost use Rattle.wm_registry.specs.Registry.{is_change};
ghost use Rattle.wm_groupcommit.specs.Receipts.{StandsInBook, accepted_command, shown, standing_for};

use crate::locked::ReplyReceiver;
use crate::queued::Call;
use crate::same_commands::copied;
use std::alloc::Global;
use std::marker::Model;
use std::snapshot::Snapshot;
use wm_disk::NoMemory;
use wm_registry::{Command, Reply};

/// The number of an accepted command, from 1. A submit alone makes it, once for each such command. Contracts see the number.
#[derive(Drop)]
pub struct CommandNumber {
    number: u64,
}

impl Model for CommandNumber {
    ghost use Rattle.std.specs.Prelude.{ℕ};

    ghost Value = { ℕ };

    ghost view = { λ n. n.number };
}

impl CommandNumber {
    /// The number.
    pub fn get(&self) -> u64
        ensures { result ≡ self.now }
    {
        self.number
    }
}

/// Where an answered command stands in the list of accepted commands.
#[derive(Drop)]
pub enum Standing {
    /// It was accepted, and has this number, from 1.
    Stands {
        number: CommandNumber,
        command: Command,
    },
    /// It changed nothing after so many commands.
    Unchanged {
        after: u64,
    },
}

/// Where a command stood that was answered. A submit alone makes it.
#[derive(Drop)]
pub struct Receipt {
    standing: Standing,
    seat: u64,
    count: u64,
    // the list that its seat knew then
    known: Snapshot<ReplyReceiver>,
}

impl Model for Receipt {
    ghost use Rattle.wm_groupcommit.specs.Receipts.{ReceiptState, StandsIn};

    ghost Value = { ReceiptState };

    ghost view = { λ r. record { standing = r.standing; seat = r.seat; count = r.count; list = r.known.value.list } };

    ghost invariant = { λ r. StandsIn r.known.value.list r.seat r.count r.standing };
}

impl Receipt {
    /// The receipt for a reply to a call after so many accepted commands, whose seat knows them.
    pub(crate) fn new(call: Call, at: u64, reply: Reply, replies: &ReplyReceiver) -> Receipt
        requires number { at < 18446744073709551615 }
        requires few { at ≤ length replies.now.list }
        requires stands { is_change reply ≡ true → slice_get replies.now.list at ≡ Some call }
        ensures standing { shown result ≡ standing_for reply at call.command }
        ensures call { (result.seat ≡ call.seat) × (result.count ≡ call.count) }
        ensures list { result.list ≡ replies.now.list }
    {
        let Call {
            seat,
            count,
            command,
        } = call;
        let standing = if reply.is_change() {
            Standing::Stands {
                number: CommandNumber { number: at + 1 },
                command,
            }
        } else {
            Standing::Unchanged { after: at }
        };
        Receipt {
            standing,
            seat,
            count,
            known: Snapshot::of(replies),
        }
    }

    /// Where the command stands.
    pub fn standing(&self) -> &Standing
        ensures { result.now ≡ shown self.now }
    {
        &self.standing
    }

    /// Where the command stands, with the command itself.
    pub fn into_standing(self) -> Standing
        ensures { result ≡ shown self }
    {
        let Receipt {
            standing,
            seat: _,
            count: _,
            known: _,
        } = self;
        standing
    }

    /// The command, if it was accepted. `NoMemory` if the allocation of its copy failed.
    pub(crate) fn command(&self, alloc: Global) -> Result<Option<Command>, NoMemory>
        ensures command { IfOk result (λ r. r ≡ accepted_command self.now.standing) }
        ensures stands { IfOk result (λ r. IfSome r (λ c. StandsInBook self.now self.now.list c)) }
    {
        match &self.standing {
            Standing::Stands { command, .. } => {
                let command = copied(alloc, command)?;
                Ok(Some(command))
            }
            Standing::Unchanged { .. } => Ok(None),
        }
    }
}
