//! A machine whose commands are kept in a journal.
//! Definitions: specs/Machines.antt.
//! Tests: file_tests/src/checkpoint/register.rt, file_tests/src/checkpoint/switch.rt.
ghost use Rattle.std.specs.Prelude.{◌≡◌, ◌≢◌, ◌≤◌, ℕ, Bool, true, false, length, IfOk, OnErr};

use std::alloc::Global;
use wm_disk::NoMemory;
use wm_wire::Wire;

/// States, commands and replies. What a command does is a function of the state and the command alone.
pub trait Machine {
    type State: Wire + Drop;

    type Command: Wire + Drop;

    type Reply: Drop;

    /// The state after a command.
    ghost after: { Self.State → Self.Command → Self.State };

    /// Whether the command changes the state.
    ghost changes: { Self.State → Self.Command → Bool };

    /// The reply to a command.
    ghost reply: { Self.State → Self.Command → Self.Reply };

    /// The most bytes of an encoded state that is within its limits.
    ghost longest: { ℕ };

    /// Applies a command, and tells the reply and whether the state changed. It fails only where memory ran
    /// out, and then the state is as it was.
    fn apply(
        alloc: Global,
        state: &mut Self::State,
        command: &Self::Command,
    ) -> Result<(Self::Reply, bool), NoMemory>
        ensures ok { IfOk result (λ r. (r.0 ≡ reply state.old command.now) × (r.1 ≡ changes state.old command.now) × (state.new ≡ after state.old command.now)) }
        ensures err { OnErr result (state.new ≡ state.old) };

    /// An equal state, or `NoMemory`.
    fn copy(alloc: Global, state: &Self::State) -> Result<Self::State, NoMemory>
        ensures { IfOk result (λ s. s ≡ state.now) };

    /// What changes nothing leaves the state.
    ghost idle: { (s : Self.State) (c : Self.Command) → changes s c ≡ false → after s c ≡ s };

    /// What changes a state within its limits makes another of it.
    ghost alive: { (s : Self.State) (c : Self.Command) → Self.State.fits s → changes s c ≡ true → after s c ≢ s };

    /// A state within its limits is encoded in at most `longest` bytes.
    ghost small: { (s : Self.State) → Self.State.fits s → length (Self.State.spelling s) ≤ longest };
}
