//! What may happen to a server and its clients, as values.
//! Definitions: specs/Steps.antt. Tests: session_tests/src/world/sweep.rt.
use wm_expr::Expr;
use wm_names::RootPath;
use wm_registry::Command;
use wm_view::{Listing, Pairs};

/// What may happen in a world. An event that doesn't fit changes nothing: a question while the server is
/// down, say.
#[derive(Drop)]
pub enum Event {
    /// A start: the store is opened on the disk.
    Open,
    /// A batch of at most `MAX_BATCH` commands.
    Commands(Vec<Command>),
    /// The state goes into the other slot.
    Checkpoint,
    /// The state file is migrated into the other disk, which then is the one in use. It fits while the server
    /// is down and the migration isn't done.
    Migrate,
    /// So many calls of the disk in use pass, and then each fails, until a crash or a stop.
    Arm(u64),
    /// So many calls of the disk that isn't in use pass, and then each fails, until a crash or a stop.
    ArmOther(u64),
    /// A loss of power, of both disks.
    Crash,
    /// A stop of the process, without loss of power.
    Stop,
    /// At this moment, this was observed of the root at the path.
    Observe(RootPath, u64, Pairs),
    /// At this moment a reading of the root at the path ended, which began at this tick and found this.
    Recrawl(RootPath, u64, u64, Listing),
    /// At this moment, what was deleted so long ago below the root at the path may be forgotten.
    AgeOut(RootPath, u64, u64),
    /// A new client of the root at the path, with the next number from 0, who wants the files that match.
    Client(RootPath, Expr),
    /// The client with this number asks what changed since its last answer.
    Ask(usize),
    /// The answer on its way to this client comes.
    Receive(usize),
    /// The answer on its way to this client is lost.
    Lose(usize),
}
