//! What happened in a server. Definitions: specs/LogLines. Tests: leaf_tests/src/logs.rt.

use crate::start_fault::StartFault;
use wm_disk::Refusal;

/// What happened.
#[derive(Drop)]
pub enum What {
    /// The socket of this path, which nobody served, was taken over.
    TookSocket(String),
    /// A crawl was refused so; at this folder, if it is one that can't be read.
    CrawlFailed(Refusal, Option<String>),
    /// The program of the trigger of this name couldn't be started, for this cause.
    NotStarted(String, StartFault),
    /// The program of the trigger of this name ended with this status.
    Exited(String, u8),
    /// The program of the trigger of this name was ended by this signal.
    Killed(String, u8),
    /// A session was refused so.
    SessionRefused(Refusal),
    /// A client that didn't read was cut off.
    CutOff,
    /// Deleted paths were forgotten, the last of which was deleted at this tick.
    Forgot(u64),
    /// The state file failed.
    StoreFailed,
}

/// One thing that happened.
#[derive(Drop)]
pub struct Event {
    /// When, in unix seconds.
    pub time: u64,
    /// The path of the root that it is about, if it is about one.
    pub root: Option<String>,
    pub what: What,
}
