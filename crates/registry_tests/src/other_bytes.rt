//! Bytes that are no spelling of a type.
use crate::commands::NO_COMMANDS;
use crate::names::NO_NAMES;
use crate::spelling::takes_none;
use crate::states::NO_STATES;
use crate::triggers::NO_TRIGGERS;
use wm_checkpoint::Version1;
use wm_registry::{FiledCommand, FiledRegistry, Trigger, TriggerName};

#[test]
fn takes_no_other_bytes(rt: HostRuntime) {
    takes_none::<TriggerName>(&rt, rt.alloc(), NO_NAMES);
    takes_none::<Trigger>(&rt, rt.alloc(), NO_TRIGGERS);
    takes_none::<FiledCommand<Version1>>(&rt, rt.alloc(), NO_COMMANDS);
    takes_none::<FiledRegistry<Version1>>(&rt, rt.alloc(), NO_STATES);
}
