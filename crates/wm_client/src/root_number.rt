//! The number of a root, as the reply to `clock` has it. Definitions: specs/Syncs. Tests: client_tests/src/wmctl/syncs.rt.
ghost use Rattle.std.specs.Prelude.{◌≡◌, IfOk, MatchOption, string_bytes};
ghost use Rattle.wm_client.specs.Syncs.{IsClockOf, LacksClock, clock_request, sync_folder};

use serde_json::{Value, json};
use std::alloc::Global;
use wm_clock::ClockSpec;
use wm_disk::{NoMemory, Refusal};

/// The request whose reply says a root's number: `["clock",ROOT]`, without a newline.
pub(crate) fn clock_request(alloc: Global, root: &str) -> Result<String, NoMemory>
    ensures { IfOk result (λ r. string_bytes r ≡ clock_request root.now) }
{
    let request = json!(in alloc; ["clock", root])?;
    Ok(request.to_string(alloc)?)
}

/// The folder beside a server's socket whose files the feed of the root of this number removes.
pub(crate) fn sync_folder(alloc: Global, socket: &str, root: u64) -> Result<String, NoMemory>
    ensures { IfOk result (λ r. string_bytes r ≡ sync_folder socket.now root) }
{
    Ok(format!(in alloc; "{socket}.sync/{root}")?)
}

/// The number of the root whose clock a reply tells: R of `"clock":"c:INCARNATION:R:TICK"`. `None` if the reply is no object with a
/// clock.
pub fn root_number_of(alloc: Global, reply: &[u8]) -> Result<Option<u64>, NoMemory>
    ensures { IfOk result (λ r. MatchOption r (LacksClock reply.now) (IsClockOf reply.now)) }
{
    let value = match Value::from_slice(alloc, reply) {
        Ok(value) => value,
        Err(error) => {
            return if error.is_memory() {
                Err(NoMemory)
            } else {
                Ok(None)
            };
        }
    };
    let Some(text) = value.get("clock").and_then(Value::as_str) else {
        return Ok(None);
    };
    match ClockSpec::read(alloc, text) {
        Ok(ClockSpec::Clock(clock)) => Ok(Some(clock.root)),
        Err(Refusal::NoMemory) => Err(NoMemory),
        Ok(_) | Err(_) => Ok(None),
    }
}
