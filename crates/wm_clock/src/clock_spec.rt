//! What a client may ask from: its text names a clock or a cursor, its number a moment.
//! Definitions: specs/Clocks.antt. Tests: leaf_tests/src/clocks/clock_specs.rt.
ghost use Rattle.std.specs.Prelude.{◌≡◌, ◌≢◌, ◌↔◌, ◌∷◌, true, Some, None, IfOk, IfErr, IsErrOf};
ghost use Rattle.wm_clock.specs.Clocks.{ClockRead, Reads, is_cursor, seconds_of, spec_of};

use crate::clock_id::ClockId;
use crate::cursor_name::CursorName;
use crate::number::read_number;
use std::alloc::Global;
use wm_disk::{MAX_COUNTER, Refusal};

/// What a client may ask from. A text names a clock, a clock of another instance or a cursor; a number
/// names a moment.
#[derive(Drop)]
pub enum ClockSpec {
    /// The text is that of a clock id in range.
    Clock(ClockId),
    /// Any other text that begins with `c:`.
    Another,
    /// The text is `n:` and a name of 1 to 64 bytes.
    Cursor(CursorName),
    /// Named by a number, and by no text: a moment in Unix seconds, 0 to 2^63 - 1.
    Seconds(u64),
}

/// The clock whose text is `c:` and these bytes.
fn read_clock(rest: &str) -> Option<ClockId>
    ensures { ClockRead (99 ∷ 58 ∷ rest.now) result }
{
    let (incarnation, rest) = rest.split_once(':')?;
    let (root, tick) = rest.split_once(':')?;
    let incarnation = read_number(incarnation)?;
    let root = read_number(root)?;
    let tick = read_number(tick)?;
    Some(ClockId {
        incarnation,
        root,
        tick,
    })
}

impl ClockSpec {
    /// The moment that the number names, in Unix seconds. `BadClock` if it is above 2^63 - 1.
    pub fn seconds(seconds: u64) -> Result<ClockSpec, Refusal>
        ensures exact { IfOk result (λ s. seconds_of seconds ≡ Some s) }
        ensures refused { IfErr result (λ e. (e ≡ Refusal.BadClock) × (seconds_of seconds ≡ None)) }
    {
        if seconds > MAX_COUNTER {
            return Err(Refusal::BadClock);
        }
        Ok(ClockSpec::Seconds(seconds))
    }

    /// What the text names. `BadClock` where it begins neither with `c:` nor with `n:`, and where what
    /// follows `n:` is empty or has more than 64 bytes; `NoMemory` where a cursor's name finds no room,
    /// and never for a text that begins with `c:`.
    pub fn read(alloc: Global, text: &str) -> Result<ClockSpec, Refusal>
        ensures ok { IfOk result (λ s. Reads text.now s) }
        ensures exact { IfOk result (λ s. spec_of text.now ≡ Some s) }
        ensures refused { IsErrOf result Refusal.BadClock ↔ (spec_of text.now ≡ None) }
        ensures kinds { IfErr result (λ e. e ≢ Refusal.NoMemory → e ≡ Refusal.BadClock) }
        ensures memory { IsErrOf result Refusal.NoMemory → is_cursor text.now ≡ true }
    {
        if let Some(rest) = text.strip_prefix("c:") {
            return match read_clock(rest) {
                Some(clock) => Ok(ClockSpec::Clock(clock)),
                None => Ok(ClockSpec::Another),
            };
        }
        let Some(name) = text.strip_prefix("n:") else {
            return Err(Refusal::BadClock);
        };
        let name = CursorName::read(alloc, name)?;
        Ok(ClockSpec::Cursor(name))
    }
}
