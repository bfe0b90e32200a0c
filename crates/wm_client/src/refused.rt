//! The refusal that a reply is. Definitions: specs/RefusalLines. Tests: client_tests/src/wmctl/talks.rt.
ghost use Rattle.std.specs.Prelude.{◌≡◌, true, false, MatchOption};
ghost use Rattle.std.specs.List.{list_any};
ghost use Rattle.wm_client.specs.RefusalLines.{IsRefusalOf, is_refused_by, start_of_refusal};

use wm_disk::Refusal;

/// Every refusal.
const REFUSALS: [Refusal; 21] = [
    Refusal::BadLine,
    Refusal::BadCommand,
    Refusal::BadArguments,
    Refusal::BadPath,
    Refusal::NotWatched,
    Refusal::NotReady,
    Refusal::BadClock,
    Refusal::BadExpression,
    Refusal::BadField,
    Refusal::BadTrigger,
    Refusal::Full,
    Refusal::StoreFailed,
    Refusal::DeviceFailed,
    Refusal::Damaged,
    Refusal::Exhausted,
    Refusal::NoMemory,
    Refusal::TooMany,
    Refusal::NoPlace,
    Refusal::NoQuestion,
    Refusal::Retired,
    Refusal::OldVersion,
];

/// How the line of a refusal begins.
fn start_of(refusal: Refusal) -> &'static [u8]
    ensures { result.now ≡ start_of_refusal refusal }
{
    match refusal {
        Refusal::BadLine => b"{\"error\":\"1 BadLine",
        Refusal::BadCommand => b"{\"error\":\"2 BadCommand",
        Refusal::BadArguments => b"{\"error\":\"3 BadArguments",
        Refusal::BadPath => b"{\"error\":\"4 BadPath",
        Refusal::NotWatched => b"{\"error\":\"5 NotWatched",
        Refusal::NotReady => b"{\"error\":\"6 NotReady",
        Refusal::BadClock => b"{\"error\":\"7 BadClock",
        Refusal::BadExpression => b"{\"error\":\"8 BadExpression",
        Refusal::BadField => b"{\"error\":\"9 BadField",
        Refusal::BadTrigger => b"{\"error\":\"10 BadTrigger",
        Refusal::Full => b"{\"error\":\"11 Full",
        Refusal::StoreFailed => b"{\"error\":\"12 StoreFailed",
        Refusal::DeviceFailed => b"{\"error\":\"13 DeviceFailed",
        Refusal::Damaged => b"{\"error\":\"14 Damaged",
        Refusal::Exhausted => b"{\"error\":\"15 Exhausted",
        Refusal::NoMemory => b"{\"error\":\"16 NoMemory",
        Refusal::TooMany => b"{\"error\":\"17 TooMany",
        Refusal::NoPlace => b"{\"error\":\"18 NoPlace",
        Refusal::NoQuestion => b"{\"error\":\"19 NoQuestion",
        Refusal::Retired => b"{\"error\":\"20 Retired",
        Refusal::OldVersion => b"{\"error\":\"21 OldVersion",
    }
}

/// Whether a line begins as that of a refusal.
pub(crate) fn is_of(refusal: Refusal, line: &[u8]) -> bool
    ensures { result ≡ is_refused_by refusal line.now }
{
    line.starts_with(start_of(refusal))
}

/// The first of some refusals as whose line a line begins.
fn first_of(refusals: &[Refusal], line: &[u8]) -> Option<Refusal>
    ensures { MatchOption result (list_any (λ r. is_refused_by r line.now) refusals.now ≡ false) (λ r. is_refused_by r line.now ≡ true) }
{
    for refusal in refusals {
        if is_of(*refusal, line) {
            return Some(*refusal);
        }
    }
    None
}

/// Which refusal a reply is, by how a server begins the line of each. `None` if it is none that this version knows.
pub fn refusal_of(line: &[u8]) -> Option<Refusal>
    ensures { IsRefusalOf line.now result }
{
    first_of(&REFUSALS, line)
}
