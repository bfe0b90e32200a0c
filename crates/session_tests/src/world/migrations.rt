//! A migration that is cut at each device call of each disk, and then a crash or a stop of both: what was answered is found, by a
//! start and by the next migration.
use super::two_files::Did::{Arm, ArmOther, Crash, Migrate, Open, Stop, Watch};
use super::two_files::{Did, put_all, shown_over};
use crate::checks::check;
use std::alloc::Global;
use std::process::Abort;

/// The calls of the old disk: its length, a sync, the reading, and the write and the sync that retire it.
const OLD_CALLS: u64 = 5;

/// The calls of the new disk that write zeros, and all: a sync, the slot, the name and version, a sync, the slot's gate, a sync, the
/// header's gate and a sync.
const ZEROS: u64 = 137;

const NEW_CALLS: u64 = 145;

/// What ends a cut migration: a stop, or a crash under this choice of what it leaves.
#[derive(Clone, Copy, Debug)]
enum End {
    Stopped,
    Crashed(u64),
}

/// Whether each cut has all 67 ends: the gate takes a few (`make edits CRATE=sweep` takes all).
const IS_WHOLE: bool = false;

/// A few of them. The crashes leave what was durable, what a read gives, the byte `A5` or the byte `00` in each written place,
/// and every second one.
const FEW: &[End] = &[
    End::Stopped,
    End::Crashed(0),
    End::Crashed(1),
    End::Crashed(2),
    End::Crashed(3),
    End::Crashed(0x5555_5555_5555_5555),
    End::Crashed(0xaaaa_aaaa_aaaa_aaaa),
];

/// All of them: a stop, and a crash under each of 66 choices, of which 62 are single bits.
fn all_ends(rt: &impl Abort, alloc: Global) -> Vec<End> {
    let mut ends = Vec::new(alloc);
    ends.push(End::Stopped).expect(rt, "memory");
    for choice in 0..4u64 {
        ends.push(End::Crashed(choice)).expect(rt, "memory");
    }
    for bit in 2..64u32 {
        ends.push(End::Crashed(1 << bit)).expect(rt, "memory");
    }
    ends
}

/// What a world shows that watches `/r`, after a cut migration, its end and these events.
fn shown_behind(rt: &impl Abort, alloc: Global, cut: Did, end: End, behind: &[Did]) -> String {
    let (end, choice) = match end {
        End::Stopped => (Stop, 0),
        End::Crashed(choice) => (Crash, choice),
    };
    let mut events = Vec::new(alloc);
    let row = [Open, Watch("/r"), Stop, cut, Migrate, end];
    put_all(rt, alloc, &row, &mut events);
    put_all(rt, alloc, behind, &mut events);
    shown_over(rt, alloc, choice, events)
}

/// Cuts the migration there: the next one ends it.
fn assert_ended(rt: &impl Abort, alloc: Global, cut: Did, end: End) {
    let text = shown_behind(rt, alloc, cut, end, &[Migrate, Open]);
    check!(rt; text.as_str() == "2 /r", (cut, end, text.as_str()));
    drop(text);
}

/// Whether the end of a migration that is cut there leaves the old file retired: only where the sync behind the write that retires it
/// failed, and what is left of that write is the byte that it wrote, at place 12.
fn is_retired(cut: Did, end: End) -> bool {
    match (cut, end) {
        (Arm(4), End::Stopped) => true,
        (Arm(4), End::Crashed(choice)) => choice == 1
            || choice == 2
            || choice > 3 && choice & (1 << 12) != 0,
        _ => false,
    }
}

/// Cuts the migration there: a start finds what is watched, or the old file is retired, which leaves the server down; and the next
/// migration moves it.
fn assert_found(rt: &impl Abort, alloc: Global, cut: Did, end: End) {
    let text = shown_behind(rt, alloc, cut, end, &[Open, Stop, Migrate, Open]);
    let wanted = if is_retired(cut, end) { "2 /r" } else { "3 /r" };
    check!(rt; text.as_str() == wanted, (cut, end, text.as_str()));
    drop(text);
}

/// Which disk's calls are cut.
#[derive(Clone, Copy)]
enum Which {
    Old,
    New,
}

/// Cuts the migration at this call with each of these ends.
fn assert_ends(rt: &impl Abort, alloc: Global, cut: Did, ends: &[End]) {
    for end in ends {
        assert_ended(rt, alloc, cut, *end);
        assert_found(rt, alloc, cut, *end);
    }
}

/// Cuts the migration at these calls of a disk, from one up to another.
fn assert_cut(rt: &impl Abort, alloc: Global, which: Which, from: u64, to: u64) {
    let all = all_ends(rt, alloc);
    for call in from..to {
        let cut = match which {
            Which::Old => Arm(call),
            Which::New => ArmOther(call),
        };
        assert_ends(rt, alloc, cut, if IS_WHOLE { &all } else { FEW });
    }
    drop(all);
}

/// Cuts the migration at these writes of zeros, from one up to another, each with one end in turn.
fn assert_zeros_cut(rt: &impl Abort, alloc: Global, from: u64, to: u64) {
    if IS_WHOLE {
        return assert_cut(rt, alloc, Which::New, from, to);
    }
    for call in from..to {
        assert_ended(rt, alloc, ArmOther(call), FEW[call as usize % FEW.len()]);
    }
}

#[test]
fn is_cut_at_each_call_of_the_old_disk(rt: HostRuntime) {
    assert_cut(&rt, rt.alloc(), Which::Old, 0, OLD_CALLS);
}

#[test]
fn is_cut_at_the_first_calls_behind_the_zeros(rt: HostRuntime) {
    assert_cut(&rt, rt.alloc(), Which::New, ZEROS, ZEROS + 4);
}

#[test]
fn is_cut_at_the_last_calls_of_the_new_disk(rt: HostRuntime) {
    assert_cut(&rt, rt.alloc(), Which::New, ZEROS + 4, NEW_CALLS);
}

#[test]
fn is_cut_at_each_write_of_zeros_first_half(rt: HostRuntime) {
    assert_zeros_cut(&rt, rt.alloc(), 0, ZEROS / 2);
}

#[test]
fn is_cut_at_each_write_of_zeros_second_half(rt: HostRuntime) {
    assert_zeros_cut(&rt, rt.alloc(), ZEROS / 2, ZEROS);
}
