//! A checkpoint, a commit and a format that are cut at one of their device calls.
use super::{
    Call, Kept, RegisterKeeper, UNUSED, USED, USED_TWICE, content_after, found, meet_all, open,
    set_three,
};
use crate::checks::check;
use crate::disks::disk_of;
use std::alloc::Global;
use std::process::Abort;
use wm_disk::{Crashed, MemDisk, Refusal};

/// Where a call is cut, and how.
#[derive(Clone, Copy, Debug)]
struct Cut {
    /// How many device calls of it pass.
    calls: u64,
    /// What a crash leaves of the writes since the last sync.
    choice: u64,
    /// The process stops, and the disk doesn't crash.
    stops: bool,
}

/// The cuts behind so many calls: a stop, and a crash for each of the choices 0 to 3, each bit alone, and
/// every other bit.
fn cuts(rt: &impl Abort, alloc: Global, calls: u64) -> Vec<Cut> {
    const CHOICES: &[u64] = &[0, 3, 0x5555_5555_5555_5555, 0xaaaa_aaaa_aaaa_aaaa];
    let stop = Cut {
        calls,
        choice: 0,
        stops: true,
    };
    let mut cuts = Vec::new(alloc);
    cuts.push(stop).expect(rt, "memory");
    for choice in CHOICES {
        cuts.push(crash(calls, *choice)).expect(rt, "memory");
    }
    for bit in 0..64u32 {
        cuts.push(crash(calls, 1 << bit)).expect(rt, "memory");
    }
    cuts
}

fn crash(calls: u64, choice: u64) -> Cut {
    Cut {
        calls,
        choice,
        stops: false,
    }
}

/// The keeper of these bytes, armed behind the three device calls that open it.
fn armed(rt: &impl Abort, alloc: Global, content: &[u8], cut: Cut) -> Kept {
    let mut disk = disk_of(rt, alloc, cut.choice, content);
    disk.arm(cut.calls.saturating_add(3));
    open(rt, alloc, disk)
}

/// What the cut leaves.
fn left(kept: Kept, cut: Cut) -> MemDisk {
    let disk = kept.keeper.into_disk();
    if cut.stops { disk.stop() } else { disk.crash() }
}

/// The answer to a call that needs so many device calls.
fn answer(cut: Cut, needed: u64) -> Result<(), Refusal> {
    if cut.calls < needed {
        return Err(Refusal::DeviceFailed);
    }
    Ok(())
}

/// Whether a checkpoint that needs so many device calls keeps the state.
fn keeps(
    rt: &impl Abort,
    alloc: Global,
    content: &[u8],
    cut: Cut,
    (needed, state): (u64, u64),
) -> bool {
    let mut kept = armed(rt, alloc, content, cut);
    let answered = kept.keeper.checkpoint(alloc) == answer(cut, needed);
    let stays = *kept.keeper.state() == state;
    let found = found(rt, alloc, left(kept, cut));
    answered && stays && found == state
}

/// Cuts a checkpoint of the file behind these calls before, within and after each of the device calls that it
/// needs.
fn assert_keeps(rt: &impl Abort, alloc: Global, before: &[Call], wanted: (u64, u64)) {
    let content = content_after(rt, alloc, before);
    for calls in 0..9u64 {
        for cut in &cuts(rt, alloc, calls) {
            check!(rt; keeps(rt, alloc, &content, *cut, wanted), cut);
        }
    }
}

#[test]
fn finds_the_state_after_a_cut_checkpoint(rt: HostRuntime) {
    assert_keeps(&rt, rt.alloc(), UNUSED, (7, 6));
}

/// The gate of that slot is open.
#[test]
fn finds_the_state_after_a_cut_checkpoint_into_a_used_slot(rt: HostRuntime) {
    assert_keeps(&rt, rt.alloc(), USED, (8, 11));
}

/// How many commands of the group must count, and how many may, by how many device calls pass: a write and a
/// sync, a write for each of the three gates, and a sync.
const COUNTS: &[(usize, usize)] = &[(0, 0), (0, 0), (0, 0), (0, 1), (0, 2), (0, 3), (3, 3)];

/// How many commands of the group `20`, `21`, `22` are found after a cut. None where no prefix of it is, or
/// the commit was answered otherwise than it has to be.
fn counted(rt: &impl Abort, alloc: Global, content: &[u8], cut: Cut, state: u64) -> Option<usize> {
    let mut kept = armed(rt, alloc, content, cut);
    let began = *kept.keeper.state() == state;
    let answered = set_three(alloc, &mut kept, 20, 21, 22) == answer(cut, 6);
    let found = found(rt, alloc, left(kept, cut));
    if !began || !answered {
        return None;
    }
    let begun = [state, 20, 21, 22];
    begun.iter().position(|s| *s == found)
}

/// Whether so many commands may be found after a cut. A stop leaves what was written, and so do the crashes of
/// choice 1; those of choice 0 leave what was durable.
fn may_count(cut: Cut, count: Option<usize>, (least, most): (usize, usize)) -> bool {
    let Some(count) = count else {
        return false;
    };
    if cut.stops || cut.choice == 1 {
        return count == most;
    }
    if cut.choice == 0 {
        return count == least;
    }
    least <= count && count <= most
}

/// Cuts the commit of a group of three before, within and after each of its device calls.
fn assert_begins(rt: &impl Abort, alloc: Global, before: &[Call], state: u64) {
    let content = content_after(rt, alloc, before);
    for (calls, counts) in COUNTS.iter().enumerate() {
        for cut in &cuts(rt, alloc, calls as u64) {
            let count = counted(rt, alloc, &content, *cut, state);
            check!(rt; may_count(*cut, count, *counts), (count, cut));
        }
    }
}

#[test]
fn finds_a_prefix_of_a_cut_group(rt: HostRuntime) {
    assert_begins(&rt, rt.alloc(), UNUSED, 6);
}

#[test]
fn finds_a_prefix_of_a_cut_group_in_a_used_journal(rt: HostRuntime) {
    assert_begins(&rt, rt.alloc(), USED_TWICE, 12);
}

/// What is done after a cut checkpoint.
const LATER: &[Call] = &[Call::Set(30), Call::Checkpoint, Call::Set(31)];

/// Whether a keeper goes on after a cut checkpoint.
fn goes_on(rt: &impl Abort, alloc: Global, content: &[u8], cut: Cut) -> bool {
    let mut kept = armed(rt, alloc, content, cut);
    let answered = kept.keeper.checkpoint(alloc) == answer(cut, 8);
    let mut kept = open(rt, alloc, left(kept, cut));
    meet_all(rt, alloc, &mut kept, LATER);
    let found = found(rt, alloc, left(kept, cut));
    answered && found == 31
}

#[test]
fn goes_on_after_a_cut(rt: HostRuntime) {
    const CHOICES: &[u64] = &[0, 1, 2, 3, 0x5555_5555_5555_5555];
    let content = content_after(&rt, rt.alloc(), USED_TWICE);
    for calls in 0..9u64 {
        for choice in CHOICES {
            let cut = crash(calls, *choice);
            check!(rt; goes_on(&rt, rt.alloc(), &content, cut), cut);
        }
    }
}

/// Whether a format is made again over a cut one.
fn formats_again(rt: &impl Abort, alloc: Global, cut: Cut) -> bool {
    let mut disk = MemDisk::new(alloc, cut.choice);
    disk.arm(cut.calls);
    let answered = RegisterKeeper::format(alloc, &mut disk, &5) == answer(cut, 49);
    let mut disk = disk.crash();
    RegisterKeeper::format(alloc, &mut disk, &6).expect(rt, "a file");
    let found = found(rt, alloc, disk.crash());
    answered && found == 6
}

/// 41 writes and a sync, and then write, write, sync, write, sync, write, sync.
const FORMATS: &[u64] = &[0, 1, 40, 41, 42, 43, 44, 45, 46, 47, 48, 49];

#[test]
fn formats_again_after_a_cut(rt: HostRuntime) {
    for calls in FORMATS {
        for choice in 0..4u64 {
            let cut = crash(*calls, choice);
            check!(rt; formats_again(&rt, rt.alloc(), cut), cut);
        }
    }
}
