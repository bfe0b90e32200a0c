//! What a crash or a stop leaves, after each number of calls.
ghost use Rattle.wm_journal.specs.Regions.{InSamePlace, IsAt, LiesOn};

use super::{append, disk_of, joined, region_of, see_whole, texts};
use crate::checks::check;
use crate::disks::read_whole;
use std::alloc::Global;
use std::process::Abort;
use wm_disk::{Crashed, Disk, MemDisk, Refusal};
use wm_journal::Region;
use wm_wire::Text;

const FRONT: &[u8] = b"front";

const BEHIND: &[u8] = b"behind";

const OFFSET: u16 = 5;

const LEN: u16 = 38;

// What is acknowledged before the crash, the group in it, and what is written behind what it left. With
// their gates they take 6, 7, 5, 13 and 6 bytes, so the group's gates are bytes 11, 18 and 23 of the disk,
// and the last gate is the area's last byte.
const FIRST: &[&str] = &["a"];

const GROUP: &[&str] = &["bb", "", "cdefghij"];

const LAST: &[&str] = &["z"];

/// What is found with so many records of the group, and with the last one behind these.
const FOUND: &[(&str, &str)] = &[
    ("a|", "a|z|"),
    ("a|bb|", "a|bb|z|"),
    ("a|bb||", "a|bb||z|"),
    ("a|bb||cdefghij|", "a|bb||cdefghij|z|"),
];

/// What the area holds at first.
const FILLS: &[&[u8]] = &[
    &[0; LEN as usize],
    b"\0\xa5\xa5\xa5\xa5\xa5\xa5\xa5\xa5\xa5\xa5\xa5\xa5\xa5\xa5\xa5\xa5\xa5\xa5\xa5\xa5\xa5\xa5\xa5\xa5\xa5\xa5\xa5\xa5\xa5\xa5\xa5\xa5\xa5\xa5\xa5\xa5\xa5",
    // open records, behind a gate that is closed
    b"\x01\0\0\0\x01x\xa5\0\0\0\x02yy\xa5\0\0\0\0\xa5\0\0\0\x08oldbytes\xa5\0\0\0\x01x\xa5",
];

/// How many calls pass, whether the gates are to be opened, and how many of them are then written and how
/// many, the first, are durable.
const CUTS: &[(u64, bool, usize, usize)] = &[
    (0, true, 0, 0),
    (1, true, 0, 0),
    (2, true, 0, 0),
    (3, true, 1, 0),
    (4, true, 2, 0),
    (5, true, 3, 0),
    (6, true, 3, 3),
    (6, false, 0, 0),
];

/// What a crash leaves of the writes since the last sync, and how many of three written gates, the first, it
/// then leaves open.
const CHOICES: &[(u64, usize)] = &[
    (0, 0),
    (1, 3),
    (2, 3),
    (3, 0),
    // bits 11, 18 and 23
    (0x04_0800, 2),
    (0x80_0800, 1),
    (0x84_0000, 0),
    (0x84_0800, 3),
    (0x5555_5555_5555_5555, 0),
    (0xaaaa_aaaa_aaaa_aaaa, 1),
    (0xffff_ffff_ffff_f7ff, 0),
    (u64::MAX, 3),
];

#[derive(Clone, Copy, Debug)]
struct Run {
    choice: u64,
    // how many calls pass
    calls: u64,
    // whether the gates are to be opened
    opens: bool,
    // whether the process stops, and the disk doesn't crash
    stops: bool,
    // how many records of the group are found then
    left: usize,
}

/// Opens the gates of the group.
fn open(region: &mut Region<MemDisk>) -> Result<(), Refusal>
    requires { LiesOn region.old }
    ensures place { InSamePlace region.old region.new }
{
    region.open_gates::<Text<8>>()?;
    Ok(())
}

/// One group, whole.
fn add(rt: &impl Abort, region: &mut Region<MemDisk>, alloc: Global, values: &[&str])
    requires { LiesOn region.old }
    ensures place { InSamePlace region.old region.new }
{
    let group = texts(rt, alloc, values);
    append(region, alloc, &group).expect(rt, "a group");
    open(region).expect(rt, "open gates");
}

/// What the two calls answer for a group.
type Answers = (Result<(), Refusal>, Option<Result<(), Refusal>>);

/// What they answer where the disk lets so many calls pass.
fn answers(rt: &impl Abort, region: &mut Region<MemDisk>, alloc: Global, run: Run) -> Answers
    requires { LiesOn region.old }
{
    let group = texts(rt, alloc, GROUP);
    region.disk.arm(run.calls);
    let laid = append(region, alloc, &group);
    if laid.is_err() || !run.opens {
        return (laid, None);
    }
    let opened = open(region);
    (laid, Some(opened))
}

/// What they have to answer: appending takes two calls, and opening the gates four.
fn wanted(run: Run) -> Answers {
    let failed = Err(Refusal::DeviceFailed);
    let laid = if run.calls < 2 { failed } else { Ok(()) };
    let opened = match run.calls {
        _ if !run.opens => None,
        0 | 1 => None,
        2..=5 => Some(failed),
        _ => Some(Ok(())),
    };
    (laid, opened)
}

/// Whether the disk has what it had at first outside the area.
fn is_whole(rt: &impl Abort, alloc: Global, disk: &mut MemDisk) -> bool {
    let bytes = read_whole(rt, alloc, disk);
    bytes.len() == 49 && bytes.starts_with(FRONT) && bytes.ends_with(BEHIND)
}

/// Whether a scan finds these texts.
fn finds(rt: &impl Abort, alloc: Global, region: &mut Region<MemDisk>, want: &str) -> bool
    requires { LiesOn region.old }
    ensures lies { LiesOn region.new }
    ensures place { InSamePlace region.old region.new }
{
    let found = region.scan::<Text<8>>(alloc).expect(rt, "a scan");
    joined(rt, alloc, &found).as_str() == want
}

/// The journal on the disk, scanned after a sync. Tells whether these texts were found in it, and the bytes
/// outside it are as before.
fn found(rt: &impl Abort, alloc: Global, mut disk: MemDisk, want: &str) -> (Region<MemDisk>, bool)
    ensures lies { LiesOn result.0 }
    ensures place { IsAt result.0 5 38 }
{
    let whole = is_whole(rt, alloc, &mut disk);
    disk.sync().expect(rt, "a sync");
    let mut region = region_of(rt, alloc, disk, OFFSET, LEN);
    let is_found = finds(rt, alloc, &mut region, want);
    (region, whole && is_found)
}

/// Whether the calls in a run are answered as they have to be.
fn is_answered(rt: &impl Abort, alloc: Global, region: &mut Region<MemDisk>, run: Run) -> bool
    requires lies { LiesOn region.old }
    requires place { IsAt region.old 5 38 }
{
    add(rt, region, alloc, FIRST);
    see_whole(rt, region, OFFSET, LEN);
    answers(rt, region, alloc, run) == wanted(run)
}

/// What a run leaves, and whether the calls in it were answered as they have to be.
fn cut(rt: &impl Abort, alloc: Global, fill: &[u8], run: Run) -> (MemDisk, bool) {
    let disk = disk_of(rt, alloc, run.choice, &[FRONT, fill, BEHIND]);
    let (mut region, is_empty) = found(rt, alloc, disk, "");
    let answered = is_answered(rt, alloc, &mut region, run);
    let disk = if run.stops {
        region.disk.stop()
    } else {
        region.disk.crash()
    };
    (disk, is_empty && answered)
}

/// Whether a run leaves a prefix of the group, which still stands where it is written behind.
fn holds(rt: &impl Abort, alloc: Global, fill: &[u8], run: Run) -> bool {
    let (begun, gone_on) = *FOUND.get(run.left).expect(rt, "a row");
    let (disk, answered) = cut(rt, alloc, fill, run);
    let (mut region, is_begun) = found(rt, alloc, disk, begun);
    add(rt, &mut region, alloc, LAST);
    let (after, goes_on) = found(rt, alloc, region.disk.crash(), gone_on);
    drop(after);
    answered && is_begun && goes_on
}

/// After each number of calls, where a crash leaves so many of three written gates open.
fn try_choice(rt: &impl Abort, alloc: Global, fill: &[u8], choice: u64, kept: usize) {
    for (calls, opens, written, durable) in CUTS {
        for stops in [false, true] {
            let left = kept.min(*written).max(*durable);
            let run = Run {
                choice,
                calls: *calls,
                opens: *opens,
                stops,
                left: if stops { *written } else { left },
            };
            check!(rt; holds(rt, alloc, fill, run), (run, fill));
        }
    }
}

#[test]
fn holds_a_prefix_after_each_crash(rt: HostRuntime) {
    for fill in FILLS {
        for (choice, kept) in CHOICES {
            try_choice(&rt, rt.alloc(), fill, *choice, *kept);
        }
        for bit in 2..64u32 {
            let kept = if bit == 11 { 1 } else { 0 };
            try_choice(&rt, rt.alloc(), fill, 1 << bit, kept);
        }
    }
}
