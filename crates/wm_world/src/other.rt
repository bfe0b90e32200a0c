//! The disk beside the one in use.
//! Definitions: specs/Refinement.antt, specs/Passes.antt. Tests: session_tests/src/world/two_files.rt.
ghost use Rattle.std.specs.Prelude.{◌≡◌};
ghost use Rattle.wm_world.specs.Refinement.{OtherIs};
ghost use Rattle.wm_world.specs.Passes.{Halts, IsArmed, LosesPower, OnOther};

use wm_disk::Crashed;

/// The disk beside the one in use, where there is one.
#[derive(Drop)]
pub(crate) enum Other<D: Crashed + Drop> {
    Nothing,
    // into which the file in use may be migrated
    New(D),
    // with the file that was in use before a migration, which is retired
    Old(D),
}

impl<D: Crashed + Drop> Other<D> {
    /// So many calls pass, and then each fails.
    pub(crate) fn arm(&mut self, calls: u64)
        ensures honest { OtherIs D.honest self.new → OtherIs D.honest self.old }
        ensures armed { OtherIs D.honest self.new → OnOther (IsArmed D.Disk D.plan calls) self.old self.new }
        ensures counts { OnOther (λ d e. D.failures e ≡ D.failures d) self.old self.new }
    {
        match self {
            Other::Nothing => {}
            Other::New(disk) => disk.arm(calls),
            Other::Old(disk) => disk.arm(calls),
        }
    }

    /// After a loss of power.
    pub(crate) fn crash(self) -> Other<D>
        ensures honest { OtherIs D.honest result → OtherIs D.honest self }
        ensures lost { OtherIs D.honest self → OnOther (LosesPower D.Disk D.plan) self result }
        ensures counts { OnOther (λ d e. D.failures e ≡ D.failures d) self result }
    {
        match self {
            Other::Nothing => Other::Nothing,
            Other::New(disk) => Other::New(disk.crash()),
            Other::Old(disk) => Other::Old(disk.crash()),
        }
    }

    /// After a stop of the process.
    pub(crate) fn stop(self) -> Other<D>
        ensures honest { OtherIs D.honest result → OtherIs D.honest self }
        ensures halts { OtherIs D.honest self → OnOther (Halts D.Disk D.plan) self result }
        ensures counts { OnOther (λ d e. D.failures e ≡ D.failures d) self result }
    {
        match self {
            Other::Nothing => Other::Nothing,
            Other::New(disk) => Other::New(disk.stop()),
            Other::Old(disk) => Other::Old(disk.stop()),
        }
    }
}
