//! What holds of every restart: a law of specs/program, without code.
ghost use Rattle.std.specs.Prelude.{◌≡◌, List};
ghost use Rattle.wm_registry.specs.Roots as registry;
ghost use Rattle.wm_registry.specs.declared.command.Command.{Command};
ghost use Rattle.wm_server.specs.program.Programs.{KeepsAccepted};

use wm_disk::Disk;
use wm_store::every_file;

/// What holds of two sessions over one honest disk, one after the other: the second begins on what the first
/// left, which is the replay of all that it accepted, and so with one more `Begin`.
pub fn every_restart<D: Disk>()
    ensures { (old middle new : D) (was left found last : registry.State) (asked again : List Command) → D.honest middle → KeepsAccepted D.Disk old was left asked middle → KeepsAccepted D.Disk middle found last again new → found ≡ left }
{
    every_file();
}
