//! What a session's front needs of its desk: a bound in place of the type, so that little is proved of what stands below it.
//! Definitions: specs/Commands.antt, specs/Looks.antt. Tests: shared_tests/src/fronts.rt.
ghost use native.Mathlib.Nat.{ℕ_set};
ghost use Rattle.std.specs.Coded.{codes};
ghost use Rattle.wm_front.specs.Commands.{IsReplied, SeatGoesOn};
ghost use Rattle.wm_front.specs.Looks.{IsLookedAt};
ghost use Rattle.std.specs.Prelude.{◌≡◌, IfOk, IfErr};
ghost use Rattle.wm_groupcommit.specs.Seats.{IsNewSeat, IsSeatOf, pushed_calls};
ghost use Rattle.wm_groupcommit.specs.declared.seat.Seat.{Seat};

use std::sync::Wait;
use wm_disk::{Disk, NoMemory, Refusal};
use wm_groupcommit::{Desk, Seat, Standing};
use wm_registry::{Command, Registry, Reply};

/// What handles the commands of sessions, each from a seat that it gave.
pub trait Registrar {
    /// Whether it gave this seat.
    ghost gave: { Self → Seat → Type 0 };

    /// There is one proof of it at most.
    ghost sole: { (desk : Self) (seat : Seat) → IsProp (gave desk seat) };

    /// How many commands were accepted by now.
    fn accepted_count<R: Wait>(&self, rt: &R) -> u64;

    /// A new seat; it is refused as `Desk::seat` is.
    fn seat<R: Wait>(&self, rt: &R) -> Result<Seat, Refusal>
        ensures { IfOk result (λ seat. gave self.now seat × IsNewSeat seat) };

    /// The reply to a command, and where the command stands unless it was refused. It is refused as `Desk::submit` refuses it.
    fn submit<R: Wait>(
        &self,
        rt: &R,
        seat: &mut Seat,
        command: Command,
    ) -> (Reply, Option<Standing>)
        requires { gave self.now seat.old }
        ensures gave { gave self.now seat.new }
        ensures continues { SeatGoesOn seat.old seat.new }
        ensures met { IsReplied seat.old command result.0 result.1 seat.new };

    /// A copy of the registry as it is now, and how many commands were accepted by then, which the seat has then seen. `NoMemory`.
    fn look<R: Wait>(&self, rt: &R, seat: &mut Seat) -> Result<(Registry, u64), Refusal>
        requires { gave self.now seat.old }
        ensures gave { gave self.now seat.new }
        ensures continues { SeatGoesOn seat.old seat.new }
        ensures unsent { pushed_calls seat.new ≡ pushed_calls seat.old }
        ensures looked { IfOk result (λ r. IsLookedAt seat.old r.0 r.1 seat.new) }
        ensures refused { IfErr result (λ e. e ≡ Refusal.NoMemory) };
}

impl<D: Disk + Drop> Registrar for Desk<D> {
    ghost gave = { λ desk seat. IsSeatOf desk seat };

    ghost sole = { λ desk seat. Prim.hlevel (codes, ℕ_set) };

    fn accepted_count<R: Wait>(&self, rt: &R) -> u64 {
        Desk::accepted(self, rt).count()
    }

    fn seat<R: Wait>(&self, rt: &R) -> Result<Seat, Refusal> {
        match Desk::seat(self, rt) {
            Ok(seat) => Ok(seat),
            Err(none) => Err(none.refusal()),
        }
    }

    fn submit<R: Wait>(
        &self,
        rt: &R,
        seat: &mut Seat,
        command: Command,
    ) -> (Reply, Option<Standing>) {
        match Desk::submit(self, rt, seat, command) {
            Ok((reply, receipt)) => (reply, Some(receipt.into_standing())),
            Err(refusal) => (Reply::Refused(refusal), None),
        }
    }

    fn look<R: Wait>(&self, rt: &R, seat: &mut Seat) -> Result<(Registry, u64), Refusal> {
        match Desk::look(self, rt, seat) {
            Ok(looked) => Ok(looked),
            Err(NoMemory) => Err(Refusal::NoMemory),
        }
    }
}
