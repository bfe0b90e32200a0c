//! A session's seat at the desk.
//! Definitions: specs/Commands.antt, specs/Looks.antt. Tests: shared_tests/src/fronts.rt.
ghost use Rattle.std.specs.Prelude.{◌≡◌, ◌⊎◌, None, Some, IfOk, IfErr};
ghost use Rattle.wm_disk.specs.declared.refusal.Refusal.TheVariants.{NoMemory as no_memory};
ghost use Rattle.wm_front.specs.Commands.{IsReplied, IsSatOn, KeepsSeat, SeatGoesOn, calls_of};
ghost use Rattle.wm_front.specs.Looks.{IsLookedAt, IsLookedBy};
ghost use Rattle.wm_groupcommit.specs.declared.seat.Seat.{Seat as seats};
ghost use Rattle.wm_groupcommit.specs.Seats.{pushed_calls};
ghost use Rattle.wm_registry.specs.declared.reply.Reply.TheVariants.{Refused as refused};

use crate::registrar::Registrar;
use std::marker::Model;
use std::sync::Wait;
use wm_disk::Refusal;
use wm_groupcommit::{Seat, Standing};
use wm_registry::{Command, Registry, Reply};

/// A seat with the desk that gave it. Contracts see the seat.
#[derive(Drop)]
struct TakenSeat<'a, T: Registrar> {
    desk: &'a T,
    seat: Seat,
    ghost given: { T.gave desk.now seat } by { T.sole desk.now seat },
}

impl<'a, T: Registrar> TakenSeat<'a, T> {
    /// A new seat of the desk; it is refused as `Desk::seat` is.
    fn take<R: Wait>(rt: &R, desk: &'a T) -> Result<TakenSeat<'a, T>, Refusal>
        ensures { IfOk result (λ taken. IsSatOn None taken.seat) }
    {
        let seat = desk.seat(rt)?;
        Ok(TakenSeat { desk, seat })
    }

    /// As [`Registrar::submit`].
    fn submit<R: Wait>(&mut self, rt: &R, command: Command) -> (Reply, Option<Standing>)
        ensures continues { SeatGoesOn self.old.seat self.new.seat }
        ensures met { IsReplied self.old.seat command result.0 result.1 self.new.seat }
    {
        self.desk.submit(rt, &mut self.seat, command)
    }

    /// As [`Registrar::look`].
    fn look<R: Wait>(&mut self, rt: &R) -> Result<(Registry, u64), Refusal>
        ensures continues { SeatGoesOn self.old.seat self.new.seat }
        ensures unsent { pushed_calls self.new.seat ≡ pushed_calls self.old.seat }
        ensures looked { IfOk result (λ r. IsLookedAt self.old.seat r.0 r.1 self.new.seat) }
        ensures refused { IfErr result (λ e. e ≡ Refusal.NoMemory) }
    {
        self.desk.look(rt, &mut self.seat)
    }
}

/// The seat that a session submits commands from. It is taken at the first command or look for which there is memory. Contracts see the
/// seat.
#[derive(Drop)]
pub struct DeskSeat<'a, T: Registrar> {
    desk: &'a T,
    taken: Option<TakenSeat<'a, T>>,
}

impl<'a, T: Registrar> Model for DeskSeat<'a, T> {
    ghost use Rattle.std.specs.Prelude.{Option};
    ghost use Rattle.std.specs.Option.{option_map};
    ghost use Rattle.wm_groupcommit.specs.declared.seat.Seat.{Seat};

    ghost Value = { Option Seat };

    ghost view = { λ s. option_map (λ t. t.seat) s.taken };
}

impl<'a, T: Registrar> DeskSeat<'a, T> {
    /// No seat was taken yet.
    pub fn new(desk: &'a T) -> DeskSeat<'a, T>
        ensures { result ≡ None }
    {
        DeskSeat { desk, taken: None }
    }

    /// As [`Registrar::accepted_count`].
    pub(crate) fn accepted_count<R: Wait>(&self, rt: &R) -> u64 {
        self.desk.accepted_count(rt)
    }

    /// Takes a seat if there is none yet. If that is refused there is still none.
    fn take<R: Wait>(&mut self, rt: &R)
        ensures { ((self.new ≡ None) × (self.old ≡ None)) ⊎ ((seat : seats) × (self.new ≡ Some seat) × IsSatOn self.old seat) }
    {
        if self.taken.is_some() {
            return;
        }
        let Ok(taken) = TakenSeat::take(rt, self.desk) else {
            return;
        };
        self.taken = Some(taken);
    }

    /// As [`Registrar::submit`]; and `NoMemory` without a seat.
    pub(crate) fn submit<R: Wait>(&mut self, rt: &R, command: Command) -> (Reply, Option<Standing>)
        ensures { ((self.new ≡ self.old) × (result.0 ≡ refused no_memory))
            ⊎ ((seat : seats) × (new : seats) × IsSatOn self.old seat × (self.new ≡ Some new) × SeatGoesOn seat new × IsReplied seat command result.0 result.1 new) }
    {
        self.take(rt);
        let Some(taken) = &mut self.taken else {
            drop(command);
            return (Reply::Refused(Refusal::NoMemory), None);
        };
        taken.submit(rt, command)
    }

    /// As [`Registrar::look`]; and `NoMemory` without a seat.
    pub(crate) fn look<R: Wait>(&mut self, rt: &R) -> Result<(Registry, u64), Refusal>
        ensures keeps { KeepsSeat self.old self.new }
        ensures unsent { calls_of self.new ≡ calls_of self.old }
        ensures looked { IfOk result (λ r. IsLookedBy self.old r.0 r.1 self.new) }
        ensures refused { IfErr result (λ e. e ≡ Refusal.NoMemory) }
    {
        self.take(rt);
        let Some(taken) = &mut self.taken else {
            return Err(Refusal::NoMemory);
        };
        taken.look(rt)
    }
}
