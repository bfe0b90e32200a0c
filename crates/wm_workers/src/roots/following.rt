//! How the watched roots follow the accepted commands, each in its turn.
//!
//! The desk numbers the accepted commands. The thread of the session that a command came from has the roots follow it before
//! it replies, once they have followed all earlier ones. So the table of roots is always that of the registry after some number
//! of commands, and a session that has seen more commands than that waits until the table has followed them. While a turn is
//! taken, nobody else changes the table.
//!
//! Tests: serve_tests/src/sessions.rt.
ghost use Rattle.std.specs.Prelude.{◌≡◌, ◌⊎◌, IfErr, IfOk, IfSome, MatchOption};
ghost use Rattle.std.specs.Arc.{arc_value};
ghost use Rattle.wm_workers.specs.BegunRoots.{IsMadeFor, root_id};
ghost use Rattle.wm_workers.specs.Turns.{HasReached};
ghost use Rattle.wm_workers.specs.WatchedRoots.{MayHaveHad};

use super::followed::Followed;
use super::found::root_at;
use super::server_roots::ServerRoots;
use crate::desk::ServerDesk;
use crate::moments::unix_seconds;
use crate::wakes::bit_of;
use std::alloc::Global;
use std::sync::{Arc, Wait};
use std::time::Clock;
use wm_disk::Refusal;
use wm_front::Roots;
use wm_groupcommit::CommandNumber;
use wm_names::RootPath;
use wm_registry::{Command, Trigger};
use wm_root::{Changed, Seconds, WatchedRoot};
use wm_share::Naming;

impl<T: ServerDesk, J: Naming, K: Wait + Clock + Copy + Drop> ServerRoots<T, J, K> {
    /// The turn of the command of a number begins, once all earlier ones were followed. 0 stands for a change that isn't a command's.
    fn begin_turn<R: Wait>(&self, rt: &R, number: u64) {
        let mut state = self.changed.wait_while(
            rt,
            self.state.lock(rt),
            |state| state.turn.must_wait(number),
        );
        state.turn.take(number);
    }

    /// It is over.
    #[tactic(auto, using(crate::proofs::Turns::reached))]
    fn end_turn<R: Wait>(&self, rt: &R, number: u64)
        ensures { HasReached number }
    {
        let mut state = self.state.lock(rt);
        state.turn.finish(number);
        drop(state);
        self.changed.notify_all();
    }

    /// Waits until the roots have followed so many commands.
    #[tactic(auto, using(crate::proofs::Turns::reached))]
    fn await_count<R: Wait>(&self, rt: &R, count: u64)
        ensures { HasReached count }
    {
        let state = self.changed.wait_while(
            rt,
            self.state.lock(rt),
            |state| state.turn.is_short_of(count),
        );
        drop(state);
    }

    /// The watched root of a path as the table has it now, as [`root_at`].
    fn known_root<R: Wait>(
        &self,
        rt: &R,
        path: &RootPath,
    ) -> Result<Option<Arc<WatchedRoot<J, K>>>, Refusal>
        ensures had { IfOk result (λ found. IfSome found (λ root. MayHaveHad path.now (arc_value root).number)) }
        ensures refused { IfErr result (λ e. (e ≡ Refusal.NotWatched) ⊎ (e ≡ Refusal.NoMemory)) }
    {
        root_at(&self.state.lock(rt).table, path)
    }

    /// A root of the incarnation for the row that a command adds, with the number that it is made for; none if the command adds none, or
    /// memory ran out for it.
    fn root_for<R: Wait>(
        &self,
        rt: &R,
        alloc: Global,
        incarnation: u64,
        command: &Command,
    ) -> Option<(u64, Arc<WatchedRoot<J, K>>)>
        ensures { MatchOption result (Unit {0}) (IsMadeFor (λ root. root_id (arc_value root)) incarnation command.now) }
    {
        match command {
            Command::Watch(path) => {
                let number = self.state.lock(rt).table.next();
                let root = self.new_root(rt, alloc, path, incarnation, number).ok()?;
                Some((number, root))
            }
            _ => None,
        }
    }

    /// Ends a root: its workers end, none of its triggers begins any more, and who waits for changes of it is woken.
    fn end_root<R: Wait>(&self, rt: &R, root: &WatchedRoot<J, K>) {
        root.end(rt);
        self.flags.notify(rt, bit_of(root.number));
    }

    /// Defines a trigger of a root by the command of a number. A row without a root gets its triggers with it.
    fn define<R: Wait>(
        &self,
        rt: &R,
        path: &RootPath,
        number: u64,
        trigger: Trigger,
    ) -> Option<Arc<WatchedRoot<J, K>>> {
        match self.known_root(rt, path) {
            Ok(Some(root)) => {
                // the registry has as many triggers as the root
                let _defined = root.define(rt, number, trigger);
                Some(root)
            }
            Ok(None) | Err(_) => {
                drop(trigger);
                None
            }
        }
    }

    /// Deletes a trigger of a root.
    fn delete<R: Wait>(
        &self,
        rt: &R,
        path: &RootPath,
        name: &str,
    ) -> Option<Arc<WatchedRoot<J, K>>> {
        match self.known_root(rt, path) {
            Ok(Some(root)) => {
                root.delete(rt, name);
                Some(root)
            }
            Ok(None) | Err(_) => None,
        }
    }

    /// Does at a root what is left to do for the command of a number: the root whose starts are to be awaited then.
    fn follow_at_root<R: Wait>(
        &self,
        rt: &R,
        number: u64,
        left: Followed<Arc<WatchedRoot<J, K>>>,
    ) -> Option<Arc<WatchedRoot<J, K>>> {
        match left {
            Followed::Nothing => None,
            Followed::Ended(root) => {
                self.end_root(rt, &root);
                Some(root)
            }
            Followed::Defined(path, trigger) => self.define(rt, &path, number, trigger),
            Followed::Deleted(path, name) => self.delete(rt, &path, name.as_str()),
        }
    }

    /// Makes the root of a row that has none, in a turn, with its triggers as the registry has them. `NotWatched` if it isn't watched any
    /// longer, and `NoMemory`.
    fn make<R: Wait>(&self, rt: &R, alloc: Global, path: &RootPath) -> Result<(), Refusal>
        ensures { IfErr result (λ e. (e ≡ Refusal.NotWatched) ⊎ (e ≡ Refusal.NoMemory)) }
    {
        let number = self.number_of(rt, path);
        let registry = self.desk.registry(rt)?.into_registry();
        let Some(root) = registry.roots().get(path) else {
            return Err(Refusal::NotWatched);
        };
        if number != Some(root.number) {
            return Err(Refusal::NotWatched);
        }
        let count = self.state.lock(rt).turn.count();
        let incarnation = registry.incarnation();
        let row = self.begun_row(rt, alloc, incarnation, count, path, root)?;
        let filled = self.state.lock(rt).fill(row);
        self.changed.notify_all();
        Ok(filled?)
    }

    /// The root of a row for which memory had run out; it is made unless that was done meanwhile. No command is followed meanwhile. Refused
    /// as [`Self::make`].
    fn make_up<R: Wait>(
        &self,
        rt: &R,
        alloc: Global,
        path: &RootPath,
    ) -> Result<Arc<WatchedRoot<J, K>>, Refusal>
        ensures had { IfOk result (λ root. MayHaveHad path.now (arc_value root).number) }
        ensures refused { IfErr result (λ e. (e ≡ Refusal.NotWatched) ⊎ (e ≡ Refusal.NoMemory)) }
    {
        self.begin_turn(rt, 0);
        let made = self.make(rt, alloc, path);
        self.end_turn(rt, 0);
        made?;
        match self.known_root(rt, path)? {
            Some(root) => Ok(root),
            None => Err(Refusal::NoMemory),
        }
    }
}

impl<T: ServerDesk, J: Naming, K: Wait + Clock + Copy + Drop> Seconds for ServerRoots<T, J, K> {
    ghost use Rattle.std.specs.Prelude.{⊤};

    ghost may_read = { λ roots second. ⊤ };

    fn second(&self) -> u64 {
        unix_seconds(&self.keeping)
    }
}

impl<T: ServerDesk, J: Naming, K: Wait + Clock + Copy + Drop> Roots<J, K> for ServerRoots<T, J, K> {
    ghost use Rattle.std.specs.Prelude.{◌^◌, ◌%◌};
    ghost use Rattle.wm_workers.specs.Turns.{HasReached};
    ghost use Rattle.wm_workers.specs.WakeFlags.{HasNotified};
    ghost use Rattle.wm_workers.specs.WatchedRoots.{MayHaveHad, MayHaveLacked, MayHaveLackedNumber};

    ghost has = { λ roots path number. MayHaveHad path number };

    ghost lacks = { λ roots path. MayHaveLacked path };

    ghost ended = { λ roots number. MayHaveLackedNumber number };

    ghost followed = { λ roots count. HasReached count };

    ghost woken = { λ roots number. HasNotified (2 ^ (number % 64)) };

    fn find<R: Wait>(
        &self,
        rt: &R,
        alloc: Global,
        path: &RootPath,
    ) -> Result<Arc<WatchedRoot<J, K>>, Refusal> {
        match self.known_root(rt, path)? {
            Some(root) => Ok(root),
            None => self.make_up(rt, alloc, path),
        }
    }

    fn is_watched<R: Wait>(&self, rt: &R, number: u64) -> bool {
        self.state.lock(rt).table.is_numbered(number)
    }

    fn number_of<R: Wait>(&self, rt: &R, path: &RootPath) -> Option<u64> {
        self.state.lock(rt).table.number_of(path)
    }

    fn ended_count<R: Wait>(&self, rt: &R) -> u64 {
        self.state.lock(rt).ended
    }

    fn follow<R: Wait>(&self, rt: &R, alloc: Global, number: CommandNumber, command: Command) {
        let at = number.get();
        self.begin_turn(rt, at);
        let incarnation = self.state.lock(rt).turn.incarnation();
        let made = self.root_for(rt, alloc, incarnation, &command);
        let left = self.state.lock(rt).follow(at, command, made);
        let root = self.follow_at_root(rt, at, left);
        self.end_turn(rt, at);
        if let Some(root) = root {
            root.await_starts(rt);
            drop(root);
        }
    }

    fn await_followed<R: Wait>(&self, rt: &R, count: u64) {
        self.await_count(rt, count);
    }

    fn notify<R: Wait>(&self, rt: &R, root: &WatchedRoot<J, K>, changed: Changed) {
        self.log
            .note_forgotten(&self.keeping, &root.path, changed.into_forgot());
        let roots = bit_of(root.number);
        self.flags.notify(rt, roots);
    }
}
