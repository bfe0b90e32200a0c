//! Forgets the paths that have been gone for long enough.
//! Definitions: specs/KnownPaths.antt, specs/Steps.antt. Tests: view_tests/src/views/ageing.rt.
ghost use Rattle.std.specs.Prelude.{◌≡◌, ◌<◌, IfOk, false, Some, None, nat_lt, filter, not, ◌&&◌, fold};
ghost use Rattle.wm_names.specs.Paths.{same_path};
ghost use Rattle.wm_view.specs.Steps.{known_or, is_gone_for as is_gone_for_lem};
ghost use Rattle.wm_view.specs.KnownPaths.{IsSound, told};

use crate::known::Known;
use crate::known_paths::{KnownPaths, unknown};
use std::alloc::Global;
use wm_disk::{MAX_COUNTER, NoMemory};
use wm_names::RelPath;

/// Whether a path that changed at a tick is gone for so long.
fn is_told_gone(time: u64, age: u64, known: &Known) -> bool
    ensures { result ≡ (nat_lt 0 known.now.last && is_gone_for_lem time age known.now) }
{
    known.last > 0
        && !known.exists
        && match known.moment.checked_add(age) {
            Some(then) => then <= time,
            None => false,
        }
}

impl KnownPaths {
    /// What is gone for so long, in the order of the paths.
    pub(crate) fn gone_for(
        &self,
        alloc: Global,
        time: u64,
        age: u64,
    ) -> Result<Vec<(RelPath, Known)>, NoMemory>
        requires { IsSound self.now }
        ensures { IfOk result (λ v. v.items ≡ filter (λ e. is_gone_for_lem time age e.1) (told self.now)) }
    {
        let mut aged = Vec::new(alloc);
        for path in &self.gone {
            let known = self.known_or(path);
            if is_told_gone(time, age, &known) {
                let path = path.copy()?;
                aged.push((path, known))?;
            }
        }
        Ok(aged)
    }

    /// Forgets a path.
    fn forget_one(&mut self, path: RelPath, last: u64)
        requires sound { IsSound self.old }
        ensures value { told self.new ≡ filter (λ e. not (same_path path e.0)) (told self.old) }
        ensures sound { IsSound self.new }
    {
        self.known.remove(&path);
        self.gone.remove(&path);
        self.order.remove(&(MAX_COUNTER.saturating_sub(last), path));
    }

    /// Forgets the paths.
    pub(crate) fn forget(&mut self, paths: Vec<(RelPath, Known)>)
        requires { IsSound self.old }
        ensures value { told self.new ≡ fold (λ ks e. filter (λ k. not (same_path e.0 k.0)) ks) (told self.old) paths.items }
        ensures sound { IsSound self.new }
    {
        for (path, known) in paths {
            self.forget_one(path, known.last);
        }
    }
}
