//! What a repository is.

ghost use Rattle.repo_core.specs.Shown.{faults_of};
ghost use Rattle.repo_durable.specs.Failing.{NoneFell};
ghost use Rattle.repo_durable.specs.Saying.{ImagesSay};
ghost use Rattle.repo_state.specs.Keeps.{Keeps};
ghost use Rattle.std.specs.Prelude.{None, false, true, ◌≡◌};

use disk_trait::Parts;
use repo_durable::Stable;
use repo_trace::{Recorder, Trace};
use repo_volatile::Memory;
use std::alloc::Global;
use std::marker::Model;

/// A repository: what of it outlives a crash, what a restart begins anew, and its trace since it was opened.
/// While it is up it is consistent with its disks, and whether it is up or down, they say what it holds (`parts`).
///
/// Each event is one call. After `Stopped`, `Damaged` and `NoMemory` the repository is down, and only
/// `restart` brings it up; after every other refusal nothing has changed but the trace, and after `ClockEnd`
/// the clock, which was asked once.
pub struct Repo<P: Parts> {
    pub(crate) alloc: Global,
    pub(crate) stable: Stable<P>,
    pub(crate) memory: Memory,
    pub(crate) trace: Recorder,
    /// The number of the life in which it was opened.
    pub(crate) opened_in: u32,
}

impl<P: Parts> Model for Repo<P> {
    ghost use Rattle.repo_core.specs.Shown.{Shown, shown};
    ghost use Rattle.repo_durable.specs.Kept.{IsKept};
    ghost use Rattle.repo_durable.specs.Saying.{IsSaid};

    ghost Value = { Shown };

    ghost view = { λ r. shown P.disks r.stable r.memory r.trace r.opened_in };

    ghost invariant = { λ r. IsKept P.disks r.stable × IsSaid P.disks r.stable };
}

impl<P: Parts> Drop for Repo<P> {
    fn drop(self) {
        let Repo {
            alloc: _,
            stable,
            memory,
            trace,
            opened_in: _,
        } = self;
        drop(stable);
        drop(memory);
        drop(trace);
    }
}

impl<P: Parts> Repo<P> {
    /// Ends it. Its parts come back with its trace. Each image that a crash of their disks may leave says what it held, or
    /// that with the entry that was being written; of one that is torn nothing is said. While it is up, none is being written.
    pub fn close(self) -> (P, Trace)
        ensures history { result.1.history ≡ self.trace.history }
        ensures marks { result.1.marks ≡ self.trace.marks }
        ensures says { self.is_torn ≡ false → ImagesSay (P.disks result.0) self.held self.pending }
        ensures none { self.is_up ≡ true → self.pending ≡ None }
        ensures keeps { self.is_torn ≡ false → Keeps self.held }
        ensures content { (P.disks result.0).content 2 ≡ self.pages }
    {
        let Repo {
            alloc: _,
            stable,
            memory,
            trace,
            opened_in: _,
        } = self;
        drop(memory);
        (stable.into_parts(), trace.into_trace())
    }

    /// Ends it. Its parts come back, and whether a stop fell in one of its calls. Where none did, the faults that it has counted
    /// are those of its disks.
    pub fn into_parts(self) -> (P, bool)
        ensures { result.1 ≡ false → NoneFell (faults_of self) (P.disks result.0).faults }
    {
        let Repo {
            alloc: _,
            stable,
            memory,
            trace,
            opened_in: _,
        } = self;
        drop(memory);
        drop(trace);
        let has_fallen = stable.parts().fell() != 0;
        (stable.into_parts(), has_fallen)
    }
}
