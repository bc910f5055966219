ghost use Rattle.std.specs.Prelude.{◌≡◌, ◌↔◌, ◌+◌, ◌≤◌, ℕ, List, ℤ, pos, ◌+ℤ◌, Contains, IsErr, OnOk, OnErr};
ghost use Rattle.outside.specs.Faults.{following, one_more};

use crate::failed::Failed;
use thor_value::Ints;

/// The calls on a source or a sink in memory: which of them fail, and how many did.
#[derive(Debug, Drop)]
pub(crate) struct Calls {
    /// The numbers of the calls that fail, counted from 1.
    pub(crate) fails: Ints,
    /// The number of the next call.
    pub(crate) next: i64,
    /// How many faults were counted.
    pub(crate) faults: u64,
}

impl Calls {
    pub(crate) fn new(fails: Ints) -> Calls
        ensures fails { result.fails ≡ fails }
        ensures next { result.next ≡ pos 1 }
        ensures faults { result.faults ≡ 0 }
    {
        Calls {
            fails,
            next: 1,
            faults: 0,
        }
    }

    /// Counts a call, and fails it where it is one of those that fail.
    pub(crate) fn begin(&mut self) -> Result<(), Failed>
        ensures exact { IsErr result ↔ Contains self.old.fails self.old.next }
        ensures next { self.new.next ≡ following self.old.next }
        ensures ok { OnOk result (self.new.faults ≡ self.old.faults) }
        ensures err { OnErr result (self.new.faults ≡ one_more self.old.faults) }
        ensures never_falls { self.old.faults ≤ self.new.faults }
        ensures fails { self.new.fails ≡ self.old.fails }
    {
        let fails = self.fails.as_slice().contains(&self.next);
        self.next = self.next.saturating_add(1);
        if fails {
            self.count_fault();
            return Err(Failed);
        }
        Ok(())
    }

    /// Counts one more fault. A count at the greatest u64 stays there.
    pub(crate) fn count_fault(&mut self)
        ensures counted { self.new ≡ record self.old { faults = one_more self.old.faults } }
        ensures never_falls { self.old.faults ≤ self.new.faults }
    {
        self.faults = self.faults.saturating_add(1);
    }
}
