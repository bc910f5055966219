ghost use Rattle.std.specs.Prelude.{◌≡◌, ◌↔◌, ℕ, ◌<◌, ◌≤◌, List, Some, pos, length, min, take, Contains, IfOk, IsErr, OnErr, is_err, if◌then◌else◌};
ghost use Rattle.outside.specs.Faults.{Rose, following, one_more};
ghost use Rattle.outside.specs.Streams.{IsAtEnd, Took};

use crate::calls::Calls;
use crate::failed::Failed;
use crate::piece::copy_piece;
use crate::source::Source;
use std::marker::Model;
use thor_value::{Ints, Text};

/// A source over bytes in memory, which tells what is left. A call gives at most 32 bytes.
#[derive(Debug, Drop)]
pub struct MemSource {
    bytes: Text,
    at: usize,
    calls: Calls,
}

impl Model for MemSource {
    ghost use Rattle.std.specs.Prelude.{ℕ, ℤ, List, length, drop, ◌≤◌};
    ghost use Rattle.outside.specs.Supply.{Supply};

    ghost Value = { Supply };

    ghost view = { λ s. record { rest = drop s.at s.bytes; fails = s.calls.fails; next = s.calls.next; faults = s.calls.faults } };

    ghost invariant = { λ s. s.at ≤ length s.bytes };
}

impl MemSource {
    /// A source that gives these bytes and fails the calls of these numbers, counted from 1.
    pub fn new(bytes: Text, fails: Ints) -> MemSource
        ensures { result ≡ record { rest = bytes; fails = fails; next = pos 1; faults = 0 } }
    {
        MemSource {
            bytes,
            at: 0,
            calls: Calls::new(fails),
        }
    }

    /// How many of its calls failed.
    pub fn faults(&self) -> u64
        ensures { result ≡ self.now.faults }
    {
        self.calls.faults
    }
}

impl Source for MemSource {
    ghost left = { λ s. Some s.rest };

    ghost faults = { λ s. s.faults };

    fn read(&mut self, into: &mut [u8]) -> Result<usize, Failed>
        ensures within { IfOk result (λ count. count ≤ length into.new) }
        ensures took { IfOk result (λ count. Took (Some self.old.rest) (take count into.new) (Some self.new.rest)) }
        ensures end { IfOk result (λ count. count ≡ 0 → 0 < length into.new → IsAtEnd (Some self.new.rest)) }
        ensures kept { OnErr result (Some self.new.rest ≡ Some self.old.rest) }
        ensures failed { OnErr result (Rose self.old.faults self.new.faults) }
        ensures never_falls { self.old.faults ≤ self.new.faults }
        ensures piece { IfOk result (λ count. count ≡ min 32 (min (length self.old.rest) (length into.new))) }
        ensures fails { IsErr result ↔ Contains self.old.fails self.old.next }
        ensures faults { self.new.faults ≡ (if is_err result then one_more self.old.faults else self.old.faults) }
        ensures next { self.new.next ≡ following self.old.next }
        ensures same { self.new.fails ≡ self.old.fails }
    {
        self.calls.begin()?;
        let count = copy_piece(self.bytes.as_slice().split_at(self.at).1, into);
        self.at += count;
        Ok(count)
    }
}
