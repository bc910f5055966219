ghost use Rattle.std.specs.Prelude.{◌≡◌, ℕ, ◌<◌, ◌≤◌, List, [], Some, pos, length, min, take, Contains, IfOk, IsErr, OnErr, is_err, if◌then◌else◌};
ghost use Rattle.outside.specs.Faults.{Rose, following, one_more};
ghost use Rattle.outside.specs.Streams.{Put};

use crate::calls::Calls;
use crate::failed::Failed;
use crate::piece::piece_length;
use crate::sink::Sink;
use std::marker::Model;
use thor_value::{Ints, Text};

/// A sink into memory, which tells what it took. A call takes at most 32 bytes.
#[derive(Debug, Drop)]
pub struct MemSink {
    held: Text,
    calls: Calls,
}

impl Model for MemSink {
    ghost use Rattle.outside.specs.Supply.{Store};

    ghost Value = { Store };

    ghost view = { λ s. record { taken = s.held; fails = s.calls.fails; next = s.calls.next; faults = s.calls.faults } };
}

impl MemSink {
    /// A sink that took nothing yet and fails the calls of these numbers, counted from 1.
    pub fn new(fails: Ints) -> MemSink
        ensures { result ≡ record { taken = []; fails = fails; next = pos 1; faults = 0 } }
    {
        MemSink {
            held: Text::new(fails.allocator()),
            calls: Calls::new(fails),
        }
    }

    /// What it took, in order.
    pub fn taken(&self) -> &[u8]
        ensures { result.now ≡ self.now.taken }
    {
        self.held.as_slice()
    }

    /// How many of its calls failed, those for want of memory included.
    pub fn faults(&self) -> u64
        ensures { result ≡ self.now.faults }
    {
        self.calls.faults
    }
}

impl Sink for MemSink {
    ghost taken = { λ s. Some s.taken };

    ghost faults = { λ s. s.faults };

    /// Want of memory is a fault of the sink and is counted as one.
    fn write(&mut self, bytes: &[u8]) -> Result<usize, Failed>
        ensures within { IfOk result (λ count. count ≤ length bytes.now) }
        ensures some { IfOk result (λ count. 0 < length bytes.now → 0 < count) }
        ensures put { IfOk result (λ count. Put (Some self.old.taken) (take count bytes.now) (Some self.new.taken)) }
        ensures kept { OnErr result (Some self.new.taken ≡ Some self.old.taken) }
        ensures failed { OnErr result (Rose self.old.faults self.new.faults) }
        ensures never_falls { self.old.faults ≤ self.new.faults }
        ensures piece { IfOk result (λ count. count ≡ min 32 (length bytes.now)) }
        ensures fails { Contains self.old.fails self.old.next → IsErr result }
        ensures faults { self.new.faults ≡ (if is_err result then one_more self.old.faults else self.old.faults) }
        ensures next { self.new.next ≡ following self.old.next }
        ensures same { self.new.fails ≡ self.old.fails }
    {
        self.calls.begin()?;
        let count = piece_length(bytes.len());
        match self.held.extend_from_slice(&bytes[..count]) {
            Ok(()) => Ok(count),
            Err(_) => {
                self.calls.count_fault();
                Err(Failed)
            }
        }
    }
}
