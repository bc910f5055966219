ghost use Rattle.std.specs.Prelude.{◌≡◌, ℕ, ◌<◌, ◌≤◌, List, Option, length, take, IfOk, OnErr};
ghost use Rattle.outside.specs.Faults.{Rose};
ghost use Rattle.outside.specs.Streams.{Put};

use crate::failed::Failed;

/// Where bytes go, in pieces and in order.
pub trait Sink {
    /// The bytes that were taken, where the sink tells them.
    ghost taken: { Self → Option (List ℕ) };

    /// How many faults were counted.
    ghost faults: { Self → ℕ };

    /// Takes bytes from the front of `bytes` and answers how many: at least one, where there is one.
    /// After `Failed` nothing was taken. A sink that can take nothing of some bytes has failed.
    fn write(&mut self, bytes: &[u8]) -> Result<usize, Failed>
        ensures within { IfOk result (λ count. count ≤ length bytes.now) }
        ensures some { IfOk result (λ count. 0 < length bytes.now → 0 < count) }
        ensures put { IfOk result (λ count. Put (taken self.old) (take count bytes.now) (taken self.new)) }
        ensures kept { OnErr result (taken self.new ≡ taken self.old) }
        ensures failed { OnErr result (Rose (faults self.old) (faults self.new)) }
        ensures never_falls { faults self.old ≤ faults self.new };
}
