ghost use Rattle.std.specs.Prelude.{◌≡◌, ◌≤◌, ℕ, List, take, OnOk, OnErr};
ghost use Rattle.outside.specs.Faults.{Rose};
ghost use Rattle.outside.specs.Streams.{Put, PutFront};

use crate::failed::Failed;
use crate::sink::Sink;

/// Writes all the bytes, in as many pieces as the sink asks for. After `Failed` a front of them was
/// taken.
pub fn write_all<K: Sink>(sink: &mut K, bytes: &[u8]) -> Result<(), Failed>
    ensures ok { OnOk result (Put (K.taken sink.old) bytes.now (K.taken sink.new)) }
    ensures err { OnErr result (PutFront (K.taken sink.old) bytes.now (K.taken sink.new)) }
    ensures failed { OnErr result (Rose (K.faults sink.old) (K.faults sink.new)) }
    ensures never_falls { K.faults sink.old ≤ K.faults sink.new }
{
    let mut done = 0;
    while done < bytes.len() {
        done += sink.write(bytes.split_at(done).1)?;
    }
    Ok(())
}
