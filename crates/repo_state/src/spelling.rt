//! The buffered objects, as a checkpoint spells them.

ghost use Rattle.std.specs.Prelude.{◌≡◌, IfOk, OnOk};
ghost use Rattle.mob_buffer.specs.Buffer.{AreDistinct};

use mob_buffer::Mob;
use std::alloc::Global;
use thor_value::{NoMemory, TryCopy, Writes};

/// Copies of the objects of a buffer, in its order.
pub(crate) fn copy_of(alloc: Global, buffer: &Mob) -> Result<Writes, NoMemory>
    ensures copy { IfOk result (λ mob. mob ≡ buffer.now.objects) }
    ensures distinct { OnOk result (AreDistinct buffer.now.objects) }
{
    let mut mob = Writes::new(alloc);
    for (name, object) in buffer.iter() {
        mob.push((*name, object.copy()?))?;
    }
    Ok(mob)
}
