//! Numbers, names, timestamps, objects and pairs.

ghost use Rattle.std.specs.Prelude.{◌≡◌, ◌++◌, ◌<◌, ◌^◌, ℕ, List, length, OnOk, OnErr};
ghost use Rattle.log_codec.specs.Format.{Format, Gives};
ghost use Rattle.log_codec.specs.Grammar.{bit_format};

use crate::fault::BodyFault;
use crate::spelled::Spelled;
use byteorder::{BigEndian, ByteOrder};
use object_codec::{ObjFault, put_obj, read_obj};
use std::alloc::Global;
use thor_value::{NoMemory, Obj, Oref, Text, Ts, put_oref, put_ts, read_oref, read_ts};

impl Spelled for u8 {
    ghost use Rattle.log_codec.specs.Format.{u8_format};

    ghost format = { u8_format };

    fn read(_alloc: Global, bytes: &[u8]) -> Result<(u8, &[u8]), BodyFault> {
        match bytes.split_first() {
            Some((byte, rest)) => Ok((*byte, rest)),
            None => Err(BodyFault::NotOne),
        }
    }

    fn put(&self, out: &mut Text) -> Result<(), NoMemory> {
        out.push(*self)
    }
}

impl Spelled for u16 {
    ghost use Rattle.log_codec.specs.Format.{u16_format};

    ghost format = { u16_format };

    #[tactic(auto, unfolding(crate::specs::Format::as_read))]
    fn read(_alloc: Global, bytes: &[u8]) -> Result<(u16, &[u8]), BodyFault> {
        if bytes.len() < 2 {
            return Err(BodyFault::NotOne);
        }
        let (front, rest) = bytes.split_at(2);
        Ok((BigEndian::read_u16(front), rest))
    }

    #[tactic(auto, unfolding(crate::specs::Format::as_spelled))]
    fn put(&self, out: &mut Text) -> Result<(), NoMemory> {
        out.extend_from_slice(&self.to_be_bytes())
    }
}

impl Spelled for u32 {
    ghost use Rattle.log_codec.specs.Format.{u32_format};

    ghost format = { u32_format };

    #[tactic(auto, unfolding(crate::specs::Format::as_read))]
    fn read(_alloc: Global, bytes: &[u8]) -> Result<(u32, &[u8]), BodyFault> {
        if bytes.len() < 4 {
            return Err(BodyFault::NotOne);
        }
        let (front, rest) = bytes.split_at(4);
        Ok((BigEndian::read_u32(front), rest))
    }

    #[tactic(auto, unfolding(crate::specs::Format::as_spelled))]
    fn put(&self, out: &mut Text) -> Result<(), NoMemory> {
        out.extend_from_slice(&self.to_be_bytes())
    }
}

impl Spelled for u64 {
    ghost use Rattle.log_codec.specs.Format.{u64_format};

    ghost format = { u64_format };

    #[tactic(auto, unfolding(crate::specs::Format::as_read))]
    fn read(_alloc: Global, bytes: &[u8]) -> Result<(u64, &[u8]), BodyFault> {
        if bytes.len() < 8 {
            return Err(BodyFault::NotOne);
        }
        let (front, rest) = bytes.split_at(8);
        Ok((BigEndian::read_u64(front), rest))
    }

    #[tactic(auto, unfolding(crate::specs::Format::as_spelled))]
    fn put(&self, out: &mut Text) -> Result<(), NoMemory> {
        out.extend_from_slice(&self.to_be_bytes())
    }
}

impl Spelled for i64 {
    ghost use Rattle.log_codec.specs.Grammar.{i64_format};

    ghost format = { i64_format };

    fn read(alloc: Global, bytes: &[u8]) -> Result<(i64, &[u8]), BodyFault> {
        let (number, rest) = u64::read(alloc, bytes)?;
        Ok((number.cast_signed(), rest))
    }

    #[tactic(auto, unfolding(crate::specs::Format::as_spelled))]
    fn put(&self, out: &mut Text) -> Result<(), NoMemory> {
        out.extend_from_slice(&self.cast_unsigned().to_be_bytes())
    }
}

impl Spelled for Oref {
    ghost use Rattle.log_codec.specs.Grammar.{oref_format};

    ghost format = { oref_format };

    #[tactic(auto, unfolding(crate::specs::Format::as_read))]
    fn read(_alloc: Global, bytes: &[u8]) -> Result<(Oref, &[u8]), BodyFault> {
        match read_oref(bytes) {
            Ok((oref, length)) => Ok((oref, bytes.split_at(length).1)),
            Err(_) => Err(BodyFault::NotOne),
        }
    }

    #[tactic(auto, unfolding(crate::specs::Format::as_spelled))]
    fn put(&self, out: &mut Text) -> Result<(), NoMemory> {
        put_oref(*self, out)
    }
}

impl Spelled for Ts {
    ghost use Rattle.log_codec.specs.Grammar.{ts_format};

    ghost format = { ts_format };

    #[tactic(auto, unfolding(crate::specs::Format::as_read))]
    fn read(_alloc: Global, bytes: &[u8]) -> Result<(Ts, &[u8]), BodyFault> {
        match read_ts(bytes) {
            Ok((ts, length)) => Ok((ts, bytes.split_at(length).1)),
            Err(_) => Err(BodyFault::NotOne),
        }
    }

    #[tactic(auto, unfolding(crate::specs::Format::as_spelled))]
    fn put(&self, out: &mut Text) -> Result<(), NoMemory> {
        put_ts(*self, out)
    }
}

impl Spelled for Obj {
    ghost use Rattle.log_codec.specs.Grammar.{obj_format};

    ghost format = { obj_format };

    #[tactic(auto, unfolding(crate::specs::Format::as_read))]
    fn read(alloc: Global, bytes: &[u8]) -> Result<(Obj, &[u8]), BodyFault> {
        match read_obj(alloc, bytes) {
            Ok((obj, length)) => Ok((obj, bytes.split_at(length).1)),
            Err(ObjFault::NoMemory) => Err(BodyFault::NoMemory),
            Err(_) => Err(BodyFault::NotOne),
        }
    }

    #[tactic(auto, unfolding(crate::specs::Format::as_spelled))]
    fn put(&self, out: &mut Text) -> Result<(), NoMemory> {
        put_obj(self, out)
    }
}

impl<A: Spelled, B: Spelled> Spelled for (A, B) {
    ghost use Rattle.log_codec.specs.Format.{◌then◌};

    ghost format = { A.format then B.format };

    fn read(alloc: Global, bytes: &[u8]) -> Result<((A, B), &[u8]), BodyFault> {
        let (first, rest) = A::read(alloc, bytes)?;
        let (second, rest) = B::read(alloc, rest)?;
        Ok(((first, second), rest))
    }

    #[tactic(auto, using(std::proofs::Common::append_assoc))]
    fn put(&self, out: &mut Text) -> Result<(), NoMemory> {
        self.0.put(out)?;
        self.1.put(out)
    }
}

/// Reads a byte that is 0 or 1.
pub(crate) fn read_bit(alloc: Global, bytes: &[u8]) -> Result<(u8, &[u8]), BodyFault>
    ensures { Gives (λ x. (x.0, x.1.now)) result (bit_format.reading bytes.now) }
{
    let (bit, rest) = u8::read(alloc, bytes)?;
    if bit < 2 {
        Ok((bit, rest))
    } else {
        Err(BodyFault::NotOne)
    }
}

impl Spelled for bool {
    ghost use Rattle.log_codec.specs.Grammar.{flag_format};

    ghost format = { flag_format };

    fn read(alloc: Global, bytes: &[u8]) -> Result<(bool, &[u8]), BodyFault> {
        let (number, rest) = u8::read(alloc, bytes)?;
        match number {
            0 => Ok((false, rest)),
            1 => Ok((true, rest)),
            _ => Err(BodyFault::NotOne),
        }
    }

    fn put(&self, out: &mut Text) -> Result<(), NoMemory> {
        out.push(u8::from(*self))
    }
}
