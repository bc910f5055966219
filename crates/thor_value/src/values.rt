use crate::lists::{Ints, Values};
use crate::memory::{NoMemory, TryCopy};
use crate::names::{Oref, Ts};
use crate::words::Word;

/// What a field, a local or an expression holds.
#[derive(Clone, Copy, Debug, PartialEq, Eq)]
pub enum Value {
    /// A number of 64 bits, which wraps.
    Int(i64),
    /// The name of an object.
    Ref(Oref),
    /// The reference to nothing.
    Null,
    /// A text.
    Text(Word),
}

/// An object as it is stored.
#[derive(Debug, Drop)]
pub struct Obj {
    /// The number of its class, from 0 in the order of the setup.
    pub class: u16,
    /// How many upgrades were installed when it was last written.
    pub ver: u32,
    /// Its fields, in the order of the class at that version.
    pub fields: Values,
}

/// Why a transaction ended before its last statement. A fault is an answer: it is committed, with what
/// was read and without writes.
#[derive(Clone, Copy, Debug, PartialEq, Eq)]
pub enum Fault {
    /// A method was called on null.
    NullCall,
    /// The step behind the last one that a transaction may take.
    Steps,
    /// One call too many inside one another.
    Depth,
    /// One object too many was read or created.
    Large,
}

/// What a transaction answers.
#[derive(Debug, Drop)]
pub enum Answer {
    /// The printed values, in order.
    Ints(Ints),
    /// The fault that ended it, alone.
    Fault(Fault),
}

/// Which item of the script a transaction performs.
#[derive(Clone, Copy, Debug, PartialEq, Eq)]
pub struct Who {
    /// The client, from 1.
    pub client: u8,
    /// The item among the client's, from 1; 0 for a transform.
    pub index: u32,
}

impl TryCopy for Value {
    fn copy(&self) -> Result<Value, NoMemory> {
        Ok(*self)
    }
}

impl TryCopy for Oref {
    fn copy(&self) -> Result<Oref, NoMemory> {
        Ok(*self)
    }
}

impl TryCopy for Ts {
    fn copy(&self) -> Result<Ts, NoMemory> {
        Ok(*self)
    }
}

impl TryCopy for Obj {
    fn copy(&self) -> Result<Obj, NoMemory> {
        Ok(Obj {
            class: self.class,
            ver: self.ver,
            fields: self.fields.copy()?,
        })
    }
}

impl TryCopy for Answer {
    fn copy(&self) -> Result<Answer, NoMemory> {
        match self {
            Answer::Ints(ints) => Ok(Answer::Ints(ints.copy()?)),
            Answer::Fault(fault) => Ok(Answer::Fault(*fault)),
        }
    }
}
