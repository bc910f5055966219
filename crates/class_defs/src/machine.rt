use crate::store::Object;
use crate::types::ExprType;
use thor_value::{
    Fault, Ints, NoMemory, Oref, OrefMap, OrefSet, Orefs, Sequence, TryCopy, Value, Word,
};

/// Why a run stopped before its end.
#[derive(Debug, Drop)]
pub enum Stop {
    /// A fault, which is the transaction's answer.
    Fault(Fault),
    /// The object that is read next is not at hand. Its owners follow, nearest first, up to the free
    /// object.
    Need { oref: Oref, owners: Orefs },
    /// No name is left for a new object in this repository.
    NeedName { repo: u8 },
}

/// The object whose method runs.
#[derive(Debug, Drop)]
pub struct Receiver {
    pub oref: Oref,
    /// The number of its class.
    pub class: u16,
    /// Its owners, nearest first, up to the free object; none for a free object.
    pub owners: Orefs,
}

/// A local or a parameter of the body that runs.
#[derive(Debug, Drop)]
pub struct Local {
    pub name: Word,
    /// Its declared type.
    pub kind: ExprType,
    pub value: Value,
}

/// Locals, in the order in which they were declared.
pub type Locals = Sequence<Local>;

/// The names that new objects may take.
#[derive(Debug, Drop)]
pub struct NameSupply {
    /// A new object takes the first of these that lies in its repository.
    pub waiting: Orefs,
    /// Where none is left: which of the stand-in names comes next, counted from 0; or nothing, and then a name
    /// is needed. They are 255.0.0, 255.0.1 and so on to 255.0.255, then 255.1.0 and so on, and no store holds
    /// one.
    pub stand_in: Option<u64>,
}

/// The state of a run.
#[derive(Drop)]
pub struct Machine {
    /// How many steps were taken.
    pub steps: u32,
    /// How many method bodies are in progress.
    pub depth: u32,
    /// The object whose method runs; nothing in an item.
    pub this: Option<Receiver>,
    /// The locals and parameters of the body that runs.
    pub locals: Locals,
    /// The objects that became receivers and weren't created by this transaction.
    pub reads: OrefSet,
    /// The objects that were assigned to or created, as they are now.
    pub writes: OrefMap<Object>,
    /// The names of the objects created, in order.
    pub created: Orefs,
    /// The values printed, in order.
    pub printed: Ints,
    pub names: NameSupply,
}

/// How the execution of a statement ended.
#[derive(Clone, Copy, Debug, PartialEq, Eq)]
pub enum Flow {
    /// The next statement follows.
    Next,
    /// The body ends with this result.
    Returned(Value),
}

impl TryCopy for Receiver {
    fn copy(&self) -> Result<Receiver, NoMemory> {
        Ok(Receiver {
            oref: self.oref,
            class: self.class,
            owners: self.owners.copy()?,
        })
    }
}

impl TryCopy for NameSupply {
    fn copy(&self) -> Result<NameSupply, NoMemory> {
        Ok(NameSupply {
            waiting: self.waiting.copy()?,
            stand_in: self.stand_in,
        })
    }
}
