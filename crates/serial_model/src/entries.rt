use class_defs::{Block, Upgrade};
use thor_value::{Answer, NoMemory, Orefs, Sequence, TryCopy, Ts, Who};

/// What an item of a script asks for.
#[derive(Debug)]
pub enum What {
    /// A transaction, which runs its statements.
    Tx(Block),
    /// An upgrade of classes.
    Upgrade(Upgrade),
}

impl Drop for What {
    fn drop(self) {
        match self {
            What::Tx(block) => drop(block),
            What::Upgrade(upgrade) => drop(upgrade),
        }
    }
}

/// An entry of the serial history: one committed item.
#[derive(Debug)]
pub struct Did {
    /// Its timestamp, which is also its name.
    pub ts: Ts,
    /// Whose item it is.
    pub who: Who,
    /// The item of the script that `who` names.
    pub what: What,
    /// An upgrade's number, from 1; 0 for a transaction.
    pub number: u32,
    /// The names of the objects that it created, in the order in which it made them.
    pub fresh: Orefs,
    pub answer: Answer,
}

impl Drop for Did {
    fn drop(self) {
        let Did {
            ts,
            who,
            what,
            number,
            fresh,
            answer,
        } = self;
        let _ = ts;
        let _ = who;
        drop(what);
        let _ = number;
        drop(fresh);
        drop(answer);
    }
}

/// Entries, in the order of the history.
pub type Dids = Sequence<Did>;

impl TryCopy for What {
    fn copy(&self) -> Result<What, NoMemory> {
        match self {
            What::Tx(block) => Ok(What::Tx(block.copy()?)),
            What::Upgrade(upgrade) => Ok(What::Upgrade(upgrade.copy()?)),
        }
    }
}

impl TryCopy for Did {
    fn copy(&self) -> Result<Did, NoMemory> {
        Ok(Did {
            ts: self.ts,
            who: self.who,
            what: self.what.copy()?,
            number: self.number,
            fresh: self.fresh.copy()?,
            answer: self.answer.copy()?,
        })
    }
}
