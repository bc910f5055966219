//! What a client sends to a repository to have a transaction prepared or committed.

use thor_value::{Answer, NoMemory, Orefs, Repos, Text, TryCopy, Ts, Who, Writes};

/// What kind of transaction a request is of.
#[derive(Debug, Drop)]
pub enum Kind {
    /// An item of the script.
    App,
    /// A transform: it brings one object to the present epoch, and is unseen by items.
    Transform,
    /// An upgrade of classes, which reads and writes no object.
    Upgrade {
        /// The printed text of the upgrade.
        text: Text,
    },
}

/// The part of a transaction that lies in one repository, as its client sends it there.
///
/// A client sends the names that it read and the objects that it wrote, and neither versions nor
/// the values that it read (Liskov and others, SIGMOD 1996; Adya and others, SIGMOD 1995).
#[derive(Debug)]
pub struct Request {
    /// The transaction, by its timestamp. `tx.repo` is its coordinator.
    pub tx: Ts,
    /// The item of the script that it performs.
    pub who: Who,
    /// The client's session at this repository.
    pub session: u32,
    /// What kind of transaction it is.
    pub kind: Kind,
    /// How many upgrades the client had seen.
    pub epoch: u32,
    /// The messages that the client has taken: those of the places below.
    pub upto: u64,
    /// The objects of this repository that it read or created, rising.
    pub ros: Orefs,
    /// The objects of this repository that it wrote or created, with their names rising. All of
    /// these names are in `ros`.
    pub writes: Writes,
    /// All names that the transaction gave to new objects, of every repository, in order.
    pub fresh: Orefs,
    /// What the whole transaction answers.
    pub answer: Answer,
    /// The other repositories that take part.
    pub others: Repos,
}

impl Drop for Request {
    fn drop(self) {
        let Request {
            tx,
            who,
            session,
            kind,
            epoch,
            upto,
            ros,
            writes,
            fresh,
            answer,
            others,
        } = self;
        let _ = (tx, who, session, epoch, upto);
        drop(kind);
        drop(ros);
        drop(writes);
        drop(fresh);
        drop(answer);
        drop(others);
    }
}

impl TryCopy for Kind {
    fn copy(&self) -> Result<Kind, NoMemory> {
        match self {
            Kind::App => Ok(Kind::App),
            Kind::Transform => Ok(Kind::Transform),
            Kind::Upgrade { text } => Ok(Kind::Upgrade { text: text.copy()? }),
        }
    }
}

impl TryCopy for Request {
    fn copy(&self) -> Result<Request, NoMemory> {
        Ok(Request {
            tx: self.tx,
            who: self.who,
            session: self.session,
            kind: self.kind.copy()?,
            epoch: self.epoch,
            upto: self.upto,
            ros: self.ros.copy()?,
            writes: self.writes.copy()?,
            fresh: self.fresh.copy()?,
            answer: self.answer.copy()?,
            others: self.others.copy()?,
        })
    }
}
