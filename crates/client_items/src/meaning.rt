//! What a transaction makes of its item.

ghost use Rattle.client_items.specs.Courses.{IsDownAt, IsLateOutcome, is_committed};
ghost use Rattle.client_items.specs.Meanings.{answer_in, committed_as, kind_of, settled_as};
ghost use Rattle.std.specs.Prelude.{◌≡◌, IfOk, true, ℕ};

use log_entries::Kind;
use serial_model::{Cause, ItemOutcome};
use thor_value::{Answer, NoMemory, Sequence, Text, TryCopy, Ts};

/// What the commit of a transaction makes of its item.
#[derive(Drop)]
pub enum Meaning {
    /// A transaction with this answer.
    Ran(Answer),
    /// The upgrade of this number, and its text.
    Upgrade { number: u32, text: Text },
}

impl Meaning {
    /// The kind of the requests.
    pub fn kind(&self) -> Result<Kind, NoMemory>
        ensures { IfOk result (λ kind. kind ≡ kind_of self.now) }
    {
        match self {
            Meaning::Ran(_) => Ok(Kind::App),
            Meaning::Upgrade { text, .. } => Ok(Kind::Upgrade { text: text.copy()? }),
        }
    }

    /// The answer of the requests. An upgrade has an empty one.
    pub fn answer(&self) -> Result<Answer, NoMemory>
        ensures { IfOk result (λ answer. answer ≡ answer_in self.now) }
    {
        match self {
            Meaning::Ran(answer) => answer.copy(),
            Meaning::Upgrade { text, .. } => Ok(Answer::Ints(Sequence::new(text.allocator()))),
        }
    }

    /// How its item ends behind the commit.
    pub fn committed(self, ts: Ts) -> ItemOutcome
        ensures own { result ≡ committed_as ts self }
        ensures late { IsLateOutcome ts result }
        ensures stands { is_committed result ≡ true }
        ensures down { (repo : ℕ) → IsDownAt repo result }
    {
        match self {
            Meaning::Ran(Answer::Ints(answer)) => ItemOutcome::Done { ts, answer },
            Meaning::Ran(Answer::Fault(fault)) => ItemOutcome::Faulted { ts, fault },
            Meaning::Upgrade { number, .. } => ItemOutcome::Upgraded { ts, number },
        }
    }

    /// How its item ends that was held as Unknown, by the verdict: the transaction stands exactly where that
    /// commits. Else its coordinator was down.
    pub fn settled(self, ts: Ts, commit: bool, coordinator: u8) -> ItemOutcome
        ensures own { result ≡ settled_as ts commit coordinator self }
        ensures late { IsLateOutcome ts result }
        ensures stands { is_committed result ≡ commit }
        ensures down { IsDownAt coordinator result }
    {
        if commit {
            return self.committed(ts);
        }
        ItemOutcome::Refused {
            cause: Cause::Down { repo: coordinator },
        }
    }
}
