ghost use Rattle.std.specs.Prelude.{◌≡◌, IfErr, IfOk, OnErr, OnOk, length};
ghost use Rattle.repo_trace.specs.Recorded.{nothing, with_entry, with_mark};

use crate::trace::{Entries, Marks, Trace};
use log_entries::Entry;
use spec_trace::{KeptItem, Mark};
use std::alloc::Global;
use std::marker::Model;
use thor_value::NoMemory;

/// What is recorded of a repository. It grows by one item a call, and is never shortened.
#[derive(Drop)]
pub struct Recorder {
    history: Vec<Entry>,
    marks: Vec<KeptItem>,
}

impl Model for Recorder {
    ghost use Rattle.repo_trace.specs.Recorded.{Recorded};

    ghost Value = { Recorded };

    ghost view = { λ r. record { history = r.history.items; marks = r.marks.items } };
}

impl Recorder {
    /// Nothing has happened. It takes no memory.
    pub fn new(alloc: Global) -> Recorder
        ensures { result ≡ nothing }
    {
        Recorder {
            history: Vec::new(alloc),
            marks: Vec::new(alloc),
        }
    }

    /// The entries of the history.
    pub fn history(&self) -> &[Entry]
        ensures { result.now ≡ self.now.history }
    {
        self.history.as_slice()
    }

    /// The items of the trace.
    pub fn marks(&self) -> &[KeptItem]
        ensures { result.now ≡ self.now.marks }
    {
        self.marks.as_slice()
    }

    /// How many entries there are: the place of the next.
    pub fn place(&self) -> u64
        ensures { result ≡ length self.now.history }
    {
        self.history.len() as u64
    }

    /// Puts a mark behind the trace. After `NoMemory` it is as it was, and the mark is gone.
    pub fn put_mark(&mut self, mark: Mark) -> Result<(), NoMemory>
        ensures ok { OnOk result (self.new ≡ with_mark self.old mark) }
        ensures err { OnErr result (self.new ≡ self.old) }
    {
        self.marks.push(KeptItem::Mark { mark })?;
        Ok(())
    }

    /// Has room for an entry more.
    pub fn reserve(&mut self) -> Result<(), NoMemory>
        ensures { self.new ≡ self.old }
    {
        self.marks.reserve(1)?;
        self.history.reserve(1)?;
        Ok(())
    }

    /// Puts an entry behind the trace. The answer is its place. Where there is no memory the trace is as it
    /// was, and the entry comes back.
    pub fn put_entry(&mut self, entry: Entry) -> Result<u64, Entry>
        ensures place { IfOk result (λ place. place ≡ length self.old.history) }
        ensures ok { OnOk result (self.new ≡ with_entry self.old entry) }
        ensures back { IfErr result (λ refused. refused ≡ entry) }
        ensures err { OnErr result (self.new ≡ self.old) }
    {
        let place = self.place();
        if self.marks.push(KeptItem::Entry { place }).is_err() {
            return Err(entry);
        }
        match self.history.push(entry) {
            Ok(()) => Ok(place),
            Err(refused) => {
                drop(self.marks.pop());
                Err(refused.value)
            }
        }
    }

    /// The trace.
    pub fn into_trace(self) -> Trace
        ensures history { result.history ≡ self.history }
        ensures marks { result.marks ≡ self.marks }
    {
        let Recorder { history, marks } = self;
        Trace {
            history: Entries::from_vec(history),
            marks: Marks::from_vec(marks),
        }
    }
}
