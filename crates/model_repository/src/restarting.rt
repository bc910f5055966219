//! How a plain repository is restarted.

ghost use Rattle.spec_history.specs.History.{Base};
ghost use Rattle.model_repository.specs.Sites.{MayRecover, back, trace_in, unsettled_of};
ghost use Rattle.model_repository.specs.declared.site.Left.TheVariants as left;
ghost use Rattle.client_port.specs.Growing.{Grew};
ghost use Rattle.std.specs.Prelude.{ℕ, ◌≡◌};

use crate::reading::Reads;
use crate::site::{Left, Site};
use log_entries::Entry;
use model_reading::Item;
use std::mem;
use thor_value::NoMemory;

impl Site {
    /// Restarts it: the entry that was being written comes, where that is wanted, and a life begins. What comes is growth
    /// that each client may meet. After `NoMemory` it is down still, and the entry may have come.
    pub fn restart<R: Reads>(&mut self, reader: &R, repo: u8, takes: bool) -> Result<(), NoMemory>
        ensures { (c : ℕ) → MayRecover (R.bases reader.now repo) c (trace_in self.old) self.old.left →
            Grew (R.bases reader.now repo) c (unsettled_of c self.old.left) (trace_in self.old) (unsettled_of c self.new.left) (trace_in self.new) }
    {
        self.recover_where(takes)?;
        self.begin_life(reader, repo)
    }

    /// The entry that was being written comes, where that is wanted.
    fn recover_where(&mut self, takes: bool) -> Result<(), NoMemory>
        ensures { (b : Base) (c : ℕ) → MayRecover b c (trace_in self.old) self.old.left →
            Grew b c (unsettled_of c self.old.left) (trace_in self.old) (unsettled_of c self.new.left) (trace_in self.new) }
    {
        if takes {
            return self.recover();
        }
        Ok(())
    }

    /// The entry that was being written comes.
    fn recover(&mut self) -> Result<(), NoMemory>
        ensures { (b : Base) (c : ℕ) → MayRecover b c (trace_in self.old) self.old.left →
            Grew b c (unsettled_of c self.old.left) (trace_in self.old) (unsettled_of c self.new.left) (trace_in self.new) }
    {
        match mem::replace(&mut self.left, Left::Down) {
            Left::Pending { client, entry } => self.bring(client, entry),
            left => {
                self.leave(left);
                Ok(())
            }
        }
    }

    /// This entry comes, which was being written in a client's call.
    fn bring(&mut self, client: u8, entry: Entry) -> Result<(), NoMemory>
        ensures { (b : Base) (c : ℕ) → MayRecover b c (trace_in self.old) (left.Pending client entry) →
            Grew b c (unsettled_of c (left.Pending client entry)) (trace_in self.old) (unsettled_of c self.new.left) (trace_in self.new) }
    {
        match self.items.push(Item::Entry { entry }) {
            Ok(()) => {
                self.leave(Left::Down);
                Ok(())
            }
            Err(full) => {
                self.leave(given_back(client, full.value));
                Err(NoMemory)
            }
        }
    }

    /// A life begins.
    fn begin_life<R: Reads>(&mut self, reader: &R, repo: u8) -> Result<(), NoMemory>
        ensures { (b : Base) (c : ℕ) → Grew b c (unsettled_of c self.old.left) (trace_in self.old) (unsettled_of c self.new.left) (trace_in self.new) }
    {
        let life = reader.next_life(repo, self.items.as_slice())?;
        self.items.push(Item::Entry {
            entry: Entry::Life { life },
        })?;
        self.leave(Left::Up);
        Ok(())
    }
}

/// An entry that didn't find memory may still come.
fn given_back(client: u8, item: Item) -> Left
    ensures { result ≡ back client item }
{
    match item {
        Item::Entry { entry } => Left::Pending { client, entry },
        Item::Mark { .. } => Left::Down,
    }
}
