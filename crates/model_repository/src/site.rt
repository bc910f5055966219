//! One plain repository, and what becomes of a step that was read off its trace.

ghost use Rattle.model_repository.specs.Sites.{IsPut, IsTaken, is_down};
ghost use Rattle.model_reading.specs.declared.item.Item.TheVariants as items;
ghost use Rattle.model_repository.specs.declared.site.Left.TheVariants as left;
ghost use Rattle.std.specs.Prelude.{Err, Ok, Some, false, ℕ, ◌≡◌};
ghost use Rattle.repo_refusals.specs.declared.refusal.Refusal.TheVariants as refused;

use crate::reading::Step;
use log_entries::Entry;
use model_reading::Item;
use repo_refusals::Refusal;
use thor_value::NoMemory;

/// Whether a repository is up, and what else was left.
#[derive(Drop)]
pub enum Left {
    /// It is up.
    Up,
    /// A call stopped while its entry was being written, which may still come. It is down.
    Pending {
        /// The client whose call it was.
        client: u8,
        /// The entry.
        entry: Entry,
    },
    /// It is down, and nothing of a call may still come.
    Down,
}

/// A plain repository.
#[derive(Drop)]
pub struct Site {
    /// The items of its trace.
    pub items: Vec<Item>,
    pub left: Left,
    /// Whether it stops in the next call that writes an entry.
    pub stops: bool,
}

impl Site {
    /// Whether it is down.
    pub fn is_down(&self) -> bool
        ensures { result ≡ is_down self.now.left }
    {
        match &self.left {
            Left::Up => false,
            Left::Pending { .. } | Left::Down => true,
        }
    }

    /// It is left so.
    pub(crate) fn leave(&mut self, left: Left)
        ensures { self.new ≡ record self.old { left = left } }
    {
        self.left = left;
    }

    /// There is no memory: it is down.
    fn fail<X>(&mut self) -> Result<X, Refusal>
        ensures answer { result ≡ Err refused.NoMemory }
        ensures left { self.new ≡ record self.old { left = left.Down } }
    {
        self.leave(Left::Down);
        Err(Refusal::NoMemory)
    }

    /// Puts an item behind its trace.
    fn push<X: Drop>(&mut self, answer: Result<X, Refusal>, item: Item) -> Result<X, Refusal>
        requires { is_down self.old.left ≡ false }
        ensures { (c : ℕ) → IsPut (Ok (answer, Some item)) c self.old self.new result }
    {
        match self.items.push(item) {
            Ok(()) => answer,
            Err(_) => self.fail(),
        }
    }

    /// Puts the item of a step behind its trace, where there is one.
    fn put_step<X: Drop>(&mut self, step: Step<X>) -> Result<X, Refusal>
        requires { is_down self.old.left ≡ false }
        ensures { (c : ℕ) → IsPut (Ok step) c self.old self.new result }
    {
        let (answer, item) = step;
        match item {
            Some(item) => self.push(answer, item),
            None => answer,
        }
    }

    /// Where it is up a step that was read is done, or fails for want of memory.
    pub(crate) fn put<X: Drop>(&mut self, plan: Result<Step<X>, NoMemory>) -> Result<X, Refusal>
        requires { is_down self.old.left ≡ false }
        ensures { (c : ℕ) → IsPut plan c self.old self.new result }
    {
        match plan {
            Ok(step) => self.put_step(step),
            Err(NoMemory) => self.fail(),
        }
    }

    /// Puts an entry behind its trace, or stops while it is being written.
    fn write<X: Drop>(
        &mut self,
        client: u8,
        repo: u8,
        answer: Result<X, Refusal>,
        entry: Entry,
    ) -> Result<X, Refusal>
        requires { is_down self.old.left ≡ false }
        ensures { IsTaken (Ok (answer, Some (items.Entry entry))) client repo self.old self.new result }
    {
        if self.stops {
            self.leave(Left::Pending { client, entry });
            return Err(Refusal::Stopped { repo });
        }
        self.push(answer, Item::Entry { entry })
    }

    /// An item comes behind its trace, or its entry stops.
    fn take_item<X: Drop>(
        &mut self,
        client: u8,
        repo: u8,
        answer: Result<X, Refusal>,
        item: Item,
    ) -> Result<X, Refusal>
        requires { is_down self.old.left ≡ false }
        ensures { IsTaken (Ok (answer, Some item)) client repo self.old self.new result }
    {
        match item {
            Item::Entry { entry } => self.write(client, repo, answer, entry),
            Item::Mark { mark } => self.push(answer, Item::Mark { mark }),
        }
    }

    fn take_step<X: Drop>(&mut self, client: u8, repo: u8, step: Step<X>) -> Result<X, Refusal>
        requires { is_down self.old.left ≡ false }
        ensures { IsTaken (Ok step) client repo self.old self.new result }
    {
        let (answer, item) = step;
        match item {
            Some(item) => self.take_item(client, repo, answer, item),
            None => answer,
        }
    }

    /// Where it is up a step that was read is done for a client, or fails for want of memory, or its entry stops.
    pub(crate) fn take<X: Drop>(
        &mut self,
        client: u8,
        repo: u8,
        plan: Result<Step<X>, NoMemory>,
    ) -> Result<X, Refusal>
        requires { is_down self.old.left ≡ false }
        ensures { IsTaken plan client repo self.old self.new result }
    {
        match plan {
            Ok(step) => self.take_step(client, repo, step),
            Err(NoMemory) => self.fail(),
        }
    }
}
