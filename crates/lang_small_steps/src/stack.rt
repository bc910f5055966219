ghost use Rattle.std.specs.Prelude.{◌≡◌, [], ◌∷◌, ◌↔◌, IsTrue, IfOk, OnOk, MatchOption};

use std::alloc::Global;
use std::marker::Model;
use thor_value::NoMemory;

/// A stack, which contracts see as the list of its elements, the top first.
#[derive(Drop)]
pub struct Stack<T> {
    items: Vec<T>,
}

impl<T> Model for Stack<T> {
    ghost use Rattle.std.specs.Prelude.{List, reverse};
    ghost use Rattle.std.specs.Coded.{coded_list};

    ghost Value = { List T };

    ghost coded = { coded_list T.code };

    ghost view = { λ s. reverse s.items.items };
}

impl<T: Drop> Stack<T> {
    /// The empty stack. It takes no memory.
    pub fn new(alloc: Global) -> Stack<T>
        ensures { result ≡ [] }
    {
        Stack {
            items: Vec::new(alloc),
        }
    }

    /// The empty stack, with room for so many elements: up to there a push takes no memory.
    pub fn with_room(alloc: Global, count: usize) -> Result<Stack<T>, NoMemory>
        ensures { IfOk result (λ stack. stack ≡ []) }
    {
        Ok(Stack {
            items: Vec::with_capacity(alloc, count)?,
        })
    }

    pub fn is_empty(&self) -> bool
        ensures { IsTrue result ↔ (self.now ≡ []) }
    {
        self.items.is_empty()
    }

    /// Puts an element on the top. After `NoMemory` the element is gone.
    pub fn push(&mut self, top: T) -> Result<(), NoMemory>
        ensures { OnOk result (self.new ≡ top ∷ self.old) }
    {
        self.items.push(top)?;
        Ok(())
    }

    /// Takes the top off, where there is one.
    pub fn pop(&mut self) -> Option<T>
        ensures { MatchOption result ((self.old ≡ []) × (self.new ≡ [])) (λ top. self.old ≡ top ∷ self.new) }
    {
        self.items.pop()
    }
}
