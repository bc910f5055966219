ghost use Rattle.std.specs.Prelude.{◌≡◌, [], ◌∷◌, ◌++◌, ◌<◌, ◌≤◌, length, take, drop, slice_get, slice_set, remove, ◌↔◌, IsTrue, IfOk, MatchOption, OnOk, OnErr, OnSome};
ghost use Rattle.std.specs.List.{insert};
ghost use Rattle.std.specs.Option.{option_copied};

use crate::memory::{NoMemory, TryCopy};
use std::alloc::Global;
use std::marker::Model;
use std::mem;

/// A list in one block of memory, which contracts see as the list of its elements.
///
/// Two sequences with equal elements are equal in every contract, whatever room they have.
#[derive(Debug, Drop)]
pub struct Sequence<T> {
    items: Vec<T>,
}

impl<T> Model for Sequence<T> {
    ghost use Rattle.std.specs.Prelude.{List};
    ghost use Rattle.std.specs.Coded.{coded_list};

    ghost Value = { List T };

    ghost coded = { coded_list T.code };

    ghost view = { λ s. s.items.items };
}

impl<T> Sequence<T> {
    /// The empty sequence. It takes no memory.
    pub fn new(alloc: Global) -> Sequence<T>
        ensures { result ≡ [] }
    {
        Sequence {
            items: Vec::new(alloc),
        }
    }

    /// The elements of a `Vec`, in its order, in the same memory.
    pub fn from_vec(items: Vec<T>) -> Sequence<T>
        ensures { result ≡ items.items }
    {
        Sequence { items }
    }

    /// The elements as a `Vec`, in the same memory.
    pub fn into_vec(self) -> Vec<T>
        ensures { result.items ≡ self }
    {
        let Sequence { items } = self;
        items
    }

    /// The allocator of its memory.
    pub fn allocator(&self) -> Global {
        *self.items.allocator()
    }

    pub fn as_slice(&self) -> &[T]
        ensures { result.now ≡ self.now }
    {
        self.items.as_slice()
    }

    pub fn len(&self) -> usize
        ensures { result ≡ length self.now }
    {
        self.items.len()
    }

    pub fn is_empty(&self) -> bool
        ensures { IsTrue result ↔ (self.now ≡ []) }
    {
        self.items.is_empty()
    }

    /// The element at a place counted from 0, or `None` past the end.
    pub fn get(&self, at: usize) -> Option<&T>
        ensures value { option_copied result ≡ slice_get self.now at }
        ensures within { OnSome result (at < length self.now) }
    {
        self.items.get(at)
    }

    /// Takes the last element off, where there is one.
    pub fn pop(&mut self) -> Option<T>
        ensures { MatchOption result ((self.old ≡ []) × (self.new ≡ [])) (λ last. self.old ≡ self.new ++ last ∷ []) }
    {
        self.items.pop()
    }
}

impl<T: Drop> Sequence<T> {
    /// Puts an element behind the last one. After `NoMemory` the sequence is as it was, and the element
    /// is gone.
    pub fn push(&mut self, item: T) -> Result<(), NoMemory>
        ensures ok { OnOk result (self.new ≡ self.old ++ item ∷ []) }
        ensures err { OnErr result (self.new ≡ self.old) }
    {
        self.items.push(item)?;
        Ok(())
    }

    /// Puts an element at a place, before the one that stood there. After `NoMemory` the sequence is as
    /// it was, and the element is gone.
    pub fn insert(&mut self, at: usize, item: T) -> Result<(), NoMemory>
        requires { at ≤ length self.old }
        ensures ok { OnOk result (self.new ≡ insert self.old at item) }
        ensures err { OnErr result (self.new ≡ self.old) }
    {
        self.items.insert(at, item)?;
        Ok(())
    }

    /// Takes the element at a place out.
    pub fn remove(&mut self, at: usize) -> T
        requires { at < length self.old }
        ensures item { slice_get self.old at ≡ Some result }
        ensures rest { self.new ≡ remove self.old at }
    {
        self.items.remove(at)
    }

    /// Puts an element in the place of another.
    pub fn set(&mut self, at: usize, item: T)
        requires { at < length self.old }
        ensures { self.new ≡ slice_set self.old at item }
    {
        self.items[at] = item;
    }

    /// Puts an element in the place of another, and gives that one.
    pub fn replace(&mut self, at: usize, item: T) -> T
        requires { at < length self.old }
        ensures item { slice_get self.old at ≡ Some result }
        ensures rest { self.new ≡ slice_set self.old at item }
    {
        let place = &mut self.items[at];
        mem::replace(place, item)
    }

    /// Keeps the first `count` elements.
    pub fn truncate(&mut self, count: usize)
        ensures { self.new ≡ take count self.old }
    {
        self.items.truncate(count);
    }

    /// Moves the elements of `more` behind the last one. After `NoMemory` the sequence is as it was, and
    /// those of `more` are gone.
    pub fn append(&mut self, more: Sequence<T>) -> Result<(), NoMemory>
        ensures ok { OnOk result (self.new ≡ self.old ++ more) }
        ensures err { OnErr result (self.new ≡ self.old) }
    {
        let Sequence { mut items } = more;
        self.items.append(&mut items)?;
        Ok(())
    }
}

impl<T: Copy> Sequence<T> {
    /// A sequence with the elements of a slice.
    pub fn from_slice(alloc: Global, items: &[T]) -> Result<Sequence<T>, NoMemory>
        ensures { IfOk result (λ made. made ≡ items.now) }
    {
        let items = Vec::from_slice(alloc, items)?;
        Ok(Sequence { items })
    }

    /// Puts the elements of a slice behind the last one. After `NoMemory` the sequence is as it was.
    pub fn extend_from_slice(&mut self, more: &[T]) -> Result<(), NoMemory>
        ensures ok { OnOk result (self.new ≡ self.old ++ more.now) }
        ensures err { OnErr result (self.new ≡ self.old) }
    {
        self.items.extend_from_slice(more)?;
        Ok(())
    }
}

impl<T: TryCopy + Drop> TryCopy for Sequence<T> {
    fn copy(&self) -> Result<Sequence<T>, NoMemory> {
        let mut items = Vec::with_capacity(self.allocator(), self.items.len())?;
        for item in &self.items {
            items.push(item.copy()?)?;
        }
        Ok(Sequence { items })
    }
}
