ghost use Rattle.std.specs.Prelude.{◌≡◌, IfOk};

use crate::memory::{NoMemory, TryCopy};
use std::alloc::Global;
use std::marker::Model;

/// A `Box` that contracts see as its value, so that a tree of them is plain data.
#[derive(Debug, Drop)]
pub struct Boxed<T> {
    inner: Box<T>,
}

impl<T> Model for Boxed<T> {
    ghost Value = { T };

    ghost coded = { T.code };

    ghost view = { λ b. b.inner.value };
}

impl<T> Boxed<T> {
    /// The allocator of its memory.
    pub fn allocator(&self) -> Global {
        *Box::allocator(&self.inner)
    }

    pub fn get(&self) -> &T
        ensures { result.now ≡ self.now }
    {
        &self.inner
    }

    pub fn into_inner(self) -> T
        ensures { result ≡ self }
    {
        let Boxed { inner } = self;
        Box::into_inner(inner)
    }
}

impl<T: Drop> Boxed<T> {
    /// Puts a value into memory of its own. After `NoMemory` the value is gone.
    pub fn new(alloc: Global, value: T) -> Result<Boxed<T>, NoMemory>
        ensures { IfOk result (λ made. made ≡ value) }
    {
        Ok(Boxed {
            inner: Box::new(alloc, value)?,
        })
    }
}

impl<T: TryCopy + Drop> TryCopy for Boxed<T> {
    fn copy(&self) -> Result<Boxed<T>, NoMemory> {
        let copied = self.inner.copy()?;
        Boxed::new(self.allocator(), copied)
    }
}
