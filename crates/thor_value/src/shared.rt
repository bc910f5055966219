ghost use Rattle.std.specs.Prelude.{◌≡◌, length, IfOk};

use crate::memory::{NoMemory, TryCopy};
use crate::sequence::Sequence;
use std::alloc::Global;
use std::marker::Model;
use std::sync::Arc;

/// A value with several owners, which contracts see as that value. A copy of it is another owner.
#[derive(Debug, Drop)]
pub struct Shared<T> {
    inner: Arc<T>,
}

impl<T> Model for Shared<T> {
    ghost Value = { T };

    ghost coded = { T.code };

    ghost view = { λ s. s.inner.value };
}

impl<T> Shared<T> {
    pub fn get(&self) -> &T
        ensures { result.now ≡ self.now }
    {
        &self.inner
    }

    /// Another owner of the same value. It copies nothing.
    pub fn share(&self) -> Result<Shared<T>, NoMemory>
        ensures { IfOk result (λ other. other ≡ self.now) }
    {
        Ok(Shared {
            inner: Arc::try_clone(&self.inner)?,
        })
    }
}

impl<T: Drop> Shared<T> {
    /// Gives a value its first owner. After `NoMemory` the value is gone.
    pub fn new(alloc: Global, value: T) -> Result<Shared<T>, NoMemory>
        ensures { IfOk result (λ made. made ≡ value) }
    {
        Ok(Shared {
            inner: Arc::new(alloc, value)?,
        })
    }
}

impl<T> Shared<Sequence<T>> {
    /// The elements of a list with several owners.
    pub fn as_slice(&self) -> &[T]
        ensures { result.now ≡ self.now }
    {
        self.get().as_slice()
    }

    pub fn len(&self) -> usize
        ensures { result ≡ length self.now }
    {
        self.get().len()
    }
}

impl<T> TryCopy for Shared<T> {
    fn copy(&self) -> Result<Shared<T>, NoMemory> {
        self.share()
    }
}
